//! Comparisons of integers, each with the next.
ghost use Rattle.std.specs.Prelude.{◌≡◌, ◌&&◌, int_lt, int_le};
ghost use Rattle.semantics.specs.Tests as t;
ghost use Rattle.builtin_names.specs.Named.{names_in};
ghost use Rattle.builtin_names.specs.Results.{Works};
ghost use Rattle.rows_tests.specs.Chains.{int_of, holds, is_chain, linked};

use builtin_names::{Fault, Vocabulary, truth};
use expr_tree::{Expr, Exprs, Node};

/// What has to hold between an integer and the next.
#[derive(Clone, Copy, Debug, PartialEq, Eq)]
enum Relation {
    Less,
    LessEqual,
    Greater,
    GreaterEqual,
}

fn holds(relation: Relation, a: i128, b: i128) -> bool
    ensures { result ≡ holds relation a b }
{
    match relation {
        Relation::Less => a < b,
        Relation::LessEqual => a <= b,
        Relation::Greater => b < a,
        Relation::GreaterEqual => b <= a,
    }
}

fn int_of(e: &Expr) -> Option<i128>
    ensures { result ≡ int_of e.now }
{
    match e.node() {
        Node::Int(number) => Some(*number),
        _ => None,
    }
}

/// Whether the relation holds between an integer and the one before it, if there is one, and all did before.
fn goes_on(good: bool, relation: Relation, before: Option<i128>, number: i128) -> bool
    ensures { result ≡ (good && linked (holds relation) before number) }
{
    match before {
        Some(before) => good && holds(relation, before, number),
        None => good,
    }
}

/// Whether the relation holds between each integer and the next. `None` where an element is no integer.
#[tactic(auto, using(crate::proofs::Links::chain_steps))]
fn is_chain(relation: Relation, items: &[Expr]) -> Option<bool>
    ensures { result ≡ is_chain (holds relation) items.now }
{
    let mut before = None;
    let mut good = true;
    for item in items {
        let Some(number) = int_of(item) else {
            return None;
        };
        good = goes_on(good, relation, before, number);
        before = Some(number);
    }
    Some(good)
}

fn compared(names: &Vocabulary, relation: Relation, items: &Exprs) -> Result<Option<Expr>, Fault>
    ensures { Works (t.compared (names_in names.now) (holds relation) items.now) result }
{
    match is_chain(relation, items.as_slice()) {
        Some(chain) => Ok(Some(truth(names, chain))),
        None => Ok(None),
    }
}

/// `Less`.
pub fn row_less(names: &Vocabulary, items: &Exprs) -> Result<Option<Expr>, Fault>
    ensures { Works (t.compared (names_in names.now) int_lt items.now) result }
{
    compared(names, Relation::Less, items)
}

/// `LessEqual`.
pub fn row_less_equal(names: &Vocabulary, items: &Exprs) -> Result<Option<Expr>, Fault>
    ensures { Works (t.compared (names_in names.now) int_le items.now) result }
{
    compared(names, Relation::LessEqual, items)
}

/// `Greater`.
pub fn row_greater(names: &Vocabulary, items: &Exprs) -> Result<Option<Expr>, Fault>
    ensures { Works (t.compared (names_in names.now) (λ m n. int_lt n m) items.now) result }
{
    compared(names, Relation::Greater, items)
}

/// `GreaterEqual`.
pub fn row_greater_equal(names: &Vocabulary, items: &Exprs) -> Result<Option<Expr>, Fault>
    ensures { Works (t.compared (names_in names.now) (λ m n. int_le n m) items.now) result }
{
    compared(names, Relation::GreaterEqual, items)
}

//! `Max` and `Min`.
ghost use Rattle.std.specs.Prelude.{◌≡◌, Some, [], ◌∷◌, int_lt};
ghost use Rattle.std.specs.Option.{option_map};
ghost use Rattle.expr_tree.specs.Tree.{trees};
ghost use Rattle.semantics.specs.Numbers as n;
ghost use Rattle.builtin_names.specs.Named.{names_in};
ghost use Rattle.builtin_names.specs.Results.{Works};
ghost use Rattle.rows_numbers.specs.Better.{better, kept};

use builtin_names::{Fault, Vocabulary, is_name};
use expr_tree::{Expr, Exprs, Node};
use semantics::Builtin;

/// Which of some integers is looked for.
#[derive(Clone, Copy, Debug, PartialEq, Eq)]
enum Extreme {
    Greatest,
    Least,
}

/// The better of an integer and the best before it, if there is one.
fn better_of(extreme: Extreme, best: Option<i128>, number: i128) -> i128
    ensures { Some result ≡ kept (better extreme) best (number ∷ []) }
{
    match best {
        Some(best) => match extreme {
            Extreme::Greatest => if best < number { number } else { best },
            Extreme::Least => if number < best { number } else { best },
        },
        None => number,
    }
}

/// The best so far and of the integers of an expression, where a List counts as its elements. `None` where
/// something else stands there.
#[cycle(extreme)]
#[tactic(auto, using(crate::proofs::Kept::kept_steps))]
fn best_in(
    names: &Vocabulary,
    extreme: Extreme,
    best: Option<i128>,
    e: &Expr,
) -> Option<Option<i128>>
    ensures { result ≡ option_map (kept (better extreme) best) (n.integers_in (names_in names.now) e.now) }
{
    match e.node() {
        Node::Int(number) => Some(Some(better_of(extreme, best, *number))),
        Node::Normal(head, items) if is_name(names, Builtin::List, head) => {
            best_of(names, extreme, best, items.as_slice())
        }
        _ => None,
    }
}

#[cycle(extreme)]
#[tactic(auto, using(crate::proofs::Kept::kept_steps))]
fn best_of(
    names: &Vocabulary,
    extreme: Extreme,
    before: Option<i128>,
    items: &[Expr],
) -> Option<Option<i128>>
    ensures { result ≡ option_map (kept (better extreme) before) (n.all_integers (names_in names.now) (trees items.now)) }
{
    let mut best = before;
    for item in items {
        best = best_in(names, extreme, best, item)?;
    }
    Some(best)
}

#[tactic(auto, using(crate::proofs::Kept::extreme_steps))]
fn row_extreme(names: &Vocabulary, extreme: Extreme, items: &Exprs) -> Result<Option<Expr>, Fault>
    ensures { Works (n.extreme (names_in names.now) (better extreme) items.now) result }
{
    match best_of(names, extreme, None, items.as_slice()) {
        Some(Some(best)) => Ok(Some(Expr::int(best))),
        _ => Ok(None),
    }
}

/// `Max`. That of no integers stays.
pub fn row_max(names: &Vocabulary, items: &Exprs) -> Result<Option<Expr>, Fault>
    ensures { Works (n.extreme (names_in names.now) (λ m k. int_lt k m) items.now) result }
{
    row_extreme(names, Extreme::Greatest, items)
}

/// `Min`. That of no integers stays.
pub fn row_min(names: &Vocabulary, items: &Exprs) -> Result<Option<Expr>, Fault>
    ensures { Works (n.extreme (names_in names.now) int_lt items.now) result }
{
    row_extreme(names, Extreme::Least, items)
}

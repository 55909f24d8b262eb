//! Expressions with the name of a row as their head, or as all of them.
ghost use Rattle.std.specs.Prelude.{◌≡◌, ◌↔◌, true, IsTrue, MatchOption};
ghost use Rattle.expr_tree.specs.Tree.{trees};
ghost use Rattle.expr_tree.specs.Limits.{Assembles};
ghost use Rattle.semantics.specs.Names as n;
ghost use Rattle.builtin_names.specs.Named.{names_in};

use crate::symbols::{is_known, symbol_for};
use crate::vocabulary::Vocabulary;
use expr_tree::{Built, Expr, Exprs, Node};
use semantics::Builtin;
use std::alloc::Global;

/// The symbol of a row as an expression.
pub fn name(names: &Vocabulary, row: Builtin) -> Expr
    ensures { result ≡ n.name (names_in names.now) row }
{
    Expr::symbol(symbol_for(names, row))
}

/// `True` or `False`.
pub fn truth(names: &Vocabulary, value: bool) -> Expr
    ensures { result ≡ n.truth (names_in names.now) value }
{
    if value {
        name(names, Builtin::True)
    } else {
        name(names, Builtin::False)
    }
}

/// Whether an expression is the symbol of a row.
pub fn is_name(names: &Vocabulary, row: Builtin, e: &Expr) -> bool
    ensures { result ≡ n.is_name (names_in names.now) row e.now }
{
    match e.node() {
        Node::Symbol(symbol) => is_known(names, row, *symbol),
        _ => false,
    }
}

/// Whether an expression has the symbol of a row as its head.
pub fn is_call(names: &Vocabulary, row: Builtin, e: &Expr) -> bool
    ensures { result ≡ n.is_call (names_in names.now) row e.now }
{
    match e.node() {
        Node::Normal(head, _) => is_name(names, row, head),
        _ => false,
    }
}

/// The elements of an expression. An atom has none.
#[tactic(auto, using(expr_tree::proofs::Callers::tree_steps))]
pub fn items_of(e: &Expr) -> &[Expr]
    ensures { result.now ≡ n.items_of e.now }
{
    match e.node() {
        Node::Normal(_, items) => items.as_slice(),
        _ => &[],
    }
}

/// The elements of an expression whose head is the symbol of a row.
#[tactic(auto, using(expr_tree::proofs::Callers::tree_steps))]
pub fn items_under<'a>(names: &Vocabulary, row: Builtin, e: &'a Expr) -> Option<&'a Exprs>
    ensures { MatchOption result (IsTrue (n.is_call (names_in names.now) row e.now) → ⊥) (λ items. IsTrue (n.is_call (names_in names.now) row e.now) × (items.now ≡ n.items_of e.now)) }
{
    match e.node() {
        Node::Normal(head, items) if is_name(names, row, head) => Some(items),
        _ => None,
    }
}

/// The expression with the symbol of a row as its head, which an `Err` drops.
pub fn make(alloc: Global, names: &Vocabulary, row: Builtin, items: Exprs) -> Result<Expr, Built>
    ensures { Assembles (n.make (names_in names.now) row items) result }
{
    Expr::normal(alloc, name(names, row), items)
}

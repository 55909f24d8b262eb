//! Which expressions have a name whose row is not built.
ghost use Rattle.std.specs.Prelude.{◌≡◌};
ghost use Rattle.expr_tree.specs.Tree.{trees};
ghost use Rattle.builtin_names.specs.Named.{names_in};
ghost use Rattle.row_kinds.specs.Kinds.{is_unbuilt_kind};
ghost use Rattle.sequential_transcript.specs.Unbuilt.{is_unbuilt, names_unbuilt, has_unbuilt, have_unbuilt};

use builtin_names::{Vocabulary, role_of};
use expr_tree::{Expr, Node, Sym};
use row_kinds::{Kind, kind_of};
use semantics::Builtin;

/// Whether the rows of a kind go outward, or ask which kernel evaluates them.
fn is_unbuilt_kind(kind: Kind) -> bool
    ensures { result ≡ is_unbuilt_kind kind }
{
    match kind {
        Kind::Outward | Kind::KernelName => true,
        Kind::Plain
        | Kind::Numbers
        | Kind::Tests
        | Kind::Lists
        | Kind::Parts
        | Kind::Strings
        | Kind::Form
        | Kind::Iteration
        | Kind::Change
        | Kind::Matching
        | Kind::Replacing => false,
    }
}

/// Whether a row is not built.
fn is_unbuilt(row: Builtin) -> bool
    ensures { result ≡ is_unbuilt row }
{
    match row {
        Builtin::Throw | Builtin::Catch => false,
        _ => is_unbuilt_kind(kind_of(row)),
    }
}

fn names_unbuilt(names: &Vocabulary, symbol: Sym) -> bool
    ensures { result ≡ names_unbuilt (names_in names.now) symbol }
{
    match role_of(names, symbol) {
        Some(row) => is_unbuilt(row),
        None => false,
    }
}

/// Whether the name of a row that is not built stands in an expression.
#[cycle(unbuilt)]
#[tactic(auto, using(expr_tree::proofs::Callers::tree_steps))]
pub(crate) fn has_unbuilt(names: &Vocabulary, e: &Expr) -> bool
    ensures { result ≡ has_unbuilt (names_in names.now) e.now }
{
    match e.node() {
        Node::Int(_) => false,
        Node::Str(_) => false,
        Node::Symbol(symbol) => names_unbuilt(names, *symbol),
        Node::Normal(head, items) => {
            has_unbuilt(names, head) || have_unbuilt(names, items.as_slice())
        }
    }
}

#[cycle(unbuilt)]
#[tactic(auto, using(expr_tree::proofs::Callers::tree_steps))]
fn have_unbuilt(names: &Vocabulary, items: &[Expr]) -> bool
    ensures { result ≡ have_unbuilt (names_in names.now) (trees items.now) }
{
    for item in items {
        if has_unbuilt(names, item) {
            return true;
        }
    }
    false
}

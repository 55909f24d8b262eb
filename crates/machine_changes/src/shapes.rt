//! Shapes of expressions.
ghost use Rattle.std.specs.Prelude.{◌≡◌};
ghost use Rattle.machine_changes.specs.Shapes.{symbol_in};

use expr_tree::{Expr, Node, Sym};

/// The symbol that an expression is.
pub(crate) fn symbol_in(e: &Expr) -> Option<Sym>
    ensures { result ≡ symbol_in e.now }
{
    match e.node() {
        Node::Symbol(symbol) => Some(*symbol),
        Node::Int(_) | Node::Str(_) | Node::Normal(_, _) => None,
    }
}

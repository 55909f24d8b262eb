//! What a machine does next.
use crate::locals::Locals;
use expr_tree::Expr;
use substitution::Bindings;

/// What a machine does next.
#[derive(Drop)]
pub enum ScopeMove {
    /// Asks for the value of an expression, evaluated one deeper.
    Ask(Expr),
    /// The same with the definitions of the locals put by, their values given, and all put back.
    Within(Locals, Expr),
    /// The locals get their values for good. Then the result is an expression with runs put in place.
    Make(Locals, Bindings, Expr),
    /// The result is an expression with runs put in place.
    Place(Bindings, Expr),
    /// The result.
    Done(Expr),
}

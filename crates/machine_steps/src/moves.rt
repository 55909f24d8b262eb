//! What a machine does next.
use crate::outward::Request;
use expr_tree::{Expr, Syms};
use frames_scope::Locals;

/// What a machine does next. A truth value says that a question begins a turn.
#[derive(Drop)]
pub enum Move {
    /// Asks for the value of an expression, evaluated one deeper.
    Ask(Expr, bool),
    /// The same with the definitions of the locals put by, their values given, and all put back.
    Within(Locals, Expr, bool),
    /// Asks for the value of an expression, or for what it throws.
    Catch(Expr),
    /// Asks for the value of an expression in a section with these locks.
    Section(Syms, Expr),
    /// Asks for the reply to a call.
    Call(Request),
    /// Begins a turn, and goes on without an answer.
    Turn,
    /// The result.
    Done(Expr),
    /// The expression stays as it is.
    Stays,
    /// Throws a value.
    Throw(Expr),
    /// The end of the kernel.
    Quit,
}

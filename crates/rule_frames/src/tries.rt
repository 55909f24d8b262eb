//! What a trial of rules does next.
use expr_tree::Expr;
use substitution::Bindings;

/// What a trial of rules does next.
#[derive(Drop)]
pub enum Try {
    /// Asks for the value of a guard, evaluated one deeper. The truth value says that this begins a turn.
    Guard(Expr, bool),
    /// A rule applies: the result is an expression with runs put in place.
    Found(Bindings, Expr),
    /// No rule applies.
    Fails,
}

//! Machines that the evaluator performs.
use expr_tree::Expr;
use machine_rows::Machine;

/// How a step begins.
#[derive(Drop)]
pub(crate) enum Start {
    /// Its result, or none.
    Given(Option<Expr>),
    /// A machine that gives its result, or none.
    Machine(Machine),
}

/// What came of a move of a machine.
#[derive(Drop)]
pub(crate) enum Followed {
    /// It goes on with this answer.
    Goes(Option<Expr>),
    /// Its result, or none.
    Ends(Option<Expr>),
}

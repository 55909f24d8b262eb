//! What an evaluation asks of the outside, and what it is answered.
use expr_tree::{Expr, Stop, Syms, Text};

/// What a machine asks of the outside.
#[derive(Drop)]
pub enum Request {
    /// The number of kernels.
    Count,
    Print(Text),
    /// A form of the mode table.
    Outside(Expr),
}

/// What an evaluation asks of the outside. Accesses and sections are the evaluator's own.
#[derive(Drop)]
pub enum Want {
    Sends(Request),
    /// An access of a shared symbol.
    Access(Expr),
    /// A section with these locks begins.
    Enter(Syms),
    /// It ends.
    Leave,
}

/// What the outside replies.
#[derive(Drop)]
pub enum Answer {
    Value(Expr),
    Stopped(Stop),
    Closed,
    NoMemory,
}

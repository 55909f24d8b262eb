//! What a machine does next.
ghost use Rattle.std.specs.Prelude.{◌≡◌, Option, Some};
ghost use Rattle.expr_tree.specs.Tree.{Tree};
ghost use Rattle.semantics.specs.Program.{Prog};
ghost use Rattle.semantics.specs.Control.{applied};
ghost use Rattle.evaluation_steps.specs.Stopping.{AreBounded};
ghost use Rattle.evaluation_steps.specs.Moves.{Moved};
ghost use Rattle.frames_control.specs.ControlMoves.{moving};

use evaluation_steps::{Halt, checked};
use expr_tree::{Expr, Exprs, Limits, Sym};
use std::alloc::Global;

/// A symbol with the value that it has while an expression is evaluated.
#[derive(Drop)]
pub struct Local {
    pub symbol: Sym,
    pub value: Expr,
}

/// What a machine does next. The truth value says that the question begins a turn.
#[derive(Drop)]
pub enum ControlMove {
    /// Asks for the value of an expression, evaluated one deeper.
    Ask(Expr, bool),
    /// The same with the definition of a symbol put by, if there is one, and put back.
    Local(Option<Local>, Expr, bool),
    /// Goes on without an answer, unless the symbol is shared; where it is, the expression is the result.
    Unless(Sym, Expr),
    /// The result.
    Done(Expr),
    /// The result by its head and its elements.
    Build(Expr, Exprs),
}

/// Asks for the value of a function at some elements, as a turn.
pub(crate) fn apply(
    alloc: Global,
    limits: &Limits,
    function: &Expr,
    items: Exprs,
) -> Result<ControlMove, Halt>
    requires bounded { AreBounded limits.now }
    ensures { (rest : Option Tree → Prog) → Moved limits.now (applied function.now items (λ v. rest (Some v))) (moving result) rest }
{
    let head = function.copy(alloc)?;
    match checked(alloc, limits, head, items) {
        Ok(question) => Ok(ControlMove::Ask(question, true)),
        Err(halt) => Err(halt),
    }
}

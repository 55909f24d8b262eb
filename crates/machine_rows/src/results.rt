//! Results that are made, and whether a symbol is shared.
ghost use Rattle.std.specs.Prelude.{◌≡◌};
ghost use Rattle.semantics.specs.InPlace.{put_in_place};
ghost use Rattle.evaluation_steps.specs.Stopping.{Checked};
ghost use Rattle.builtin_names.specs.Named.{names_in};
ghost use Rattle.machine_rows.specs.StepResults.{done_of, is_shared};

use evaluation_steps::Halt;
use expr_tree::{Expr, Sym};
use machine_steps::{Move, Scene};
use shared_calls::Shared;
use substitution::Bindings;

/// An expression with runs put in place, where it is within the limits.
pub(crate) fn placed(scene: &Scene, bindings: &Bindings, e: &Expr) -> Result<Expr, Halt>
    ensures { Checked scene.now.limits (put_in_place (names_in scene.now.names.now) bindings.now e.now) result }
{
    made_exprs::placed(scene.alloc, scene.names, &scene.limits, bindings, e)
}

/// The result, where it was made.
pub(crate) fn result_move(made: Result<Expr, Halt>) -> Result<Move, Halt>
    ensures { result ≡ done_of made }
{
    match made {
        Ok(e) => Ok(Move::Done(e)),
        Err(halt) => Err(halt),
    }
}

/// Whether a symbol is shared.
pub(crate) fn is_shared(shared: &Shared, symbol: Sym) -> bool
    ensures { result ≡ is_shared shared.now symbol }
{
    shared.find(symbol).is_some()
}

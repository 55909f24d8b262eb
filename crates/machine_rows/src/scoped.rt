//! Moves of Module, Block and With over the definitions.
ghost use Rattle.std.specs.Prelude.{◌≡◌, Bool, IfOk, OnOk, Option};
ghost use Rattle.expr_tree.specs.Tree.{Tree};
ghost use Rattle.semantics.specs.Program.{Prog};
ghost use Rattle.evaluation_steps.specs.Moves.{Moved};
ghost use Rattle.builtin_names.specs.Named.{names_in};
ghost use Rattle.machine_steps.specs.Setup.{setting_of};
ghost use Rattle.machine_steps.specs.Steps.{Falls, Stepped};
ghost use Rattle.frames_scope.specs.ScopeMoves.{moving};
ghost use Rattle.frames_scope.specs.Reading.{locals_in};
ghost use Rattle.machine_rows.specs.Asking.{asks, IsSteady};
ghost use Rattle.machine_rows.specs.StepResults.{made_all};

use crate::results::{placed, result_move};
use evaluation_steps::Halt;
use expr_tree::Expr;
use frames_scope::{Locals, ScopeMove};
use kernel_defs::Defs;
use machine_steps::{Move, Scene};
use std::alloc::{AllocError, Global};

fn value_copied(alloc: Global, value: &Option<Expr>) -> Result<Option<Expr>, AllocError>
    ensures { IfOk result (λ copy. copy ≡ value.now) }
{
    match value {
        Some(e) => Ok(Some(e.copy(alloc)?)),
        None => Ok(None),
    }
}

/// Gives symbols these values, or none, and nothing else.
fn make_all(scene: &Scene, defs: &mut Defs, locals: &Locals) -> Result<(), AllocError>
    ensures { OnOk result (defs.new ≡ made_all (names_in scene.now.names.now) (locals_in locals.now) defs.old) }
{
    for local in locals.as_slice() {
        let value = value_copied(scene.alloc, &local.value)?;
        defs.make(scene.alloc, scene.names, local.symbol, value)?;
    }
    Ok(())
}

/// A move with what it makes: symbols and the result.
pub(crate) fn scope_move(
    scene: &Scene,
    defs: &mut Defs,
    moved: Result<ScopeMove, AllocError>,
) -> Result<Move, Halt>
    ensures stepped { (p stay : Prog) (used : Bool) (rest : Option Tree → Prog) → Moved scene.now.limits p (moving (names_in scene.now.names.now) moved) rest → Stepped (setting_of scene.now) p stay defs.old used result rest defs.new used }
    ensures falls { (p : Prog) (rest : Option Tree → Prog) → Moved scene.now.limits p (moving (names_in scene.now.names.now) moved) rest → IsSteady rest → Falls result (asks p) (λ v. asks (rest v)) }
{
    match moved {
        Ok(ScopeMove::Ask(e)) => Ok(Move::Ask(e, false)),
        Ok(ScopeMove::Within(locals, e)) => Ok(Move::Within(locals, e, false)),
        Ok(ScopeMove::Make(locals, bindings, e)) => {
            make_all(scene, defs, &locals)?;
            result_move(placed(scene, &bindings, &e))
        }
        Ok(ScopeMove::Place(bindings, e)) => result_move(placed(scene, &bindings, &e)),
        Ok(ScopeMove::Done(e)) => Ok(Move::Done(e)),
        Err(_) => Err(Halt::NoMemory),
    }
}

//! Trials of rules over the definitions.
ghost use Rattle.std.specs.Prelude.{◌≡◌, Bool};
ghost use Rattle.semantics.specs.Program.{Prog};
ghost use Rattle.builtin_names.specs.Named.{names_in};
ghost use Rattle.machine_steps.specs.Setup.{setting_of};
ghost use Rattle.machine_steps.specs.Steps.{Falls, Stepped};
ghost use Rattle.rule_frames.specs.Questions as q;
ghost use Rattle.machine_rows.specs.RowsLeft.{left_rules};

use crate::results::{placed, result_move};
use evaluation_steps::Halt;
use expr_tree::Expr;
use kernel_defs::Defs;
use machine_steps::{DefAttrs, Move, Scene};
use rule_frames::{Attempt, Try};

/// Goes on with the trial, by the attributes that symbols have now.
pub(crate) fn step_rules(
    attempt: &mut Attempt,
    scene: &Scene,
    defs: &Defs,
    answer: Option<Expr>,
) -> Result<Move, Halt>
    ensures stepped { (stay : Prog) (used : Bool) → Stepped (setting_of scene.now) (left_rules (names_in scene.now.names.now) attempt.old stay answer) stay defs.now used result (left_rules (names_in scene.now.names.now) attempt.new stay) defs.now used }
    ensures falls { Falls result (q.questions (names_in scene.now.names.now) attempt.old answer) (q.questions (names_in scene.now.names.now) attempt.new) }
{
    let attrs = DefAttrs {
        defs,
        names: scene.names,
    };
    match attempt.step(scene.alloc, scene.names, &scene.limits, &attrs, answer) {
        Ok(Try::Guard(e, turn)) => Ok(Move::Ask(e, turn)),
        Ok(Try::Found(bindings, e)) => result_move(placed(scene, &bindings, &e)),
        Ok(Try::Fails) => Ok(Move::Stays),
        Err(halt) => Err(halt),
    }
}

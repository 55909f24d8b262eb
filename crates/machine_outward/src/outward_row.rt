//! The rows that throw, catch or are those of the mode table, as one machine.
ghost use Rattle.std.specs.Prelude.{◌≡◌, Some};
ghost use Rattle.semantics.specs.Program.{Prog};
ghost use Rattle.builtin_names.specs.Named.{names_in};
ghost use Rattle.machine_steps.specs.Setup.{setting_of};
ghost use Rattle.machine_steps.specs.Steps.{Falls, Stepped};
ghost use Rattle.machine_outward.specs.OutwardLeft.{left, questions};
ghost use Rattle.machine_outward.specs.declared.outward_row.OutwardRow.{OutwardRow as R};

use crate::combine::Combine;
use crate::once::{Once, Reply};
use crate::parallel_loop::ParallelLoop;
use crate::success::Success;
use evaluation_steps::Halt;
use expr_tree::Expr;
use kernel_defs::Defs;
use machine_steps::{Move, Scene};

/// A row that is being evaluated.
#[derive(Drop)]
pub enum OutwardRow {
    Once(Once),
    Combine(Combine),
    Success(Success),
    Loop(ParallelLoop),
}

impl OutwardRow {
    /// The row of one move, whose answer gives the result.
    pub(crate) fn once(next: Move, reply: Reply) -> OutwardRow
        ensures { result ≡ R.Once (record { next = Some next; reply = reply }) }
    {
        OutwardRow::Once(Once {
            next: Some(next),
            reply,
        })
    }

    /// The next question, the call, or the result.
    pub fn step(
        &mut self,
        scene: &Scene,
        defs: &mut Defs,
        used: &mut bool,
        answer: Option<Expr>,
    ) -> Result<Move, Halt>
        ensures stepped { (stay : Prog) → Stepped (setting_of scene.now) (left (names_in scene.now.names.now) self.old stay answer) stay defs.old used.old result (left (names_in scene.now.names.now) self.new stay) defs.new used.new }
        ensures falls { Falls result (questions self.old) (λ _. questions self.new) }
    {
        match self {
            OutwardRow::Once(once) => Ok(once.step(scene, answer)),
            OutwardRow::Combine(combine) => combine.step(scene, defs),
            OutwardRow::Success(success) => success.step(scene, answer),
            OutwardRow::Loop(form) => form.step(scene, defs, used, answer),
        }
    }
}

//! ReplaceRepeated as a machine whose moves are counted.
ghost use Rattle.std.specs.Prelude.{◌≡◌, IfOk};
ghost use Rattle.builtin_names.specs.Named.{names_in};
ghost use Rattle.machine_steps.specs.Steps.{Falls};
ghost use Rattle.machine_rules.specs.Stepping.{Goes};
ghost use Rattle.machine_rules.specs.Rounds.{left_rounds, rounds_over};

use crate::rounds::Rounds;
use evaluation_steps::Halt;
use expr_tree::Expr;
use item_list::Items;
use kernel_defs::Defs;
use machine_steps::{Move, Scene};
use rule_store::Rule;
use std::alloc::{AllocError, Global};

/// Rounds, and how many moves they may still make. How many guards a round tries is not known before the value with which it begins, so no
/// number of rounds bounds them. The limit of steps ends every evaluation long before: each binding with guards is a step.
#[derive(Drop)]
pub struct Repeated {
    pub(crate) rounds: Rounds,
    pub(crate) moves: u64,
}

impl Repeated {
    /// The rounds before the first one.
    pub(crate) fn start(
        alloc: Global,
        rules: Items<Rule>,
        subject: &Expr,
    ) -> Result<Repeated, AllocError>
        ensures { IfOk result (λ r. r.rounds ≡ rounds_over rules subject.now) }
    {
        Ok(Repeated {
            rounds: Rounds::start(alloc, rules, subject)?,
            moves: u64::MAX,
        })
    }

    /// Goes on with the answer to its question, or from the start.
    pub(crate) fn step(
        &mut self,
        scene: &Scene,
        defs: &Defs,
        answer: Option<Expr>,
    ) -> Result<Move, Halt>
        ensures goes { Goes (names_in scene.now.names.now) defs.now scene.now.limits (left_rounds (names_in scene.now.names.now) self.old.rounds answer) result (left_rounds (names_in scene.now.names.now) self.new.rounds) }
        ensures falls { Falls result self.old.moves (λ v. self.new.moves) }
    {
        if self.moves == 0 {
            return Err(Halt::NoMemory);
        }
        self.moves -= 1;
        self.rounds.step(scene, defs, answer)
    }
}

//! ReplaceRepeated: rounds of replacing, until one changes nothing.
ghost use Rattle.std.specs.Prelude.{◌≡◌, IfOk, unwrap_or};
ghost use Rattle.expr_tree.specs.declared.limits.Limits as l;
ghost use Rattle.semantics.specs.Definitions.{Definitions};
ghost use Rattle.semantics.specs.Names as n;
ghost use Rattle.semantics.specs.Replace as replace;
ghost use Rattle.builtin_names.specs.Named.{names_in};
ghost use Rattle.machine_rules.specs.Stepping.{Goes};
ghost use Rattle.machine_rules.specs.Rounds.{left_rounds, round_end, rounds_over};

use crate::walk::{Walk, Walked};
use evaluation_steps::Halt;
use expr_tree::{Expr, Stop};
use item_list::Items;
use kernel_defs::Defs;
use machine_steps::{Move, Scene};
use made_exprs::Formed;
use rule_store::Rule;
use std::alloc::{AllocError, Global};

/// How many rounds may follow the first one.
const ROUNDS_AFTER_FIRST: u32 = 4095;

/// A round that is to begin or has begun.
#[derive(Drop)]
pub struct Rounds {
    pub(crate) walk: Walk,
    /// The expression with which the round begins.
    pub(crate) subject: Expr,
    /// How many rounds may follow.
    pub(crate) further: u32,
    pub(crate) begun: bool,
}

impl Rounds {
    /// The rounds before the first one.
    pub(crate) fn start(
        alloc: Global,
        rules: Items<Rule>,
        subject: &Expr,
    ) -> Result<Rounds, AllocError>
        ensures { IfOk result (λ r. r ≡ rounds_over rules subject.now) }
    {
        Ok(Rounds {
            walk: Walk::start(alloc, rules, subject.copy(alloc)?),
            subject: subject.copy(alloc)?,
            further: ROUNDS_AFTER_FIRST,
            begun: false,
        })
    }

    /// Begins a round.
    fn begin(&mut self, alloc: Global) -> Result<Move, Halt>
        ensures { (names : n.Names) (d : Definitions) (limits : l.Limits) → Goes names d limits (replace.rounds names self.old.walk.rules self.old.further self.old.subject) result (left_rounds names self.new) }
    {
        let place = self.subject.copy(alloc)?;
        self.walk.restart(alloc, place);
        self.begun = true;
        Ok(Move::Turn)
    }

    /// Begins a round with the value of what the round before it made, or the first one.
    fn begin_with(&mut self, alloc: Global, value: Option<Expr>) -> Result<Move, Halt>
        ensures { (names : n.Names) (d : Definitions) (limits : l.Limits) → Goes names d limits (replace.rounds names self.old.walk.rules self.old.further (unwrap_or value self.old.subject)) result (left_rounds names self.new) }
    {
        match value {
            None => self.begin(alloc),
            Some(value) => {
                self.subject = value;
                self.begin(alloc)
            }
        }
    }

    /// The end of a round, by its result.
    fn end(&mut self, scene: &Scene, whole: Formed) -> Result<Move, Halt>
        ensures { (d : Definitions) → Goes (names_in scene.now.names.now) d scene.now.limits (round_end (names_in scene.now.names.now) self.old.walk.rules self.old.further self.old.subject whole) result (left_rounds (names_in scene.now.names.now) self.new) }
    {
        let result = match whole.judged(&scene.limits) {
            Ok(result) => result,
            Err(stop) => return Err(Halt::Stopped(stop)),
        };
        if result.equals(&self.subject) {
            return Ok(Move::Done(result));
        }
        if self.further == 0 {
            return Err(Halt::Stopped(Stop::Iteration));
        }
        self.further -= 1;
        self.begun = false;
        Ok(Move::Ask(result, false))
    }

    /// Goes on with the answer to its question, or from the start.
    pub(crate) fn step(
        &mut self,
        scene: &Scene,
        defs: &Defs,
        answer: Option<Expr>,
    ) -> Result<Move, Halt>
        ensures { Goes (names_in scene.now.names.now) defs.now scene.now.limits (left_rounds (names_in scene.now.names.now) self.old answer) result (left_rounds (names_in scene.now.names.now) self.new) }
    {
        if !self.begun {
            return self.begin_with(scene.alloc, answer);
        }
        match self.walk.step(scene, defs, answer) {
            Ok(Walked::Ask(question, turn)) => Ok(Move::Ask(question, turn)),
            Ok(Walked::Whole(whole)) => self.end(scene, whole),
            Err(halt) => Err(halt),
        }
    }
}

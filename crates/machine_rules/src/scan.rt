//! Rules tried on expressions in turn.
ghost use Rattle.std.specs.Prelude.{◌≡◌};
ghost use Rattle.semantics.specs.Definitions.{Definitions};
ghost use Rattle.semantics.specs.Program.{Done};
ghost use Rattle.builtin_names.specs.Named.{names_in};
ghost use Rattle.rule_frames.specs.Trials as trials;
ghost use Rattle.rule_frames.specs.Rules.{rules_left};
ghost use Rattle.machine_rules.specs.Stepping.{Goes, GoesOn};
ghost use Rattle.machine_rules.specs.Scans.{after, ending, left_scan, rest_of_scan};

use crate::tally::Tally;
use evaluation_steps::Halt;
use expr_tree::Expr;
use frames_control::Stack;
use kernel_defs::Defs;
use machine_steps::{DefAttrs, Move, Scene};
use rule_frames::{Attempt, Try};
use rule_store::Rules;
use std::mem;

/// An expression on which rules are being tried.
#[derive(Drop)]
pub struct Present {
    subject: Expr,
    attempt: Attempt,
}

/// Rules, the expressions that are left, the trial of the one before them, and what is known of those before.
#[derive(Drop)]
pub struct Scan {
    pub(crate) rules: Rules,
    pub(crate) tally: Tally,
    pub(crate) rest: Stack,
    pub(crate) present: Option<Present>,
}

impl Scan {
    /// Goes on with a trial.
    fn pursue(
        &mut self,
        scene: &Scene,
        defs: &Defs,
        subject: Expr,
        mut attempt: Attempt,
        answer: Option<Expr>,
    ) -> Result<Option<Move>, Halt>
        ensures goes { GoesOn (names_in scene.now.names.now) defs.now scene.now.limits (trials.left (names_in scene.now.names.now) attempt answer (after (names_in scene.now.names.now) self.old.rules self.old.tally subject self.old.rest)) result (left_scan (names_in scene.now.names.now) self.new) (rest_of_scan (names_in scene.now.names.now) self.new) }
        ensures rest { self.new.rest ≡ self.old.rest }
    {
        let attrs = DefAttrs {
            defs,
            names: scene.names,
        };
        match attempt.step(scene.alloc, scene.names, &scene.limits, &attrs, answer) {
            Ok(Try::Guard(question, turn)) => {
                self.present = Some(Present { subject, attempt });
                Ok(Some(Move::Ask(question, turn)))
            }
            Ok(Try::Found(bindings, right)) => {
                match self
                    .tally
                    .take(scene.alloc, scene.names, subject, bindings, right)
                {
                    Ok(Some(result)) => Ok(Some(Move::Done(result))),
                    Ok(None) => Ok(None),
                    Err(_) => Err(Halt::NoMemory),
                }
            }
            Ok(Try::Fails) => Ok(None),
            Err(halt) => Err(halt),
        }
    }

    /// Begins with an expression that was taken off.
    fn begin(&mut self, scene: &Scene, defs: &Defs, subject: Expr) -> Result<Option<Move>, Halt>
        ensures goes { GoesOn (names_in scene.now.names.now) defs.now scene.now.limits (rules_left (names_in scene.now.names.now) self.old.rules subject (after (names_in scene.now.names.now) self.old.rules self.old.tally subject self.old.rest)) result (left_scan (names_in scene.now.names.now) self.new) (rest_of_scan (names_in scene.now.names.now) self.new) }
        ensures rest { self.new.rest ≡ self.old.rest }
    {
        let attempt = Attempt::start(scene.alloc, &self.rules, &subject)?;
        self.pursue(scene, defs, subject, attempt, None)
    }

    /// Goes on with the trial, if there is one.
    fn go_on(
        &mut self,
        scene: &Scene,
        defs: &Defs,
        answer: Option<Expr>,
    ) -> Result<Option<Move>, Halt>
        ensures { GoesOn (names_in scene.now.names.now) defs.now scene.now.limits (left_scan (names_in scene.now.names.now) self.old answer) result (left_scan (names_in scene.now.names.now) self.new) (rest_of_scan (names_in scene.now.names.now) self.new) }
    {
        match self.present.take() {
            Some(present) => {
                let Present { subject, attempt } = present;
                self.pursue(scene, defs, subject, attempt, answer)
            }
            None => Ok(None),
        }
    }

    /// Makes the result, once no expression is left.
    fn finish(&mut self, scene: &Scene) -> Result<Move, Halt>
        ensures { (d : Definitions) → Goes (names_in scene.now.names.now) d scene.now.limits (Done (ending (names_in scene.now.names.now) self.old.tally)) result (left_scan (names_in scene.now.names.now) self.new) }
    {
        let tally = mem::replace(&mut self.tally, Tally::Counts(0));
        match tally.finish(scene) {
            Ok(result) => Ok(Move::Done(result)),
            Err(halt) => Err(halt),
        }
    }

    /// Goes on with the expressions that are left.
    fn go_over(&mut self, scene: &Scene, defs: &Defs) -> Result<Move, Halt>
        ensures { Goes (names_in scene.now.names.now) defs.now scene.now.limits (rest_of_scan (names_in scene.now.names.now) self.old) result (left_scan (names_in scene.now.names.now) self.new) }
    {
        while let Some(subject) = self.rest.pop() {
            match self.begin(scene, defs, subject) {
                Ok(Some(next)) => return Ok(next),
                Ok(None) => {}
                Err(halt) => return Err(halt),
            }
        }
        self.finish(scene)
    }

    pub(crate) fn step(
        &mut self,
        scene: &Scene,
        defs: &Defs,
        answer: Option<Expr>,
    ) -> Result<Move, Halt>
        ensures { Goes (names_in scene.now.names.now) defs.now scene.now.limits (left_scan (names_in scene.now.names.now) self.old answer) result (left_scan (names_in scene.now.names.now) self.new) }
    {
        match self.go_on(scene, defs, answer) {
            Ok(Some(next)) => Ok(next),
            Ok(None) => self.go_over(scene, defs),
            Err(halt) => Err(halt),
        }
    }
}

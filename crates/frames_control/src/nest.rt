//! Nest: a function applied again and again.
ghost use Rattle.std.specs.Prelude.{◌≡◌, ◌<◌};
ghost use Rattle.semantics.specs.Program.{Prog, Done};
ghost use Rattle.semantics.specs.Control.{nest, nested};
ghost use Rattle.evaluation_steps.specs.Moves.{Moved};
ghost use Rattle.evaluation_steps.specs.Stopping.{AreBounded};
ghost use Rattle.builtin_names.specs.Named.{names_in};
ghost use Rattle.frames_control.specs.ControlLeft.{left};
ghost use Rattle.frames_control.specs.ControlMoves.{moving, IfAsks, Starts};
ghost use Rattle.frames_control.specs.TurnForms.{left_nest};

use crate::control::Control;
use crate::countdown::{Countdown, turns_of};
use crate::moves::{ControlMove, apply};
use builtin_names::Vocabulary;
use evaluation_steps::Halt;
use expr_lists::one;
use expr_tree::{Expr, Limits};
use std::alloc::{AllocError, Global};

/// The function, what it is applied to first, and how often it is still to be applied.
#[derive(Drop)]
pub struct Nest {
    function: Expr,
    first: Expr,
    turns: Countdown,
}

impl Nest {
    pub fn start(
        alloc: Global,
        names: &Vocabulary,
        items: &[Expr],
    ) -> Result<Option<Control>, AllocError>
        ensures { (stay : Prog) → Starts (left (names_in names.now)) (nest stay items.now) stay result }
    {
        if items.len() != 3 {
            return Ok(None);
        }
        let Some(turns) = turns_of(&items[2]) else {
            return Ok(None);
        };
        Ok(Some(Control::Nest(Nest {
            function: items[0].copy(alloc)?,
            first: items[1].copy(alloc)?,
            turns,
        })))
    }

    fn turn(&mut self, alloc: Global, limits: &Limits, value: Expr) -> Result<ControlMove, Halt>
        requires bounded { AreBounded limits.now }
        ensures moved { Moved limits.now (nested self.old.function self.old.turns value Done) (moving result) (left_nest self.new) }
        ensures falls { IfAsks result (self.new.turns < self.old.turns) }
    {
        if !self.turns.take() {
            return Ok(ControlMove::Done(value));
        }
        apply(alloc, limits, &self.function, one(alloc, value)?)
    }

    pub fn step(
        &mut self,
        alloc: Global,
        limits: &Limits,
        answer: Option<Expr>,
    ) -> Result<ControlMove, Halt>
        requires bounded { AreBounded limits.now }
        ensures moved { Moved limits.now (left_nest self.old answer) (moving result) (left_nest self.new) }
        ensures falls { IfAsks result (self.new.turns < self.old.turns) }
    {
        match answer {
            Some(value) => self.turn(alloc, limits, value),
            None => {
                let first = self.first.copy(alloc)?;
                self.turn(alloc, limits, first)
            }
        }
    }
}

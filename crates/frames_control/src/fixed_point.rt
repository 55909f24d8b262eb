//! FixedPoint: a function applied until a value is that before it.
ghost use Rattle.std.specs.Prelude.{◌≡◌, ◌<◌, None};
ghost use Rattle.semantics.specs.Program.{Prog};
ghost use Rattle.semantics.specs.Control.{fixed_point};
ghost use Rattle.evaluation_steps.specs.Moves.{Moved};
ghost use Rattle.evaluation_steps.specs.Stopping.{AreBounded};
ghost use Rattle.builtin_names.specs.Named.{names_in};
ghost use Rattle.frames_control.specs.ControlLeft.{left};
ghost use Rattle.frames_control.specs.ControlMoves.{moving, IfAsks, Starts};
ghost use Rattle.frames_control.specs.TurnForms.{left_fixed_point};

use crate::control::Control;
use crate::countdown::{Countdown, MOST_TURNS};
use crate::moves::{ControlMove, apply};
use builtin_names::Vocabulary;
use evaluation_steps::Halt;
use expr_lists::one;
use expr_tree::{Expr, Limits, Stop};
use std::alloc::{AllocError, Global};

/// The function and the latest value.
#[derive(Drop)]
pub struct FixedPoint {
    function: Expr,
    value: Expr,
    turns: Countdown,
}

impl FixedPoint {
    pub fn start(
        alloc: Global,
        names: &Vocabulary,
        items: &[Expr],
    ) -> Result<Option<Control>, AllocError>
        ensures { (stay : Prog) → Starts (left (names_in names.now)) (fixed_point stay items.now) stay result }
    {
        if items.len() != 2 {
            return Ok(None);
        }
        Ok(Some(Control::FixedPoint(FixedPoint {
            function: items[0].copy(alloc)?,
            value: items[1].copy(alloc)?,
            turns: Countdown::from(MOST_TURNS),
        })))
    }

    fn turn(&mut self, alloc: Global, limits: &Limits) -> Result<ControlMove, Halt>
        requires bounded { AreBounded limits.now }
        ensures moved { Moved limits.now (left_fixed_point self.old None) (moving result) (left_fixed_point self.new) }
        ensures falls { IfAsks result (self.new.turns < self.old.turns) }
    {
        if !self.turns.take() {
            return Err(Halt::Stopped(Stop::Steps));
        }
        let value = self.value.copy(alloc)?;
        apply(alloc, limits, &self.function, one(alloc, value)?)
    }

    pub fn step(
        &mut self,
        alloc: Global,
        limits: &Limits,
        answer: Option<Expr>,
    ) -> Result<ControlMove, Halt>
        requires bounded { AreBounded limits.now }
        ensures moved { Moved limits.now (left_fixed_point self.old answer) (moving result) (left_fixed_point self.new) }
        ensures falls { IfAsks result (self.new.turns < self.old.turns) }
    {
        let Some(value) = answer else {
            return self.turn(alloc, limits);
        };
        if value.equals(&self.value) {
            return Ok(ControlMove::Done(value));
        }
        self.value = value;
        self.turn(alloc, limits)
    }
}

//! NestList: the values of Nest, from the first.
ghost use Rattle.std.specs.Prelude.{◌≡◌, ◌<◌};
ghost use Rattle.semantics.specs.Program.{Prog};
ghost use Rattle.semantics.specs.Control.{nest_list};
ghost use Rattle.evaluation_steps.specs.Moves.{Moved};
ghost use Rattle.evaluation_steps.specs.Stopping.{AreBounded};
ghost use Rattle.builtin_names.specs.Named.{names_in};
ghost use Rattle.frames_control.specs.ControlLeft.{left};
ghost use Rattle.frames_control.specs.ControlMoves.{moving, IfAsks, Starts};
ghost use Rattle.frames_control.specs.TurnForms.{left_nest_list, nests_list};

use crate::control::Control;
use crate::countdown::{Countdown, turns_of};
use crate::moves::{ControlMove, apply};
use crate::stack::Stack;
use builtin_names::{Vocabulary, name};
use evaluation_steps::Halt;
use expr_lists::one;
use expr_tree::{Expr, Limits};
use semantics::Builtin;
use std::alloc::{AllocError, Global};

/// The function, what it is applied to first, how often it is still to be applied, and the values so far, the last first.
#[derive(Drop)]
pub struct NestList {
    function: Expr,
    first: Expr,
    turns: Countdown,
    done: Stack,
}

impl NestList {
    pub fn start(
        alloc: Global,
        names: &Vocabulary,
        items: &[Expr],
    ) -> Result<Option<Control>, AllocError>
        ensures { (stay : Prog) → Starts (left (names_in names.now)) (nest_list (names_in names.now) stay items.now) stay result }
    {
        if items.len() != 3 {
            return Ok(None);
        }
        let Some(turns) = turns_of(&items[2]) else {
            return Ok(None);
        };
        Ok(Some(Control::NestList(NestList {
            function: items[0].copy(alloc)?,
            first: items[1].copy(alloc)?,
            turns,
            done: Stack::new(alloc),
        })))
    }

    fn turn(
        &mut self,
        alloc: Global,
        names: &Vocabulary,
        limits: &Limits,
        value: Expr,
    ) -> Result<ControlMove, Halt>
        requires bounded { AreBounded limits.now }
        ensures moved { Moved limits.now (nests_list (names_in names.now) self.old value) (moving result) (left_nest_list (names_in names.now) self.new) }
        ensures falls { IfAsks result (self.new.turns < self.old.turns) }
    {
        self.done.push(value.copy(alloc)?)?;
        if !self.turns.take() {
            return Ok(ControlMove::Build(
                name(names, Builtin::List),
                self.done.take_reversed(alloc),
            ));
        }
        apply(alloc, limits, &self.function, one(alloc, value)?)
    }

    pub fn step(
        &mut self,
        alloc: Global,
        names: &Vocabulary,
        limits: &Limits,
        answer: Option<Expr>,
    ) -> Result<ControlMove, Halt>
        requires bounded { AreBounded limits.now }
        ensures moved { Moved limits.now (left_nest_list (names_in names.now) self.old answer) (moving result) (left_nest_list (names_in names.now) self.new) }
        ensures falls { IfAsks result (self.new.turns < self.old.turns) }
    {
        match answer {
            Some(value) => self.turn(alloc, names, limits, value),
            None => {
                let first = self.first.copy(alloc)?;
                self.turn(alloc, names, limits, first)
            }
        }
    }
}

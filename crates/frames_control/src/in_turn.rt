//! CompoundExpression: its elements in turn, of which the last gives the value.
ghost use Rattle.std.specs.Prelude.{◌<◌, length};
ghost use Rattle.semantics.specs.Program.{Prog};
ghost use Rattle.semantics.specs.Control.{in_turn};
ghost use Rattle.evaluation_steps.specs.Moves.{Moved};
ghost use Rattle.builtin_names.specs.Named.{names_in};
ghost use Rattle.frames_control.specs.ControlLeft.{left};
ghost use Rattle.frames_control.specs.ControlMoves.{moving, IfAsks, Starts};
ghost use Rattle.frames_control.specs.Choices.{left_in_turn};

use crate::control::Control;
use crate::moves::ControlMove;
use crate::stack::Stack;
use builtin_names::{Vocabulary, name};
use evaluation_steps::Halt;
use expr_tree::{Expr, Limits};
use semantics::Builtin;
use std::alloc::{AllocError, Global};

/// The elements that are still to be evaluated.
#[derive(Drop)]
pub struct InTurn {
    rest: Stack,
}

impl InTurn {
    pub fn start(
        alloc: Global,
        names: &Vocabulary,
        items: &[Expr],
    ) -> Result<Option<Control>, AllocError>
        ensures { (stay : Prog) → Starts (left (names_in names.now)) (in_turn stay items.now) stay result }
    {
        if items.is_empty() {
            return Ok(None);
        }
        Ok(Some(Control::InTurn(InTurn {
            rest: Stack::of(alloc, items)?,
        })))
    }

    /// With no element left the answer is the value.
    pub fn step(
        &mut self,
        names: &Vocabulary,
        limits: &Limits,
        answer: Option<Expr>,
    ) -> Result<ControlMove, Halt>
        ensures moved { Moved limits.now (left_in_turn (names_in names.now) self.old answer) (moving result) (left_in_turn (names_in names.now) self.new) }
        ensures falls { IfAsks result (length self.new.rest < length self.old.rest) }
    {
        match self.rest.pop() {
            Some(item) => Ok(ControlMove::Ask(item, false)),
            None => match answer {
                Some(value) => Ok(ControlMove::Done(value)),
                None => Ok(ControlMove::Done(name(names, Builtin::Null))),
            },
        }
    }
}

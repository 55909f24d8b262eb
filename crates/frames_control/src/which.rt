//! Which: tests and values, up to the first test that is True.
ghost use Rattle.std.specs.Prelude.{◌≡◌, ◌<◌, length, None};
ghost use Rattle.semantics.specs.Program.{Prog};
ghost use Rattle.semantics.specs.Control.{which};
ghost use Rattle.evaluation_steps.specs.Moves.{Moved};
ghost use Rattle.builtin_names.specs.Named.{names_in};
ghost use Rattle.frames_control.specs.ControlLeft.{left};
ghost use Rattle.frames_control.specs.ControlMoves.{moving, IfAsks, Starts};
ghost use Rattle.frames_control.specs.Choices.{left_which, tested};

use crate::control::Control;
use crate::moves::ControlMove;
use crate::stack::Stack;
use builtin_names::{Vocabulary, is_name, name};
use evaluation_steps::Halt;
use expr_lists::one;
use expr_tree::{Expr, Limits};
use semantics::Builtin;
use std::alloc::{AllocError, Global};

/// The tests and values that are left; after a question, from the value of its test on.
#[derive(Drop)]
pub struct Which {
    rest: Stack,
}

impl Which {
    pub fn start(
        alloc: Global,
        names: &Vocabulary,
        items: &[Expr],
    ) -> Result<Option<Control>, AllocError>
        ensures { (stay : Prog) → Starts (left (names_in names.now)) (which (names_in names.now) stay items.now) stay result }
    {
        if items.len() % 2 == 1 {
            return Ok(None);
        }
        Ok(Some(Control::Which(Which {
            rest: Stack::of(alloc, items)?,
        })))
    }

    fn next_test(
        &mut self,
        alloc: Global,
        names: &Vocabulary,
        limits: &Limits,
    ) -> Result<ControlMove, Halt>
        ensures moved { Moved limits.now (left_which (names_in names.now) self.old None) (moving result) (left_which (names_in names.now) self.new) }
        ensures falls { IfAsks result (length self.new.rest < length self.old.rest) }
    {
        let Some(test) = self.rest.pop() else {
            return Ok(ControlMove::Done(name(names, Builtin::Null)));
        };
        if self.rest.is_empty() {
            return Ok(ControlMove::Build(name(names, Builtin::Which), one(alloc, test)?));
        }
        Ok(ControlMove::Ask(test, false))
    }

    fn answered(
        &mut self,
        alloc: Global,
        names: &Vocabulary,
        limits: &Limits,
        truth: Expr,
    ) -> Result<ControlMove, Halt>
        ensures moved { Moved limits.now (tested (names_in names.now) truth self.old.rest) (moving result) (left_which (names_in names.now) self.new) }
        ensures falls { IfAsks result (length self.new.rest < length self.old.rest) }
    {
        let Some(value) = self.rest.pop() else {
            return Ok(ControlMove::Done(name(names, Builtin::Null)));
        };
        if is_name(names, Builtin::True, &truth) {
            return Ok(ControlMove::Done(value));
        }
        if is_name(names, Builtin::False, &truth) {
            return self.next_test(alloc, names, limits);
        }
        self.rest.push(value)?;
        self.rest.push(truth)?;
        Ok(ControlMove::Build(name(names, Builtin::Which), self.rest.take(alloc)))
    }

    /// A test that is neither True nor False stands with its value before the rest.
    pub fn step(
        &mut self,
        alloc: Global,
        names: &Vocabulary,
        limits: &Limits,
        answer: Option<Expr>,
    ) -> Result<ControlMove, Halt>
        ensures moved { Moved limits.now (left_which (names_in names.now) self.old answer) (moving result) (left_which (names_in names.now) self.new) }
        ensures falls { IfAsks result (length self.new.rest < length self.old.rest) }
    {
        let Some(truth) = answer else {
            return self.next_test(alloc, names, limits);
        };
        self.answered(alloc, names, limits, truth)
    }
}

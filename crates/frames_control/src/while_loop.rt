//! While: a body as long as a test is True.
ghost use Rattle.std.specs.Prelude.{◌≡◌, ◌<◌, ◌*◌, ◌+◌};
ghost use Rattle.semantics.specs.Program.{Prog};
ghost use Rattle.semantics.specs.Control.{while, while_true};
ghost use Rattle.evaluation_steps.specs.Moves.{Moved};
ghost use Rattle.builtin_names.specs.Named.{names_in};
ghost use Rattle.frames_control.specs.ControlLeft.{left};
ghost use Rattle.frames_control.specs.ControlMoves.{moving, IfAsks, Starts};
ghost use Rattle.frames_control.specs.TurnForms.{left_while, tests_left};

use crate::control::Control;
use crate::countdown::{Countdown, MOST_TURNS};
use crate::moves::ControlMove;
use builtin_names::{Vocabulary, is_name, name};
use evaluation_steps::Halt;
use expr_tree::{Expr, Limits, Stop};
use semantics::Builtin;
use std::alloc::{AllocError, Global};

/// The test and the body, and whether the question was the test.
#[derive(Drop)]
pub struct While {
    test: Expr,
    body: Expr,
    turns: Countdown,
    testing: bool,
}

impl While {
    pub fn start(
        alloc: Global,
        names: &Vocabulary,
        items: &[Expr],
    ) -> Result<Option<Control>, AllocError>
        ensures { (stay : Prog) → Starts (left (names_in names.now)) (while (names_in names.now) stay items.now) stay result }
    {
        if items.len() != 2 {
            return Ok(None);
        }
        Ok(Some(Control::While(While {
            test: items[0].copy(alloc)?,
            body: items[1].copy(alloc)?,
            turns: Countdown::from(MOST_TURNS),
            testing: false,
        })))
    }

    fn turn(
        &mut self,
        alloc: Global,
        names: &Vocabulary,
        limits: &Limits,
    ) -> Result<ControlMove, Halt>
        ensures moved { Moved limits.now (while_true (names_in names.now) self.old.turns self.old.test self.old.body) (moving result) (left_while (names_in names.now) self.new) }
        ensures falls { IfAsks result (tests_left self.new < 2 * self.old.turns + 1) }
    {
        if !self.turns.take() {
            return Err(Halt::Stopped(Stop::Steps));
        }
        self.testing = true;
        Ok(ControlMove::Ask(self.test.copy(alloc)?, true))
    }

    pub fn step(
        &mut self,
        alloc: Global,
        names: &Vocabulary,
        limits: &Limits,
        answer: Option<Expr>,
    ) -> Result<ControlMove, Halt>
        ensures moved { Moved limits.now (left_while (names_in names.now) self.old answer) (moving result) (left_while (names_in names.now) self.new) }
        ensures falls { IfAsks result (tests_left self.new < tests_left self.old) }
    {
        if !self.testing {
            return self.turn(alloc, names, limits);
        }
        let Some(truth) = answer else {
            return Ok(ControlMove::Done(name(names, Builtin::Null)));
        };
        if !is_name(names, Builtin::True, &truth) {
            return Ok(ControlMove::Done(name(names, Builtin::Null)));
        }
        self.testing = false;
        Ok(ControlMove::Ask(self.body.copy(alloc)?, false))
    }
}

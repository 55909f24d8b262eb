//! If: the value of one of its elements, or another that is known at once.
ghost use Rattle.std.specs.Prelude.{◌≡◌, ◌<◌, Some, IfOk};
ghost use Rattle.semantics.specs.Program.{Prog};
ghost use Rattle.semantics.specs.Control.{conditional};
ghost use Rattle.evaluation_steps.specs.Moves.{Moved};
ghost use Rattle.builtin_names.specs.Named.{names_in};
ghost use Rattle.frames_control.specs.ControlLeft.{left};
ghost use Rattle.frames_control.specs.declared.control.Control.{Control as F};
ghost use Rattle.frames_control.specs.ControlMoves.{moving, IfAsks, Starts};
ghost use Rattle.frames_control.specs.Choices.{left_chosen};

use crate::control::Control;
use crate::moves::ControlMove;
use builtin_names::{Vocabulary, is_name, name};
use evaluation_steps::Halt;
use expr_tree::{Expr, Limits};
use semantics::Builtin;
use std::alloc::{AllocError, Global};

/// The result of a form, which is known.
#[derive(Drop)]
pub struct Chosen {
    value: Expr,
}

impl Chosen {
    /// If.
    pub fn start(
        alloc: Global,
        names: &Vocabulary,
        items: &[Expr],
    ) -> Result<Option<Control>, AllocError>
        ensures { (stay : Prog) → Starts (left (names_in names.now)) (conditional (names_in names.now) stay items.now) stay result }
    {
        if items.len() < 2 || 4 < items.len() {
            return Ok(None);
        }
        if is_name(names, Builtin::True, &items[0]) {
            return Chosen::of(alloc, &items[1]);
        }
        if is_name(names, Builtin::False, &items[0]) {
            if items.len() == 2 {
                return Ok(Some(Control::Chosen(Chosen {
                    value: name(names, Builtin::Null),
                })));
            }
            return Chosen::of(alloc, &items[2]);
        }
        if items.len() == 4 {
            return Chosen::of(alloc, &items[3]);
        }
        Ok(None)
    }

    fn of(alloc: Global, value: &Expr) -> Result<Option<Control>, AllocError>
        ensures { IfOk result (λ o. o ≡ Some (F.Chosen (record { value = value.now }))) }
    {
        Ok(Some(Control::Chosen(Chosen {
            value: value.copy(alloc)?,
        })))
    }

    /// The result, whatever the answer.
    pub fn step(
        &mut self,
        alloc: Global,
        limits: &Limits,
        answer: Option<Expr>,
    ) -> Result<ControlMove, Halt>
        ensures moved { Moved limits.now (left_chosen self.old answer) (moving result) (left_chosen self.new) }
        ensures falls { IfAsks result (0 < 0) }
    {
        Ok(ControlMove::Done(self.value.copy(alloc)?))
    }
}

//! Fold: a function applied to a value and each element in turn.
ghost use Rattle.std.specs.Prelude.{◌≡◌, ◌<◌, length};
ghost use Rattle.semantics.specs.Program.{Prog, Done};
ghost use Rattle.semantics.specs.Control.{fold, folded};
ghost use Rattle.evaluation_steps.specs.Moves.{Moved};
ghost use Rattle.evaluation_steps.specs.Stopping.{AreBounded};
ghost use Rattle.builtin_names.specs.Named.{names_in};
ghost use Rattle.frames_control.specs.ControlLeft.{left};
ghost use Rattle.frames_control.specs.ControlMoves.{moving, IfAsks, Starts};
ghost use Rattle.frames_control.specs.TurnForms.{left_fold};

use crate::control::Control;
use crate::moves::{ControlMove, apply};
use crate::stack::Stack;
use builtin_names::Vocabulary;
use evaluation_steps::Halt;
use expr_lists::two;
use expr_tree::{Expr, Limits, Node};
use std::alloc::{AllocError, Global};

/// The function, the first value, and the elements that are left.
#[derive(Drop)]
pub struct Fold {
    function: Expr,
    first: Expr,
    rest: Stack,
}

impl Fold {
    #[tactic(auto, using(expr_tree::proofs::Callers::tree_steps))]
    pub fn start(
        alloc: Global,
        names: &Vocabulary,
        items: &[Expr],
    ) -> Result<Option<Control>, AllocError>
        ensures { (stay : Prog) → Starts (left (names_in names.now)) (fold stay items.now) stay result }
    {
        if items.len() != 3 {
            return Ok(None);
        }
        let Node::Normal(_, elements) = items[2].node() else {
            return Ok(None);
        };
        Ok(Some(Control::Fold(Fold {
            function: items[0].copy(alloc)?,
            first: items[1].copy(alloc)?,
            rest: Stack::of(alloc, elements.as_slice())?,
        })))
    }

    fn turn(&mut self, alloc: Global, limits: &Limits, value: Expr) -> Result<ControlMove, Halt>
        requires bounded { AreBounded limits.now }
        ensures moved { Moved limits.now (folded self.old.function value self.old.rest Done) (moving result) (left_fold self.new) }
        ensures falls { IfAsks result (length self.new.rest < length self.old.rest) }
    {
        match self.rest.pop() {
            None => Ok(ControlMove::Done(value)),
            Some(element) => apply(alloc, limits, &self.function, two(alloc, value, element)?),
        }
    }

    pub fn step(
        &mut self,
        alloc: Global,
        limits: &Limits,
        answer: Option<Expr>,
    ) -> Result<ControlMove, Halt>
        requires bounded { AreBounded limits.now }
        ensures moved { Moved limits.now (left_fold self.old answer) (moving result) (left_fold self.new) }
        ensures falls { IfAsks result (length self.new.rest < length self.old.rest) }
    {
        match answer {
            Some(value) => self.turn(alloc, limits, value),
            None => {
                let first = self.first.copy(alloc)?;
                self.turn(alloc, limits, first)
            }
        }
    }
}

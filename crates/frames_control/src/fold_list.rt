//! FoldList: the values of Fold, from the first.
ghost use Rattle.std.specs.Prelude.{◌≡◌, ◌<◌, length};
ghost use Rattle.semantics.specs.Program.{Prog};
ghost use Rattle.semantics.specs.Control.{fold_list};
ghost use Rattle.evaluation_steps.specs.Moves.{Moved};
ghost use Rattle.evaluation_steps.specs.Stopping.{AreBounded};
ghost use Rattle.builtin_names.specs.Named.{names_in};
ghost use Rattle.frames_control.specs.ControlLeft.{left};
ghost use Rattle.frames_control.specs.ControlMoves.{moving, IfAsks, Starts};
ghost use Rattle.frames_control.specs.TurnForms.{left_fold_list, folds_list};

use crate::control::Control;
use crate::moves::{ControlMove, apply};
use crate::stack::Stack;
use builtin_names::Vocabulary;
use evaluation_steps::Halt;
use expr_lists::two;
use expr_tree::{Expr, Limits, Node};
use std::alloc::{AllocError, Global};

/// The function, the first value, the head and the elements that are left, and the values so far, the last first.
#[derive(Drop)]
pub struct FoldList {
    function: Expr,
    first: Expr,
    head: Expr,
    rest: Stack,
    done: Stack,
}

impl FoldList {
    #[tactic(auto, using(expr_tree::proofs::Callers::tree_steps))]
    pub fn start(
        alloc: Global,
        names: &Vocabulary,
        items: &[Expr],
    ) -> Result<Option<Control>, AllocError>
        ensures { (stay : Prog) → Starts (left (names_in names.now)) (fold_list (names_in names.now) stay items.now) stay result }
    {
        if items.len() != 3 {
            return Ok(None);
        }
        let Node::Normal(head, elements) = items[2].node() else {
            return Ok(None);
        };
        Ok(Some(Control::FoldList(FoldList {
            function: items[0].copy(alloc)?,
            first: items[1].copy(alloc)?,
            head: head.copy(alloc)?,
            rest: Stack::of(alloc, elements.as_slice())?,
            done: Stack::new(alloc),
        })))
    }

    fn turn(&mut self, alloc: Global, limits: &Limits, value: Expr) -> Result<ControlMove, Halt>
        requires bounded { AreBounded limits.now }
        ensures moved { Moved limits.now (folds_list self.old value) (moving result) (left_fold_list self.new) }
        ensures falls { IfAsks result (length self.new.rest < length self.old.rest) }
    {
        self.done.push(value.copy(alloc)?)?;
        match self.rest.pop() {
            None => Ok(ControlMove::Build(self.head.copy(alloc)?, self.done.take_reversed(alloc))),
            Some(element) => apply(alloc, limits, &self.function, two(alloc, value, element)?),
        }
    }

    pub fn step(
        &mut self,
        alloc: Global,
        limits: &Limits,
        answer: Option<Expr>,
    ) -> Result<ControlMove, Halt>
        requires bounded { AreBounded limits.now }
        ensures moved { Moved limits.now (left_fold_list self.old answer) (moving result) (left_fold_list self.new) }
        ensures falls { IfAsks result (length self.new.rest < length self.old.rest) }
    {
        match answer {
            Some(value) => self.turn(alloc, limits, value),
            None => {
                let first = self.first.copy(alloc)?;
                self.turn(alloc, limits, first)
            }
        }
    }
}

//! Select: the elements at which a function is True.
ghost use Rattle.std.specs.Prelude.{◌≡◌, ◌<◌, length, None};
ghost use Rattle.semantics.specs.Program.{Prog};
ghost use Rattle.semantics.specs.Control.{select};
ghost use Rattle.evaluation_steps.specs.Moves.{Moved};
ghost use Rattle.evaluation_steps.specs.Stopping.{AreBounded};
ghost use Rattle.builtin_names.specs.Named.{names_in};
ghost use Rattle.frames_control.specs.ControlLeft.{left};
ghost use Rattle.frames_control.specs.ControlMoves.{moving, IfAsks, Starts};
ghost use Rattle.frames_control.specs.TurnForms.{left_select, without_last};

use crate::control::Control;
use crate::moves::{ControlMove, apply};
use crate::stack::Stack;
use builtin_names::{Vocabulary, is_name};
use evaluation_steps::Halt;
use expr_lists::one;
use expr_tree::{Expr, Limits, Node};
use semantics::Builtin;
use std::alloc::{AllocError, Global};

/// The function, the head, the elements that are left, and those that are kept, the last first. After a question the last of these
/// is on trial.
#[derive(Drop)]
pub struct Select {
    function: Expr,
    head: Expr,
    rest: Stack,
    kept: Stack,
}

impl Select {
    #[tactic(auto, using(expr_tree::proofs::Callers::tree_steps))]
    pub fn start(
        alloc: Global,
        names: &Vocabulary,
        items: &[Expr],
    ) -> Result<Option<Control>, AllocError>
        ensures { (stay : Prog) → Starts (left (names_in names.now)) (select (names_in names.now) stay items.now) stay result }
    {
        if items.len() != 2 {
            return Ok(None);
        }
        let Node::Normal(head, elements) = items[0].node() else {
            return Ok(None);
        };
        Ok(Some(Control::Select(Select {
            function: items[1].copy(alloc)?,
            head: head.copy(alloc)?,
            rest: Stack::of(alloc, elements.as_slice())?,
            kept: Stack::new(alloc),
        })))
    }

    fn turn(
        &mut self,
        alloc: Global,
        names: &Vocabulary,
        limits: &Limits,
    ) -> Result<ControlMove, Halt>
        requires bounded { AreBounded limits.now }
        ensures moved { Moved limits.now (left_select (names_in names.now) self.old None) (moving result) (left_select (names_in names.now) self.new) }
        ensures falls { IfAsks result (length self.new.rest < length self.old.rest) }
    {
        let Some(element) = self.rest.pop() else {
            let head = self.head.copy(alloc)?;
            return Ok(ControlMove::Build(head, self.kept.take_reversed(alloc)));
        };
        let kept = element.copy(alloc)?;
        self.kept.push(kept)?;
        apply(alloc, limits, &self.function, one(alloc, element)?)
    }

    /// The element on trial is not kept.
    fn reject(
        &mut self,
        alloc: Global,
        names: &Vocabulary,
        limits: &Limits,
    ) -> Result<ControlMove, Halt>
        requires bounded { AreBounded limits.now }
        ensures moved { Moved limits.now (without_last (names_in names.now) self.old) (moving result) (left_select (names_in names.now) self.new) }
        ensures falls { IfAsks result (length self.new.rest < length self.old.rest) }
    {
        self.kept.pop();
        self.turn(alloc, names, limits)
    }

    pub fn step(
        &mut self,
        alloc: Global,
        names: &Vocabulary,
        limits: &Limits,
        answer: Option<Expr>,
    ) -> Result<ControlMove, Halt>
        requires bounded { AreBounded limits.now }
        ensures moved { Moved limits.now (left_select (names_in names.now) self.old answer) (moving result) (left_select (names_in names.now) self.new) }
        ensures falls { IfAsks result (length self.new.rest < length self.old.rest) }
    {
        let Some(truth) = answer else {
            return self.turn(alloc, names, limits);
        };
        if is_name(names, Builtin::True, &truth) {
            return self.turn(alloc, names, limits);
        }
        self.reject(alloc, names, limits)
    }
}

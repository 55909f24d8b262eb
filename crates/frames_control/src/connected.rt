//! And and Or: elements in turn, up to one that decides.
ghost use Rattle.std.specs.Prelude.{◌≡◌, ◌<◌, ◌∷◌, [], length, None};
ghost use Rattle.semantics.specs.Program.{Prog};
ghost use Rattle.semantics.specs.Control.{connected};
ghost use Rattle.evaluation_steps.specs.Moves.{Moved};
ghost use Rattle.builtin_names.specs.Named.{names_in};
ghost use Rattle.frames_control.specs.ControlLeft.{left};
ghost use Rattle.frames_control.specs.ControlMoves.{moving, IfAsks, Starts};
ghost use Rattle.frames_control.specs.Choices.{left_connected, row_of, ending_of, going_of};

use crate::control::Control;
use crate::moves::ControlMove;
use crate::stack::Stack;
use builtin_names::{Vocabulary, is_name, name};
use evaluation_steps::Halt;
use expr_tree::{Expr, Limits};
use semantics::Builtin;
use std::alloc::{AllocError, Global};

/// Which of the two it is.
#[derive(Clone, Copy, Debug, PartialEq, Eq)]
pub enum Connective {
    And,
    Or,
}

impl Connective {
    pub fn row(self) -> Builtin
        ensures { result ≡ row_of self }
    {
        match self {
            Connective::And => Builtin::And,
            Connective::Or => Builtin::Or,
        }
    }

    /// What ends it.
    pub fn ending(self) -> Builtin
        ensures { result ≡ ending_of self }
    {
        match self {
            Connective::And => Builtin::False,
            Connective::Or => Builtin::True,
        }
    }

    /// What is dropped, and the value where nothing is kept.
    pub fn going(self) -> Builtin
        ensures { result ≡ going_of self }
    {
        match self {
            Connective::And => Builtin::True,
            Connective::Or => Builtin::False,
        }
    }
}

/// The elements that are still to be evaluated, and the values that decide nothing, the last first.
#[derive(Drop)]
pub struct Connected {
    connective: Connective,
    rest: Stack,
    kept: Stack,
}

impl Connected {
    pub fn start(
        alloc: Global,
        names: &Vocabulary,
        connective: Connective,
        items: &[Expr],
    ) -> Result<Option<Control>, AllocError>
        ensures { (stay : Prog) → Starts (left (names_in names.now))
            (connected (names_in names.now) (row_of connective) (going_of connective) (ending_of connective) items.now []) stay result }
    {
        Ok(Some(Control::Connected(Connected {
            connective,
            rest: Stack::of(alloc, items)?,
            kept: Stack::new(alloc),
        })))
    }

    /// The result where no element is left: one value that was kept, or all of them.
    fn finish(
        &mut self,
        alloc: Global,
        names: &Vocabulary,
        limits: &Limits,
    ) -> Result<ControlMove, Halt>
        requires at_end { self.old.rest ≡ [] }
        ensures moved { Moved limits.now (left_connected (names_in names.now) self.old None) (moving result) (left_connected (names_in names.now) self.new) }
        ensures falls { IfAsks result (length self.new.rest < length self.old.rest) }
    {
        let Some(last) = self.kept.pop() else {
            return Ok(ControlMove::Done(name(names, self.connective.going())));
        };
        if self.kept.is_empty() {
            return Ok(ControlMove::Done(last));
        }
        self.kept.push(last)?;
        Ok(ControlMove::Build(
            name(names, self.connective.row()),
            self.kept.take_reversed(alloc),
        ))
    }

    fn next_element(
        &mut self,
        alloc: Global,
        names: &Vocabulary,
        limits: &Limits,
    ) -> Result<ControlMove, Halt>
        ensures moved { Moved limits.now (left_connected (names_in names.now) self.old None) (moving result) (left_connected (names_in names.now) self.new) }
        ensures falls { IfAsks result (length self.new.rest < length self.old.rest) }
    {
        match self.rest.pop() {
            Some(element) => Ok(ControlMove::Ask(element, false)),
            None => self.finish(alloc, names, limits),
        }
    }

    /// A value that decides is the result.
    pub fn step(
        &mut self,
        alloc: Global,
        names: &Vocabulary,
        limits: &Limits,
        answer: Option<Expr>,
    ) -> Result<ControlMove, Halt>
        ensures moved { Moved limits.now (left_connected (names_in names.now) self.old answer) (moving result) (left_connected (names_in names.now) self.new) }
        ensures falls { IfAsks result (length self.new.rest < length self.old.rest) }
    {
        let Some(value) = answer else {
            return self.next_element(alloc, names, limits);
        };
        if is_name(names, self.connective.ending(), &value) {
            return Ok(ControlMove::Done(value));
        }
        if is_name(names, self.connective.going(), &value) {
            return self.next_element(alloc, names, limits);
        }
        self.kept.push(value)?;
        self.next_element(alloc, names, limits)
    }
}

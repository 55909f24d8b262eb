ghost use Rattle.std.specs.Prelude.{◌≡◌, [], ◌∷◌, IsTrue, ◌↔◌, IfOk, MatchOption};

use crate::frame::Frame;
use std::alloc::{AllocError, Global};
use std::marker::Model;

/// The open frames, which contracts see as a list, the innermost first.
#[derive(Drop)]
pub(crate) struct Stack {
    frames: Vec<Frame>,
}

impl Model for Stack {
    ghost use Rattle.std.specs.Prelude.{List, reverse};
    ghost use Rattle.std.specs.Coded.{codes};
    ghost use Rattle.show_form.specs.declared.frame.Frame.{Frame};
    ghost use Rattle.expr_tree.specs.Code.{coded_tree};

    ghost Value = { List Frame };

    ghost coded = { Prim.hlevel (codes, coded_tree) };

    ghost view = { λ s. reverse s.frames.items };
}

impl Stack {
    pub(crate) fn new(alloc: Global) -> Stack
        ensures { result ≡ [] }
    {
        Stack {
            frames: Vec::new(alloc),
        }
    }

    pub(crate) fn is_empty(&self) -> bool
        ensures { IsTrue result ↔ (self.now ≡ []) }
    {
        self.frames.is_empty()
    }

    pub(crate) fn push(&mut self, frame: Frame) -> Result<(), AllocError>
        ensures { IfOk result (λ _. self.new ≡ frame ∷ self.old) }
    {
        self.frames.push(frame)?;
        Ok(())
    }

    pub(crate) fn pop(&mut self) -> Option<Frame>
        ensures { MatchOption result ((self.old ≡ []) × (self.new ≡ [])) (λ frame. self.old ≡ frame ∷ self.new) }
    {
        self.frames.pop()
    }
}

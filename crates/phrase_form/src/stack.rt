//! Frames, the innermost of which is taken off and put on.
ghost use Rattle.std.specs.Prelude.{◌≡◌, true, false, [], ◌∷◌, Some, IfOk, IsTrue, MatchOption, length};
ghost use Rattle.std.specs.Option.{option_copied};
ghost use Rattle.phrase_form.specs.Levels.{asked, top_of, is_tag, is_group, is_elements, is_outer, tighter, needs_none};
ghost use Rattle.phrase_form.specs.declared.frame.Frame.TheVariants as fr;

use crate::frame::{Frame, Opened, level_asked_by, needs_none};
use crate::kept::Kept;
use expr_tree::{Expr, Exprs};
use std::alloc::{AllocError, Global};
use std::marker::Model;

/// What stands open. Contracts see the list of the frames, the innermost first.
#[derive(Drop)]
pub(crate) struct Stack {
    frames: Vec<Frame>,
}

impl Model for Stack {
    ghost use Rattle.std.specs.Prelude.{List, reverse};
    ghost use Rattle.std.specs.Coded.{codes};
    ghost use Rattle.phrase_form.specs.declared.frame.Frame.{Frame};
    ghost use Rattle.phrase_form.specs.contracts.frame.Frame as f;

    ghost Value = { List Frame };

    ghost coded = { Prim.hlevel (codes, f.the_row.coded) };

    ghost view = { λ s. reverse s.frames.items };
}

impl Stack {
    pub(crate) fn new(alloc: Global) -> Stack
        ensures { result ≡ [] }
    {
        Stack {
            frames: Vec::new(alloc),
        }
    }

    pub(crate) fn len(&self) -> usize
        ensures { result ≡ length self.now }
    {
        self.frames.len()
    }

    pub(crate) fn push(&mut self, frame: Frame) -> Result<(), AllocError>
        ensures { IfOk result (λ _. self.new ≡ frame ∷ self.old) }
    {
        self.frames.push(frame)?;
        Ok(())
    }

    pub(crate) fn pop(&mut self) -> Option<Frame>
        ensures { MatchOption result ((self.old ≡ []) × (self.new ≡ [])) (λ frame. self.old ≡ frame ∷ self.new) }
    {
        self.frames.pop()
    }

    /// The innermost frame.
    #[tactic(auto, using(crate::proofs::Tops::top_reverse))]
    pub(crate) fn top(&self) -> Option<&Frame>
        ensures { option_copied result ≡ top_of self.now }
    {
        self.frames.last()
    }

    /// The level that is asked of the phrase that is being read.
    #[tactic(auto, using(crate::proofs::Tops::level_steps))]
    pub(crate) fn level(&self) -> u8
        ensures { result ≡ asked self.now }
    {
        match self.top() {
            Some(frame) => level_asked_by(frame),
            None => 2,
        }
    }

    /// Whether the innermost frame is that of `t /:`.
    fn is_tag_on_top(&self) -> bool
        ensures { result ≡ is_tag (top_of self.now) }
    {
        match self.top() {
            Some(Frame::Tag(_)) => true,
            _ => false,
        }
    }

    /// Takes the t of a `t /:` that is innermost.
    pub(crate) fn pop_tag(&mut self) -> Option<Kept>
        ensures { MatchOption result ((self.new ≡ self.old) × (is_tag (top_of self.old) ≡ false)) (λ t. self.old ≡ fr.Tag t ∷ self.new) }
    {
        if !self.is_tag_on_top() {
            return None;
        }
        match self.pop() {
            Some(Frame::Tag(phrase)) => Some(phrase),
            _ => unreachable!(),
        }
    }

    /// Whether the innermost frame is an opening bracket.
    fn is_group_on_top(&self) -> bool
        ensures { result ≡ is_group (top_of self.now) }
    {
        match self.top() {
            Some(Frame::Group) => true,
            _ => false,
        }
    }

    /// Takes an opening bracket that is innermost, and says whether there is one.
    pub(crate) fn pop_group(&mut self) -> bool
        ensures one { IsTrue result → self.old ≡ fr.Group ∷ self.new }
        ensures other { result ≡ false → (self.new ≡ self.old) × (is_group (top_of self.old) ≡ false) }
    {
        if !self.is_group_on_top() {
            return false;
        }
        match self.pop() {
            Some(Frame::Group) => true,
            _ => unreachable!(),
        }
    }

    /// Whether the innermost frame is that of elements.
    fn is_elements_on_top(&self) -> bool
        ensures { result ≡ is_elements (top_of self.now) }
    {
        match self.top() {
            Some(Frame::Elements(_, _)) => true,
            _ => false,
        }
    }

    /// Takes the elements that are innermost, and what opened them.
    pub(crate) fn pop_elements(&mut self) -> Option<(Opened, Option<Exprs>)>
        ensures { MatchOption result ((self.new ≡ self.old) × (is_elements (top_of self.old) ≡ false)) (λ e. self.old ≡ fr.Elements e.0 e.1 ∷ self.new) }
    {
        if !self.is_elements_on_top() {
            return None;
        }
        match self.pop() {
            Some(Frame::Elements(opening, items)) => Some((opening, items)),
            _ => unreachable!(),
        }
    }

    /// Whether the innermost frame is that of the outer brackets of a part.
    fn is_outer_on_top(&self) -> bool
        ensures { result ≡ is_outer (top_of self.now) }
    {
        match self.top() {
            Some(Frame::Outer(_)) => true,
            _ => false,
        }
    }

    /// Takes the expression of which a part is taken, where its brackets are innermost.
    pub(crate) fn pop_outer(&mut self) -> Option<Option<Expr>>
        ensures { MatchOption result ((self.new ≡ self.old) × (is_outer (top_of self.old) ≡ false)) (λ e. self.old ≡ fr.Outer e ∷ self.new) }
    {
        if !self.is_outer_on_top() {
            return None;
        }
        match self.pop() {
            Some(Frame::Outer(expr)) => Some(expr),
            _ => unreachable!(),
        }
    }

    /// Whether an operator at the level closes the innermost frame.
    fn is_tighter(&self, level: u8) -> bool
        ensures { result ≡ tighter level (top_of self.now) }
    {
        match self.top() {
            Some(frame) => level < level_asked_by(frame) && needs_none(frame),
            None => false,
        }
    }

    /// Takes the innermost frame, where an operator at the level closes it.
    pub(crate) fn pop_tighter(&mut self, level: u8) -> Option<Frame>
        ensures { MatchOption result ((self.new ≡ self.old) × (tighter level (top_of self.old) ≡ false)) (λ frame. (self.old ≡ frame ∷ self.new) × (tighter level (Some frame) ≡ true)) }
    {
        if self.is_tighter(level) {
            self.pop()
        } else {
            None
        }
    }
}

//! Closing what binds tighter than an operator.
ghost use Rattle.std.specs.Prelude.{◌≡◌, true, Some, IfOk};
ghost use Rattle.builtin_names.specs.Named.{names_in};
ghost use Rattle.phrase_form.specs.Held.{kept_in};
ghost use Rattle.phrase_form.specs.Levels.{needs_none};
ghost use Rattle.phrase_form.specs.States.{frame_in, frames_in};
ghost use Rattle.phrase_form.specs.Steps as s;

use crate::constructs::{join, lead, tagged};
use crate::frame::Frame;
use crate::kept::Kept;
use crate::stack::Stack;
use builtin_names::Vocabulary;
use operator_levels::Operator;
use std::alloc::{AllocError, Global};

/// What a frame that needs no further token makes of its last operand.
#[tactic(auto, unfolding(syntax::proofs::Reader::completed))]
fn complete(alloc: Global, names: &Vocabulary, frame: Frame, x: Kept) -> Result<Kept, AllocError>
    requires complete { needs_none frame ≡ true }
    ensures { IfOk result (λ y. s.completed (names_in names.now) (frame_in (names_in names.now) frame) (kept_in x) ≡ Some (kept_in y)) }
{
    match frame {
        Frame::Leads(operator) => lead(alloc, names, operator, x),
        Frame::Joins(operator, y) => join(alloc, names, operator, y, x),
        Frame::Beside(y) => join(alloc, names, Operator::Times, y, x),
        Frame::Tagged(row, y, z) => tagged(alloc, names, row, y, z, x),
        Frame::Group | Frame::Elements(_, _) | Frame::Outer(_) | Frame::Tag(_) => unreachable!(),
    }
}

/// Closes the frames that bind tighter than the level.
pub(crate) fn reduce(
    alloc: Global,
    names: &Vocabulary,
    stack: &mut Stack,
    level: u8,
    phrase: Kept,
) -> Result<Kept, AllocError>
    ensures { IfOk result (λ x. s.reduce (names_in names.now) level (frames_in (names_in names.now) stack.old) (kept_in phrase) ≡ (frames_in (names_in names.now) stack.new, kept_in x)) }
{
    let mut phrase = phrase;
    while let Some(frame) = stack.pop_tighter(level) {
        phrase = complete(alloc, names, frame, phrase)?;
    }
    Ok(phrase)
}

//! Infix operators behind their left operands. `None` says that no cell goes on with the operator.
ghost use Rattle.std.specs.Prelude.{◌≡◌, IfOk};
ghost use Rattle.semantics.specs.Names as n;
ghost use Rattle.phrase_form.specs.Held.{kept_in};
ghost use Rattle.phrase_form.specs.States.{frames_in, after};
ghost use Rattle.phrase_form.specs.Steps as s;
ghost use Rattle.operator_levels.specs.Words.{operator_in};

use crate::begin::enter;
use crate::constructs::accepts;
use crate::frame::{Frame, Mode};
use crate::kept::Kept;
use crate::operator::tag_row;
use crate::stack::Stack;
use operator_levels::{Operator, level};
use std::alloc::AllocError;

/// An operator is attached to its left operand.
#[tactic(auto, using(crate::proofs::Frames::frame_steps), unfolding(syntax::proofs::Reader::attached, syntax::proofs::Reader::only_at))]
pub(crate) fn attach(
    stack: &mut Stack,
    operator: Operator,
    phrase: Kept,
) -> Result<Option<Mode>, AllocError>
    ensures { IfOk result (λ m. (names : n.Names) → after names stack.new m ≡ s.attached names (operator_in operator) (frames_in names stack.old) (kept_in phrase)) }
{
    if stack.level() <= level(operator) && accepts(operator, phrase.kind) {
        enter(stack, Frame::Joins(operator, phrase))
    } else {
        Ok(None)
    }
}

/// An operator behind a phrase. With a `t /:` in front it may give a definition with a tag.
#[tactic(auto, using(crate::proofs::Frames::tag_steps), unfolding(syntax::proofs::Reader::joined))]
pub(crate) fn join_operator(
    stack: &mut Stack,
    operator: Operator,
    phrase: Kept,
) -> Result<Option<Mode>, AllocError>
    ensures { IfOk result (λ m. (names : n.Names) → after names stack.new m ≡ s.joined names (operator_in operator) (frames_in names stack.old) (kept_in phrase)) }
{
    match tag_row(operator) {
        None => attach(stack, operator, phrase),
        Some(row) => match stack.pop_tag() {
            None => Ok(attach(stack, operator, phrase)?),
            Some(tag) => {
                stack.push(Frame::Tagged(row, tag, phrase))?;
                Ok(Some(Mode::Want))
            }
        },
    }
}

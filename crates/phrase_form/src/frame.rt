//! What stands open on the left of the phrase that is being read.
ghost use Rattle.std.specs.Prelude.{◌≡◌};
ghost use Rattle.phrase_form.specs.Levels.{asked_by, needs_none};

use crate::kept::Kept;
use crate::operator::{Prefix, lead_level};
use expr_tree::{Expr, Exprs};
use operator_levels::{Operator, right_level};
use semantics::Builtin;

/// What a bracket opened: a list, the elements of a call, or those of a part.
#[derive(Drop)]
pub(crate) enum Opened {
    List,
    Call(Option<Expr>),
    Part,
}

/// What waits for the phrase that is being read.
#[derive(Drop)]
pub(crate) enum Frame {
    Group,
    /// The elements so far.
    Elements(Opened, Option<Exprs>),
    Leads(Prefix),
    Joins(Operator, Kept),
    Beside(Kept),
    /// The t of `t /: l = r`.
    Tag(Kept),
    /// The expression of which a part is taken.
    Outer(Option<Expr>),
    /// The t and l of `t /: l = r`, and the row that it gives.
    Tagged(Builtin, Kept, Kept),
}

/// What was read last.
#[derive(Drop)]
pub(crate) enum Mode {
    /// A phrase is to begin.
    Want,
    Have(Kept),
    /// A phrase and a semicolon.
    Semicolon(Kept),
    /// An opening bracket.
    Open(Opened),
    /// The elements of a part, and the first of its closing brackets.
    Half(Option<Exprs>),
}

/// The level that is asked of the phrase in a frame.
pub(crate) fn level_asked_by(frame: &Frame) -> u8
    ensures { result ≡ asked_by frame.now }
{
    match frame {
        Frame::Group | Frame::Elements(_, _) | Frame::Outer(_) => 2,
        Frame::Leads(operator) => lead_level(*operator),
        Frame::Joins(operator, _) => right_level(*operator),
        Frame::Beside(_) => right_level(Operator::Times),
        Frame::Tag(_) => 4,
        Frame::Tagged(_, _, _) => 3,
    }
}

/// Whether a frame is closed without a further token.
pub(crate) fn needs_none(frame: &Frame) -> bool
    ensures { result ≡ needs_none frame.now }
{
    match frame {
        Frame::Group | Frame::Elements(_, _) | Frame::Outer(_) | Frame::Tag(_) => false,
        Frame::Leads(_) | Frame::Joins(_, _) | Frame::Beside(_) | Frame::Tagged(_, _, _) => true,
    }
}

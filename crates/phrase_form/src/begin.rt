//! Where a phrase begins. `None` says that no cell goes on with the terminal.
ghost use Rattle.std.specs.Prelude.{◌≡◌, [], Some, IfOk};
ghost use Rattle.semantics.specs.Names as n;
ghost use Rattle.syntax.specs.Terminals.{start_of};
ghost use Rattle.phrase_form.specs.States.{frame_in, frames_in, opened_in, after};
ghost use Rattle.phrase_form.specs.Steps as s;
ghost use Rattle.phrase_form.specs.Words.{start_in, terminal_in};

use crate::frame::{Frame, Mode, Opened};
use crate::kept::Kept;
use crate::stack::Stack;
use crate::start::{Opening, Start, start_of};
use crate::terminal::Terminal;
use expr_tree::Expr;
use item_list::Items;
use std::alloc::{AllocError, Global};

/// The greatest nesting of a terminal.
const NESTING_LIMIT: usize = 1024;

/// Opens a frame, where the nesting allows it.
#[tactic(auto, using(crate::proofs::Frames::frame_steps), unfolding(syntax::proofs::Reader::push, syntax::specs::Grammar::nesting_limit))]
pub(crate) fn enter(stack: &mut Stack, frame: Frame) -> Result<Option<Mode>, AllocError>
    ensures { IfOk result (λ m. (names : n.Names) → after names stack.new m ≡ s.push names (frame_in names frame) (frames_in names stack.old)) }
{
    if stack.len() < NESTING_LIMIT {
        stack.push(frame)?;
        Ok(Some(Mode::Want))
    } else {
        Ok(None)
    }
}

#[tactic(auto, unfolding(syntax::proofs::Reader::begins))]
fn begin_with(stack: &mut Stack, start: Start) -> Result<Option<Mode>, AllocError>
    ensures { IfOk result (λ m. (names : n.Names) → after names stack.new m ≡ s.begins names (start_in start) (frames_in names stack.old)) }
{
    match start {
        Start::Operand(phrase) => Ok(Some(Mode::Have(Kept::leaf(phrase)))),
        Start::Leads(operator) => enter(stack, Frame::Leads(operator)),
        Start::Opens(Opening::Group) => enter(stack, Frame::Group),
        Start::Opens(Opening::Braces) => Ok(Some(Mode::Open(Opened::List))),
        Start::Nothing => Ok(None),
    }
}

/// A phrase begins.
pub(crate) fn begin(stack: &mut Stack, terminal: Terminal) -> Result<Option<Mode>, AllocError>
    ensures { IfOk result (λ m. (names : n.Names) → after names stack.new m ≡ s.begins names (start_of (terminal_in terminal)) (frames_in names stack.old)) }
{
    begin_with(stack, start_of(terminal))
}

/// A phrase begins in a new frame.
#[tactic(auto, unfolding(syntax::proofs::Reader::begins_in))]
pub(crate) fn begin_in(
    stack: &mut Stack,
    frame: Frame,
    terminal: Terminal,
) -> Result<Option<Mode>, AllocError>
    ensures { IfOk result (λ m. (names : n.Names) → after names stack.new m ≡ s.begins_in names (frame_in names frame) (terminal_in terminal) (frames_in names stack.old)) }
{
    match enter(stack, frame)? {
        Some(_) => begin(stack, terminal),
        None => Ok(None),
    }
}

/// The first of the elements.
pub(crate) fn begin_elements(
    alloc: Global,
    stack: &mut Stack,
    opening: Opened,
    terminal: Terminal,
) -> Result<Option<Mode>, AllocError>
    ensures { IfOk result (λ m. (names : n.Names) → after names stack.new m ≡ s.begins_in names (s.elements names (opened_in names opening) (Some [])) (terminal_in terminal) (frames_in names stack.old)) }
{
    let frame = Frame::Elements(opening, Some(Items::new(alloc)));
    begin_in(stack, frame, terminal)
}

/// The second bracket of a part.
#[tactic(auto, using(crate::proofs::Frames::frame_steps), unfolding(syntax::proofs::Reader::part_opened, syntax::specs::Grammar::nesting_limit))]
pub(crate) fn open_part(stack: &mut Stack, expr: Option<Expr>) -> Result<Option<Mode>, AllocError>
    ensures { IfOk result (λ m. (names : n.Names) → after names stack.new m ≡ s.part_opened names (frames_in names stack.old) expr) }
{
    if stack.len() < NESTING_LIMIT {
        stack.push(Frame::Outer(expr))?;
        Ok(Some(Mode::Open(Opened::Part)))
    } else {
        Ok(None)
    }
}

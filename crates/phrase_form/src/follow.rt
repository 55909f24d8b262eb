//! The steps of the machine. `None` says that no cell goes on with the terminal.
ghost use Rattle.std.specs.Prelude.{◌≡◌, IfOk};
ghost use Rattle.semantics.specs.Names as n;
ghost use Rattle.syntax.specs.Terminals.{next_of};
ghost use Rattle.builtin_names.specs.Named.{names_in};
ghost use Rattle.phrase_form.specs.Held.{kept_in};
ghost use Rattle.phrase_form.specs.States.{frames_in, opened_in, mode_in, after};
ghost use Rattle.phrase_form.specs.Steps as s;
ghost use Rattle.phrase_form.specs.Words.{next_in, terminal_in};

use crate::attach::join_operator;
use crate::begin::{begin, begin_elements, begin_in, enter, open_part};
use crate::close::{close, close_elements, close_part, separate};
use crate::constructs::{ended, trail};
use crate::frame::{Frame, Mode, Opened};
use crate::kept::Kept;
use crate::next::{Bracket, Next, next_of};
use crate::operator::trail_level;
use crate::reduce::reduce;
use crate::stack::Stack;
use crate::terminal::Terminal;
use builtin_names::Vocabulary;
use expr_tree::Exprs;
use item_list::Items;
use operator_levels::{Operator, level};
use std::alloc::{AllocError, Global};

/// The level at which a terminal behind a phrase binds.
#[tactic(auto, unfolding(syntax::proofs::Reader::next_level))]
fn level_of_next(next: Next) -> u8
    ensures { (names : n.Names) → result ≡ s.next_level names (next_in next) }
{
    match next {
        Next::Joins(operator) => level(operator),
        Next::Trails(operator) => trail_level(operator),
        Next::Beside => level(Operator::Times),
        Next::Semicolon => 2,
        Next::Tags => 3,
        Next::Elements => 25,
        Next::Comma | Next::Closes(_) | Next::Nothing => 0,
    }
}

/// A phrase goes on, where the frames that bind tighter are closed.
#[tactic(auto, using(crate::proofs::Frames::frame_steps), unfolding(syntax::proofs::Reader::goes_on, syntax::proofs::Reader::only_at))]
fn go_on(
    alloc: Global,
    names: &Vocabulary,
    stack: &mut Stack,
    terminal: Terminal,
    phrase: Kept,
) -> Result<Option<Mode>, AllocError>
    ensures { IfOk result (λ m. after (names_in names.now) stack.new m ≡ s.goes_on (names_in names.now) (next_of (terminal_in terminal)) (terminal_in terminal) (frames_in (names_in names.now) stack.old) (kept_in phrase)) }
{
    match next_of(&terminal) {
        Next::Joins(operator) => join_operator(stack, operator, phrase),
        Next::Semicolon => {
            if stack.level() > 2 {
                return Ok(None);
            }
            Ok(Some(Mode::Semicolon(phrase)))
        }
        Next::Beside => {
            if stack.level() > level(Operator::Times) {
                return Ok(None);
            }
            begin_in(stack, Frame::Beside(phrase), terminal)
        }
        Next::Tags => {
            if stack.level() > 3 {
                return Ok(None);
            }
            enter(stack, Frame::Tag(phrase))
        }
        Next::Trails(operator) => {
            if stack.level() > trail_level(operator) {
                return Ok(None);
            }
            Ok(Some(Mode::Have(trail(alloc, names, operator, phrase)?)))
        }
        Next::Elements => {
            if stack.level() > 25 {
                return Ok(None);
            }
            Ok(Some(Mode::Open(Opened::Call(phrase.into_expr(alloc)?))))
        }
        Next::Comma => separate(alloc, stack, phrase),
        Next::Closes(bracket) => close(alloc, names, stack, bracket, phrase),
        Next::Nothing => Ok(None),
    }
}

/// What follows a phrase.
#[tactic(auto, unfolding(syntax::proofs::Reader::follows_phrase))]
fn follow_phrase(
    alloc: Global,
    names: &Vocabulary,
    stack: &mut Stack,
    terminal: Terminal,
    phrase: Kept,
) -> Result<Option<Mode>, AllocError>
    ensures { IfOk result (λ m. after (names_in names.now) stack.new m ≡ s.follows_phrase (names_in names.now) (next_of (terminal_in terminal)) (terminal_in terminal) (frames_in (names_in names.now) stack.old) (kept_in phrase)) }
{
    let level = level_of_next(next_of(&terminal));
    let reduced = reduce(alloc, names, stack, level, phrase)?;
    go_on(alloc, names, stack, terminal, reduced)
}

/// What follows a phrase and a semicolon.
#[tactic(auto, unfolding(syntax::proofs::Reader::follows_semicolon))]
fn follow_semicolon(
    alloc: Global,
    names: &Vocabulary,
    stack: &mut Stack,
    terminal: Terminal,
    phrase: Kept,
) -> Result<Option<Mode>, AllocError>
    ensures { IfOk result (λ m. after (names_in names.now) stack.new m ≡ s.follows_semicolon (names_in names.now) (next_of (terminal_in terminal)) (terminal_in terminal) (frames_in (names_in names.now) stack.old) (kept_in phrase)) }
{
    match next_of(&terminal) {
        Next::Comma => {
            let phrase = ended(alloc, names, phrase)?;
            separate(alloc, stack, phrase)
        }
        Next::Closes(bracket) => {
            let phrase = ended(alloc, names, phrase)?;
            close(alloc, names, stack, bracket, phrase)
        }
        Next::Joins(_)
        | Next::Trails(_)
        | Next::Beside
        | Next::Semicolon
        | Next::Tags
        | Next::Elements
        | Next::Nothing => {
            let frame = Frame::Joins(Operator::CompoundExpression, phrase);
            begin_in(stack, frame, terminal)
        }
    }
}

/// What follows an opening bracket.
#[tactic(auto, unfolding(syntax::proofs::Reader::follows_opening))]
fn follow_opening(
    alloc: Global,
    names: &Vocabulary,
    stack: &mut Stack,
    terminal: Terminal,
    opening: Opened,
) -> Result<Option<Mode>, AllocError>
    ensures { IfOk result (λ m. after (names_in names.now) stack.new m ≡ s.follows_opening (names_in names.now) (next_of (terminal_in terminal)) (terminal_in terminal) (frames_in (names_in names.now) stack.old) (opened_in (names_in names.now) opening)) }
{
    match next_of(&terminal) {
        Next::Closes(bracket) => {
            let items = Some(Items::new(alloc));
            close_elements(alloc, names, stack, bracket, opening, items)
        }
        Next::Elements => match opening {
            Opened::Call(expr) => open_part(stack, expr),
            Opened::List => begin_elements(alloc, stack, Opened::List, terminal),
            Opened::Part => begin_elements(alloc, stack, Opened::Part, terminal),
        },
        Next::Joins(_)
        | Next::Trails(_)
        | Next::Beside
        | Next::Semicolon
        | Next::Tags
        | Next::Comma
        | Next::Nothing => begin_elements(alloc, stack, opening, terminal),
    }
}

/// What follows the elements of a part and the first of its closing brackets.
#[tactic(auto, unfolding(syntax::proofs::Reader::follows_half))]
fn follow_half(
    alloc: Global,
    names: &Vocabulary,
    stack: &mut Stack,
    next: Next,
    items: Option<Exprs>,
) -> Result<Option<Mode>, AllocError>
    ensures { IfOk result (λ m. after (names_in names.now) stack.new m ≡ s.follows_half (names_in names.now) (next_in next) (frames_in (names_in names.now) stack.old) items) }
{
    match next {
        Next::Closes(Bracket::Square) => close_part(alloc, names, stack, items),
        Next::Closes(Bracket::Round)
        | Next::Closes(Bracket::Curly)
        | Next::Joins(_)
        | Next::Trails(_)
        | Next::Beside
        | Next::Semicolon
        | Next::Tags
        | Next::Elements
        | Next::Comma
        | Next::Nothing => Ok(None),
    }
}

/// One terminal more.
#[tactic(auto, unfolding(syntax::proofs::Reader::follows))]
pub(crate) fn follow(
    alloc: Global,
    names: &Vocabulary,
    stack: &mut Stack,
    mode: Mode,
    terminal: Terminal,
) -> Result<Option<Mode>, AllocError>
    ensures { IfOk result (λ m. after (names_in names.now) stack.new m ≡ s.follows (names_in names.now) (mode_in (names_in names.now) mode) (terminal_in terminal) (frames_in (names_in names.now) stack.old)) }
{
    match mode {
        Mode::Want => begin(stack, terminal),
        Mode::Have(phrase) => follow_phrase(alloc, names, stack, terminal, phrase),
        Mode::Semicolon(phrase) => follow_semicolon(alloc, names, stack, terminal, phrase),
        Mode::Open(opening) => follow_opening(alloc, names, stack, terminal, opening),
        Mode::Half(items) => follow_half(alloc, names, stack, next_of(&terminal), items),
    }
}

//! Commas and closing brackets. `None` says that no cell goes on with them.
ghost use Rattle.std.specs.Prelude.{◌≡◌, List, IfOk};
ghost use Rattle.semantics.specs.Names as n;
ghost use Rattle.syntax.specs.Terminals as ter;
ghost use Rattle.builtin_names.specs.Named.{names_in};
ghost use Rattle.phrase_form.specs.Held.{kept_in};
ghost use Rattle.phrase_form.specs.States.{frames_in, opened_in, mode_in, after};
ghost use Rattle.phrase_form.specs.Steps as s;
ghost use Rattle.phrase_form.specs.Words.{bracket_in};
ghost use Rattle.phrase_form.specs.declared.frame.Frame as f;

use crate::constructs::{call, listed, part};
use crate::elements::added;
use crate::frame::{Frame, Mode, Opened};
use crate::kept::Kept;
use crate::next::Bracket;
use crate::stack::Stack;
use builtin_names::Vocabulary;
use expr_tree::Exprs;
use std::alloc::{AllocError, Global};

/// A comma behind a phrase.
#[tactic(auto, unfolding(syntax::proofs::Reader::separated))]
pub(crate) fn separate(
    alloc: Global,
    stack: &mut Stack,
    phrase: Kept,
) -> Result<Option<Mode>, AllocError>
    ensures { IfOk result (λ m. (names : n.Names) → after names stack.new m ≡ s.separated names (frames_in names stack.old) (kept_in phrase)) }
{
    match stack.pop_elements() {
        Some((opening, items)) => {
            let items = added(items, phrase.into_expr(alloc)?)?;
            stack.push(Frame::Elements(opening, items))?;
            Ok(Some(Mode::Want))
        }
        None => Ok(None),
    }
}

/// Whether the bracket closes what was opened.
#[tactic(auto, unfolding(syntax::proofs::Reader::closes))]
fn is_closed_by(opening: &Opened, bracket: Bracket) -> bool
    ensures { (names : n.Names) → result ≡ s.closes names (bracket_in bracket) (opened_in names opening.now) }
{
    match (opening, bracket) {
        (Opened::List, Bracket::Curly) => true,
        (Opened::Call(_), Bracket::Square) => true,
        (Opened::Part, Bracket::Square) => true,
        _ => false,
    }
}

/// What the elements make. A part wants a second bracket.
#[tactic(auto, unfolding(syntax::proofs::Reader::made))]
fn make(
    alloc: Global,
    names: &Vocabulary,
    opening: Opened,
    items: Option<Exprs>,
) -> Result<Mode, AllocError>
    ensures { IfOk result (λ m. mode_in (names_in names.now) m ≡ s.made (names_in names.now) (opened_in (names_in names.now) opening) items) }
{
    match opening {
        Opened::List => Ok(Mode::Have(listed(alloc, names, items)?)),
        Opened::Call(head) => Ok(Mode::Have(call(alloc, head, items)?)),
        Opened::Part => Ok(Mode::Half(items)),
    }
}

/// A bracket closes the elements.
#[tactic(auto, unfolding(syntax::proofs::Reader::closed_elements))]
pub(crate) fn close_elements(
    alloc: Global,
    names: &Vocabulary,
    stack: &Stack,
    bracket: Bracket,
    opening: Opened,
    items: Option<Exprs>,
) -> Result<Option<Mode>, AllocError>
    ensures { IfOk result (λ m. after (names_in names.now) stack.now m ≡ s.closed_elements (names_in names.now) (bracket_in bracket) (opened_in (names_in names.now) opening) items (frames_in (names_in names.now) stack.now)) }
{
    if is_closed_by(&opening, bracket) {
        Ok(Some(make(alloc, names, opening, items)?))
    } else {
        Ok(None)
    }
}

/// A bracket closes a phrase in brackets.
#[tactic(auto, unfolding(syntax::proofs::Reader::closed_group))]
fn close_group(bracket: Bracket, phrase: Kept) -> Option<Mode>
    ensures { (names : n.Names) (K : List f.Frame) → after names K result ≡ s.closed_group names (bracket_in bracket) (frames_in names K) (kept_in phrase) }
{
    match bracket {
        Bracket::Round => Some(Mode::Have(phrase.grouped())),
        Bracket::Square | Bracket::Curly => None,
    }
}

/// A bracket closes what stands innermost.
#[tactic(auto, unfolding(syntax::proofs::Reader::closed))]
pub(crate) fn close(
    alloc: Global,
    names: &Vocabulary,
    stack: &mut Stack,
    bracket: Bracket,
    phrase: Kept,
) -> Result<Option<Mode>, AllocError>
    ensures { IfOk result (λ m. after (names_in names.now) stack.new m ≡ s.closed (names_in names.now) (bracket_in bracket) (frames_in (names_in names.now) stack.old) (kept_in phrase)) }
{
    if stack.pop_group() {
        return Ok(close_group(bracket, phrase));
    }
    match stack.pop_elements() {
        Some((opening, items)) => {
            let items = added(items, phrase.into_expr(alloc)?)?;
            Ok(close_elements(alloc, names, stack, bracket, opening, items)?)
        }
        None => Ok(None),
    }
}

/// The second bracket that closes a part.
#[tactic(auto, unfolding(syntax::proofs::Reader::follows_half))]
pub(crate) fn close_part(
    alloc: Global,
    names: &Vocabulary,
    stack: &mut Stack,
    items: Option<Exprs>,
) -> Result<Option<Mode>, AllocError>
    ensures { IfOk result (λ m. after (names_in names.now) stack.new m ≡ s.follows_half (names_in names.now) (ter.Closes ter.Square) (frames_in (names_in names.now) stack.old) items) }
{
    match stack.pop_outer() {
        Some(expr) => Ok(Some(Mode::Have(part(alloc, names, expr, items)?))),
        None => Ok(None),
    }
}

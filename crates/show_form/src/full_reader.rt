ghost use Rattle.std.specs.Prelude.{◌≡◌, ◌≤◌, Some, IfOk, IfErr, MatchResult, encode_utf8};
ghost use Rattle.std.specs.Option.{option_and_then};
ghost use Rattle.script_text.specs.FullForm.{IsFullFormOf};
ghost use Rattle.script_text.specs.FullNames.{names_in};
ghost use Rattle.script_text.specs.Spelling.{by_texts, place_in};
ghost use Rattle.show_form.specs.Faults.{AreKeptNames, IsAfter, IsFault, IsStop};
ghost use Rattle.show_form.specs.Frames.{Limits};
ghost use Rattle.show_form.specs.Steps.{run, whole, first_state, with_mode};

use crate::fault::FullFault;
use crate::frame::Kept;
use crate::mode::Mode;
use crate::stack::Stack;
use crate::steps::{finish, step_over};
use expr_tree::{Expr, MAX_SIZE};
use name_table::Names;
use std::alloc::{AllocError, Global};

/// Reads a full form.
pub fn read_full(alloc: Global, text: &str, names: &Names) -> Result<Expr, FullFault>
    requires { AreKeptNames names.now.texts (names_in text.now) }
    ensures read { IfOk result (λ e. IsFullFormOf (by_texts names.now.texts) e text.now) }
    ensures fault { IfErr result (λ fault. IsFault names.now.texts text.now fault) }
{
    match read_kept(alloc, text, names)? {
        Ok(kept) => within_limits(kept),
        Err(place) => Err(FullFault::At(place)),
    }
}

/// What was read, where it is within the limits.
fn within_limits(kept: Kept) -> Result<Expr, FullFault>
    ensures { Limits kept result }
{
    match kept {
        Kept::Whole(e) => Ok(e),
        Kept::Beyond(extent) if extent.size > MAX_SIZE => Err(FullFault::TooLarge),
        Kept::Beyond(_) => Err(FullFault::TooDeep),
    }
}

/// Goes over the text from left to right, and answers the expression or the place where it stops.
fn read_kept(alloc: Global, text: &str, names: &Names) -> Result<Result<Kept, usize>, AllocError>
    ensures { IfOk result (λ r. MatchResult r
        (λ kept. option_and_then (whole (place_in names.now.texts)) (run (place_in names.now.texts) text.now first_state) ≡ Some kept)
        (λ place. IsStop (place_in names.now.texts) text.now place)) }
{
    let mut stack = Stack::new(alloc);
    let mut mode = Mode::Starts(false);
    for (place, character) in text.char_indices() {
        match step_over(alloc, names, &mut stack, mode, character)? {
            Some(next) => mode = next,
            None => return Ok(Err(place)),
        }
    }
    match finish(names, &stack, mode) {
        Some(kept) => Ok(Ok(kept)),
        None => Ok(Err(text.len())),
    }
}

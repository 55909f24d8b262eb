//! The end of the machine.
ghost use Rattle.std.specs.Prelude.{◌≡◌, IfOk};
ghost use Rattle.std.specs.Option.{option_map};
ghost use Rattle.semantics.specs.Names as n;
ghost use Rattle.builtin_names.specs.Named.{names_in};
ghost use Rattle.phrase_form.specs.Held.{kept_in};
ghost use Rattle.phrase_form.specs.States.{frames_in, mode_in};
ghost use Rattle.phrase_form.specs.Steps as s;

use crate::constructs::ended;
use crate::frame::Mode;
use crate::kept::Kept;
use crate::reduce::reduce;
use crate::stack::Stack;
use builtin_names::Vocabulary;
use std::alloc::{AllocError, Global};

/// The phrase, where nothing stands open.
fn at_bottom(stack: &Stack, phrase: Kept) -> Option<Kept>
    ensures { (names : n.Names) → option_map kept_in result ≡ s.at_bottom names (frames_in names stack.now) (kept_in phrase) }
{
    if stack.len() == 0 { Some(phrase) } else { None }
}

/// The phrase at the end.
#[tactic(auto, unfolding(syntax::proofs::Reader::finished))]
pub(crate) fn finish(
    alloc: Global,
    names: &Vocabulary,
    stack: &mut Stack,
    mode: Mode,
) -> Result<Option<Kept>, AllocError>
    ensures { IfOk result (λ k. option_map kept_in k ≡ s.finished (names_in names.now) (mode_in (names_in names.now) mode) (frames_in (names_in names.now) stack.old)) }
{
    match mode {
        Mode::Have(phrase) => {
            let reduced = reduce(alloc, names, stack, 0, phrase)?;
            Ok(at_bottom(stack, reduced))
        }
        Mode::Semicolon(phrase) => {
            let phrase = ended(alloc, names, phrase)?;
            Ok(at_bottom(stack, phrase))
        }
        Mode::Want | Mode::Open(_) | Mode::Half(_) => Ok(None),
    }
}

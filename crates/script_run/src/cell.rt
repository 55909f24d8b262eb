//! Runs one cell.
ghost use Rattle.std.specs.Prelude.{◌≡◌, ◌≤◌, length, IfOk};
ghost use Rattle.script_text.specs.Spelling.{by_texts, place_in};
ghost use Rattle.syntax.specs.Tokens as syn;
ghost use Rattle.lex_form.specs.Lexes as form;
ghost use Rattle.read_form.specs.Kept.{AreKeptNames};
ghost use Rattle.builtin_names.specs.Named.{names_in};
ghost use Rattle.laws_bases.specs.Kept.{AreKeptIn};
ghost use Rattle.sequential_transcript.specs.Transcript.{PrintsCell};

use crate::lines::{out_line, syntax_line, unbuilt_line};
use crate::value::value_of;
use builtin_names::{Vocabulary, name};
use eval_seq::KernelState;
use expr_tree::Text;
use lex_form::Lexed;
use read_form::{ReadNo, read_lexed};
use semantics::Builtin;
use std::alloc::{AllocError, Global};

/// Runs the n-th cell, whose tokens are known, and gives its line.
pub(crate) fn run_cell(
    alloc: Global,
    names: &Vocabulary,
    steps: u64,
    state: &mut KernelState,
    n: u64,
    cell: &str,
    lexed: &Lexed,
) -> Result<Text, AllocError>
    requires lexed { form.lexed lexed.now ≡ syn.lex cell.now }
    requires kept { AreKeptNames names.now.texts (syn.names_in cell.now (syn.lex cell.now).tokens) }
    requires kept_before { AreKeptIn (length names.now.texts) state.old.defs }
    requires short { length cell.now ≤ 1048576 }
    ensures prints { IfOk result (λ line. PrintsCell (by_texts names.now.texts) (names_in names.now) (place_in names.now.texts) steps state.old.defs n cell.now line state.new.defs) }
    ensures kept_after { IfOk result (λ line. AreKeptIn (length names.now.texts) state.new.defs) }
{
    let _rows = names.names();
    match read_lexed(alloc, names, cell, lexed) {
        Ok(e) => match value_of(alloc, names, steps, state, e)? {
            Some(value) => out_line(alloc, names, n, &value),
            None => unbuilt_line(alloc, n),
        },
        Err(ReadNo::Syntax(place)) => syntax_line(alloc, n, place as u64),
        Err(ReadNo::TooDeep) => out_line(alloc, names, n, &name(names, Builtin::Aborted)),
        Err(ReadNo::NoMemory) => Err(AllocError),
    }
}

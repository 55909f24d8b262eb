//! The tokens of the cells of a script, and its names.
ghost use Rattle.std.specs.Prelude.{◌≡◌, ◌≤◌, ◌++◌, length, IfOk, OnOk};
ghost use Rattle.script_text.specs.Cells.{cells};
ghost use Rattle.syntax.specs.Tokens as syn;
ghost use Rattle.lex_form.specs.Lexes as form;
ghost use Rattle.lex_form.specs.Spans.{texts_of as span_texts};
ghost use Rattle.sequential_transcript.specs.Transcript.{texts_of, written_names};
ghost use Rattle.script_run.specs.Cells.{AreCellSpans, AreLexed};

use crate::cell_text::cell_text;
use builtin_names::{Vocabulary, names_with};
use expr_tree::Texts;
use lex_form::{Lexed, Spans, lex, names_of};
use std::alloc::{AllocError, Global};

/// The tokens of each cell.
pub(crate) fn lex_cells(
    alloc: Global,
    script: &str,
    spans: &Spans,
) -> Result<Vec<Lexed>, AllocError>
    requires { AreCellSpans script.now spans.now }
    ensures { IfOk result (λ ls. AreLexed (span_texts script.now spans.now) ls.items) }
{
    let mut cells = Vec::new(alloc);
    for span in spans.as_slice() {
        let lexed = lex(alloc, cell_text(script, *span))?;
        cells.push(lexed)?;
    }
    Ok(cells)
}

/// Adds the names that stand in a cell.
fn add_names(alloc: Global, cell: &str, lexed: &Lexed, names: &mut Texts) -> Result<(), AllocError>
    requires { form.lexed lexed.now ≡ syn.lex cell.now }
    ensures { OnOk result (names.new ≡ names.old ++ syn.names_in cell.now (syn.lex cell.now).tokens) }
{
    names_of(alloc, cell, &lexed.tokens, names)
}

/// The names that stand in the cells, as often as they stand there.
fn written_names(
    alloc: Global,
    script: &str,
    spans: &Spans,
    lexed: &[Lexed],
) -> Result<Texts, AllocError>
    requires spans { AreCellSpans script.now spans.now }
    requires lexed { AreLexed (span_texts script.now spans.now) lexed.now }
    ensures { IfOk result (λ names. names ≡ written_names (span_texts script.now spans.now)) }
{
    let mut names = Texts::new(alloc);
    for (at, span) in spans.as_slice().iter().enumerate() {
        let cell = cell_text(script, *span);
        add_names(alloc, cell, &lexed[at], &mut names)?;
    }
    Ok(names)
}

/// The names of a script and of the built-in table.
pub(crate) fn names_of_script(
    alloc: Global,
    script: &str,
    spans: &Spans,
    lexed: &[Lexed],
) -> Result<Vocabulary, AllocError>
    requires short { length script.now ≤ 1048576 }
    requires spans { AreCellSpans script.now spans.now }
    requires lexed { AreLexed (span_texts script.now spans.now) lexed.now }
    requires cells { span_texts script.now spans.now ≡ cells script.now }
    ensures texts { IfOk result (λ names. names.texts ≡ texts_of (cells script.now)) }
{
    let written = written_names(alloc, script, spans, lexed)?;
    names_with(alloc, &written)
}

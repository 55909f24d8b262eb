//! The lines of a transcript.
ghost use Rattle.std.specs.Prelude.{◌≡◌, IfOk, length};
ghost use Rattle.script_text.specs.Laws.{IsKept};
ghost use Rattle.script_text.specs.Spelling.{by_texts};
ghost use Rattle.builtin_names.specs.Named.{names_in};
ghost use Rattle.syntax.specs.Lines.{numbered_line, out_line, syntax_line};
ghost use Rattle.sequential_transcript.specs.Transcript.{unbuilt_line};

use builtin_names::{Vocabulary, is_name};
use expr_tree::{Expr, Text};
use input_form::value_text;
use itoa::Buffer;
use semantics::Builtin;
use std::alloc::{AllocError, Global};

fn numbered_line(alloc: Global, word: &str, n: u64, rest: &str) -> Result<Text, AllocError>
    ensures { IfOk result (λ t. t ≡ numbered_line word.now n rest.now) }
{
    let mut text = Text::new(alloc);
    text.append(word)?;
    text.append("[")?;
    text.append(Buffer::new().format(n))?;
    text.append("]")?;
    text.append(rest)?;
    text.append("\n")?;
    Ok(text)
}

/// The line of a value. That of Null is empty.
#[tactic(auto, using(crate::proofs::LineLemmas::line_steps))]
pub(crate) fn out_line(
    alloc: Global,
    names: &Vocabulary,
    n: u64,
    value: &Expr,
) -> Result<Text, AllocError>
    requires kept { IsKept (length names.now.texts) value.now }
    ensures { IfOk result (λ t. t ≡ out_line (by_texts names.now.texts) (names_in names.now) n value.now) }
{
    if is_name(names, Builtin::Null, value) {
        return Ok(Text::new(alloc));
    }
    let mut rest = Text::new(alloc);
    rest.append("= ")?;
    rest.append(value_text(alloc, value, names.names())?.as_str())?;
    numbered_line(alloc, "Out", n, rest.as_str())
}

/// The line of a cell that has no reading.
pub(crate) fn syntax_line(alloc: Global, n: u64, place: u64) -> Result<Text, AllocError>
    ensures { IfOk result (λ t. t ≡ syntax_line n place) }
{
    let mut rest = Text::new(alloc);
    rest.append(": ")?;
    rest.append(Buffer::new().format(place))?;
    numbered_line(alloc, "Syntax", n, rest.as_str())
}

/// The line of a cell that is read and not of the language.
pub(crate) fn unbuilt_line(alloc: Global, n: u64) -> Result<Text, AllocError>
    ensures { IfOk result (λ t. t ≡ unbuilt_line n) }
{
    numbered_line(alloc, "Unbuilt", n, "")
}

//! The cells of a script.
ghost use Rattle.std.specs.Prelude.{◌≡◌, ◌≤◌, ◌<◌, ◌+◌, ◌-◌, ℕ, ◌∷◌, ◌==◌, false, take, drop, length, IfOk};
ghost use Rattle.std.specs.List.{position_or_len};
ghost use Rattle.script_text.specs.Bytes.{is_space};
ghost use Rattle.script_text.specs.Cells.{is_blank, cells};
ghost use Rattle.lex_form.specs.Spans.{texts_of, AreSpans};

use crate::leaves::behind;
use item_list::Items;
use std::alloc::{AllocError, Global};

/// The bytes of a text from `from` up to `to`.
#[derive(Clone, Copy, Debug, PartialEq, Eq)]
pub struct Span {
    pub from: usize,
    pub to: usize,
}

/// Spans in the order of their places.
pub type Spans = Items<Span>;

/// The cells of a script.
pub fn cells(alloc: Global, text: &str) -> Result<Spans, AllocError>
    ensures cells { IfOk result (λ spans. texts_of text.now spans ≡ cells text.now) }
    ensures within { IfOk result (λ spans. AreSpans text.now spans) }
{
    let bytes = text.as_bytes();
    let mut spans = Items::new(alloc);
    let mut from = skip_blank(bytes, 0);
    while from < bytes.len() {
        let to = from + cell_len(behind(bytes, from));
        spans.push(Span { from, to })?;
        from = skip_blank(bytes, next_line(bytes, to));
    }
    Ok(spans)
}

/// The place behind the line feed at a place, or the end.
fn next_line(text: &[u8], at: usize) -> usize
    requires { at ≤ length text.now }
    ensures rest { drop result text.now ≡ drop (at + 1) text.now }
    ensures within { at ≤ result × result ≤ length text.now }
    ensures later { at < length text.now → at < result }
{
    if at < text.len() { at + 1 } else { at }
}

/// The place from which on the first line is not blank, or the end.
fn skip_blank(text: &[u8], from: usize) -> usize
    requires { from ≤ length text.now }
    ensures cells { cells (drop result text.now) ≡ cells (drop from text.now) }
    ensures within { from ≤ result × result ≤ length text.now }
    ensures begins { result < length text.now → is_blank (take (position_or_len (λ c. c == 10) (drop result text.now)) (drop result text.now)) ≡ false }
{
    let mut at = from;
    while at < text.len() {
        let rest = behind(text, at);
        let len = line_len(rest);
        if !is_blank(&rest[..len]) {
            return at;
        }
        at = next_line(text, at + len);
    }
    at
}

/// The length of the cell that begins a text.
fn cell_len(text: &[u8]) -> usize
    requires { is_blank (take (position_or_len (λ c. c == 10) text.now) text.now) ≡ false }
    ensures within { result ≤ length text.now }
    ensures cell { cells text.now ≡ take result text.now ∷ cells (drop (result + 1) text.now) }
{
    let mut end = line_len(text);
    loop {
        let rest = behind_line(text, end);
        let len = line_len(rest);
        if is_blank(&rest[..len]) {
            return end;
        }
        end += 1 + len;
    }
}

/// The text behind a line of this length and its line feed.
fn behind_line(text: &[u8], len: usize) -> &[u8]
    requires { len ≤ length text.now }
    ensures { result.now ≡ drop (len + 1) text.now }
{
    if len < text.len() {
        &text[len + 1..]
    } else {
        &text[len..]
    }
}

/// The length of the first line.
fn line_len(text: &[u8]) -> usize
    ensures line { result ≡ position_or_len (λ c. c == 10) text.now }
    ensures within { result ≤ length text.now }
{
    match text.iter().position(|byte| *byte == b'\n') {
        Some(len) => len,
        None => text.len(),
    }
}

fn is_blank(line: &[u8]) -> bool
    ensures { result ≡ is_blank line.now }
{
    line.iter().all(|byte| is_space(*byte))
}

fn is_space(byte: u8) -> bool
    ensures { result ≡ is_space byte }
{
    byte == b' ' || byte == b'\t' || byte == b'\r'
}

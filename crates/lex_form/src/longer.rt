ghost use Rattle.std.specs.Prelude.{◌≡◌, ◌==◌, ◌&&◌, ◌+◌, ◌≤◌, ◌<◌, false, length, drop};
ghost use Rattle.syntax.specs.Signs.{signs};
ghost use Rattle.syntax.specs.Tokens as syn;
ghost use Rattle.lex_form.specs.Scans.{scanned, is_escaped, IsWithin};
ghost use Rattle.script_text.specs.Bytes.{begins_with};

use crate::scanner::{Reason, Scan};
use crate::token::Kind;
use case_table::operators;

/// Whether a byte may stand behind a backslash in a string.
fn is_escaped(byte: u8) -> bool
    ensures { result ≡ is_escaped byte }
{
    byte == b'"' || byte == b'\\' || byte == b'n' || byte == b't'
}

/// The string whose quote stands at the front.
pub(crate) fn string_scan(text: &[u8]) -> Scan
    requires { 0 < length text.now }
    ensures meaning { scanned result ≡ syn.string_end false 1 (drop 1 text.now) }
    ensures within { IsWithin (length text.now) result }
{
    let mut escaped = false;
    let mut passed = 1;
    for byte in &text[1..] {
        if escaped {
            if !is_escaped(*byte) {
                return Scan::Faults(Reason::BadByte, passed - 1);
            }
            escaped = false;
        } else if *byte == b'"' {
            return Scan::Takes(Kind::Str, passed + 1);
        } else {
            escaped = *byte == b'\\';
        }
        passed += 1;
    }
    if escaped {
        Scan::Faults(Reason::BadByte, passed - 1)
    } else {
        Scan::Faults(Reason::OpenString, 0)
    }
}

/// Whether a comment begins with these two bytes.
fn opens(before: u8, byte: u8) -> bool
    ensures { result ≡ (before == 40) && (byte == 42) }
{
    before == b'(' && byte == b'*'
}

/// Whether a comment ends with these two bytes.
fn closes(before: u8, byte: u8) -> bool
    ensures { result ≡ (before == 42) && (byte == 41) }
{
    before == b'*' && byte == b')'
}

/// The comment whose `(*` stands at the front.
pub(crate) fn comment_scan(text: &[u8]) -> Scan
    requires { 1 < length text.now }
    ensures meaning { scanned result ≡ syn.comment_end 1 0 2 (drop 2 text.now) }
    ensures within { IsWithin (length text.now) result }
{
    let mut inner: usize = 0;
    let mut before = 0;
    let mut passed = 2;
    for byte in &text[2..] {
        passed += 1;
        if opens(before, *byte) {
            inner += 1;
            before = 0;
        } else if !closes(before, *byte) {
            before = *byte;
        } else if inner > 0 {
            inner -= 1;
            before = 0;
        } else {
            return Scan::Skips(passed);
        }
    }
    Scan::Faults(Reason::OpenComment, 0)
}

/// Whether the text begins with the other.
fn begins_with(text: &[u8], other: &[u8]) -> bool
    ensures { result ≡ begins_with other.now text.now }
{
    text.starts_with(other)
}

/// The operator or bracket at the front.
pub(crate) fn operator_scan(text: &[u8]) -> Scan
    requires { 0 < length text.now }
    ensures meaning { scanned result ≡ syn.operator_in signs text.now }
    ensures within { IsWithin (length text.now) result }
{
    for row in operators().rows {
        if begins_with(text, row.name.as_bytes()) {
            return Scan::Takes(Kind::Operator, row.name.len());
        }
    }
    Scan::Faults(Reason::BadByte, 0)
}

ghost use Rattle.std.specs.Prelude.{◌≡◌, ◌<◌, length};
ghost use Rattle.lex_form.specs.Scans.{scanned, front, marked, IsWithin};

use crate::classes::{Class, begins_name, is_white};
use crate::leaves::{blank_after, name_scan, number_scan, slot_scan};
use crate::longer::{comment_scan, operator_scan, string_scan};
use crate::token::Kind;

/// Why nothing stands at a place.
#[derive(Clone, Copy, Debug)]
pub(crate) enum Reason {
    BadByte,
    OpenString,
    OpenComment,
    WideNumber,
}

/// What stands at the front of a text: a token, blanks or a comment of so many bytes, or a fault so many bytes on.
#[derive(Clone, Copy, Debug)]
pub(crate) enum Scan {
    Takes(Kind, usize),
    Skips(usize),
    Faults(Reason, usize),
}

/// What stands at the front.
pub(crate) fn scan_front(text: &[u8]) -> Scan
    requires { 0 < length text.now }
    ensures meaning { scanned result ≡ front text.now }
    ensures within { IsWithin (length text.now) result }
{
    let byte = text[0];
    if is_white(byte) {
        Scan::Skips(1)
    } else if byte == b'(' && text.len() > 1 && text[1] == b'*' {
        comment_scan(text)
    } else if Class::Digit.has(byte) {
        number_scan(text)
    } else if begins_name(byte) {
        name_scan(text)
    } else {
        scan_mark(text)
    }
}

/// What stands at the front, where it is neither white space, a comment, a number nor a name.
fn scan_mark(text: &[u8]) -> Scan
    requires { 0 < length text.now }
    ensures meaning { scanned result ≡ marked text.now }
    ensures within { IsWithin (length text.now) result }
{
    let byte = text[0];
    if byte == b'_' {
        blank_after(0, text)
    } else if byte == b'"' {
        string_scan(text)
    } else if byte == b'#' {
        slot_scan(text)
    } else {
        operator_scan(text)
    }
}

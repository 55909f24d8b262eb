ghost use Rattle.std.specs.Prelude.{◌≡◌, ◌+◌, ◌≤◌, ◌<◌, ◌^◌, ◌==◌, ltb, length, drop};
ghost use Rattle.script_text.specs.Bytes.{number_after, run, is_digit};
ghost use Rattle.syntax.specs.Tokens as syn;
ghost use Rattle.lex_form.specs.Scans.{scanned, IsWithin};

use crate::classes::{Class, begins_name};
use crate::scanner::{Reason, Scan};
use crate::token::Kind;

/// The greatest integer and 1.
const NUMBERS: u128 = 1 << 127;

/// Whether what digits write is an integer.
fn fits(digits: &[u8]) -> bool
    ensures { result ≡ ltb (number_after 0 digits.now) (2 ^ 127) }
{
    let mut value: u128 = 0;
    for digit in digits {
        value = value
            .saturating_mul(10)
            .saturating_add(u128::from(digit.saturating_sub(b'0')));
        if value >= NUMBERS {
            return false;
        }
    }
    true
}

pub(crate) fn number_scan(text: &[u8]) -> Scan
    requires { 0 < run is_digit text.now }
    ensures meaning { scanned result ≡ syn.number_scan text.now }
    ensures within { IsWithin (length text.now) result }
{
    let len = Class::Digit.run(text);
    if fits(&text[..len]) {
        Scan::Takes(Kind::Number, len)
    } else {
        Scan::Faults(Reason::WideNumber, 0)
    }
}

/// The length of the name at the front.
fn name_len(text: &[u8]) -> usize
    ensures len { result ≡ syn.name_length text.now }
    ensures within { result ≤ length text.now }
{
    match text {
        [first, rest @ ..] if begins_name(*first) => 1 + Class::InName.run(rest),
        _ => 0,
    }
}

/// The text behind so many bytes.
pub(crate) fn behind(text: &[u8], len: usize) -> &[u8]
    requires { len ≤ length text.now }
    ensures { result.now ≡ drop len text.now }
{
    &text[len..]
}

/// The blank whose `_` stand behind so many bytes.
pub(crate) fn blank_after(before: usize, text: &[u8]) -> Scan
    requires begins { 0 < run (λ c. c == 95) (drop before text.now) }
    requires before { before ≤ length text.now }
    ensures meaning { scanned result ≡ syn.blank_after before (drop before text.now) }
    ensures within { IsWithin (length text.now) result }
{
    let rest = behind(text, before);
    let marks = Class::Underscore.run(&rest[..rest.len().min(3)]);
    let name = name_len(behind(rest, marks));
    Scan::Takes(Kind::Blank, before + marks + name)
}

pub(crate) fn name_scan(text: &[u8]) -> Scan
    requires { 0 < syn.name_length text.now }
    ensures meaning { scanned result ≡ syn.name_scan text.now }
    ensures within { IsWithin (length text.now) result }
{
    let len = name_len(text);
    if len < text.len() && text[len] == b'_' {
        blank_after(len, text)
    } else {
        Scan::Takes(Kind::Name, len)
    }
}

/// The slot whose number stands behind so many signs.
fn slot_after(signs: usize, text: &[u8]) -> Scan
    requires within { signs ≤ length text.now }
    requires positive { 0 < signs }
    ensures meaning { scanned result ≡ syn.slot_after signs (drop signs text.now) }
    ensures within { IsWithin (length text.now) result }
{
    let number = &text[signs..];
    let len = Class::Digit.run(number);
    if len > 0 && (len > 9 || number[0] == b'0') {
        Scan::Faults(Reason::BadByte, 0)
    } else {
        Scan::Takes(Kind::Slot, signs + len)
    }
}

pub(crate) fn slot_scan(text: &[u8]) -> Scan
    requires { 0 < length text.now }
    ensures meaning { scanned result ≡ syn.slot_scan (drop 1 text.now) }
    ensures within { IsWithin (length text.now) result }
{
    if text.len() > 1 && text[1] == b'#' {
        slot_after(2, text)
    } else {
        slot_after(1, text)
    }
}

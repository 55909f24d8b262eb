//! The reader, one byte at a time. Each function answers what was read then, or None where no full form goes on so.

ghost use Rattle.std.specs.Prelude.{◌≡◌, ◌∷◌, List, ℕ, ◌<◌, ◌≤◌, ◌==◌, true, false, Some, None, encode_utf8, take, IfOk, IfSome};
ghost use Rattle.script_text.specs.Spelling.{place_in, spelled};
ghost use Rattle.script_text.specs.Reader.{symbol_of};
ghost use Rattle.show_form.specs.declared.frame.Frame.{Frame};
ghost use Rattle.show_form.specs.Classes.{kind_of};
ghost use Rattle.show_form.specs.Faults.{IsAfter};
ghost use Rattle.show_form.specs.Steps.{with_mode, plain_text, shut, whole, after, starts, gap, minus, number, name, in_text, step_by, step, run, last, symbol_named};

use crate::class::{Class, class_of};
use crate::digits::Digits;
use crate::frame::{Kept, add, close, open};
use crate::mode::Mode;
use crate::stack::Stack;
use expr_tree::{Expr, Sym, Text};
use name_table::{Names, read_name};
use std::alloc::{AllocError, Global};

/// Closes the innermost bracket, behind no element.
fn shut(alloc: Global, stack: &mut Stack) -> Result<Option<Mode>, AllocError>
    ensures { IfOk result (λ mode. with_mode stack.new mode ≡ shut stack.old) }
{
    match stack.pop() {
        Some(frame) => Ok(Some(Mode::Have(close(alloc, frame)?))),
        None => Ok(None),
    }
}

/// Behind a whole expression.
fn after(
    alloc: Global,
    stack: &mut Stack,
    kept: Kept,
    class: Class,
) -> Result<Option<Mode>, AllocError>
    ensures { IfOk result (λ mode. with_mode stack.new mode ≡ after stack.old kept class) }
{
    match class {
        Class::Opening => {
            stack.push(open(alloc, kept))?;
            Ok(Some(Mode::Starts(true)))
        }
        Class::Comma => match stack.pop() {
            Some(frame) => {
                stack.push(add(frame, kept)?)?;
                Ok(Some(Mode::Gap))
            }
            None => Ok(None),
        },
        Class::Closing => match stack.pop() {
            Some(frame) => {
                let frame = add(frame, kept)?;
                Ok(Some(Mode::Have(close(alloc, frame)?)))
            }
            None => Ok(None),
        },
        _ => Ok(None),
    }
}

/// Where an expression begins.
fn start(
    alloc: Global,
    stack: &mut Stack,
    closes: bool,
    byte: u8,
    class: Class,
) -> Result<Option<Mode>, AllocError>
    requires ascii { byte < 128 }
    requires class { class ≡ kind_of byte }
    ensures { IfOk result (λ mode. with_mode stack.new mode ≡ starts stack.old closes byte class) }
{
    match class {
        Class::Letter => {
            let mut word = Text::new(alloc);
            word.push(char::from(byte))?;
            Ok(Some(Mode::Name(word)))
        }
        Class::Digit => Ok(Some(Mode::Number(Digits::first(false, byte)))),
        Class::Dash => Ok(Some(Mode::Minus)),
        Class::Quote => Ok(Some(Mode::InString(false, Text::new(alloc)))),
        Class::Closing if closes => shut(alloc, stack),
        _ => Ok(None),
    }
}

/// Behind a comma.
fn gap(class: Class) -> Option<Mode>
    ensures { (frames : List Frame) → with_mode frames result ≡ gap frames class }
{
    match class {
        Class::Space => Some(Mode::Starts(false)),
        _ => None,
    }
}

/// Behind a `-`.
fn minus(byte: u8, class: Class) -> Option<Mode>
    requires { class ≡ kind_of byte }
    ensures { (frames : List Frame) → with_mode frames result ≡ minus frames byte class }
{
    match class {
        Class::Digit if byte != b'0' => Some(Mode::Number(Digits::first(true, byte))),
        _ => None,
    }
}

/// Behind a digit.
fn number(
    alloc: Global,
    stack: &mut Stack,
    digits: Digits,
    byte: u8,
    class: Class,
) -> Result<Option<Mode>, AllocError>
    requires { class ≡ kind_of byte }
    ensures { IfOk result (λ mode. with_mode stack.new mode ≡ number stack.old digits byte class) }
{
    match class {
        Class::Digit => Ok(longer(&digits, byte)),
        _ => after(alloc, stack, Kept::Whole(Expr::int(digits.value())), class),
    }
}

/// With one digit more: nothing follows a 0, and no number leaves the range.
fn longer(digits: &Digits, byte: u8) -> Option<Mode>
    requires { kind_of byte ≡ Class.Digit }
    ensures { (frames : List Frame) → with_mode frames result ≡ number frames digits.now byte Class.Digit }
{
    if digits.is_zero() {
        return None;
    }
    Some(Mode::Number(digits.grow(byte)?))
}

/// Within a name.
fn name(
    alloc: Global,
    names: &Names,
    stack: &mut Stack,
    mut word: Text,
    byte: u8,
    class: Class,
) -> Result<Option<Mode>, AllocError>
    requires ascii { byte < 128 }
    requires class { class ≡ kind_of byte }
    ensures { IfOk result (λ mode. with_mode stack.new mode ≡ name (place_in names.now.texts) stack.old word byte class) }
{
    match class {
        Class::Letter | Class::Digit => {
            word.push(char::from(byte))?;
            Ok(Some(Mode::Name(word)))
        }
        _ => after(alloc, stack, named(names, word.as_str()), class),
    }
}

/// Behind a backslash: a quote, a backslash, `n` or `t`.
fn escape(mut text: Text, byte: u8) -> Result<Option<Mode>, AllocError>
    ensures { IfOk result (λ mode. mode ≡ in_text true text byte) }
{
    match byte {
        b'"' => text.push('"')?,
        b'\\' => text.push('\\')?,
        b'n' => text.push('\n')?,
        b't' => text.push('\t')?,
        _ => return Ok(None),
    }
    Ok(Some(Mode::InString(false, text)))
}

/// Another byte of a string. A line feed and a tab stand in no full form but behind a backslash.
fn in_string(mut text: Text, byte: u8) -> Result<Option<Mode>, AllocError>
    requires { byte < 128 }
    ensures { IfOk result (λ mode. mode ≡ in_text false text byte) }
{
    match byte {
        b'"' => Ok(Some(Mode::Have(Kept::Whole(Expr::text(text))))),
        b'\\' => Ok(Some(Mode::InString(true, text))),
        b'\n' | b'\t' => Ok(None),
        _ => {
            text.push(char::from(byte))?;
            Ok(Some(Mode::InString(false, text)))
        }
    }
}

/// After one byte.
fn step(
    alloc: Global,
    names: &Names,
    stack: &mut Stack,
    mode: Mode,
    byte: u8,
) -> Result<Option<Mode>, AllocError>
    requires { byte < 128 }
    ensures { IfOk result (λ next. with_mode stack.new next ≡ step (place_in names.now.texts) byte (stack.old, mode)) }
{
    let class = class_of(byte);
    match mode {
        Mode::Starts(closes) => start(alloc, stack, closes, byte, class),
        Mode::Gap => Ok(gap(class)),
        Mode::Minus => Ok(minus(byte, class)),
        Mode::Number(digits) => number(alloc, stack, digits, byte, class),
        Mode::Name(word) => name(alloc, names, stack, word, byte, class),
        Mode::InString(true, text) => escape(text, byte),
        Mode::InString(false, text) => in_string(text, byte),
        Mode::Have(kept) => after(alloc, stack, kept, class),
    }
}

/// What is whole where the text ends.
pub(crate) fn finish(names: &Names, stack: &Stack, mode: Mode) -> Option<Kept>
    ensures { result ≡ whole (place_in names.now.texts) (stack.now, mode) }
{
    if !stack.is_empty() {
        return None;
    }
    match mode {
        Mode::Number(digits) => Some(Kept::Whole(Expr::int(digits.value()))),
        Mode::Name(word) => Some(named(names, word.as_str())),
        Mode::Have(kept) => Some(kept),
        _ => None,
    }
}

/// The symbol that a name is read as. One whose base is not kept gets a base that no symbol has.
#[tactic(auto, using(crate::proofs::Placed::unplaced))]
fn named(names: &Names, word: &str) -> Kept
    ensures { result ≡ symbol_named (place_in names.now.texts) word.now }
{
    match names.find(word) {
        Some(symbol) => Kept::Whole(Expr::symbol(symbol)),
        None => Kept::Whole(Expr::symbol(Sym {
            base: names.len() as u32,
            number: read_name(word).number,
        })),
    }
}

/// The string that is being read, where no backslash stands before.
fn plain_text(mode: Mode) -> Option<Text>
    ensures { result ≡ plain_text mode }
{
    match mode {
        Mode::InString(escaped, text) => { if escaped { None } else { Some(text) } }
        _ => None,
    }
}

/// After one character.
#[tactic(auto, using(crate::proofs::Over::after_ascii, crate::proofs::Over::wide_goes_on, crate::proofs::Over::wide_stops))]
pub(crate) fn step_over(
    alloc: Global,
    names: &Names,
    stack: &mut Stack,
    mode: Mode,
    character: char,
) -> Result<Option<Mode>, AllocError>
    ensures { IfOk result (λ next. IsAfter (place_in names.now.texts) (encode_utf8 character) (stack.old, mode) (with_mode stack.new next)) }
{
    if character.is_ascii() {
        return step(alloc, names, stack, mode, character as u8);
    }
    match plain_text(mode) {
        Some(mut text) => {
            text.push(character)?;
            Ok(Some(Mode::InString(false, text)))
        }
        None => Ok(None),
    }
}

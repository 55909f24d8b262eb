ghost use Rattle.std.specs.Prelude.{◌≡◌, ◌∷◌, ◌++◌, List, ℕ, true, OnOk, OnErr};
ghost use Rattle.script_text.specs.Bytes.{in_name, is_name, all};
ghost use Rattle.script_text.specs.FullNames.{names_in};
ghost use Rattle.show_form.specs.Words.{blanked, quoted_after, escaped_after, named, names_behind};

use crate::class::{begins_name, is_digit};
use expr_tree::{Text, Texts};
use std::alloc::{AllocError, Global};
use std::mem;

fn is_in_name(byte: u8) -> bool
    ensures { result ≡ in_name byte }
{
    begins_name(byte) || is_digit(byte)
}

fn is_name(word: &str) -> bool
    requires { all in_name word.now ≡ true }
    ensures { result ≡ is_name word.now }
{
    match word.as_bytes().first() {
        Some(byte) => begins_name(*byte),
        None => false,
    }
}

/// Adds a word where it is a name.
fn add_word(word: Text, into: &mut Texts) -> Result<(), AllocError>
    requires { all in_name word ≡ true }
    ensures ok { OnOk result (into.new ≡ into.old ++ named word) }
    ensures err { OnErr result (into.new ≡ into.old) }
{
    if is_name(word.as_str()) {
        into.push(word)
    } else {
        Ok(())
    }
}

/// A byte outside strings, and a quote for one within.
fn blanked(quoted: bool, byte: u8) -> u8
    ensures { result ≡ blanked quoted byte }
{
    if quoted { b'"' } else { byte }
}

/// Whether a string is open behind the byte.
fn quoted_after(quoted: bool, escaped: bool, byte: u8) -> bool
    ensures { result ≡ quoted_after quoted escaped byte }
{
    if quoted {
        byte != b'"' || escaped
    } else {
        byte == b'"'
    }
}

/// Whether the byte is a backslash that takes the next byte with it.
fn escaped_after(quoted: bool, escaped: bool, byte: u8) -> bool
    ensures { result ≡ escaped_after quoted escaped byte }
{
    quoted && !escaped && byte == b'\\'
}

/// Adds a byte to the word, or the word that ends here to the names.
fn add_byte(alloc: Global, word: &mut Text, byte: u8, into: &mut Texts) -> Result<(), AllocError>
    requires { all in_name word.old ≡ true }
    ensures word { OnOk result (all in_name word.new ≡ true) }
    ensures names { OnOk result ((rest : List ℕ) → into.new ++ names_behind word.new rest ≡ into.old ++ names_behind word.old (byte ∷ rest)) }
    ensures before { (more : List (List ℕ)) × (into.new ≡ into.old ++ more) }
{
    if is_in_name(byte) {
        word.push(char::from(byte))
    } else {
        add_word(mem::replace(word, Text::new(alloc)), into)
    }
}

/// Adds the names that stand in the text outside its strings, in order and as they are written. After an Err `into` may have
/// some of them.
pub fn full_names(alloc: Global, text: &str, into: &mut Texts) -> Result<(), AllocError>
    ensures ok { OnOk result (into.new ≡ into.old ++ names_in text.now) }
    ensures before { (more : List (List ℕ)) × (into.new ≡ into.old ++ more) }
{
    let mut quoted = false;
    let mut escaped = false;
    let mut word = Text::new(alloc);
    for byte in text.as_bytes() {
        add_byte(alloc, &mut word, blanked(quoted, *byte), into)?;
        let opens = quoted_after(quoted, escaped, *byte);
        escaped = escaped_after(quoted, escaped, *byte);
        quoted = opens;
    }
    add_word(word, into)
}

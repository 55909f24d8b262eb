//! The text that a string writes.
ghost use Rattle.std.specs.Prelude.{◌≡◌, ◌≢◌, ◌++◌, ℕ, List, true, false, IfOk, encode_utf8};
ghost use Rattle.syntax.specs.Leaves.{unescaped};

use expr_tree::Text;
use std::alloc::{AllocError, Global};

/// What a character behind a backslash stands for.
#[tactic(auto, using(crate::proofs::Escapes::escape_steps))]
fn behind_backslash(character: char) -> char
    ensures { (rest : List ℕ) → unescaped true (encode_utf8 character ++ rest) ≡ encode_utf8 result ++ unescaped false rest }
{
    match character {
        'n' => '\n',
        't' => '\t',
        _ => character,
    }
}

/// Adds what a character of a string stands for, and answers whether it is a backslash that is not escaped.
#[tactic(auto, using(crate::proofs::Escapes::escape_steps))]
fn add_character(text: &mut Text, escape: bool, character: char) -> Result<bool, AllocError>
    requires { escape ≡ false → character ≢ 34 }
    ensures { IfOk result (λ next. (rest : List ℕ) → text.new ++ unescaped next rest ≡ text.old ++ unescaped escape (encode_utf8 character ++ rest)) }
{
    if escape {
        text.push(behind_backslash(character))?;
        return Ok(false);
    }
    if character == '\\' {
        return Ok(true);
    }
    text.push(character)?;
    Ok(false)
}

/// The text in front of the last quote, with its escapes undone.
pub(crate) fn text_of(alloc: Global, quoted: &str) -> Result<Text, AllocError>
    ensures { IfOk result (λ text. text ≡ unescaped false quoted.now) }
{
    let mut text = Text::new(alloc);
    let mut escape = false;
    for character in quoted.chars() {
        if !escape && character == '"' {
            return Ok(text);
        }
        escape = add_character(&mut text, escape, character)?;
    }
    Ok(text)
}

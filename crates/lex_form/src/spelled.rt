//! The names that tokens spell.
ghost use Rattle.std.specs.Prelude.{◌≡◌, ◌++◌, ℕ, List, ◌<◌, ◌≤◌, ◌==◌, map, drop, take, length, OnOk, OnErr, IsAscii};
ghost use Rattle.script_text.specs.Bytes.{run, in_name};
ghost use Rattle.syntax.specs.Tokens as syn;
ghost use Rattle.lex_form.specs.Lexes.{token_of};
ghost use Rattle.lex_form.specs.Scans.{kind_of};
ghost use Rattle.lex_form.specs.Shapes.{IsToken};

use crate::classes::Class;
use crate::leaves::behind;
use crate::token::{Kind, Token, Tokens};
use expr_tree::{Text, Texts};
use std::alloc::{AllocError, Global};
use std::str;

/// Adds ASCII bytes as a text, unless there are none.
#[tactic(auto, using(crate::proofs::CellSteps::name_steps))]
fn add_name(alloc: Global, bytes: &[u8], into: &mut Texts) -> Result<(), AllocError>
    requires { IsAscii bytes.now }
    ensures ok { OnOk result (into.new ≡ into.old ++ syn.nonempty bytes.now) }
    ensures err { OnErr result (into.new ≡ into.old) }
{
    if bytes.is_empty() {
        return Ok(());
    }
    match str::from_utf8(bytes) {
        Ok(name) => into.push(Text::of(alloc, name)?),
        Err(_) => unreachable!(),
    }
}

/// Adds the names of a blank, before its `_` and behind them.
#[tactic(auto, using(crate::proofs::CellSteps::blank_steps))]
fn add_blank(alloc: Global, word: &[u8], into: &mut Texts) -> Result<(), AllocError>
    requires { IsAscii word.now }
    ensures ok { OnOk result (into.new ≡ into.old ++ syn.blank_names word.now) }
{
    let len = Class::InName.run(word);
    let rest = behind(word, len);
    let marks = Class::Underscore.run(rest);
    add_name(alloc, &word[..len], into)?;
    add_name(alloc, behind(rest, marks), into)?;
    Ok(())
}

/// Adds the names of a token.
#[tactic(auto, using(crate::proofs::CellSteps::token_steps))]
fn add_token(alloc: Global, text: &[u8], token: Token, into: &mut Texts) -> Result<(), AllocError>
    requires { IsToken text.now 0 (token_of token) }
    ensures { OnOk result (into.new ≡ into.old ++ syn.token_names (kind_of token.kind) (syn.token_text text.now (token_of token))) }
{
    let word = &text[token.from..token.to];
    match token.kind {
        Kind::Name => add_name(alloc, word, into),
        Kind::Blank => add_blank(alloc, word, into),
        _ => Ok(()),
    }
}

/// Adds the names that tokens spell, in the order of their places. After an Err `into` may have some of them.
pub fn names_of(
    alloc: Global,
    text: &str,
    tokens: &Tokens,
    into: &mut Texts,
) -> Result<(), AllocError>
    requires { map token_of tokens.now ≡ (syn.lex text.now).tokens }
    ensures { OnOk result (into.new ≡ into.old ++ syn.names_in text.now (map token_of tokens.now)) }
{
    let bytes = text.as_bytes();
    for token in tokens.as_slice() {
        add_token(alloc, bytes, *token, into)?;
    }
    Ok(())
}

//! The terminals that tokens stand for.
ghost use Rattle.std.specs.Prelude.{◌≡◌, ◌-◌, get_or, take, drop, IfOk};
ghost use Rattle.script_text.specs.Spelling.{place_in};
ghost use Rattle.syntax.specs.Leaves as leaf;
ghost use Rattle.syntax.specs.Terminals as ter;
ghost use Rattle.syntax.specs.Tokens.{token_names, token_text};
ghost use Rattle.builtin_names.specs.Named.{names_in};
ghost use Rattle.lex_form.specs.Lexes.{token_of};
ghost use Rattle.lex_form.specs.Scans.{kind_of};
ghost use Rattle.lex_form.specs.Shapes.{IsToken, IsQuoted};
ghost use Rattle.phrase_form.specs.Words.{terminal_in, word_in};
ghost use Rattle.read_form.specs.Kept.{AreKeptNames};
ghost use Rattle.read_form.specs.Pieces.{lexeme_at};

use crate::blanks::blank_leaf;
use crate::leaves::{name_leaf, number_leaf, slot_leaf, string_leaf};
use crate::signs::sign_of;
use builtin_names::Vocabulary;
use expr_tree::Expr;
use lex_form::{Kind, Token};
use phrase_form::{Phrase, PhraseKind, Terminal, Word};
use std::alloc::{AllocError, Global};

/// The text of a string.
fn quoted(text: &str, token: Token) -> &str
    requires token { IsToken text.now 0 (token_of token) }
    requires quotes { IsQuoted (token_text text.now (token_of token)) }
    ensures { result.now ≡ token_text text.now (token_of token) }
{
    &text[token.from..token.to]
}

/// An operand to which nothing is added.
fn closed(expr: Expr) -> Word
    ensures { word_in result ≡ ter.Value (record { expr = expr; kind = ter.Closed }) }
{
    Word::Value(Phrase {
        expr,
        kind: PhraseKind::Closed,
    })
}

/// What a token is by itself.
fn word_of(alloc: Global, names: &Vocabulary, text: &str, token: Token) -> Result<Word, AllocError>
    requires token { IsToken text.now 0 (token_of token) }
    requires kept { AreKeptNames names.now.texts (token_names (kind_of token.kind) (token_text text.now (token_of token))) }
    ensures { IfOk result (λ word. word_in word ≡ ter.word_of (names_in names.now) (place_in names.now.texts) (kind_of token.kind) (token_text text.now (token_of token))) }
{
    let word = &text.as_bytes()[token.from..token.to];
    match token.kind {
        Kind::Number => Ok(Word::Value(Phrase {
            expr: number_leaf(word),
            kind: PhraseKind::NumberToken,
        })),
        Kind::Name => Ok(Word::Value(Phrase {
            expr: name_leaf(names, word),
            kind: PhraseKind::NameToken,
        })),
        Kind::Blank => Ok(closed(blank_leaf(alloc, names, word)?)),
        Kind::Str => Ok(closed(string_leaf(alloc, quoted(text, token))?)),
        Kind::Slot => Ok(closed(slot_leaf(alloc, names, word)?)),
        Kind::Operator => Ok(Word::Mark(sign_of(word))),
    }
}

/// Whether a line feed stands in a text.
fn has_feed(text: &[u8]) -> bool
    ensures { result ≡ leaf.has_feed text.now }
{
    for byte in text {
        if *byte == b'\n' {
            return true;
        }
    }
    false
}

/// The terminal of a token, where the one before ends at a place.
pub(crate) fn terminal_of(
    alloc: Global,
    names: &Vocabulary,
    text: &str,
    at: usize,
    token: Token,
) -> Result<Terminal, AllocError>
    requires token { IsToken text.now at (token_of token) }
    requires kept { AreKeptNames names.now.texts (token_names (kind_of token.kind) (token_text text.now (token_of token))) }
    ensures { IfOk result (λ terminal. terminal_in terminal ≡ ter.terminal (names_in names.now) (place_in names.now.texts) (lexeme_at text.now at (token_of token))) }
{
    let word = word_of(alloc, names, text, token)?;
    let after_line = has_feed(&text.as_bytes()[at..token.from]);
    Ok(Terminal { word, after_line })
}

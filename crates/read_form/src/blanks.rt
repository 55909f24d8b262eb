//! The patterns that blanks stand for.
ghost use Rattle.std.specs.Prelude.{◌≡◌, ◌≤◌, ◌==◌, length, drop, IfOk, IsAscii};
ghost use Rattle.expr_tree.specs.Tree.{size, depth};
ghost use Rattle.script_text.specs.Bytes.{in_name, run};
ghost use Rattle.script_text.specs.Spelling.{place_in};
ghost use Rattle.syntax.specs.Leaves as leaf;
ghost use Rattle.syntax.specs.Tokens.{blank_names, nonempty};
ghost use Rattle.builtin_names.specs.Named.{names_in};
ghost use Rattle.read_form.specs.Kept.{AreKeptNames};

use crate::forms::{form, one, two};
use crate::leaves::name_leaf;
use builtin_names::Vocabulary;
use expr_tree::{Expr, Exprs};
use item_list::Items;
use semantics::Builtin;
use std::alloc::{AllocError, Global};

fn in_name(byte: u8) -> bool
    ensures { result ≡ in_name byte }
{
    byte.is_ascii_lowercase() || byte.is_ascii_uppercase() || byte == b'$' || byte.is_ascii_digit()
}

/// How many bytes at the front may stand in a name.
fn name_len(word: &[u8]) -> usize
    ensures len { result ≡ run in_name word.now }
    ensures within { result ≤ length word.now }
{
    let mut len = 0;
    for byte in word {
        if !in_name(*byte) {
            return len;
        }
        len += 1;
    }
    len
}

/// How many `_` stand at the front.
fn marks_at_front(word: &[u8]) -> usize
    ensures len { result ≡ run (λ c. c == 95) word.now }
    ensures within { result ≤ length word.now }
{
    let mut marks = 0;
    for byte in word {
        if *byte != b'_' {
            return marks;
        }
        marks += 1;
    }
    marks
}

/// The row of so many `_`.
fn blank_row(marks: usize) -> Builtin
    ensures { result ≡ leaf.blank_row marks }
{
    if marks == 1 {
        Builtin::Blank
    } else if marks == 2 {
        Builtin::BlankSequence
    } else {
        Builtin::BlankNullSequence
    }
}

/// The head that is asked for behind the `_`, if there is one.
#[tactic(auto, using(crate::proofs::BlankParts::blank_steps))]
fn head_of(alloc: Global, names: &Vocabulary, word: &[u8]) -> Result<Exprs, AllocError>
    requires ascii { IsAscii word.now }
    requires kept { AreKeptNames names.now.texts (nonempty word.now) }
    ensures { IfOk result (λ items. items ≡ leaf.blank_head (names_in names.now) (place_in names.now.texts) word.now) }
{
    if word.is_empty() {
        return Ok(Items::new(alloc));
    }
    one(alloc, name_leaf(names, word))
}

/// The pattern under the name in front of the `_`, if there is one.
#[tactic(auto, using(crate::proofs::BlankParts::blank_steps))]
fn named(alloc: Global, names: &Vocabulary, word: &[u8], pattern: Expr) -> Result<Expr, AllocError>
    requires ascii { IsAscii word.now }
    requires kept { AreKeptNames names.now.texts (nonempty word.now) }
    requires small { size pattern ≤ 5 }
    requires shallow { depth pattern ≤ 5 }
    ensures { IfOk result (λ e. e ≡ leaf.named (names_in names.now) (place_in names.now.texts) word.now pattern) }
{
    if word.is_empty() {
        return Ok(pattern);
    }
    let items = two(alloc, name_leaf(names, word), pattern)?;
    form(alloc, names, Builtin::Pattern, items)
}

/// What a blank stands for.
#[tactic(auto, using(crate::proofs::BlankParts::blank_steps))]
pub(crate) fn blank_leaf(alloc: Global, names: &Vocabulary, word: &[u8]) -> Result<Expr, AllocError>
    requires ascii { IsAscii word.now }
    requires kept { AreKeptNames names.now.texts (blank_names word.now) }
    ensures { IfOk result (λ e. e ≡ leaf.blank_leaf (names_in names.now) (place_in names.now.texts) word.now) }
{
    let len = name_len(word);
    let rest = &word[len..];
    let marks = marks_at_front(rest);
    let head = head_of(alloc, names, &rest[marks..])?;
    let blank = form(alloc, names, blank_row(marks), head)?;
    named(alloc, names, &word[..len], blank)
}

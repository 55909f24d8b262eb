//! The expressions that tokens stand for.
ghost use Rattle.std.specs.Prelude.{◌≡◌, ◌<◌, ◌^◌, ◌∷◌, [], length, get_or, pos, IfOk, IsAscii};
ghost use Rattle.expr_tree.specs.Tree.{integer};
ghost use Rattle.script_text.specs.Bytes.{begins_with, number_after};
ghost use Rattle.script_text.specs.Spelling.{place_in, spelled};
ghost use Rattle.semantics.specs.Names as n;
ghost use Rattle.syntax.specs.Leaves as leaf;
ghost use Rattle.builtin_names.specs.Named.{names_in};
ghost use Rattle.lex_form.specs.Shapes.{slot_number};

use crate::forms::{form, one};
use crate::numbers::{integer_of, integer_or_one};
use crate::strings::text_of;
use builtin_names::Vocabulary;
use expr_tree::Expr;
use semantics::Builtin;
use std::alloc::{AllocError, Global};
use std::str;

/// The integer that a number token writes.
pub(crate) fn number_leaf(digits: &[u8]) -> Expr
    requires { number_after 0 digits.now < 2 ^ 127 }
    ensures { result ≡ leaf.number_leaf digits.now }
{
    Expr::int(integer_of(digits))
}

/// The string that a token writes, from its first quote on.
pub(crate) fn string_leaf(alloc: Global, word: &str) -> Result<Expr, AllocError>
    requires { get_or word.now 0 0 ≡ 34 }
    ensures { IfOk result (λ e. e ≡ leaf.string_leaf word.now) }
{
    let text = text_of(alloc, &word[1..])?;
    Ok(Expr::text(text.shared(alloc)?))
}

/// The symbol that a name is read as.
pub(crate) fn name_leaf(names: &Vocabulary, word: &[u8]) -> Expr
    requires ascii { IsAscii word.now }
    requires kept { place_in names.now.texts (spelled word.now).base < length names.now.texts }
    ensures { result ≡ leaf.name_leaf (names_in names.now) (place_in names.now.texts) word.now }
{
    match str::from_utf8(word) {
        Ok(name) => match names.names().find(name) {
            Some(symbol) => Expr::symbol(symbol),
            None => unreachable!(),
        },
        Err(_) => unreachable!(),
    }
}

/// The form of a slot: its row, and the number that the digits write.
fn slot(alloc: Global, names: &Vocabulary, row: Builtin, digits: &[u8]) -> Result<Expr, AllocError>
    requires number { leaf.number_or_one digits.now < 2 ^ 127 }
    ensures { IfOk result (λ e. e ≡ n.make (names_in names.now) row (integer (pos (leaf.number_or_one digits.now)) ∷ [])) }
{
    let items = one(alloc, Expr::int(integer_or_one(digits)))?;
    form(alloc, names, row, items)
}

/// What a slot token stands for.
pub(crate) fn slot_leaf(alloc: Global, names: &Vocabulary, word: &[u8]) -> Result<Expr, AllocError>
    requires some { 0 < length word.now }
    requires number { slot_number word.now < 2 ^ 127 }
    ensures { IfOk result (λ e. e ≡ leaf.slot_leaf (names_in names.now) (place_in names.now.texts) word.now) }
{
    if begins_with(word, b"##") {
        slot(alloc, names, Builtin::SlotSequence, &word[2..])
    } else {
        slot(alloc, names, Builtin::Slot, &word[1..])
    }
}

/// Whether the text begins with the other.
fn begins_with(text: &[u8], other: &[u8]) -> bool
    ensures { result ≡ begins_with other.now text.now }
{
    text.starts_with(other)
}

//! The rows, one function each.
ghost use Rattle.std.specs.Prelude.{◌≡◌, ◌++◌, IfOk, length, map, chars, encode_utf8, encode_utf8_all};
ghost use Rattle.std.specs.Option.{option_map};
ghost use Rattle.expr_tree.specs.Tree.{string};
ghost use Rattle.semantics.specs.Strings as s;
ghost use Rattle.builtin_names.specs.Named.{names_in};
ghost use Rattle.builtin_names.specs.Results.{Works};
ghost use Rattle.rows_strings.specs.TextOf.{text_of};

use builtin_names::{Fault, Vocabulary, make};
use expr_tree::{Expr, Exprs, Node, Text};
use item_list::Items;
use semantics::Builtin;
use std::alloc::{AllocError, Global};

/// The texts one after the other, where all elements are strings.
#[tactic(auto, using(crate::proofs::Texts::join_steps))]
fn joined(alloc: Global, items: &[Expr]) -> Result<Option<Text>, AllocError>
    ensures { IfOk result (λ o. o ≡ s.join_texts items.now) }
{
    let mut text = Text::new(alloc);
    for item in items {
        let Some(more) = text_of(item) else {
            return Ok(None);
        };
        text.append(more.as_str())?;
    }
    Ok(Some(text))
}

/// The text of a string.
fn text_of(e: &Expr) -> Option<&Text>
    ensures { option_map (λ t. t.now) result ≡ text_of e.now }
{
    match e.node() {
        Node::Str(text) => Some(text),
        _ => None,
    }
}

/// `StringJoin`.
pub fn row_string_join(alloc: Global, items: &Exprs) -> Result<Option<Expr>, Fault>
    ensures { Works (s.string_join items.now) result }
{
    match joined(alloc, items.as_slice())? {
        Some(text) => Ok(Some(Expr::text(text.shared(alloc)?))),
        None => Ok(None),
    }
}

/// The characters of a text.
fn characters_of(alloc: Global, text: &str) -> Result<Vec<char>, AllocError>
    ensures { IfOk result (λ cs. cs.items ≡ chars text.now) }
{
    text.chars().collect(alloc)
}

/// `StringLength`.
pub fn row_string_length(alloc: Global, items: &Exprs) -> Result<Option<Expr>, Fault>
    ensures { Works (s.string_length items.now) result }
{
    let [e] = items.as_slice() else {
        return Ok(None);
    };
    let Node::Str(text) = e.node() else {
        return Ok(None);
    };
    let characters = characters_of(alloc, text.as_str())?;
    Ok(Some(Expr::int(characters.len() as i128)))
}

/// A string of one character.
fn of_character(alloc: Global, c: char) -> Result<Expr, AllocError>
    ensures { IfOk result (λ e. e ≡ string (encode_utf8 c)) }
{
    let mut text = Text::new(alloc);
    text.push(c)?;
    Ok(Expr::text(text.shared(alloc)?))
}

fn strings_of(alloc: Global, characters: &[char]) -> Result<Exprs, AllocError>
    ensures { IfOk result (λ es. es ≡ map (λ c. string (encode_utf8 c)) characters.now) }
{
    let mut made = Items::new(alloc);
    for c in characters {
        made.push(of_character(alloc, *c)?)?;
    }
    Ok(made)
}

/// `Characters`.
pub fn row_characters(
    alloc: Global,
    names: &Vocabulary,
    items: &Exprs,
) -> Result<Option<Expr>, Fault>
    ensures { Works (s.characters (names_in names.now) items.now) result }
{
    let [e] = items.as_slice() else {
        return Ok(None);
    };
    let Node::Str(text) = e.node() else {
        return Ok(None);
    };
    let characters = characters_of(alloc, text.as_str())?;
    let made = strings_of(alloc, characters.as_slice())?;
    Ok(Some(make(alloc, names, Builtin::List, made)?))
}

fn text_with(alloc: Global, characters: &[char]) -> Result<Text, AllocError>
    ensures { IfOk result (λ t. t ≡ encode_utf8_all characters.now) }
{
    let mut text = Text::new(alloc);
    for c in characters {
        text.push(*c)?;
    }
    text.shared(alloc)
}

/// `StringReverse`.
pub fn row_string_reverse(alloc: Global, items: &Exprs) -> Result<Option<Expr>, Fault>
    ensures { Works (s.string_reverse items.now) result }
{
    let [e] = items.as_slice() else {
        return Ok(None);
    };
    let Node::Str(text) = e.node() else {
        return Ok(None);
    };
    let mut characters = characters_of(alloc, text.as_str())?;
    characters.reverse();
    Ok(Some(Expr::text(text_with(alloc, characters.as_slice())?)))
}

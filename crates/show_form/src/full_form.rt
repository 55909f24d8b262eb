ghost use Rattle.std.specs.Prelude.{◌≡◌, ◌++◌, encode_utf8, IfOk, OnOk};
ghost use Rattle.expr_tree.specs.Tree.{trees};
ghost use Rattle.script_text.specs.Full.{full, full_items, full_others, quoted, all_escaped};
ghost use Rattle.script_text.specs.Spelling.{by_texts, symbol_text};
ghost use Rattle.show_form.specs.Parts.{comma};

use expr_tree::{Expr, Node, Sym, Text};
use itoa::Buffer;
use name_table::Names;
use std::alloc::{AllocError, Global};

/// The full form of an expression.
pub fn full(alloc: Global, e: &Expr, names: &Names) -> Result<Text, AllocError>
    ensures { IfOk result (λ text. text ≡ full (by_texts names.now.texts) e.now) }
{
    let mut buffer = Text::new(alloc);
    put_full(&mut buffer, e, names)?;
    Ok(buffer)
}

/// Appends the full form.
#[cycle(put)]
#[tactic(auto, using(expr_tree::proofs::Callers::tree_steps, crate::proofs::Elements::part_steps))]
fn put_full(buffer: &mut Text, e: &Expr, names: &Names) -> Result<(), AllocError>
    ensures { OnOk result (buffer.new ≡ buffer.old ++ full (by_texts names.now.texts) e.now) }
{
    match e.node() {
        Node::Int(value) => buffer.append(Buffer::new().format(*value)),
        Node::Str(text) => put_quoted(buffer, text),
        Node::Symbol(symbol) => put_symbol(buffer, *symbol, names),
        Node::Normal(head, items) => {
            put_full(buffer, head, names)?;
            buffer.append("[")?;
            put_items(buffer, items.as_slice(), names)?;
            buffer.append("]")
        }
    }
}

/// Appends the full forms of elements, with a comma and a space between them.
#[cycle(put)]
#[tactic(auto, using(expr_tree::proofs::Callers::tree_steps, crate::proofs::Elements::part_steps))]
fn put_items(buffer: &mut Text, items: &[Expr], names: &Names) -> Result<(), AllocError>
    ensures { OnOk result (buffer.new ≡ buffer.old ++ full_items (by_texts names.now.texts) (trees items.now)) }
{
    for (i, item) in items.iter().enumerate() {
        put_comma(buffer, i)?;
        put_full(buffer, item, names)?;
    }
    Ok(())
}

/// Appends what stands in front of the element at a place.
fn put_comma(buffer: &mut Text, i: usize) -> Result<(), AllocError>
    ensures { OnOk result (buffer.new ≡ buffer.old ++ comma i) }
{
    if i == 0 { Ok(()) } else { buffer.append(", ") }
}

/// Appends the text of a symbol.
fn put_symbol(buffer: &mut Text, symbol: Sym, names: &Names) -> Result<(), AllocError>
    ensures { OnOk result (buffer.new ≡ buffer.old ++ symbol_text (by_texts names.now.texts) symbol) }
{
    buffer.append(names.base_text(symbol.base))?;
    if symbol.number == 0 {
        return Ok(());
    }
    buffer.append("$")?;
    buffer.append(Buffer::new().format(symbol.number))
}

/// Appends a text between quotes, with its escapes.
fn put_quoted(buffer: &mut Text, text: &Text) -> Result<(), AllocError>
    ensures { OnOk result (buffer.new ≡ buffer.old ++ quoted text.now) }
{
    buffer.append("\"")?;
    put_escaped(buffer, text.as_str())?;
    buffer.append("\"")
}

/// Appends a text with its escapes.
fn put_escaped(buffer: &mut Text, text: &str) -> Result<(), AllocError>
    ensures { OnOk result (buffer.new ≡ buffer.old ++ all_escaped text.now) }
{
    for c in text.chars() {
        put_char(buffer, c)?;
    }
    Ok(())
}

/// Appends a character of a string.
#[tactic(auto, using(crate::proofs::Characters::char_steps))]
fn put_char(buffer: &mut Text, c: char) -> Result<(), AllocError>
    ensures { OnOk result (buffer.new ≡ buffer.old ++ all_escaped (encode_utf8 c)) }
{
    match c {
        '"' => buffer.append("\\\""),
        '\\' => buffer.append("\\\\"),
        '\n' => buffer.append("\\n"),
        '\t' => buffer.append("\\t"),
        other => buffer.push(other),
    }
}

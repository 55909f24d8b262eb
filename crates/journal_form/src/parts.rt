//! What events are written of.
ghost use Rattle.std.specs.Prelude.{◌≡◌, ◌++◌, OnOk};
ghost use Rattle.std.specs.Fmt.{decimal};
ghost use Rattle.script_text.specs.Full.{full, quoted};
ghost use Rattle.script_text.specs.Spelling.{by_texts, symbol_text};
ghost use Rattle.journal.specs.Lines.{ids_text, locks_text};

use expr_tree::{Expr, Sym, Text};
use itoa::Buffer;
use name_table::Names;
use show_form::full;
use std::alloc::{AllocError, Global};

/// Appends the full form of an expression.
pub(crate) fn put_full(
    alloc: Global,
    text: &mut Text,
    e: &Expr,
    names: &Names,
) -> Result<(), AllocError>
    ensures { OnOk result (text.new ≡ text.old ++ full (by_texts names.now.texts) e.now) }
{
    let shown = full(alloc, e, names)?;
    text.append(shown.as_str())
}

/// Appends a text as a string.
pub(crate) fn put_quoted(
    alloc: Global,
    text: &mut Text,
    printed: &Text,
    names: &Names,
) -> Result<(), AllocError>
    ensures { OnOk result (text.new ≡ text.old ++ quoted printed.now) }
{
    let string = Expr::text(printed.copy(alloc)?);
    put_full(alloc, text, &string, names)
}

/// Appends the text of a symbol.
fn put_symbol(alloc: Global, text: &mut Text, symbol: Sym, names: &Names) -> Result<(), AllocError>
    ensures { OnOk result (text.new ≡ text.old ++ symbol_text (by_texts names.now.texts) symbol) }
{
    put_full(alloc, text, &Expr::symbol(symbol), names)
}

/// Appends a number.
pub(crate) fn put_number(text: &mut Text, number: u64) -> Result<(), AllocError>
    ensures { OnOk result (text.new ≡ text.old ++ decimal number) }
{
    text.append(Buffer::new().format(number))
}

/// Appends a number behind what stands in front of it.
pub(crate) fn put_counted(text: &mut Text, front: &str, number: u64) -> Result<(), AllocError>
    ensures { OnOk result (text.new ≡ text.old ++ front.now ++ decimal number) }
{
    text.append(front)?;
    put_number(text, number)
}

/// Appends ids, each with a space in front.
pub(crate) fn put_ids(text: &mut Text, ids: &[u64]) -> Result<(), AllocError>
    ensures { OnOk result (text.new ≡ text.old ++ ids_text ids.now) }
{
    for id in ids {
        put_counted(text, " ", *id)?;
    }
    Ok(())
}

/// Appends the texts of locks, each with a space in front.
pub(crate) fn put_locks(
    alloc: Global,
    text: &mut Text,
    locks: &[Sym],
    names: &Names,
) -> Result<(), AllocError>
    ensures { OnOk result (text.new ≡ text.old ++ locks_text (by_texts names.now.texts) locks.now) }
{
    for lock in locks {
        text.append(" ")?;
        put_symbol(alloc, text, *lock, names)?;
    }
    Ok(())
}

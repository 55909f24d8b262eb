//! The lines of entries.
ghost use Rattle.std.specs.Prelude.{◌≡◌, ◌++◌, map, IfOk, OnOk, OnErr};
ghost use Rattle.script_text.specs.Spelling.{by_texts};
ghost use Rattle.journal.specs.Lines.{entry_line, journal_text};

use crate::event::put_event;
use crate::parts::{put_counted, put_number};
use expr_tree::Text;
use journal::Entry;
use master_core::Journal;
use name_table::Names;
use std::alloc::{AllocError, Global};

/// The line of the entry with this number, with its line feed.
pub fn entry_line(
    alloc: Global,
    number: u64,
    entry: &Entry,
    names: &Names,
) -> Result<Text, AllocError>
    ensures { IfOk result (λ line. line ≡ entry_line (by_texts names.now.texts) number entry.now) }
{
    let mut line = Text::new(alloc);
    put_number(&mut line, number)?;
    put_counted(&mut line, " ", entry.kernel as u64)?;
    line.append(" ")?;
    put_event(alloc, &mut line, &entry.event, names)?;
    line.append("\n")?;
    Ok(line)
}

/// Appends the line of the entry with this number. An `Err` appends nothing.
pub fn put_entry(
    alloc: Global,
    text: &mut Text,
    number: u64,
    entry: &Entry,
    names: &Names,
) -> Result<(), AllocError>
    ensures ok { OnOk result (text.new ≡ text.old ++ entry_line (by_texts names.now.texts) number entry.now) }
    ensures err { OnErr result (text.new ≡ text.old) }
{
    let line = entry_line(alloc, number, entry, names)?;
    text.append(line.as_str())
}

/// The lines of entries, which are numbered from 1.
pub fn entries_text(alloc: Global, entries: &[Entry], names: &Names) -> Result<Text, AllocError>
    ensures { IfOk result (λ text. text ≡ journal_text (by_texts names.now.texts) entries.now) }
{
    let mut text = Text::new(alloc);
    for (i, entry) in entries.iter().enumerate() {
        put_entry(alloc, &mut text, i as u64 + 1, entry, names)?;
    }
    Ok(text)
}

/// The lines of the entries that a book keeps.
#[tactic(auto, using(crate::proofs::Lines::lines_end))]
pub fn journal_text(alloc: Global, journal: &Journal, names: &Names) -> Result<Text, AllocError>
    ensures { IfOk result (λ text. text ≡ journal_text (by_texts names.now.texts) (map (λ p. p.entry) journal.now.posted)) }
{
    let mut text = Text::new(alloc);
    for at in 0..journal.len() {
        match journal.get(at) {
            Some(entry) => put_entry(alloc, &mut text, at as u64 + 1, entry, names)?,
            None => {}
        }
    }
    Ok(text)
}

//! The text of an event.
ghost use Rattle.std.specs.Prelude.{◌≡◌, ◌++◌, OnOk};
ghost use Rattle.script_text.specs.Spelling.{by_texts};
ghost use Rattle.journal.specs.Lines.{event_text, loss_text, wait_text};

use crate::parts::{put_counted, put_full, put_ids, put_locks, put_quoted};
use expr_tree::Text;
use journal::{Event, Loss, Wait};
use name_table::Names;
use std::alloc::{AllocError, Global};

/// Why a kernel was lost.
fn loss_text(loss: Loss) -> &'static str
    ensures { result.now ≡ loss_text loss }
{
    match loss {
        Loss::Plan => "Plan",
        Loss::Quit => "Quit",
        Loss::NotStarted => "NotStarted",
    }
}

/// Appends what the master waits for.
fn put_wait(alloc: Global, text: &mut Text, wait: &Wait, names: &Names) -> Result<(), AllocError>
    ensures { OnOk result (text.new ≡ text.old ++ wait_text (by_texts names.now.texts) wait.now) }
{
    match wait {
        Wait::All(ids) => {
            text.append("All")?;
            put_ids(text, ids.as_slice())
        }
        Wait::Next(ids) => {
            text.append("Next")?;
            put_ids(text, ids.as_slice())
        }
        Wait::Try(ids) => {
            text.append("Try")?;
            put_ids(text, ids.as_slice())
        }
        Wait::Locks(locks) => {
            text.append("Locks")?;
            put_locks(alloc, text, locks.as_slice(), names)
        }
    }
}

/// Appends the text of an event.
pub(crate) fn put_event(
    alloc: Global,
    text: &mut Text,
    event: &Event,
    names: &Names,
) -> Result<(), AllocError>
    ensures { OnOk result (text.new ≡ text.old ++ event_text (by_texts names.now.texts) event.now) }
{
    match event {
        Event::Submit(id) => put_counted(text, "Submit ", *id),
        Event::Yield(wait) => {
            text.append("Yield ")?;
            put_wait(alloc, text, wait, names)
        }
        Event::Resume => text.append("Resume"),
        Event::Take(id) => put_counted(text, "Take ", *id),
        Event::Access(sent, reply) => {
            text.append("Access ")?;
            put_full(alloc, text, sent, names)?;
            text.append(" | ")?;
            put_full(alloc, text, reply, names)
        }
        Event::Ask(count) => put_counted(text, "Ask ", *count as u64),
        Event::Print(printed) => {
            text.append("Print ")?;
            put_quoted(alloc, text, printed, names)
        }
        Event::Enter(locks) => {
            text.append("Enter")?;
            put_locks(alloc, text, locks.as_slice(), names)
        }
        Event::Leave => text.append("Leave"),
        Event::Deliver(id, value) => {
            put_counted(text, "Deliver ", *id)?;
            text.append(" ")?;
            put_full(alloc, text, value, names)
        }
        Event::Lose(loss) => {
            text.append("Lose ")?;
            text.append(loss_text(*loss))
        }
        Event::Close => text.append("Close"),
    }
}

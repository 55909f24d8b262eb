//! What entries do to items.
ghost use Rattle.std.specs.Prelude.{◌≡◌, ℕ, ◌++◌, true, Option, OnOk, OnErr};
ghost use Rattle.journal.specs.declared.event.Event.TheVariants.{Deliver, Resume};
ghost use Rattle.journal.specs.declared.event.Wait.{Wait as Waits};
ghost use Rattle.journal.specs.Places.{each_from};
ghost use Rattle.journal.specs.Core.{Setup, queued_after, ids_given, runs_or_dropped};
ghost use Rattle.eval_queue.specs.Items.{status_at};
ghost use Rattle.master_core.specs.Joined.{items_of, is_run, dropped_one, dropped_all};

use dist_bundle::Bundle;
use eval_queue::{Queue, State as Status};
use expr_tree::Expr;
use journal::Wait;
use std::alloc::AllocError;

fn runs(queue: &Queue<Bundle>, id: u64) -> bool
    ensures { result ≡ is_run (status_at queue.now id) }
{
    match queue.state(id) {
        Some(Status::Running(_)) => true,
        _ => false,
    }
}

/// The item gets its result, unless it was dropped.
pub fn finish(
    queue: &mut Queue<Bundle>,
    finished: &mut Vec<u64>,
    kernel: u32,
    id: u64,
    value: Expr,
) -> Result<(), AllocError>
    requires { runs_or_dropped kernel (status_at queue.old id) ≡ true }
    ensures items { OnOk result ((set : Setup) (w : Option Waits) → items_of queue.new ≡ each_from 1 (queued_after set w kernel (Deliver id value)) (items_of queue.old)) }
    ensures ids { OnOk result ((set : Setup) → finished.new.items ≡ finished.old.items ++ ids_given set kernel (Deliver id value) 1 (items_of queue.old)) }
    ensures err { OnErr result ((queue.new ≡ queue.old) × (finished.new.items ≡ finished.old.items)) }
{
    if runs(queue, id) {
        finished.push(id)?;
        queue.finish(id, kernel, value);
    }
    Ok(())
}

/// The item is dropped, unless it is done.
fn drop_one(queue: &mut Queue<Bundle>, id: u64)
    ensures { queue.new ≡ each_from 1 (dropped_one id) queue.old }
{
    let Some(status) = queue.state(id) else {
        return;
    };
    match status {
        Status::Done(_) => {}
        Status::Waiting => queue.drop_item(id),
        Status::Running(_) => queue.drop_item(id),
        Status::Dropped => {}
    }
}

fn drop_all(queue: &mut Queue<Bundle>, ids: &[u64])
    ensures { queue.new ≡ each_from 1 (dropped_all ids.now) queue.old }
{
    for id in ids {
        drop_one(queue, *id);
    }
}

/// What the end of a wait does to items.
pub fn drop_items(queue: &mut Queue<Bundle>, wait: &Option<Wait>)
    ensures { (set : Setup) → items_of queue.new ≡ each_from 1 (queued_after set wait.now 0 Resume) (items_of queue.old) }
{
    match wait {
        Some(Wait::Try(ids)) => drop_all(queue, ids.as_slice()),
        Some(Wait::All(_)) => {}
        Some(Wait::Next(_)) => {}
        Some(Wait::Locks(_)) => {}
        None => {}
    }
}

//! What a loss does to items.
ghost use Rattle.std.specs.Prelude.{◌≡◌, [], Some};
ghost use Rattle.expr_tree.specs.Tree.{symbol};
ghost use Rattle.journal.specs.declared.item.Item.TheVariants.{Batch};
ghost use Rattle.journal.specs.declared.item.Status.TheVariants.{Running};
ghost use Rattle.journal.specs.Places.{each_from};
ghost use Rattle.eval_queue.specs.Items.{kept_at, status_at, with_status};
ghost use Rattle.requeue_core.specs.Fates.{waiting_fate, running_fate, fate_in, CanBecome, returned, settled_at, spent_at, walked};

use eval_queue::Queue;
use expr_tree::{Expr, Sym};
use journal::{Item, Status};

/// What becomes of an item where a kernel is lost.
#[derive(Clone, Copy, Debug)]
pub enum Fate {
    Stays,
    /// It waits again, or is abandoned.
    Returns,
    /// It fails, and waits as yet.
    FailsWaiting,
    /// It fails, and runs on this kernel as yet.
    FailsRunning(u32),
}

fn waiting_fate(item: &Item, k: u32) -> Fate
    ensures { result ≡ waiting_fate k item.now }
{
    match item {
        Item::Plain(_) => Fate::Stays,
        Item::Batch(_) => Fate::Stays,
        Item::Pinned(own, _) => {
            if *own == k {
                Fate::FailsWaiting
            } else {
                Fate::Stays
            }
        }
    }
}

fn returning(on: u32, k: u32) -> Fate
    ensures { result ≡ running_fate k (Batch []) on }
{
    if on == k { Fate::Returns } else { Fate::Stays }
}

fn running_fate(item: &Item, on: u32, k: u32) -> Fate
    ensures { result ≡ running_fate k item.now on }
{
    match item {
        Item::Plain(_) => returning(on, k),
        Item::Batch(_) => returning(on, k),
        Item::Pinned(own, _) => {
            if *own == k {
                Fate::FailsRunning(on)
            } else {
                Fate::Stays
            }
        }
    }
}

#[tactic(auto, using(crate::proofs::Fated::can_become))]
fn fate_of(item: &Item, status: &Status, k: u32) -> Fate
    ensures value { result ≡ fate_in k item.now status.now }
    ensures can { CanBecome k result status.now }
{
    match status {
        Status::Waiting => waiting_fate(item, k),
        Status::Running(on) => running_fate(item, *on, k),
        Status::Done(_) => Fate::Stays,
        Status::Dropped => Fate::Stays,
    }
}

/// The item, which the kernel runs, gets the value that is left, or waits again.
fn return_item<T: Drop>(queue: &mut Queue<T>, id: u64, k: u32, left: Option<Expr>)
    requires { status_at queue.old id ≡ Some (Running k) }
    ensures { queue.new ≡ with_status id (returned left) queue.old }
{
    match left {
        Some(value) => queue.finish(id, k, value),
        None => queue.give_back(id, k),
    }
}

/// What a loss of the kernel does to the item of an id. An item that would wait again gets the value that is left, if there is one; what
/// is then left is given back.
fn settle<T: Drop>(
    queue: &mut Queue<T>,
    id: u64,
    k: u32,
    failed: Sym,
    left: Option<Expr>,
) -> Option<Expr>
    ensures items { queue.new ≡ each_from 1 (settled_at id (symbol failed) left k) queue.old }
    ensures left { result ≡ spent_at k (kept_at queue.old id) left }
{
    let Some(item) = queue.item(id) else {
        return left;
    };
    let Some(status) = queue.state(id) else {
        return left;
    };
    match fate_of(item, status, k) {
        Fate::Stays => left,
        Fate::Returns => {
            return_item(queue, id, k, left);
            None
        }
        Fate::FailsWaiting => {
            queue.take(id, k);
            queue.finish(id, k, Expr::symbol(failed));
            left
        }
        Fate::FailsRunning(on) => {
            queue.finish(id, on, Expr::symbol(failed));
            left
        }
    }
}

/// The same of all items.
pub fn settle_all<T: Drop>(queue: &mut Queue<T>, k: u32, failed: Sym, left: Option<Expr>)
    ensures { queue.new ≡ walked (symbol failed) k left queue.old }
{
    let mut left = left;
    for place in 0..queue.count() {
        left = settle(queue, place + 1, k, failed, left);
    }
}

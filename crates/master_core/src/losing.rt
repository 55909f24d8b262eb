//! What the loss of a kernel gives.
ghost use Rattle.std.specs.Prelude.{◌≡◌, ℕ, ◌++◌, ◌&&◌, map, replicate, Some, IfOk, OnOk};
ghost use Rattle.std.specs.Option.{option_to_list};
ghost use Rattle.expr_tree.specs.Tree.{symbol};
ghost use Rattle.journal.specs.declared.item.Status.TheVariants.{Running};
ghost use Rattle.journal.specs.Core as core;
ghost use Rattle.eval_queue.specs.Items.{item_at, status_at};
ghost use Rattle.requeue_core.specs.Losses.{handed};
ghost use Rattle.master_core.specs.Losing.{abandons, gets, given_at, shared_at, ids_lost, with_given, IsOn};

use dist_bundle::Bundle;
use eval_queue::{Queue, State as Status};
use expr_tree::{Expr, Exprs, Sym};
use item_list::Items;
use journal::{Item, Recover};
use std::alloc::{AllocError, Global};

/// What a loss does to the item that the kernel runs, and the symbols of the values that it gives.
#[derive(Clone, Copy)]
pub struct Terms {
    pub recovery: Recover,
    pub failed: Sym,
    pub list: Sym,
}

fn abandons(recovery: Recover) -> bool
    ensures { result ≡ abandons recovery }
{
    match recovery {
        Recover::Retry => false,
        Recover::Abandon => true,
    }
}

/// Whether an item gets its result by the loss of the kernel.
fn gets(item: &Item, status: &Status, k: u32, recovery: Recover) -> bool
    ensures { result ≡ gets recovery k item.now status.now }
{
    match status {
        Status::Waiting => match item {
            Item::Plain(_) => false,
            Item::Batch(_) => false,
            Item::Pinned(own, _) => *own == k,
        },
        Status::Running(on) => match item {
            Item::Plain(_) => *on == k && abandons(recovery),
            Item::Batch(_) => *on == k && abandons(recovery),
            Item::Pinned(own, _) => *own == k,
        },
        Status::Done(_) => false,
        Status::Dropped => false,
    }
}

fn is_given(queue: &Queue<Bundle>, id: u64, k: u32, recovery: Recover) -> bool
    ensures { result ≡ given_at recovery k (item_at queue.now id) (status_at queue.now id) }
{
    let Some(item) = queue.item(id) else {
        return false;
    };
    let Some(status) = queue.state(id) else {
        return false;
    };
    gets(item, status, k, recovery)
}

fn copied(alloc: Global, ids: &[u64]) -> Result<Vec<u64>, AllocError>
    ensures { IfOk result (λ copies. copies.items ≡ ids.now) }
{
    let mut copies = Vec::new(alloc);
    for id in ids {
        copies.push(*id)?;
    }
    Ok(copies)
}

fn add_if(ids: &mut Vec<u64>, is_given: bool, id: u64) -> Result<(), AllocError>
    ensures { OnOk result (ids.new.items ≡ with_given is_given id ids.old.items) }
{
    if is_given {
        ids.push(id)?;
    }
    Ok(())
}

/// These ids, and behind them those of the items that get their result by the loss.
pub fn finished_after(
    alloc: Global,
    queue: &Queue<Bundle>,
    finished: &[u64],
    k: u32,
    recovery: Recover,
) -> Result<Vec<u64>, AllocError>
    ensures { IfOk result (λ ids. ids.items ≡ finished.now ++ ids_lost recovery k 1 queue.now) }
{
    let mut ids = copied(alloc, finished)?;
    for place in 0..queue.count() {
        let id = place + 1;
        add_if(&mut ids, is_given(queue, id, k, recovery), id)?;
    }
    Ok(ids)
}

fn failures(alloc: Global, count: usize, failed: Sym) -> Result<Exprs, AllocError>
    ensures { IfOk result (λ values. values ≡ replicate count (symbol failed)) }
{
    let mut values = Items::new(alloc);
    for _place in 0..count {
        values.push(Expr::symbol(failed))?;
    }
    Ok(values)
}

/// The result of an item that is abandoned. A List that is larger than any expression is as much as memory that is wanting.
fn abandoned(alloc: Global, item: &Item, terms: Terms) -> Result<Expr, AllocError>
    ensures { (set : core.Setup) → IsOn set terms → IfOk result (λ value. value ≡ core.abandoned set.names item.now) }
{
    match item {
        Item::Plain(_) => Ok(Expr::symbol(terms.failed)),
        Item::Pinned(_, _) => Ok(Expr::symbol(terms.failed)),
        Item::Batch(items) => {
            let values = failures(alloc, items.len(), terms.failed)?;
            match Expr::normal(alloc, Expr::symbol(terms.list), values) {
                Ok(value) => Ok(value),
                Err(_) => Err(AllocError),
            }
        }
    }
}

/// Whether the item of an id runs on the kernel and is not for it alone.
fn is_shared(queue: &Queue<Bundle>, id: u64, k: u32) -> bool
    ensures { result ≡ shared_at k (item_at queue.now id) (status_at queue.now id) }
{
    let Some(item) = queue.item(id) else {
        return false;
    };
    match queue.state(id) {
        Some(Status::Running(on)) => match item {
            Item::Plain(_) => *on == k,
            Item::Batch(_) => *on == k,
            Item::Pinned(_, _) => false,
        },
        _ => false,
    }
}

/// The value for the item that the kernel runs, where items are abandoned and it runs one that is not for it alone.
pub fn left_value(
    alloc: Global,
    queue: &Queue<Bundle>,
    attempt: Option<u64>,
    k: u32,
    terms: Terms,
) -> Result<Option<Expr>, AllocError>
    requires { (id : ℕ) → status_at queue.now id ≡ Some (Running k) → attempt ≡ Some id }
    ensures { (set : core.Setup) → IsOn set terms → IfOk result (λ left. handed set k queue.now ≡ option_to_list left) }
{
    if !abandons(terms.recovery) {
        return Ok(None);
    }
    let Some(id) = attempt else {
        return Ok(None);
    };
    if !is_shared(queue, id, k) {
        return Ok(None);
    }
    let Some(item) = queue.item(id) else {
        return Ok(None);
    };
    Ok(Some(abandoned(alloc, item, terms)?))
}

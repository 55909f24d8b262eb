ghost use Rattle.std.specs.Prelude.{◌≡◌, IfOk};

use crate::loss::Loss;
use expr_tree::{Expr, Ids, Syms, Text};
use item_list::Items;
use std::alloc::{AllocError, Global};

/// What the master waits for.
#[derive(Debug, Drop)]
pub enum Wait {
    /// Each of these items has its result.
    All(Ids),
    /// One of them has.
    Next(Ids),
    /// One of them has one other than `$Failed`, or each has one.
    Try(Ids),
    /// None of these locks is held.
    Locks(Syms),
}

/// What an entry of the journal tells.
#[derive(Debug, Drop)]
pub enum Event {
    Submit(u64),
    Yield(Wait),
    Resume,
    Take(u64),
    /// The access, and its reply.
    Access(Expr, Expr),
    /// The number of kernels that live.
    Ask(u32),
    Print(Text),
    Enter(Syms),
    Leave,
    /// The item, and its value.
    Deliver(u64, Expr),
    Lose(Loss),
    Close,
}

/// An event, with the kernel that posted it.
#[derive(Debug, Drop)]
pub struct Entry {
    pub kernel: u32,
    pub event: Event,
}

/// The entries of a run, in their order.
pub type Journal = Items<Entry>;

/// The same elements.
fn copied<T: Copy + Drop>(alloc: Global, items: &Items<T>) -> Result<Items<T>, AllocError>
    ensures { IfOk result (λ copies. copies ≡ items.now) }
{
    let mut copies = Items::new(alloc);
    for item in items.as_slice() {
        copies.push(*item)?;
    }
    Ok(copies)
}

impl Wait {
    /// The same wait.
    pub fn copy(&self, alloc: Global) -> Result<Wait, AllocError>
        ensures { IfOk result (λ wait. wait ≡ self.now) }
    {
        Ok(match self {
            Wait::All(ids) => Wait::All(copied(alloc, ids)?),
            Wait::Next(ids) => Wait::Next(copied(alloc, ids)?),
            Wait::Try(ids) => Wait::Try(copied(alloc, ids)?),
            Wait::Locks(locks) => Wait::Locks(copied(alloc, locks)?),
        })
    }
}

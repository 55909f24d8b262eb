ghost use Rattle.std.specs.Prelude.{◌≡◌, IfOk};
ghost use Rattle.journal.specs.Core.{may_go, is_waiting};

use expr_tree::{Expr, Exprs, copy_items};
use std::alloc::{AllocError, Global};

/// What is submitted.
#[derive(Debug, Drop)]
pub enum Item {
    Plain(Expr),
    /// Applications, each evaluated by itself.
    Batch(Exprs),
    /// For one kernel alone.
    Pinned(u32, Expr),
}

/// What became of an item.
#[derive(Debug, Drop)]
pub enum Status {
    Waiting,
    /// On this kernel.
    Running(u32),
    /// Its result.
    Done(Expr),
    /// Nobody waits for its result.
    Dropped,
}

impl Item {
    /// The same item, whose expressions are shared.
    pub fn copy(&self, alloc: Global) -> Result<Item, AllocError>
        ensures { IfOk result (λ item. item ≡ self.now) }
    {
        Ok(match self {
            Item::Plain(e) => Item::Plain(e.copy(alloc)?),
            Item::Batch(items) => Item::Batch(copy_items(alloc, items)?),
            Item::Pinned(kernel, e) => Item::Pinned(*kernel, e.copy(alloc)?),
        })
    }

    /// Whether a kernel may take it.
    pub fn may_go(&self, kernel: u32) -> bool
        ensures { result ≡ may_go self.now kernel }
    {
        match self {
            Item::Plain(_) => true,
            Item::Batch(_) => true,
            Item::Pinned(own, _) => *own == kernel,
        }
    }
}

impl Status {
    pub fn is_waiting(&self) -> bool
        ensures { result ≡ is_waiting self.now }
    {
        match self {
            Status::Waiting => true,
            Status::Running(_) => false,
            Status::Done(_) => false,
            Status::Dropped => false,
        }
    }
}

ghost use Rattle.std.specs.Prelude.{◌≡◌, suc, ◌++◌, ◌∷◌, [], length, true, is_some, Some, None, OnOk, OnErr, IfOk};
ghost use Rattle.std.specs.Option.{option_copied};
ghost use Rattle.journal.specs.Closure.{Bundle};
ghost use Rattle.journal.specs.declared.item.Status.TheVariants.{Waiting, Running, Done, Dropped};
ghost use Rattle.journal.specs.Core as core;
ghost use Rattle.eval_queue.specs.Items.{items_in, with_status, kept_at, item_at, bundle_at, status_at};

use crate::kept::{Kept, at_place, first_from, next_waiting, set_status};
use expr_tree::Expr;
use journal::{Item, Status};
use std::alloc::{AllocError, Global};
use std::marker::Model;

/// The items that were submitted, in the order of their ids, which count from 1. No item waits before the place `from`.
#[derive(Debug, Drop)]
pub struct Queue<Bundled> {
    kept: Vec<Kept<Bundled>>,
    from: usize,
}

impl<Bundled> Model for Queue<Bundled> {
    ghost use Rattle.std.specs.Prelude.{List};
    ghost use Rattle.std.specs.Coded.{codes};
    ghost use Rattle.expr_tree.specs.Code.{coded_tree};
    ghost use Rattle.eval_queue.specs.declared.kept.Kept.{Kept};
    ghost use Rattle.eval_queue.specs.Items.{IsPassed};

    ghost Value = { List (Kept Bundled) };

    ghost coded = { Prim.hlevel (codes, coded_tree, Bundled.code) };

    ghost view = { λ q. q.kept.items };

    ghost invariant = { λ q. IsPassed q.from q.kept.items };
}

impl<Bundled> Queue<Bundled> {
    /// No item. It takes no memory before the first `submit`.
    pub fn new(alloc: Global) -> Queue<Bundled>
        ensures { result ≡ [] }
    {
        Queue {
            kept: Vec::new(alloc),
            from: 0,
        }
    }

    /// How many items were submitted, which is the last id given.
    pub fn count(&self) -> u64
        ensures { result ≡ length self.now }
    {
        self.kept.len() as u64
    }

    /// The item of an id, which is kept for good.
    pub fn item(&self, id: u64) -> Option<&Item>
        ensures { option_copied result ≡ item_at self.now id }
    {
        let kept = self.kept(id)?;
        Some(&kept.item)
    }

    /// What the item of an id took with it.
    pub fn bundle(&self, id: u64) -> Option<&Bundled>
        ensures { option_copied result ≡ bundle_at self.now id }
    {
        let kept = self.kept(id)?;
        Some(&kept.bundle)
    }

    /// What became of the item of an id.
    pub fn state(&self, id: u64) -> Option<&Status>
        ensures { option_copied result ≡ status_at self.now id }
    {
        let kept = self.kept(id)?;
        Some(&kept.status)
    }

    /// The least id whose item waits and may go to the kernel.
    pub fn first_for(&self, kernel: u32) -> Option<u64>
        ensures { (bundle_of : Bundled → Bundle) → result ≡ core.first_for 1 (items_in bundle_of self.now) kernel }
    {
        let id = first_from(self.kept.as_slice(), self.from, kernel)?;
        Some(id as u64)
    }
}

impl<Bundled> Queue<Bundled> {
    fn kept(&self, id: u64) -> Option<&Kept<Bundled>>
        ensures { option_copied result ≡ kept_at self.now id }
    {
        if id == 0 {
            return None;
        }
        at_place(self.kept.as_slice(), id as usize - 1)
    }
}

impl<Bundled: Drop> Queue<Bundled> {
    /// Adds an item, which waits, and gives its id. An `Err` drops it.
    pub fn submit(&mut self, item: Item, bundle: Bundled) -> Result<u64, AllocError>
        ensures id { IfOk result (λ id. id ≡ suc (length self.old)) }
        ensures ok { OnOk result (self.new ≡ self.old ++ record { item = item; bundle = bundle; status = Waiting } ∷ []) }
        ensures err { OnErr result (self.new ≡ self.old) }
    {
        self.kept.push(Kept {
            item,
            bundle,
            status: Status::Waiting,
        })?;
        Ok(self.kept.len() as u64)
    }

    /// A kernel runs the item, which waits.
    pub fn take(&mut self, id: u64, kernel: u32)
        requires { status_at self.old id ≡ Some Waiting }
        ensures { self.new ≡ with_status id (Running kernel) self.old }
    {
        set_status(&mut self.kept, id as usize - 1, Status::Running(kernel));
        self.from = next_waiting(self.kept.as_slice(), self.from);
    }

    /// The item, which runs on the kernel, waits again.
    pub fn give_back(&mut self, id: u64, kernel: u32)
        requires { status_at self.old id ≡ Some (Running kernel) }
        ensures { self.new ≡ with_status id Waiting self.old }
    {
        let place = id as usize - 1;
        set_status(&mut self.kept, place, Status::Waiting);
        self.from = self.from.min(place);
    }

    /// Nobody waits for the item any longer, which has no result.
    pub fn drop_item(&mut self, id: u64)
        requires given { is_some (status_at self.old id) ≡ true }
        requires unfinished { core.value_in (status_at self.old id) ≡ None }
        ensures { self.new ≡ with_status id Dropped self.old }
    {
        set_status(&mut self.kept, id as usize - 1, Status::Dropped);
        self.from = next_waiting(self.kept.as_slice(), self.from);
    }

    /// The item, which runs on the kernel, is done with a value.
    pub fn finish(&mut self, id: u64, kernel: u32, value: Expr)
        requires { status_at self.old id ≡ Some (Running kernel) }
        ensures { self.new ≡ with_status id (Done value) self.old }
    {
        set_status(&mut self.kept, id as usize - 1, Status::Done(value));
    }
}

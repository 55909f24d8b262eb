//! What the entries make.
ghost use Rattle.std.specs.Prelude.{◌≡◌, ℕ, suc, ◌<◌, ◌≤◌, ◌||◌, ◌==◌, length, true, false, Some, None, IfOk, IfErr, OnOk, OnErr};
ghost use Rattle.std.specs.Option.{option_copied};
ghost use Rattle.semantics.specs.Definitions as d;
ghost use Rattle.journal.specs.declared.event.Event.TheVariants as event;
ghost use Rattle.journal.specs.declared.item.Status.TheVariants as status;
ghost use Rattle.journal.specs.declared.loss.Loss.{Loss};
ghost use Rattle.journal.specs.Places.{is_some};
ghost use Rattle.journal.specs.Entry.{Nothing, Given, Lent};
ghost use Rattle.journal.specs.Core as core;
ghost use Rattle.master_core.specs.Posting.{posting, Makes};
ghost use Rattle.master_core.specs.Joined.{item_of, bundle_of};
ghost use Rattle.master_core.specs.Waits.{IsTaken};
ghost use Rattle.master_core.specs.Losing.{IsOn};

use crate::answers::{EnterNo, Taken};
use crate::finishing::{drop_items, finish};
use crate::losing::{Terms, finished_after, left_value};
use crit_locks::Locks;
use dist_bundle::Bundle;
use eval_queue::Queue;
use expr_tree::{Expr, Syms, Text, Texts};
use item_list::Items;
use journal::{Item, Wait};
use kernel_defs::Defs;
use requeue_core::Kernels;
use std::alloc::{AllocError, Global};
use std::marker::Model;
use std::snapshot::Snapshot;

/// The core that the posted entries make: what each entry changes, and nothing of whether it may be posted.
#[derive(Drop)]
pub struct State {
    pub(crate) definitions: Snapshot<Defs>,
    pub(crate) queue: Queue<Bundle>,
    pub(crate) kernels: Kernels,
    pub(crate) attempts: Vec<Option<u64>>,
    pub(crate) locks: Locks,
    pub(crate) wait: Option<Wait>,
    pub(crate) finished: Vec<u64>,
    pub(crate) lines: Texts,
    pub(crate) begun: bool,
    pub(crate) closed: bool,
}

impl Model for State {
    ghost use Rattle.expr_tree.specs.Code.{coded_tree};
    ghost use Rattle.std.specs.Coded.{codes};
    ghost use Rattle.journal.specs.Core as core;
    ghost use Rattle.master_core.specs.Joined.{kernels_in, core_in, AreParts};

    ghost Value = { core.Core };

    ghost coded = { Prim.hlevel (codes, coded_tree) };

    ghost view = { λ s. core_in s.definitions.value s.queue (kernels_in 0 s.kernels s.attempts.items s.locks.held) s.wait s.finished.items s.lines s.begun s.closed };

    ghost invariant = { λ s. AreParts s.kernels s.attempts.items s.locks.held s.wait };
}

fn has_begun(begun: bool, kernel: u32) -> bool
    ensures { result ≡ (begun || (kernel == 0)) }
{
    begun || kernel == 0
}

impl State {
    /// Nothing was posted.
    pub fn new(alloc: Global, kernels: u32, defs: &Defs) -> Result<State, AllocError>
        requires { defs.now ≡ d.empty }
        ensures { IfOk result (λ state. (set : core.Setup) → set.kernels ≡ kernels → state ≡ core.start set) }
    {
        let mut attempts = Vec::new(alloc);
        attempts.push(None)?;
        for _kernel in 0..kernels {
            attempts.push(None)?;
        }
        Ok(State {
            definitions: Snapshot::of(defs),
            queue: Queue::new(alloc),
            kernels: Kernels::new(alloc, kernels)?,
            attempts,
            locks: Locks::new(alloc),
            wait: None,
            finished: Vec::new(alloc),
            lines: Items::new(alloc),
            begun: false,
            closed: false,
        })
    }

    /// An item is submitted.
    pub fn submit(&mut self, item: Item, bundle: Bundle) -> Result<u64, AllocError>
        requires { self.old.closed ≡ false }
        ensures id { IfOk result (λ id. id ≡ suc (length self.old.items)) }
        ensures ok { OnOk result ((id : ℕ) → Makes (posting 0 (event.Submit id) (Given item bundle)) self.old self.new) }
        ensures err { OnErr result (self.new ≡ self.old) }
    {
        let id = self.queue.submit(item, bundle)?;
        self.begun = true;
        Ok(id)
    }

    /// A wait begins, with the master's definitions.
    pub fn begin_wait(&mut self, wait: Wait, defs: &Defs)
        requires open { self.old.closed ≡ false }
        requires sound { core.may_yield self.old wait ≡ true }
        ensures { Makes (posting 0 (event.Yield wait) (Lent defs.now)) self.old self.new }
    {
        self.definitions = Snapshot::of(defs);
        self.wait = Some(wait);
        self.begun = true;
    }

    /// The standing wait ends. Items that a try was for are dropped where they are not done.
    pub fn end_wait(&mut self)
        requires { self.old.closed ≡ false }
        ensures { Makes (posting 0 event.Resume Nothing) self.old self.new }
    {
        drop_items(&mut self.queue, &self.wait);
        self.wait = None;
        self.begun = true;
    }

    /// A kernel takes an item.
    pub fn take(&mut self, kernel: u32, id: u64)
        requires open { self.old.closed ≡ false }
        requires within { kernel < length self.old.kernels }
        requires waits { core.status_of self.old id ≡ Some status.Waiting }
        ensures { Makes (posting kernel (event.Take id) Nothing) self.old self.new }
    {
        self.queue.take(id, kernel);
        self.attempts[kernel as usize] = Some(id);
        self.begun = has_begun(self.begun, kernel);
    }

    /// A kernel delivers the value of the item that it runs.
    pub fn deliver(&mut self, kernel: u32, id: u64, value: Expr) -> Result<(), AllocError>
        requires open { self.old.closed ≡ false }
        requires runs { core.runs self.old kernel id ≡ true }
        ensures ok { OnOk result (Makes (posting kernel (event.Deliver id value) Nothing) self.old self.new) }
        ensures err { OnErr result (self.new ≡ self.old) }
    {
        finish(&mut self.queue, &mut self.finished, kernel, id, value)?;
        self.attempts[kernel as usize] = None;
        self.begun = has_begun(self.begun, kernel);
        Ok(())
    }

    /// A kernel is lost. Who runs an item is who has the attempt at it.
    pub fn lose(&mut self, alloc: Global, kernel: u32, terms: Terms) -> Result<(), AllocError>
        requires open { self.old.closed ≡ false }
        requires lives { core.lives self.old kernel ≡ true }
        requires runs { (id : ℕ) → core.status_of self.old id ≡ Some (status.Running kernel) → core.attempt_of self.old kernel ≡ Some id }
        ensures ok { OnOk result ((set : core.Setup) (cause : Loss) → IsOn set terms → self.new ≡ core.effect set self.old (posting kernel (event.Lose cause) Nothing)) }
        ensures err { OnErr result (self.new ≡ self.old) }
    {
        let attempt = self.attempts[kernel as usize];
        let left = left_value(alloc, &self.queue, attempt, kernel, terms)?;
        let before = self.finished.as_slice();
        let finished = finished_after(alloc, &self.queue, before, kernel, terms.recovery)?;
        self.kernels.lose(&mut self.queue, &mut self.locks, kernel, terms.failed, left);
        self.attempts[kernel as usize] = None;
        self.finished = finished;
        self.begun = has_begun(self.begun, kernel);
        Ok(())
    }

    /// The run ends.
    pub fn close(&mut self)
        ensures { Makes (posting 0 event.Close Nothing) self.old self.new }
    {
        self.begun = true;
        self.closed = true;
    }
}

impl State {
    pub fn is_closed(&self) -> bool
        ensures { result ≡ self.now.closed }
    {
        self.closed
    }

    pub fn waits(&self) -> bool
        ensures { result ≡ is_some self.now.wait }
    {
        self.wait.is_some()
    }

    /// Whether the master has posted.
    pub fn is_begun(&self) -> bool
        ensures { result ≡ self.now.begun }
    {
        self.begun
    }

    pub fn lives(&self, kernel: u32) -> bool
        ensures { result ≡ core.lives self.now kernel }
    {
        self.kernels.live(kernel)
    }

    /// How many kernels live.
    pub fn count(&self) -> u32
        ensures { result ≡ core.count self.now }
    {
        self.kernels.count()
    }

    pub fn first_for(&self, kernel: u32) -> Option<u64>
        ensures { result ≡ core.first_for 1 self.now.items kernel }
    {
        self.queue.first_for(kernel)
    }

    fn item(&self, id: u64) -> Option<&Item>
        ensures { option_copied result ≡ item_of self.now id }
    {
        self.queue.item(id)
    }

    fn bundle(&self, id: u64) -> Option<&Bundle>
        ensures { option_copied result ≡ bundle_of self.now id }
    {
        self.queue.bundle(id)
    }

    /// The item of an id with its bundle, for a kernel to take.
    pub fn taken(&self, alloc: Global, id: u64) -> Result<Taken, AllocError>
        requires { core.status_of self.now id ≡ Some status.Waiting }
        ensures id { IfOk result (λ taken. taken.id ≡ id) }
        ensures item { IfOk result (λ taken. item_of self.now id ≡ Some taken.item) }
        ensures bundle { IfOk result (λ taken. bundle_of self.now id ≡ Some taken.bundle) }
    {
        let Some(item) = self.item(id) else {
            unreachable!()
        };
        let Some(bundle) = self.bundle(id) else {
            unreachable!()
        };
        Ok(Taken {
            id,
            item: item.copy(alloc)?,
            bundle: bundle.copy(alloc)?,
        })
    }
}

impl State {
    /// A line is printed.
    pub fn print(&mut self, kernel: u32, line: Text) -> Result<(), AllocError>
        requires { self.old.closed ≡ false }
        ensures ok { OnOk result (Makes (posting kernel (event.Print line) Nothing) self.old self.new) }
        ensures err { OnErr result (self.new ≡ self.old) }
    {
        self.lines.push(line)?;
        self.begun = has_begun(self.begun, kernel);
        Ok(())
    }

    /// A kernel asks for the number of those that live.
    pub fn ask(&mut self, kernel: u32)
        requires { self.old.closed ≡ false }
        ensures { (n : ℕ) → Makes (posting kernel (event.Ask n) Nothing) self.old self.new }
    {
        self.begun = has_begun(self.begun, kernel);
    }

    /// A kernel, which holds nothing, enters a section of these locks, all of them or none.
    pub fn enter(&mut self, kernel: u32, locks: &Syms) -> Result<(), EnterNo>
        requires open { self.old.closed ≡ false }
        requires within { kernel < length self.old.kernels }
        requires outside { core.holds_nothing self.old kernel ≡ true }
        ensures free { OnOk result (core.all_free self.old locks.now ≡ true) }
        ensures ok { OnOk result (Makes (posting kernel (event.Enter locks.now) Nothing) self.old self.new) }
        ensures held { IfErr result (IsTaken self.old locks.now) }
        ensures err { OnErr result (self.new ≡ self.old) }
    {
        self.locks.reserve(locks.len())?;
        match self.locks.enter(kernel, locks) {
            Ok(()) => {
                self.begun = has_begun(self.begun, kernel);
                Ok(())
            }
            Err(held) => Err(EnterNo::Held(held)),
        }
    }

    /// A kernel leaves its section.
    pub fn leave(&mut self, kernel: u32)
        requires { self.old.closed ≡ false }
        ensures { Makes (posting kernel event.Leave Nothing) self.old self.new }
    {
        self.locks.free_all(kernel);
        self.begun = has_begun(self.begun, kernel);
    }

    /// The lines that were printed.
    pub fn lines(&self) -> &Texts
        ensures { result.now ≡ self.now.lines }
    {
        &self.lines
    }
}

//! Whether the standing wait ends, and what it gives.
ghost use Rattle.std.specs.Prelude.{◌≡◌, ◌∷◌, [], ◌⊎◌, ◌&&◌, true, false, is_none, not, Some, None, IfOk, IfSome, MatchOption};
ghost use Rattle.std.specs.Option.{option_copied};
ghost use Rattle.semantics.specs.Names.{Names, known, is_name};
ghost use Rattle.semantics.specs.declared.builtin.Builtin.{Builtin};
ghost use Rattle.expr_tree.specs.Substitution.{among};
ghost use Rattle.journal.specs.Places.{is_some, member};
ghost use Rattle.journal.specs.declared.event.Wait.TheVariants.{All, Locks};
ghost use Rattle.journal.specs.Core as core;
ghost use Rattle.master_core.specs.Waits.{first_undone, Lacks, IsUnmet};

use crate::answers::Unmet;
use crate::state::State;
use eval_queue::State as Status;
use expr_tree::{Expr, Exprs, Node, Sym};
use item_list::Items;
use journal::Wait;
use std::alloc::{AllocError, Global};

fn is_failed(failed: Sym, value: &Expr) -> bool
    ensures { (names : Names) → names.place Builtin.Failed ≡ failed.base → result ≡ is_name names Builtin.Failed value.now }
{
    match value.node() {
        Node::Symbol(symbol) => symbol.number == 0 && symbol.base == failed.base,
        _ => false,
    }
}

fn contains(ids: &[u64], id: u64) -> bool
    ensures { result ≡ member id ids.now }
{
    for other in ids {
        if id == *other {
            return true;
        }
    }
    false
}

impl State {
    fn status(&self, id: u64) -> Option<&Status>
        ensures { option_copied result ≡ core.status_of self.now id }
    {
        self.queue.state(id)
    }

    /// The result of an item.
    fn result(&self, id: u64) -> Option<&Expr>
        ensures { option_copied result ≡ core.result_of self.now id }
    {
        match self.status(id)? {
            Status::Done(value) => Some(value),
            Status::Waiting => None,
            Status::Running(_) => None,
            Status::Dropped => None,
        }
    }

    fn is_done(&self, id: u64) -> bool
        ensures { result ≡ is_some (core.result_of self.now id) }
    {
        self.result(id).is_some()
    }

    fn succeeded(&self, failed: Sym, id: u64) -> bool
        ensures { (names : Names) → names.place Builtin.Failed ≡ failed.base → result ≡ core.is_success names (core.result_of self.now id) }
    {
        match self.result(id) {
            Some(value) => !is_failed(failed, value),
            None => false,
        }
    }

    fn first_undone(&self, ids: &[u64]) -> Option<u64>
        ensures first { result ≡ first_undone self.now ids.now }
        ensures all { is_none result ≡ core.all_done self.now ids.now }
    {
        for id in ids {
            if !self.is_done(*id) {
                return Some(*id);
            }
        }
        None
    }

    fn any_done(&self, ids: &[u64]) -> bool
        ensures { result ≡ core.any_done self.now ids.now }
    {
        for id in ids {
            if self.is_done(*id) {
                return true;
            }
        }
        false
    }

    fn any_success(&self, failed: Sym, ids: &[u64]) -> bool
        ensures { (names : Names) → names.place Builtin.Failed ≡ failed.base → result ≡ core.any_success names self.now ids.now }
    {
        for id in ids {
            if self.succeeded(failed, *id) {
                return true;
            }
        }
        false
    }

    /// The results of those of these items that have one.
    fn results(&self, alloc: Global, ids: &[u64]) -> Result<Exprs, AllocError>
        ensures { IfOk result (λ values. values ≡ core.results_of self.now ids.now) }
    {
        let mut values = Items::new(alloc);
        for id in ids {
            if let Some(value) = self.result(*id) {
                values.push(value.copy(alloc)?)?;
            }
        }
        Ok(values)
    }
}

impl State {
    /// The result of the first of these items that got one, with its id.
    fn first_finished(&self, alloc: Global, ids: &[u64]) -> Result<Exprs, AllocError>
        ensures { IfOk result (λ values. values ≡ core.first_finished self.now.finished self.now ids.now) }
    {
        let mut values = Items::new(alloc);
        let finished = self.finished_ids();
        for id in finished {
            if contains(ids, *id) {
                if let Some(value) = self.result(*id) {
                    values.push(value.copy(alloc)?)?;
                    values.push(Expr::int(i128::from(*id)))?;
                }
                return Ok(values);
            }
        }
        Ok(values)
    }

    /// The first result among these items that is not `$Failed`, else that.
    fn first_success(&self, alloc: Global, failed: Sym, ids: &[u64]) -> Result<Exprs, AllocError>
        ensures { (names : Names) → known names Builtin.Failed ≡ failed → IfOk result (λ values. values ≡ core.first_success names self.now.finished self.now ids.now) }
    {
        let mut values = Items::new(alloc);
        let finished = self.finished_ids();
        for id in finished {
            if contains(ids, *id) && self.succeeded(failed, *id) {
                if let Some(value) = self.result(*id) {
                    values.push(value.copy(alloc)?)?;
                }
                return Ok(values);
            }
        }
        values.push(Expr::symbol(failed))?;
        Ok(values)
    }

    fn finished_ids(&self) -> &[u64]
        ensures { result.now ≡ self.now.finished }
    {
        self.finished.as_slice()
    }

    /// The first of these locks that is held, and by whom.
    fn first_taken(&self, locks: &[Sym]) -> Option<Unmet>
        ensures { MatchOption result (core.all_free self.now locks.now ≡ true) (λ u. (core.all_free self.now locks.now ≡ false) × Lacks self.now (Locks locks.now) u) }
    {
        for lock in locks {
            if let Some(by) = self.holder(*lock) {
                return Some(Unmet::Lock(*lock, by));
            }
        }
        None
    }

    fn holder(&self, lock: Sym) -> Option<u32>
        ensures free { is_some result ≡ core.held_by_some self.now.kernels lock }
        ensures by { IfSome result (λ k. among lock (core.locks_of self.now k) ≡ true) }
    {
        self.locks.holder(lock)
    }

    /// What the standing wait lacks.
    pub fn unmet(&self, failed: Sym) -> Option<Unmet>
        requires { is_some self.now.wait ≡ true }
        ensures { (names : Names) → known names Builtin.Failed ≡ failed → MatchOption result (core.condition_holds names self.now ≡ true) (λ u. (core.condition_holds names self.now ≡ false) × IsUnmet self.now u) }
    {
        match &self.wait {
            None => unreachable!(),
            Some(Wait::All(ids)) => self.undone(ids.as_slice()),
            Some(Wait::Next(ids)) => {
                if self.any_done(ids.as_slice()) {
                    return None;
                }
                self.undone(ids.as_slice())
            }
            Some(Wait::Try(ids)) => {
                if self.any_success(failed, ids.as_slice()) {
                    return None;
                }
                self.undone(ids.as_slice())
            }
            Some(Wait::Locks(locks)) => self.first_taken(locks.as_slice()),
        }
    }

    fn undone(&self, ids: &[u64]) -> Option<Unmet>
        ensures { MatchOption result (core.all_done self.now ids.now ≡ true) (λ u. (core.all_done self.now ids.now ≡ false) × Lacks self.now (All ids.now) u) }
    {
        Some(Unmet::Id(self.first_undone(ids)?))
    }

    /// What the standing wait gives.
    pub fn reply(&self, alloc: Global, failed: Sym) -> Result<Exprs, AllocError>
        ensures { (names : Names) → known names Builtin.Failed ≡ failed → IfOk result (λ values. values ≡ core.wait_reply names self.now) }
    {
        match &self.wait {
            None => Ok(Items::new(alloc)),
            Some(Wait::All(ids)) => self.results(alloc, ids.as_slice()),
            Some(Wait::Next(ids)) => self.first_finished(alloc, ids.as_slice()),
            Some(Wait::Try(ids)) => self.first_success(alloc, failed, ids.as_slice()),
            Some(Wait::Locks(_)) => Ok(Items::new(alloc)),
        }
    }

    /// Whether an id was submitted and not dropped.
    pub fn names_item(&self, id: u64) -> bool
        ensures { result ≡ core.names_item self.now id }
    {
        match self.status(id) {
            None => false,
            Some(Status::Waiting) => true,
            Some(Status::Running(_)) => true,
            Some(Status::Done(_)) => true,
            Some(Status::Dropped) => false,
        }
    }
}

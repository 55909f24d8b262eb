ghost use Rattle.std.specs.Prelude.{◌≡◌, ℕ, ◌+◌, ◌≤◌, [], ◌++◌, length, map, take, false, true, MatchOption, OnOk, OnErr, IfErr, None, Some, vec_len, vec_capacity};
ghost use Rattle.expr_tree.specs.Substitution.{among};
ghost use Rattle.journal.specs.declared.event.Event.TheVariants.{Enter, Leave};
ghost use Rattle.crit_locks.specs.Holdings.{locks_by, holder_of, first_held, held_by, without, HeldAfter};

use crate::held::Held;
use expr_tree::{Sym, Syms};
use std::alloc::{AllocError, Global};
use std::marker::Model;

/// The locks that are held, in the order in which they were taken, with room for more.
#[derive(Debug, Drop)]
pub struct Locks {
    held: Vec<Held>,
}

impl Model for Locks {
    ghost use Rattle.std.specs.Prelude.{vec_capacity};
    ghost use Rattle.crit_locks.specs.Holdings.{Holdings};

    ghost Value = { Holdings };

    ghost view = { λ l. record { held = l.held.items; room = vec_capacity l.held } };
}

impl Locks {
    /// No lock is held. It takes no memory.
    pub fn new(alloc: Global) -> Locks
        ensures { result.held ≡ [] }
    {
        Locks {
            held: Vec::new(alloc),
        }
    }

    /// Makes room for `n` locks more.
    pub fn reserve(&mut self, n: usize) -> Result<(), AllocError>
        ensures held { self.new.held ≡ self.old.held }
        ensures ok { OnOk result (length self.new.held + n ≤ self.new.room) }
        ensures err { OnErr result (self.new ≡ self.old) }
    {
        self.held.reserve(n)
    }

    /// The kernel takes all of these locks, or none where one of them is held: the first such is told. There is room for them, and the
    /// kernel holds nothing.
    pub fn enter(&mut self, kernel: u32, locks: &Syms) -> Result<(), Held>
        requires room { length self.old.held + length locks.now ≤ self.old.room }
        requires outside { locks_by kernel self.old.held ≡ [] }
        ensures free { OnOk result (first_held self.old.held locks.now ≡ None) }
        ensures entered { OnOk result (self.new ≡ record self.old { held = self.old.held ++ map (held_by kernel) locks.now }) }
        ensures locks { OnOk result (HeldAfter (Enter locks.now) kernel self.old.held self.new.held) }
        ensures first { IfErr result (λ held. first_held self.old.held locks.now ≡ Some held) }
        ensures err { OnErr result (self.new ≡ self.old) }
    {
        if let Some(held) = first_held(self.held.as_slice(), locks.as_slice()) {
            return Err(held);
        }
        take_all(&mut self.held, kernel, locks.as_slice());
        Ok(())
    }

    /// The locks of the kernel, which holds some, are free.
    pub fn leave(&mut self, kernel: u32)
        requires inside { locks_by kernel self.old.held ≡ [] → ⊥ }
        ensures left { self.new ≡ record self.old { held = without kernel self.old.held } }
        ensures locks { HeldAfter Leave kernel self.old.held self.new.held }
    {
        self.free_all(kernel);
    }

    /// Whatever locks the kernel holds are free.
    pub fn free_all(&mut self, kernel: u32)
        ensures left { self.new ≡ record self.old { held = without kernel self.old.held } }
        ensures locks { HeldAfter Leave kernel self.old.held self.new.held }
    {
        self.held.retain(|held| held.by != kernel);
    }

    /// The kernel that holds a lock.
    pub fn holder(&self, lock: Sym) -> Option<u32>
        ensures value { result ≡ holder_of self.now.held lock }
        ensures exact { MatchOption result ((k : ℕ) → among lock (locks_by k self.now.held) ≡ false) (λ k. among lock (locks_by k self.now.held) ≡ true) }
    {
        holder_in(self.held.as_slice(), lock)
    }
}

fn holder_in(held: &[Held], lock: Sym) -> Option<u32>
    ensures { result ≡ holder_of held.now lock }
{
    for entry in held {
        if lock == entry.lock {
            return Some(entry.by);
        }
    }
    None
}

fn first_held(held: &[Held], locks: &[Sym]) -> Option<Held>
    ensures { result ≡ first_held held.now locks.now }
{
    for lock in locks {
        if let Some(by) = holder_in(held, *lock) {
            return Some(Held { lock: *lock, by });
        }
    }
    None
}

/// Puts the locks behind those that are held, where there is room for them.
fn take_all(held: &mut Vec<Held>, kernel: u32, locks: &[Sym])
    requires { vec_len held.old + length locks.now ≤ vec_capacity held.old }
    ensures items { held.new.items ≡ held.old.items ++ map (held_by kernel) locks.now }
    ensures room { vec_capacity held.new ≡ vec_capacity held.old }
{
    for lock in locks {
        held.push_reserved(Held {
            lock: *lock,
            by: kernel,
        });
    }
}

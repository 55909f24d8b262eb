ghost use Rattle.std.specs.Prelude.{◌≡◌, ◌∷◌, map, replicate, true, false, IfOk};
ghost use Rattle.std.specs.Option.{option_to_list};
ghost use Rattle.expr_tree.specs.Tree.{symbol};
ghost use Rattle.journal.specs.Places.{change_at};
ghost use Rattle.journal.specs.Core as core;
ghost use Rattle.journal.specs.declared.event.Event.TheVariants.{Lose};
ghost use Rattle.journal.specs.declared.loss.Loss.{Loss};
ghost use Rattle.crit_locks.specs.Holdings.{without, HeldAfter};
ghost use Rattle.requeue_core.specs.Losses.{lives_in, lost, handed};

use crate::lost::settle_all;
use crit_locks::Locks;
use eval_queue::Queue;
use expr_tree::{Expr, Sym};
use std::alloc::{AllocError, Global};
use std::marker::Model;

/// Which kernels live, by number. Number 0 is the master's and never lives. The number of those that live is kept beside them.
#[derive(Debug, Drop)]
pub struct Kernels {
    lives: Vec<bool>,
    living: u32,
}

impl Model for Kernels {
    ghost use Rattle.std.specs.Prelude.{◌≡◌, List, Bool, map};
    ghost use Rattle.journal.specs.Core.{new_kernel, count_living};

    ghost Value = { List Bool };

    ghost view = { λ k. k.lives.items };

    ghost invariant = { λ k. k.living ≡ count_living (map new_kernel k.lives.items) };
}

impl Kernels {
    /// So many kernels, which live.
    pub fn new(alloc: Global, count: u32) -> Result<Kernels, AllocError>
        ensures { IfOk result (λ kernels. kernels ≡ false ∷ replicate count true) }
    {
        let mut lives = Vec::new(alloc);
        lives.push(false)?;
        for _kernel in 0..count {
            lives.push(true)?;
        }
        Ok(Kernels {
            lives,
            living: count,
        })
    }

    /// Whether a kernel lives.
    pub fn live(&self, k: u32) -> bool
        ensures { result ≡ lives_in self.now k }
    {
        let k = k as usize;
        k < self.lives.len() && self.lives[k]
    }

    /// How many live.
    pub fn count(&self) -> u32
        ensures { result ≡ core.count_living (map core.new_kernel self.now) }
    {
        self.living
    }

    /// The kernel is lost. The item that it runs gets the value `abandoned`, and waits again where there is none. The master hands in a
    /// value exactly where items are abandoned and the kernel runs one that is not for it alone.
    pub fn lose<T: Drop>(
        &mut self,
        queue: &mut Queue<T>,
        locks: &mut Locks,
        k: u32,
        failed: Sym,
        abandoned: Option<Expr>,
    )
        requires { lives_in self.old k ≡ true }
        ensures kernels { self.new ≡ change_at k (λ _. false) self.old }
        ensures free { locks.new ≡ record locks.old { held = without k locks.old.held } }
        ensures locks { (cause : Loss) → HeldAfter (Lose cause) k locks.old.held locks.new.held }
        ensures items { (set : core.Setup) → core.failed set.names ≡ symbol failed → handed set k queue.old ≡ option_to_list abandoned → queue.new ≡ map (lost set k) queue.old }
    {
        settle_all(queue, k, failed, abandoned);
        locks.free_all(k);
        self.lives[k as usize] = false;
        self.living -= 1;
    }
}

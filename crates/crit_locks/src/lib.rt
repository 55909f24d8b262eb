//! The locks of sections: which kernel holds which, and whether some are free. A kernel enters a section with all of its locks or with
//! none. It stands on `journal`, whose definitions say what each entry makes of the locks of a kernel.
#![tactic(auto)]

ghost use Rattle.crit_locks.specs.Agreeing.{AreFreeAlike};

mod held;
mod locks;
#[cfg(test)]
mod tests;

pub use held::Held;
pub use locks::Locks;

/// Where each kernel holds what it holds in a core, locks of which none is held are those that are free in the core.
pub fn locks_are_free_alike()
    ensures { AreFreeAlike }
{}

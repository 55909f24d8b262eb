//! Which kernels live, and what the loss of one does: it lives no longer, its locks are free, its item waits again or is abandoned, and
//! items for it alone fail. It stands on `eval_queue` and `crit_locks`.
#![tactic(auto)]

mod kernels;
mod lost;

pub use kernels::Kernels;

//! The book: what was posted, and the core that it makes. What entries make of the core is one type, and the book asks beside it whether an
//! entry may be posted and keeps the entry, so that its core is at all times the replay of what was posted. It stands on `eval_queue`,
//! `crit_locks` and `requeue_core`, whose parts the core joins, on `dist_bundle`, and on `kernel_defs` for the master's definitions.
#![tactic(auto)]

mod answers;
mod book;
mod finishing;
mod ledger;
mod losing;
mod state;
mod waits;

pub use answers::{EnterNo, No, TakeNo, Taken, Unmet, WaitNo};
pub use book::Book;
pub use ledger::Journal;

//! The queue of submitted items, each with what it takes with it and with what became of it. Items and what they take are kept for
//! good. The least waiting item is found without going over those that were taken before. It stands on `journal`, whose items and
//! states these are.
#![tactic(auto)]

mod kept;
mod queue;
#[cfg(test)]
mod tests;

pub use journal::{Item, Status as State};
pub use kept::Kept;
pub use queue::Queue;

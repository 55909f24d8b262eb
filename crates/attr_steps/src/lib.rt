//! What attributes do to the elements of a call: which of them are evaluated, splicing, stripping, flattening, threading and sorting.
//! Each is the step of the sequence of that name in `semantics`; sorting is that of `canon_order`.
#![tactic(auto)]

mod flattening;
mod holding;
mod sorting;
mod splicing;
mod stripping;
#[cfg(test)]
mod tests;
mod threading;

pub use flattening::{flatten, flattened};
pub use holding::{holds_first, holds_rest, is_asked};
pub use sorting::{order, sorted};
pub use splicing::{splice, spliced};
pub use stripping::{has_wrapper, strip};
pub use threading::{thread, threaded};

//! The list of shared symbols, which expressions are accesses of them, and the law that passes send exactly these outward in mode
//! Item.
#![tactic(auto)]

ghost use Rattle.shared_calls.specs.Sent.{AccessesAreSent};

mod access;
mod shared;
#[cfg(test)]
mod tests;

pub use access::{access_of, changed_symbol};
pub use shared::{ShareKind, Shared, SharedSymbol};

/// In mode Item the accesses of this crate are what passes send outward, and nothing else is.
pub fn accesses_are_sent()
    ensures { AccessesAreSent }
{}

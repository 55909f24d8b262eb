//! Symbols of a kernel are shared, or named to be distributed: whole lists of them, which change all or nothing.
#![tactic(auto)]

mod sharing;
#[cfg(test)]
mod tests;

pub use sharing::{name, share};

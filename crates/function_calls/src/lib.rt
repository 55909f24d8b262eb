//! The application of a Function to arguments: by slots, or by parameters that are put in place as the scoping of `substitution` has
//! it.
#![tactic(auto)]

mod calls;
mod count;
mod fill;
mod parameters;
mod slots;
#[cfg(test)]
mod tests;

pub use calls::apply;

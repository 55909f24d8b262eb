//! A rule with its key, and the rules of a symbol in the order in which they are tried. It knows nothing of definitions:
//! `kernel_defs` keeps such rules for each symbol.
#![tactic(auto)]

mod key;
mod marks;
mod rule;
mod rules;
#[cfg(test)]
mod tests;

pub use key::Key;
pub use rule::{Rule, condition_of, result_of};
pub use rules::Rules;

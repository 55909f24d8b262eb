//! Trials of rules as machines: a trial asks for the values of guards and goes on with them, until a rule applies or none does.
//! Bindings come one at a time from `match_seq`; the rules are those of `rule_store`.
#![tactic(auto)]

mod attempt;
mod guards;
mod heads;
mod trial;
mod tries;

pub use attempt::Attempt;
pub use tries::Try;

//! The kind of each row of the built-in table: whether it has an equation, and which part of the evaluator has it. It stands on the table alone.
#![tactic(auto)]

mod kinds;

pub use kinds::{Kind, kind_of};

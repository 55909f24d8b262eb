//! Do, Table and Sum as one machine: it asks for the parts of the iterator, and then for the body with each value in turn. Integers
//! come from a `Progression`.
#![tactic(auto)]

mod body;
mod iteration;
mod iterator_values;
mod parts;
mod turns;

pub use body::{Body, IterationForm};
pub use iteration::{Iteration, State, start};
pub use iterator_values::IteratorValues;
pub use parts::{Known, Parts};
pub use turns::Turns;

//! Expressions as they are made: put together from parts and with runs put in place, and judged by the limits of an evaluation. What is
//! judged at once is an expression or a halt (`judged`, `placed`). A `Formed` may be beyond the limits of an expression: what it is made
//! of is kept, and how many atoms it has, so that it is judged as a whole where the language judges it. It stands on `substitution` and
//! on the stops of `evaluation_steps`.
#![tactic(auto)]

mod formed;
mod judging;
mod parts;
#[cfg(test)]
mod tests;

pub use formed::Formed;
pub use judging::{judged, placed};

//! Throw and Catch, and the rows of the mode table, as machines: a form that is one call where a cell evaluates it outside a section, and
//! what it is elsewhere. A row is told at its beginning where it is evaluated. It stands on the moves of `machine_steps`, and on
//! `input_form` for what Print shows.
#![tactic(auto)]

mod combine;
mod forms;
mod loop_call;
mod loop_parts;
mod once;
mod options;
mod outward_row;
mod parallel_loop;
mod place;
mod printed;
mod rows;
mod shapes;
mod success;
#[cfg(test)]
mod tests;

pub use combine::Combine;
pub use loop_call::{LoopCall, LoopForm};
pub use loop_parts::LoopParts;
pub use once::{Once, Reply};
pub use options::MethodOption;
pub use outward_row::OutwardRow;
pub use parallel_loop::{LoopState, ParallelLoop};
pub use place::{Form, Place};
pub use rows::start;

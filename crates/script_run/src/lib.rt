//! Runs a script: its words, its cells, and a line for each. `run_alone` reads the whole input, finds the names and the cells, has
//! each cell read, evaluated and shown by the crates below, and writes the line; its clauses say what was read and written for each
//! status. The definition of the transcript is that of `sequential_transcript`.
#![tactic(auto)]

mod cell;
mod cell_text;
mod lines;
mod outside;
mod report;
mod run;
mod script_names;
mod thrown;
mod unbuilt;
mod value;
mod words;
mod writing;

pub use report::{Report, Status};
pub use run::run_alone;
pub use words::steps_of;

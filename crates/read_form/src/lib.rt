//! The reading of a cell: its expression, or where it stops being readable. It turns the tokens of `lex_form` into terminals, one at
//! a time, for the machine of `phrase_form`, and names into the symbols of `name_table`.
#![tactic(auto)]

mod blanks;
mod fault;
mod forms;
mod leaves;
mod numbers;
mod reader;
mod signs;
mod strings;
#[cfg(test)]
mod tests;
mod words;

pub use fault::ReadNo;
pub use reader::{read_cell, read_lexed};

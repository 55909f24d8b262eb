//! The rows of the built-in table on strings, whose characters are Unicode scalar values, each a function of the row's elements.
#![tactic(auto)]

mod strings;
mod table;
#[cfg(test)]
mod tests;

pub use strings::{row_characters, row_string_join, row_string_length, row_string_reverse};
pub use table::rewrite;

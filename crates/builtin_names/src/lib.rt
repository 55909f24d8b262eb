//! The rows of the built-in table among the names of a script: which symbol a row has, which row a symbol is, which attributes a row
//! has at the start, and what a row may answer (`Fault`). It joins `case_table` and `name_table`, and the crates above speak of rows
//! through it.
#![tactic(auto)]

mod attributes;
mod fault;
mod shapes;
mod symbols;
mod table;
#[cfg(test)]
mod tests;
mod vocabulary;

pub use attributes::first_attrs;
pub use fault::Fault;
pub use shapes::{is_call, is_name, items_of, items_under, make, name, truth};
pub use symbols::{is_known, role_of, rows_are_names, symbol_for};
pub use table::names_with;
pub use vocabulary::Vocabulary;

//! The full form of an expression: its text, the reading of it back with the first byte that none continues, and the names of a text.
//! It knows nothing of the language, only `expr_tree`, `script_text` and the names of `name_table`.
#![tactic(auto)]

mod class;
mod digits;
mod extent;
mod fault;
mod frame;
mod full_form;
mod full_reader;
mod mode;
mod stack;
mod steps;
mod text_names;

pub use fault::FullFault;
pub use full_form::full;
pub use full_reader::read_full;
pub use text_names::full_names;

#[cfg(test)]
mod tests;

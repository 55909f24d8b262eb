//! The table of names: the bases of all symbols of a script, each once and in the order of names, with the known names in front of a
//! table's rows. `compare_names` and `read_name` are the order and the spelling of `script_text`. A symbol is the place of its base
//! and a number.
#![tactic(auto)]

mod name_order;
mod names;
mod spelling;

pub use name_order::compare_names;
pub use names::Names;
pub use spelling::{Spelled, read_name};

#[cfg(test)]
mod tests;

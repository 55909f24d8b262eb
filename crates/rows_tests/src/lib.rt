//! The rows of the built-in table that compare and test their elements, each a function of them. OrderedQ takes the order of
//! `canon_order`.
#![tactic(auto)]

mod comparison;
mod identity;
mod questions;
mod table;

pub use comparison::{row_greater, row_greater_equal, row_less, row_less_equal};
pub use identity::{row_equal, row_same_q, row_unequal, row_unsame_q};
pub use questions::{
    row_atom_q, row_integer_q, row_list_q, row_not, row_ordered_q, row_string_q, row_true_q,
};
pub use table::rewrite;

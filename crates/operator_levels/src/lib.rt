//! The infix operators: how each binds and what it gives where a cell is read, and how it is shown in input form. Both come from one
//! table, and are the levels and shapes of `syntax`. It knows nothing of expressions.
#![tactic(auto)]

mod operator;
mod table;

pub use operator::{Gives, Operator};
pub use table::{level, result_of, right_level, shown_left, shown_level, shown_right, sign};

//! Short lists of expressions and of symbols: made from their elements, copied, counted, and searched.
#![tactic(auto)]

mod lists;
mod symbols;

pub use lists::{TOO_MANY, copies, nodes_of_all, one, two, value_copied};
pub use symbols::{differ, is_among, symbols_in};

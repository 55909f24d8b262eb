//! Laws of reading and of the limits of an expression: a cell is read small, and what a reader leaves out beyond the limits changes
//! no reading. They speak of the grammar of `syntax` over phrases that are kept in part. Each function here has no code: its contract
//! is a law.
#![tactic(auto)]

mod laws;

pub use laws::{cells_are_read_small, what_is_kept_is_cut};

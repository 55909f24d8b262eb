//! The rows of the built-in table that put lists together, cut them, sort them and count in them, each a function of the row's
//! elements. Flattening and sorting are those of `attr_steps`.
#![tactic(auto)]

mod answer;
mod applied;
mod cuts;
mod ends;
mod flattening;
mod joins;
mod numbered;
mod orders;
mod table;

pub use applied::{row_apply, row_itself, row_map, row_release_hold, row_total};
pub use cuts::{row_drop, row_most, row_take};
pub use ends::{row_append, row_first, row_head, row_last, row_length, row_prepend, row_rest};
pub use flattening::row_flatten;
pub use joins::row_join;
pub use numbered::{row_array, row_constant_array};
pub use orders::{row_reverse, row_sort, row_union};
pub use table::rewrite;

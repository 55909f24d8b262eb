//! The rows of the built-in table that find parts, cut lists into pieces, turn rows into columns and count, each a function of the
//! row's elements. Ranges walk by a `Progression`.
#![tactic(auto)]

mod answer;
mod parts;
mod pieces;
mod places;
mod range;
mod table;
mod transposed;

pub use parts::row_part;
pub use pieces::row_partition;
pub use range::row_range;
pub use table::rewrite;
pub use transposed::row_transpose;

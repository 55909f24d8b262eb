//! The rows of the built-in table that change definitions, as one machine: Set, UpSet, TagSet and their delayed forms, Unset, Clear,
//! the rows of attributes, and those that make an own value anew. It asks for values, and reads and changes the definitions of
//! `kernel_defs` between.
#![tactic(auto)]

mod assign;
mod assignment;
mod attributes;
mod change;
mod effects;
mod elements;
mod large;
mod left_call;
mod renewal;
mod shapes;
mod single;
mod unset;

pub use assignment::{Assignment, Goal, Phase};
pub use change::Change;
pub use elements::Elements;
pub use renewal::{Operand, Renewal};
pub use single::{Deed, Single};

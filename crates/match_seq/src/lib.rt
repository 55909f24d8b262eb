//! Matching: the bindings by which a pattern matches an expression, one at a time in their order. The definition is a list; the
//! search is a stack of goals that gives the first of what is left of that list. Which heads are Flat or Orderless it asks of its
//! caller (`AttrSource`), and Conditions and tests it hands out as guards.
#![tactic(auto)]

mod choose;
mod constructs;
mod extent;
mod fill;
mod found;
mod goal;
mod matcher;
mod setting;
mod shapes;
mod source;
mod take;
mod turn;

pub use found::{Found, Guard, Guards};
pub use matcher::Matcher;
pub use source::AttrSource;

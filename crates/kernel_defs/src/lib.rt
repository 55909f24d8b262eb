//! Definitions of symbols: `Defs`, what a kernel knows of its symbols, with look-up, changes, and locals that are put by and put
//! back; and what an assignment is attached to, why one is refused, and the definitions after it. It stands on the rules of
//! `rule_store` and the shared symbols of `shared_calls`, and on what `builtin_names` says of a symbol at the start.
#![tactic(auto)]

mod assign;
mod chain;
mod changes;
mod definition;
mod defs;
mod first;
mod left_side;
mod put_by;
mod reading;
mod refusal;
mod saved;
mod targets;

pub use assign::Assigned;
pub use definition::Definition;
pub use defs::{Defs, symbols_of};
pub use left_side::inner;
pub use refusal::{Why, refusal_by_shape};
pub use saved::Saved;
pub use targets::{
    Form, Place, Target, Targets, asked_symbols, is_among, item_symbols, targets_of,
};

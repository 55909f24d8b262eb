//! Module, Block and With as machines: the locals of a form, the values that they are given, and the body with its locals renamed,
//! put by or put in place. Whoever drives the machine puts definitions by, takes the module number and puts in place.
#![tactic(auto)]

mod asking;
mod block_form;
mod locals;
mod module_form;
mod moves;
mod reading;
mod symbols;
#[cfg(test)]
mod tests;
mod with_form;

pub use block_form::Block;
pub use locals::{Local, Locals, Scope};
pub use module_form::Module;
pub use moves::ScopeMove;
pub use reading::{block_scope, module_scope};
pub use with_form::With;

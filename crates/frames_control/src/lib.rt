//! The control forms as machines: a machine asks for the value of an expression and goes on with it, until it has the result of the
//! form. A machine knows no definitions and makes no evaluation: it says what it asks, and what is left of its form is a program of
//! `semantics`.
#![tactic(auto)]

mod choice;
mod connected;
mod control;
mod countdown;
mod fixed_point;
mod fold;
mod fold_list;
mod in_turn;
mod moves;
mod nest;
mod nest_list;
mod select;
mod stack;
#[cfg(test)]
mod tests;
mod which;
mod while_loop;

pub use choice::Chosen;
pub use connected::{Connected, Connective};
pub use control::{Control, ControlForm};
pub use countdown::Countdown;
pub use fixed_point::FixedPoint;
pub use fold::Fold;
pub use fold_list::FoldList;
pub use in_turn::InTurn;
pub use moves::{ControlMove, Local};
pub use nest::Nest;
pub use nest_list::NestList;
pub use select::Select;
pub use stack::Stack;
pub use which::Which;
pub use while_loop::While;

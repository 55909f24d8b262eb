//! The evaluator: passes to a fixed point by the standard sequence, over a kernel's definitions and any outside. What it does is a
//! run of the program that the definition of an evaluation gives for an expression. One loop drives every machine of `machine_rows`;
//! rows that are functions of their elements are those of `rows_elements`.
#![tactic(auto)]

mod assemble;
mod call;
mod context;
mod effects;
mod evaluate;
mod machine;
mod outward;
mod put_by;
mod room;
mod rows;
mod sections;
mod settled;
mod steps;
mod symbols;
mod values;

pub use call::{Outcome, eval};
pub use context::Context;
pub use kernel_defs::Defs;
pub use machine_steps::{Answer, KernelState, Mode, Request, Want};
pub use outward::Upcall;

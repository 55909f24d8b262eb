//! The machine that reads the terminals of a cell to a phrase. It goes over them once, from left to right, keeps what stands open on
//! a stack, and closes what binds tighter than the operator that follows. Each step is one of the machine by which the laws of
//! `syntax` are proved, over phrases that are kept within limits (`laws_reading`); how operators bind comes from `operator_levels`.
#![tactic(auto)]

mod attach;
mod begin;
mod chain;
mod close;
mod constructs;
mod elements;
mod finish;
mod follow;
mod frame;
mod kept;
mod machine;
mod negation;
mod next;
mod operator;
mod reduce;
mod stack;
mod start;
mod terminal;

pub use kept::Kept;
pub use machine::{Machine, Step};
pub use terminal::{Phrase, PhraseKind, Terminal, Word};

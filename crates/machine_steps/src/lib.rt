//! What machines share that read and change definitions in a step: the scene in which they run, the state that changes, the moves that they
//! answer, what is asked of the outside, the attributes of symbols as definitions have them, and the words by which a step is told. It stands on
//! `kernel_defs` and on the words of `evaluation_steps`.
#![tactic(auto)]

mod attrs;
mod moves;
mod outward;
mod scene;
mod state;

pub use attrs::DefAttrs;
pub use moves::Move;
pub use outward::{Answer, Request, Want};
pub use scene::{Mode, Scene};
pub use state::KernelState;

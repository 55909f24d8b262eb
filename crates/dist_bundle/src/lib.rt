//! What an item takes with it: the definitions on a closed set of symbols, which are put into the definitions of the kernel that
//! evaluates it. It stands on `kernel_defs`, and on `journal`, whose definitions these are.
#![tactic(auto)]

mod bundle;
mod reach;
mod search;

pub use bundle::{Bundle, BundleEntry};
pub use reach::Reach;

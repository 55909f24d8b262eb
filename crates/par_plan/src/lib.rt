//! How a list of elements is cut into chunks, each of which goes to a kernel as one item. It stands on the definition of cuts in
//! `journal`, and takes no memory: a chunk is told by its two places.
#![tactic(auto)]

mod chunk;
mod law;
mod method;
#[cfg(test)]
mod tests;

pub use chunk::{Chunk, cut, cut_count};
pub use law::chunks_are_between;
pub use method::Method;

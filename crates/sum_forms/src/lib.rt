//! The rows of sums, products and powers, with like terms gathered and put in order: `Plus`, `Times`, `Power`, `Minus`, `Subtract`
//! and `Divide`. It stands on the arithmetic of `int_ops` and the order of `canon_order`.
#![tactic(auto)]

mod answers;
mod groups;
mod powers;
mod products;
mod short_forms;
mod sums;
mod terms;
#[cfg(test)]
mod tests;

pub use powers::power;
pub use products::times;
pub use short_forms::{divide, minus, subtract};
pub use sums::plus;

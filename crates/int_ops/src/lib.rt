//! Exact arithmetic on integers of 128 bits: each call gives the number of the mathematical function, and OutOfRange exactly where it
//! does not fit. Sums and products are judged as a whole. A `Progression` gives integers from a start by a step up to an end, one at a
//! time, to the ends of 128 bits; ranges and iterators walk by it. It knows nothing of expressions.
#![tactic(auto)]

mod arithmetic;
mod division;
mod divisors;
mod out_of_range;
mod powers;
mod product;
mod progression;
mod sum;
#[cfg(test)]
mod tests;

pub use arithmetic::{absolute, add, is_even, mul, sign};
pub use division::{modulo, quotient};
pub use divisors::{common_divisor, gcd};
pub use out_of_range::OutOfRange;
pub use powers::{factorial, power};
pub use product::Product;
pub use progression::Progression;
pub use sum::{Sum, total};

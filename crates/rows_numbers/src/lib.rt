//! The rows of the built-in table on numbers, each a function of the row's elements; `rewrite` joins them with those of `sum_forms`.
//! The arithmetic is that of `int_ops`.
#![tactic(auto)]

mod answers;
mod divisors;
mod extremes;
mod integers;
mod table;

pub use divisors::row_gcd;
pub use extremes::{row_max, row_min};
pub use integers::{
    row_abs, row_even_q, row_factorial, row_mod, row_odd_q, row_quotient, row_sign,
};
pub use table::rewrite;

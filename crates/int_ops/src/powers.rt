//! Powers and factorials.
ghost use Rattle.std.specs.Prelude.{◌≡◌, pos, nat_abs, ◌≤ℤ◌, ◌<ℤ◌, [], ◌∷◌};
ghost use Rattle.std.specs.Int.{int_pow};
ghost use Rattle.expr_tree.specs.Tree.{integer};
ghost use Rattle.semantics.specs.Numbers as Numbers;
ghost use Rattle.int_ops.specs.Exact.{Exactly, Answers};

use crate::arithmetic::is_even;
use crate::out_of_range::OutOfRange;

/// The greatest integer whose factorial is in range.
const LAST: i128 = 33;

/// The power of an exponent that is not negative. 0 to the 0 is 1.
#[tactic(auto, using(crate::proofs::Growth::power_answers))]
pub fn power(base: i128, exponent: i128) -> Result<i128, OutOfRange>
    requires { pos 0 ≤ℤ exponent }
    ensures exact { Exactly (int_pow base (nat_abs exponent)) result }
    ensures row { Answers (Numbers.int_power base (nat_abs exponent)) result }
{
    if exponent <= 127 {
        short_power(base, exponent as u32)
    } else {
        long_power(base, exponent)
    }
}

#[tactic(auto, using(crate::proofs::Ranges::range_steps))]
fn short_power(base: i128, exponent: u32) -> Result<i128, OutOfRange>
    ensures { Exactly (int_pow base exponent) result }
{
    match base.checked_pow(exponent) {
        Some(power) => Ok(power),
        None => Err(OutOfRange),
    }
}

/// Of a long exponent only -1, 0 and 1 have a power in range.
#[tactic(auto, using(crate::proofs::Growth::long_steps))]
fn long_power(base: i128, exponent: i128) -> Result<i128, OutOfRange>
    requires { pos 127 <ℤ exponent }
    ensures { Exactly (int_pow base (nat_abs exponent)) result }
{
    if base.unsigned_abs() > 1 {
        return Err(OutOfRange);
    }
    if is_even(exponent) {
        Ok(base.abs())
    } else {
        Ok(base)
    }
}

/// The factorial of an integer that is not negative.
#[tactic(auto, using(crate::proofs::Growth::factorial_steps))]
pub fn factorial(n: i128) -> Result<i128, OutOfRange>
    requires { pos 0 ≤ℤ n }
    ensures exact { Exactly (pos (Numbers.factorial_of (nat_abs n))) result }
    ensures row { Answers (Numbers.factorial (integer n ∷ [])) result }
{
    if n > LAST {
        return Err(OutOfRange);
    }
    let mut product: u128 = 1;
    for factor in 0..n as u128 {
        product *= factor + 1;
    }
    Ok(product as i128)
}

//! Sums, products and what a sign says.
ghost use Rattle.std.specs.Prelude.{◌≡◌, pos, nat_abs, ◌+ℤ◌, ◌*ℤ◌, [], ◌∷◌};
ghost use Rattle.expr_tree.specs.Tree.{integer};
ghost use Rattle.semantics.specs.Numbers as Numbers;
ghost use Rattle.semantics.specs.Worked.{Gives};
ghost use Rattle.int_ops.specs.Exact.{Exactly};

use crate::out_of_range::OutOfRange;

/// The sum of two integers.
#[tactic(auto, using(crate::proofs::Ranges::range_steps))]
pub fn add(a: i128, b: i128) -> Result<i128, OutOfRange>
    ensures { Exactly (a +ℤ b) result }
{
    match a.checked_add(b) {
        Some(sum) => Ok(sum),
        None => Err(OutOfRange),
    }
}

/// The product of two integers.
#[tactic(auto, using(crate::proofs::Ranges::range_steps))]
pub fn mul(a: i128, b: i128) -> Result<i128, OutOfRange>
    ensures { Exactly (a *ℤ b) result }
{
    match a.checked_mul(b) {
        Some(product) => Ok(product),
        None => Err(OutOfRange),
    }
}

/// The absolute value. That of the least integer is out of range.
#[tactic(auto, using(crate::proofs::Ranges::range_steps))]
pub fn absolute(a: i128) -> Result<i128, OutOfRange>
    ensures { Exactly (pos (nat_abs a)) result }
{
    match a.checked_abs() {
        Some(value) => Ok(value),
        None => Err(OutOfRange),
    }
}

/// -1, 0 or 1, as the integer is below 0, 0 or above.
pub fn sign(a: i128) -> i128
    ensures { Numbers.sign (integer a ∷ []) ≡ Gives (integer result) }
{
    a.signum()
}

/// Whether 2 divides the integer.
pub fn is_even(a: i128) -> bool
    ensures { result ≡ Numbers.is_even (nat_abs a) }
{
    a % 2 == 0
}

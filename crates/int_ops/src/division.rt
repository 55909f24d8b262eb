//! Division that rounds down.
ghost use Rattle.std.specs.Prelude.{◌≡◌, ◌≢◌, pos, ◌-ℤ◌, ◌*ℤ◌};
ghost use Rattle.semantics.specs.Numbers.{quotient_down};
ghost use Rattle.int_ops.specs.Exact.{Exactly};

use crate::out_of_range::OutOfRange;

/// The quotient, rounded down.
#[tactic(auto, using(crate::proofs::Ranges::range_steps))]
pub fn quotient(a: i128, b: i128) -> Result<i128, OutOfRange>
    requires { b ≢ pos 0 }
    ensures { Exactly (quotient_down a b) result }
{
    if a > 0 && b < 0 {
        return Ok((a - 1) / b - 1);
    }
    if a < 0 && b > 0 {
        return Ok((a + 1) / b - 1);
    }
    match a.checked_div(b) {
        Some(quotient) => Ok(quotient),
        None => Err(OutOfRange),
    }
}

/// What the quotient leaves, with the sign of the divisor. It is never out of range.
#[tactic(auto, using(crate::proofs::Rounding::modulo_steps))]
pub fn modulo(a: i128, b: i128) -> Result<i128, OutOfRange>
    requires { b ≢ pos 0 }
    ensures { Exactly (a -ℤ (b *ℤ quotient_down a b)) result }
{
    if a > 0 && b < 0 {
        return Ok((a - 1) % b + 1 + b);
    }
    if b > 0 {
        return Ok(a.rem_euclid(b));
    }
    Ok(a.wrapping_rem(b))
}

//! Greatest common divisors.
ghost use Rattle.std.specs.Prelude.{◌≡◌, suc, pos, nat_abs};
ghost use Rattle.std.specs.Int.{IsGcd};
ghost use Rattle.semantics.specs.Numbers as Numbers;
ghost use Rattle.int_ops.specs.Exact.{Exactly};

use crate::out_of_range::OutOfRange;

/// The greatest common divisor of two magnitudes; that of 0 and another is the other.
pub fn common_divisor(a: u128, b: u128) -> u128
    ensures row { result ≡ Numbers.common_divisor (suc b) a b }
    ensures greatest { IsGcd a b result }
{
    let mut last = a;
    let mut rest = b;
    while rest != 0 {
        let next = last % rest;
        last = rest;
        rest = next;
    }
    last
}

/// The greatest common divisor of two integers.
#[tactic(auto, using(crate::proofs::Ranges::range_steps))]
pub fn gcd(a: i128, b: i128) -> Result<i128, OutOfRange>
    ensures { Exactly (pos (Numbers.common_divisor (suc (nat_abs b)) (nat_abs a) (nat_abs b))) result }
{
    let divisor = common_divisor(a.unsigned_abs(), b.unsigned_abs());
    if divisor <= i128::MAX as u128 {
        Ok(divisor as i128)
    } else {
        Err(OutOfRange)
    }
}

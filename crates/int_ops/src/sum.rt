//! Sums of many integers, judged as a whole.
ghost use Rattle.std.specs.Prelude.{◌≡◌, ◌<◌, ◌^◌, pos, negsuc, nat_abs, ◌+ℤ◌, ◌*ℤ◌, ◌≤ℤ◌};
ghost use Rattle.int_ops.specs.Exact.{Exactly};
ghost use Rattle.int_ops.specs.Totals.{total};

use crate::out_of_range::OutOfRange;
use std::marker::Model;

/// A sum that is judged once: what is left of it in 128 bits, and how many times 2^128 has to be added.
#[derive(Debug, Drop)]
pub struct Sum {
    value: i128,
    turns: i128,
}

impl Model for Sum {
    ghost use Rattle.std.specs.Prelude.{ℤ, pos, ◌+ℤ◌, ◌*ℤ◌, ◌^◌};

    ghost Value = { ℤ };

    ghost view = { λ s. s.value +ℤ (s.turns *ℤ pos (2 ^ 128)) };
}

impl Sum {
    /// The sum of one integer.
    pub fn of(value: i128) -> Sum
        ensures { result ≡ value }
    {
        Sum { value, turns: 0 }
    }

    /// Takes one integer more. There is room for it in any sum of at most 2^64 integers.
    pub fn add(&mut self, more: i128)
        requires { nat_abs self.old < 2 ^ 200 }
        ensures { self.new ≡ self.old +ℤ more }
    {
        let sum = carry(self.value, more);
        self.value = sum.value;
        self.turns += sum.turns;
    }

    /// The whole sum, where it is in range.
    pub fn judged(&self) -> Result<i128, OutOfRange>
        ensures { Exactly self.now result }
    {
        judged(self.value, self.turns)
    }
}

/// A sum of two integers.
#[derive(Clone, Copy)]
struct Carried {
    value: i128,
    turns: i128,
}

fn carry(value: i128, more: i128) -> Carried
    ensures sum { (result.value +ℤ (result.turns *ℤ pos (2 ^ 128))) ≡ (value +ℤ more) }
    ensures low { negsuc 0 ≤ℤ result.turns }
    ensures high { result.turns ≤ℤ pos 1 }
{
    if value > 0 && more > i128::MAX - value {
        return Carried {
            value: (value + i128::MIN) + (more + i128::MIN),
            turns: 1,
        };
    }
    if value < 0 && more < i128::MIN - value {
        return Carried {
            value: (value - i128::MIN) + (more - i128::MIN),
            turns: -1,
        };
    }
    Carried {
        value: value + more,
        turns: 0,
    }
}

fn judged(value: i128, turns: i128) -> Result<i128, OutOfRange>
    ensures { Exactly (value +ℤ (turns *ℤ pos (2 ^ 128))) result }
{
    if turns == 0 {
        Ok(value)
    } else {
        Err(OutOfRange)
    }
}

/// The sum of many integers, judged as a whole.
pub fn total(numbers: &[i128]) -> Result<i128, OutOfRange>
    ensures { Exactly (total numbers.now) result }
{
    let mut sum = Sum::of(0);
    for number in numbers {
        sum.add(*number);
    }
    sum.judged()
}

//! The numbers that digits write.
ghost use Rattle.std.specs.Prelude.{◌≡◌, ◌<◌, ◌^◌, pos};
ghost use Rattle.script_text.specs.Bytes.{number_after};
ghost use Rattle.syntax.specs.Leaves.{number_or_one};

/// The integer that digits write, which has 128 bits.
#[tactic(auto, using(crate::proofs::DigitSteps::digit_steps))]
pub(crate) fn integer_of(digits: &[u8]) -> i128
    requires { number_after 0 digits.now < 2 ^ 127 }
    ensures { result ≡ pos (number_after 0 digits.now) }
{
    let mut value: u128 = 0;
    for digit in digits {
        value = value * 10 + u128::from(digit.saturating_sub(b'0'));
    }
    value as i128
}

/// The integer that digits write, or 1 where there are none.
pub(crate) fn integer_or_one(digits: &[u8]) -> i128
    requires { number_or_one digits.now < 2 ^ 127 }
    ensures { result ≡ pos (number_or_one digits.now) }
{
    if digits.is_empty() {
        1
    } else {
        integer_of(digits)
    }
}

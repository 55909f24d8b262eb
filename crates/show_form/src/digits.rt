ghost use Rattle.std.specs.Prelude.{◌≡◌, ◌≢◌, ◌-◌, ◌==◌, true, false, MatchOption};
ghost use Rattle.expr_tree.specs.Limits.{in_range};
ghost use Rattle.script_text.specs.Bytes.{is_digit};
ghost use Rattle.script_text.specs.Reader.{signed, grown};
ghost use Rattle.show_form.specs.Numbers.{Written};

use std::marker::Model;

/// The digits of a number so far, and whether it is below 0. What they write is in the range of 128 bits.
#[derive(Drop)]
pub(crate) struct Digits {
    below: bool,
    magnitude: u128,
}

impl Model for Digits {
    ghost use Rattle.std.specs.Prelude.{◌≡◌, true};
    ghost use Rattle.expr_tree.specs.Limits.{in_range};
    ghost use Rattle.script_text.specs.Reader.{signed};
    ghost use Rattle.show_form.specs.Numbers.{Written};

    ghost Value = { Written };

    ghost view = { λ d. record { below = d.below; magnitude = d.magnitude } };

    ghost invariant = { λ d. in_range (signed d.below d.magnitude) ≡ true };
}

fn fits(below: bool, magnitude: u128) -> bool
    ensures { result ≡ in_range (signed below magnitude) }
{
    if below {
        magnitude <= 1 << 127
    } else {
        magnitude < 1 << 127
    }
}

impl Digits {
    pub(crate) fn first(below: bool, digit: u8) -> Digits
        requires { is_digit digit ≡ true }
        ensures { result ≡ record { below = below; magnitude = digit - 48 } }
    {
        Digits {
            below,
            magnitude: u128::from(digit - b'0'),
        }
    }

    pub(crate) fn is_zero(&self) -> bool
        ensures { result ≡ (self.now.magnitude == 0) }
    {
        self.magnitude == 0
    }

    /// With one digit more, where that is in the range.
    pub(crate) fn grow(&self, digit: u8) -> Option<Digits>
        requires { is_digit digit ≡ true }
        ensures { MatchOption result (in_range (signed self.now.below (grown self.now.magnitude digit)) ≡ false) (λ d.
            (d ≡ record { below = self.now.below; magnitude = grown self.now.magnitude digit })
            × (in_range (signed self.now.below (grown self.now.magnitude digit)) ≡ true)) }
    {
        let magnitude = self
            .magnitude
            .checked_mul(10)?
            .checked_add(u128::from(digit - b'0'))?;
        if fits(self.below, magnitude) {
            Some(Digits {
                below: self.below,
                magnitude,
            })
        } else {
            None
        }
    }

    pub(crate) fn value(&self) -> i128
        ensures { result ≡ signed self.now.below self.now.magnitude }
    {
        if !self.below {
            self.magnitude as i128
        } else if self.magnitude == 0 {
            -1
        } else {
            -((self.magnitude - 1) as i128) - 1
        }
    }
}

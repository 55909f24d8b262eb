//! Products of many factors, judged as a whole.
ghost use Rattle.std.specs.Prelude.{ℕ, ◌*◌, ◌<◌, ℤ, pos, neg_ℤ, ◌*ℤ◌};
ghost use Rattle.int_ops.specs.Exact.{Exactly};
ghost use Rattle.int_ops.specs.Products.{Stands, Holds};

use crate::out_of_range::OutOfRange;
use std::marker::Model;

/// A product that is judged once. A factor 0 makes it 0, however far it went before.
#[derive(Debug, Drop)]
pub struct Product {
    magnitude: Option<u128>,
    is_negative: bool,
}

impl Model for Product {
    ghost use Rattle.int_ops.specs.Products.{Kept};

    ghost Value = { Kept };

    ghost view = { λ p. record { magnitude = p.magnitude; is_negative = p.is_negative } };
}

impl Product {
    /// The product of no factors.
    pub fn one() -> Product
        ensures { Stands result (pos 1) }
    {
        Product {
            magnitude: Some(1),
            is_negative: false,
        }
    }

    /// Takes one factor more.
    pub fn multiply(&mut self, factor: i128)
        ensures { (z : ℤ) → Stands self.old z → Stands self.new (z *ℤ factor) }
    {
        self.magnitude = if factor == 0 {
            Some(0)
        } else {
            scaled(self.magnitude, factor.unsigned_abs())
        };
        self.is_negative = self.is_negative != (factor < 0);
    }

    /// The whole product, where it is in range.
    pub fn judged(&self) -> Result<i128, OutOfRange>
        ensures { (z : ℤ) → Stands self.now z → Exactly z result }
    {
        match self.magnitude {
            Some(m) if self.is_negative => negative(m),
            Some(m) if m <= i128::MAX as u128 => Ok(m as i128),
            _ => Err(OutOfRange),
        }
    }
}

fn scaled(magnitude: Option<u128>, factor: u128) -> Option<u128>
    requires { 0 < factor }
    ensures { (m : ℕ) → Holds magnitude m → Holds result (m * factor) }
{
    magnitude?.checked_mul(factor)
}

/// The negative of a magnitude, which may be that of the least integer.
fn negative(magnitude: u128) -> Result<i128, OutOfRange>
    ensures { Exactly (neg_ℤ (pos magnitude)) result }
{
    if magnitude <= i128::MAX as u128 {
        Ok(-(magnitude as i128))
    } else if magnitude == i128::MIN.unsigned_abs() {
        Ok(i128::MIN)
    } else {
        Err(OutOfRange)
    }
}

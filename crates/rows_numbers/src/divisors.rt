//! `GCD`.
ghost use Rattle.std.specs.Prelude.{◌≡◌, MatchOption};
ghost use Rattle.semantics.specs.Numbers as n;
ghost use Rattle.semantics.specs.Worked.{Stays, gives_int};
ghost use Rattle.std.specs.Prelude.{pos};
ghost use Rattle.builtin_names.specs.Results.{Works};

use crate::answers::of_magnitude;
use builtin_names::Fault;
use expr_tree::{Expr, Exprs, Node};
use int_ops::common_divisor;

/// The greatest common divisor of integers, as a magnitude; that of none is 0.
#[tactic(auto, using(crate::proofs::Common::divisor_steps))]
fn divisor_of(items: &[Expr]) -> Option<u128>
    ensures { MatchOption result (n.gcd items.now ≡ Stays) (λ d. n.gcd items.now ≡ gives_int (pos d)) }
{
    let mut divisor = 0;
    for item in items {
        let Node::Int(number) = item.node() else {
            return None;
        };
        divisor = common_divisor(divisor, number.unsigned_abs());
    }
    Some(divisor)
}

/// `GCD`. That of one integer is its absolute value.
pub fn row_gcd(items: &Exprs) -> Result<Option<Expr>, Fault>
    ensures { Works (n.gcd items.now) result }
{
    match divisor_of(items.as_slice()) {
        Some(divisor) => of_magnitude(divisor),
        None => Ok(None),
    }
}

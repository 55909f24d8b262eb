//! What a row answers for a number.
ghost use Rattle.std.specs.Prelude.{◌≡◌, ℤ, pos};
ghost use Rattle.semantics.specs.Worked.{Worked, gives_int};
ghost use Rattle.int_ops.specs.Exact.{Answers, Exactly};
ghost use Rattle.builtin_names.specs.Results.{Works};

use builtin_names::Fault;
use expr_tree::Expr;
use int_ops::OutOfRange;

/// The answer for a number that is judged.
#[tactic(auto, using(crate::proofs::Judged::judged_steps))]
pub(crate) fn judged(number: Result<i128, OutOfRange>) -> Result<Option<Expr>, Fault>
    ensures exact { (z : ℤ) → Exactly z number → Works (gives_int z) result }
    ensures row { (w : Worked) → Answers w number → Works w result }
{
    match number {
        Ok(value) => Ok(Some(Expr::int(value))),
        Err(_) => Err(Fault::Range),
    }
}

/// The answer for a magnitude.
#[tactic(auto, using(crate::proofs::Judged::judged_steps))]
pub(crate) fn of_magnitude(magnitude: u128) -> Result<Option<Expr>, Fault>
    ensures { Works (gives_int (pos magnitude)) result }
{
    if magnitude <= i128::MAX as u128 {
        Ok(Some(Expr::int(magnitude as i128)))
    } else {
        Err(Fault::Range)
    }
}

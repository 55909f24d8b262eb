//! What a row answers, from what its parts answered.
ghost use Rattle.std.specs.Prelude.{◌≡◌, ◌+◌, ◌<◌, ◌≤◌, Err};
ghost use Rattle.expr_tree.specs.Tree.{Tree, size, depth};
ghost use Rattle.expr_tree.specs.Limits.{Assembles};
ghost use Rattle.semantics.specs.Worked.{Worked, Gives};
ghost use Rattle.int_ops.specs.Exact.{Answers};
ghost use Rattle.builtin_names.specs.Results.{IsFaultOf, Makes, Works};

use builtin_names::Fault;
use expr_tree::{Built, Expr, MAX_SIZE};
use int_ops::OutOfRange;

/// The answer for a number that is judged.
pub(crate) fn of_number(number: Result<i128, OutOfRange>) -> Result<Option<Expr>, Fault>
    ensures { (w : Worked) → Answers w number → Works w result }
{
    match number {
        Ok(value) => Ok(Some(Expr::int(value))),
        Err(_) => Err(Fault::Range),
    }
}

/// The answer with an expression that a row gives.
pub(crate) fn given(made: Result<Expr, Fault>) -> Result<Option<Expr>, Fault>
    ensures { (t : Tree) → Makes t made → Works (Gives t) result }
{
    match made {
        Ok(e) => Ok(Some(e)),
        Err(fault) => Err(fault),
    }
}

/// The fault of an expression with a part that was not made and so many atoms beside it.
pub(crate) fn around(part: Built, beside: u64) -> Fault
    ensures { (t whole : Tree) → Assembles t (Err part) → size whole ≡ size t + beside → depth t < depth whole → IsFaultOf whole result }
{
    match part {
        Built::TooLarge => Fault::TooLarge,
        Built::TooDeep(nodes) => match nodes.checked_add(beside) {
            Some(nodes) if nodes <= MAX_SIZE => Fault::TooDeep(nodes),
            _ => Fault::TooLarge,
        },
        Built::NoMemory => Fault::NoMemory,
    }
}

/// An expression, which is within the limits.
pub(crate) fn within(e: Expr) -> Expr
    ensures same { result ≡ e }
    ensures size { size e ≤ 4000000 }
    ensures depth { depth e ≤ 512 }
{
    let _size = e.size();
    let _depth = e.depth();
    e
}

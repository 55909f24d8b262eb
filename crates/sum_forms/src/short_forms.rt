//! `Minus`, `Subtract` and `Divide`, which are written by sums, products and powers.
ghost use Rattle.std.specs.Prelude.{◌≡◌, [], ◌∷◌};
ghost use Rattle.expr_tree.specs.Tree.{Tree};
ghost use Rattle.expr_tree.specs.Limits.{Assembles};
ghost use Rattle.semantics.specs.Names as n;
ghost use Rattle.semantics.specs.Numbers as Numbers;
ghost use Rattle.semantics.specs.declared.builtin.Builtin as rows;
ghost use Rattle.builtin_names.specs.Named.{names_in};
ghost use Rattle.builtin_names.specs.Results.{Makes, Works};

use crate::answers::{around, given};
use builtin_names::{Fault, Vocabulary, make};
use expr_lists::two;
use expr_tree::{Built, Expr, Exprs, pair_of};
use semantics::Builtin;
use std::alloc::Global;

/// `Minus[x]` is -1 times x.
#[tactic(auto, using(crate::proofs::Shapes::short_steps))]
pub fn minus(alloc: Global, names: &Vocabulary, items: &Exprs) -> Result<Option<Expr>, Fault>
    ensures { Works (Numbers.minus (names_in names.now) items.now) result }
{
    let [x] = items.as_slice() else {
        return Ok(None);
    };
    let items = two(alloc, Expr::int(-1), x.copy(alloc)?)?;
    Ok(Some(make(alloc, names, Builtin::Times, items)?))
}

/// `Subtract[a, b]` is a plus -1 times b.
#[tactic(auto, using(crate::proofs::Shapes::short_steps))]
pub fn subtract(alloc: Global, names: &Vocabulary, items: &Exprs) -> Result<Option<Expr>, Fault>
    ensures { Works (Numbers.subtract (names_in names.now) items.now) result }
{
    let Some((a, b)) = pair_of(items.as_slice()) else {
        return Ok(None);
    };
    let items = two(alloc, Expr::int(-1), b.copy(alloc)?)?;
    let negated = make(alloc, names, Builtin::Times, items);
    given(beside(alloc, names, Builtin::Plus, a, negated))
}

/// `Divide[a, b]` is a times b to the -1.
#[tactic(auto, using(crate::proofs::Shapes::short_steps))]
pub fn divide(alloc: Global, names: &Vocabulary, items: &Exprs) -> Result<Option<Expr>, Fault>
    ensures { Works (Numbers.divide (names_in names.now) items.now) result }
{
    let Some((a, b)) = pair_of(items.as_slice()) else {
        return Ok(None);
    };
    let items = two(alloc, b.copy(alloc)?, Expr::int(-1))?;
    let inverse = make(alloc, names, Builtin::Power, items);
    given(beside(alloc, names, Builtin::Times, a, inverse))
}

/// `row[first, part]`, where the part may not have been made.
#[tactic(auto, using(crate::proofs::Shapes::short_steps))]
fn beside(
    alloc: Global,
    names: &Vocabulary,
    row: Builtin,
    first: &Expr,
    part: Result<Expr, Built>,
) -> Result<Expr, Fault>
    ensures { (t : Tree) → Assembles t part → Makes (n.make (names_in names.now) row (first.now ∷ t ∷ [])) result }
{
    match part {
        Ok(part) => {
            let items = two(alloc, first.copy(alloc)?, part)?;
            Ok(make(alloc, names, row, items)?)
        }
        Err(fault) => Err(around(fault, first.size() + 1)),
    }
}

//! What a call is made of.
ghost use Rattle.std.specs.Prelude.{◌≡◌, ◌+◌, IfOk, min};
ghost use Rattle.expr_tree.specs.Tree.{call, size, sizes, trees};
ghost use Rattle.made_exprs.specs.Beyond.{AreWhole, IsWhole};

use crate::formed::{Formed, TOO_MANY};
use expr_tree::{Built, Expr, Exprs};
use item_list::Items;
use std::alloc::{AllocError, Global};

/// The number of atoms of a call, counted as far as one more than an expression may have.
#[tactic(auto, using(expr_tree::proofs::Callers::tree_steps))]
pub(crate) fn nodes_of_call(head: &Formed, items: &[Formed]) -> u64
    ensures { result ≡ min (size (call head.now items.now)) 4000001 }
{
    let mut total = head.nodes();
    for item in items {
        total = (total + item.nodes()).min(TOO_MANY);
    }
    total
}

/// The elements, where all are there.
#[tactic(auto, using(expr_tree::proofs::Callers::tree_steps))]
fn wholes_of(alloc: Global, items: &[Formed]) -> Result<Option<Exprs>, AllocError>
    ensures { IfOk result (AreWhole items.now) }
{
    let mut found = Items::new(alloc);
    for item in items {
        let Some(e) = item.whole() else {
            return Ok(None);
        };
        found.push(e.copy(alloc)?)?;
    }
    Ok(Some(found))
}

/// The call of a head and elements, where it is within the limits of an expression.
pub(crate) fn whole_call(
    alloc: Global,
    head: &Formed,
    items: &[Formed],
) -> Result<Option<Expr>, AllocError>
    ensures { IfOk result (IsWhole (call head.now items.now)) }
{
    let Some(first) = head.whole() else {
        return Ok(None);
    };
    let Some(found) = wholes_of(alloc, items)? else {
        return Ok(None);
    };
    match Expr::normal(alloc, first.copy(alloc)?, found) {
        Ok(made) => Ok(Some(made)),
        Err(Built::TooLarge | Built::TooDeep(_)) => Ok(None),
        Err(Built::NoMemory) => Err(AllocError),
    }
}

//! Lists of expressions.
ghost use Rattle.std.specs.Prelude.{◌≡◌, ◌∷◌, [], min, IfOk};
ghost use Rattle.expr_tree.specs.Tree.{sizes, trees};

use expr_tree::{Expr, Exprs, MAX_SIZE};
use item_list::Items;
use std::alloc::{AllocError, Global};

/// One atom more than an expression may have.
pub const TOO_MANY: u64 = MAX_SIZE + 1;

/// A list of one expression.
pub fn one(alloc: Global, e: Expr) -> Result<Exprs, AllocError>
    ensures { IfOk result (λ items. items ≡ e ∷ []) }
{
    let mut items = Items::new(alloc);
    items.push(e)?;
    Ok(items)
}

/// A list of two expressions.
pub fn two(alloc: Global, first: Expr, second: Expr) -> Result<Exprs, AllocError>
    ensures { IfOk result (λ items. items ≡ first ∷ second ∷ []) }
{
    let mut items = one(alloc, first)?;
    items.push(second)?;
    Ok(items)
}

/// The elements of a slice, shared.
pub fn copies(alloc: Global, items: &[Expr]) -> Result<Exprs, AllocError>
    ensures { IfOk result (λ es. es ≡ items.now) }
{
    let mut made = Items::new(alloc);
    for item in items {
        made.push(item.copy(alloc)?)?;
    }
    Ok(made)
}

/// The same value, shared.
pub fn value_copied(alloc: Global, value: &Option<Expr>) -> Result<Option<Expr>, AllocError>
    ensures { IfOk result (λ copy. copy ≡ value.now) }
{
    match value {
        Some(e) => Ok(Some(e.copy(alloc)?)),
        None => Ok(None),
    }
}

/// The size of all elements, counted as far as one more than an expression may have.
#[tactic(auto, using(expr_tree::proofs::Callers::tree_steps))]
pub fn nodes_of_all(items: &[Expr]) -> u64
    ensures { result ≡ min (sizes (trees items.now)) 4000001 }
{
    let mut total = 0;
    for item in items {
        total = (total + item.size()).min(TOO_MANY);
    }
    total
}

//! Sorting into the canonical order.
ghost use Rattle.std.specs.Prelude.{◌≡◌, true, IfOk};
ghost use Rattle.semantics.specs.Assemble.{sorted};
ghost use Rattle.semantics.specs.Steps.{ordered};
ghost use Rattle.builtin_names.specs.Attributes.{attributes_in};

use canon_order::{compare, put_in_order};
use expr_tree::{Attrs, Expr, Exprs};
use std::alloc::{AllocError, Global};

fn is_in_order(items: &[Expr]) -> bool
    ensures { result ≡ true → ordered items.now ≡ items.now }
{
    for i in 1..items.len() {
        if compare(&items[i], &items[i - 1]).is_lt() {
            return false;
        }
    }
    true
}

/// The elements in the canonical order. Those that are in order already take no memory.
#[tactic(auto, using(crate::proofs::Orders::one_order))]
pub fn order(alloc: Global, items: Exprs) -> Result<Exprs, AllocError>
    ensures { IfOk result (λ r. r ≡ ordered items) }
{
    if is_in_order(items.as_slice()) {
        return Ok(items);
    }
    let mut items = items;
    put_in_order(alloc, &mut items)?;
    Ok(items)
}

/// What sorting leaves under these attributes of the head.
#[tactic(auto, using(builtin_names::proofs::Flags::flag_steps))]
pub fn sorted(alloc: Global, attrs: &Attrs, items: Exprs) -> Result<Exprs, AllocError>
    ensures { IfOk result (λ r. r ≡ sorted (attributes_in attrs.now) items) }
{
    if attrs.orderless {
        return order(alloc, items);
    }
    Ok(items)
}

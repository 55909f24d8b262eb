//! Splicing: an element `Sequence[..]` gives way to its elements.
ghost use Rattle.std.specs.Prelude.{◌≡◌, false, IfOk};
ghost use Rattle.semantics.specs.Assemble.{spliced};
ghost use Rattle.semantics.specs.Steps.{splice};
ghost use Rattle.builtin_names.specs.Attributes.{attributes_in};
ghost use Rattle.builtin_names.specs.Named.{names_in};

use builtin_names::{Vocabulary, is_call, items_under};
use expr_tree::{Attrs, Expr, Exprs, copy_items};
use item_list::Items;
use semantics::Builtin;
use std::alloc::{AllocError, Global};

fn has_sequence(names: &Vocabulary, items: &[Expr]) -> bool
    ensures { result ≡ false → splice (names_in names.now) items.now ≡ items.now }
{
    for item in items {
        if is_call(names, Builtin::Sequence, item) {
            return true;
        }
    }
    false
}

/// The elements with those of each `Sequence[..]` in its place.
#[tactic(auto, using(expr_tree::proofs::Callers::tree_steps))]
pub fn splice(alloc: Global, names: &Vocabulary, items: Exprs) -> Result<Exprs, AllocError>
    ensures { IfOk result (λ r. r ≡ splice (names_in names.now) items) }
{
    if !has_sequence(names, items.as_slice()) {
        return Ok(items);
    }
    let mut spliced = Items::new(alloc);
    for item in items.as_slice() {
        match items_under(names, Builtin::Sequence, item) {
            Some(inner) => spliced.append(copy_items(alloc, inner)?)?,
            None => spliced.push(item.copy(alloc)?)?,
        }
    }
    Ok(spliced)
}

/// What splicing leaves under these attributes of the head.
#[tactic(auto, using(builtin_names::proofs::Flags::flag_steps))]
pub fn spliced(
    alloc: Global,
    names: &Vocabulary,
    attrs: &Attrs,
    items: Exprs,
) -> Result<Exprs, AllocError>
    ensures { IfOk result (λ r. r ≡ spliced (names_in names.now) (attributes_in attrs.now) items) }
{
    if attrs.sequence_hold || attrs.hold_all_complete {
        return Ok(items);
    }
    splice(alloc, names, items)
}

//! The row that puts the elements of inner Lists in their place.
ghost use Rattle.std.specs.Prelude.{◌≡◌, ◌++◌, ◌≤◌, OnOk};
ghost use Rattle.expr_tree.specs.Tree.{trees};
ghost use Rattle.semantics.specs.Lists as l;
ghost use Rattle.builtin_names.specs.Named.{names_in};
ghost use Rattle.builtin_names.specs.Results.{Works};
ghost use Rattle.list_ops.specs.Flat.{levels_of, flat_to};

use crate::answer::call;
use builtin_names::{Fault, Vocabulary, items_under};
use expr_tree::{Expr, Exprs, Node};
use item_list::Items;
use semantics::Builtin;
use std::alloc::{AllocError, Global};

/// Puts an element to the end, or the elements of a List, down to so many levels.
#[cycle(flat)]
#[tactic(auto, using(crate::proofs::Flattened::flat_steps))]
fn put_flat(
    alloc: Global,
    names: &Vocabulary,
    made: &mut Exprs,
    e: &Expr,
    levels: u32,
) -> Result<(), AllocError>
    ensures { OnOk result (made.new ≡ made.old ++ l.flat_item (names_in names.now) e.now levels) }
{
    if levels == 0 {
        made.push(e.copy(alloc)?)?;
        return Ok(());
    }
    match items_under(names, Builtin::List, e) {
        Some(elements) => put_all_flat(alloc, names, made, elements.as_slice(), levels - 1),
        None => {
            made.push(e.copy(alloc)?)?;
            Ok(())
        }
    }
}

#[cycle(flat)]
#[tactic(auto, using(crate::proofs::Flattened::flat_steps))]
fn put_all_flat(
    alloc: Global,
    names: &Vocabulary,
    made: &mut Exprs,
    items: &[Expr],
    levels: u32,
) -> Result<(), AllocError>
    ensures { OnOk result (made.new ≡ made.old ++ l.flat_items (names_in names.now) (trees items.now) levels) }
{
    for item in items {
        put_flat(alloc, names, made, item, levels)?;
    }
    Ok(())
}

/// The levels that a number asks for. No expression has more than `MAX_DEPTH`.
fn levels_of(number: i128) -> Option<u32>
    ensures { result ≡ levels_of number }
{
    if number < 0 {
        None
    } else if number >= 512 {
        Some(512)
    } else {
        Some(number as u32)
    }
}

fn flattened(
    alloc: Global,
    names: &Vocabulary,
    e: &Expr,
    levels: u32,
) -> Result<Option<Expr>, Fault>
    ensures { Works (flat_to (names_in names.now) e.now levels) result }
{
    let Node::Normal(head, elements) = e.node() else {
        return Ok(None);
    };
    let mut made = Items::new(alloc);
    put_all_flat(alloc, names, &mut made, elements.as_slice(), levels)?;
    call(alloc, head.copy(alloc)?, made)
}

/// `Flatten`.
#[tactic(auto, using(crate::proofs::Flattened::row_steps))]
pub fn row_flatten(alloc: Global, names: &Vocabulary, items: &Exprs) -> Result<Option<Expr>, Fault>
    ensures { Works (l.flatten_row (names_in names.now) items.now) result }
{
    match items.as_slice() {
        [e] => flattened(alloc, names, e, 512),
        [e, number] => {
            let Node::Int(number) = number.node() else {
                return Ok(None);
            };
            let Some(levels) = levels_of(*number) else {
                return Ok(None);
            };
            let _within = e.depth();
            flattened(alloc, names, e, levels)
        }
        _ => Ok(None),
    }
}

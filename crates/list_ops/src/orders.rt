//! The rows that put the elements in another order.
ghost use Rattle.std.specs.Prelude.{◌≡◌, ◌<◌, IfOk, drop, length};
ghost use Rattle.semantics.specs.Lists as l;
ghost use Rattle.builtin_names.specs.Named.{names_in};
ghost use Rattle.builtin_names.specs.Results.{Works};
ghost use Rattle.list_ops.specs.Repeats.{repeats};

use crate::answer::{call, make, put_behind};
use attr_steps::order;
use builtin_names::{Fault, Vocabulary, items_under};
use expr_lists::copies;
use expr_tree::{Expr, Exprs, Node};
use item_list::Items;
use semantics::Builtin;
use std::alloc::{AllocError, Global};

/// `Reverse`.
#[tactic(auto, using(expr_tree::proofs::Callers::tree_steps))]
pub fn row_reverse(alloc: Global, items: &Exprs) -> Result<Option<Expr>, Fault>
    ensures { Works (l.reversed items.now) result }
{
    let [e] = items.as_slice() else {
        return Ok(None);
    };
    let Node::Normal(head, elements) = e.node() else {
        return Ok(None);
    };
    let mut turned = copies(alloc, elements.as_slice())?.into_vec();
    turned.reverse();
    call(alloc, head.copy(alloc)?, Items::from_vec(turned))
}

/// `Sort`.
#[tactic(auto, using(expr_tree::proofs::Callers::tree_steps))]
pub fn row_sort(alloc: Global, items: &Exprs) -> Result<Option<Expr>, Fault>
    ensures { Works (l.sort items.now) result }
{
    let [e] = items.as_slice() else {
        return Ok(None);
    };
    let Node::Normal(head, elements) = e.node() else {
        return Ok(None);
    };
    let sorted = order(alloc, copies(alloc, elements.as_slice())?)?;
    call(alloc, head.copy(alloc)?, sorted)
}

/// Whether the element at a place is the one behind it.
#[tactic(auto, using(crate::proofs::Distinct::repeat_steps))]
fn repeats(items: &[Expr], at: usize) -> bool
    requires { at < length items.now }
    ensures { result ≡ repeats (drop at items.now) }
{
    let rest = items.len() - at;
    if rest < 2 {
        return false;
    }
    items[at].equals(&items[at + 1])
}

/// Sorted elements, each once.
#[tactic(auto, using(crate::proofs::Distinct::distinct_steps))]
fn distinct(alloc: Global, items: &[Expr]) -> Result<Exprs, AllocError>
    ensures { IfOk result (λ es. es ≡ l.distinct items.now) }
{
    let mut made = Items::new(alloc);
    for (i, item) in items.iter().enumerate() {
        if repeats(items, i) {
            continue;
        }
        made.push(item.copy(alloc)?)?;
    }
    Ok(made)
}

/// The elements of Lists, one after the other.
#[tactic(auto, using(crate::proofs::Distinct::listed_steps))]
fn listed(alloc: Global, names: &Vocabulary, items: &[Expr]) -> Result<Option<Exprs>, AllocError>
    ensures { IfOk result (λ o. o ≡ l.all_lists (names_in names.now) items.now) }
{
    let mut made = Items::new(alloc);
    for item in items {
        let Some(elements) = items_under(names, Builtin::List, item) else {
            return Ok(None);
        };
        put_behind(alloc, &mut made, elements.as_slice())?;
    }
    Ok(Some(made))
}

/// `Union`.
#[tactic(auto, using(crate::proofs::Distinct::union_steps))]
pub fn row_union(alloc: Global, names: &Vocabulary, items: &Exprs) -> Result<Option<Expr>, Fault>
    ensures { Works (l.union (names_in names.now) items.now) result }
{
    if items.is_empty() {
        return Ok(None);
    }
    match listed(alloc, names, items.as_slice())? {
        Some(all) => {
            let sorted = order(alloc, all)?;
            make(
                alloc,
                names,
                Builtin::List,
                distinct(alloc, sorted.as_slice())?,
            )
        }
        None => Ok(None),
    }
}

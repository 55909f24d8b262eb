//! The rows that put a head around elements, or take one off.
ghost use Rattle.std.specs.Prelude.{◌≡◌, ◌+◌, map};
ghost use Rattle.expr_tree.specs.Tree.{trees, size};
ghost use Rattle.expr_tree.specs.Limits.{Assembles, MakesAll};
ghost use Rattle.semantics.specs.Lists as l;
ghost use Rattle.builtin_names.specs.Named.{names_in};
ghost use Rattle.builtin_names.specs.Results.{Works};
ghost use Rattle.list_ops.specs.Holds.{is_hold};

use crate::answer::{call, make, same};
use builtin_names::{Fault, Vocabulary, is_name, items_under};
use expr_tree::{Built, Expr, Exprs, MAX_SIZE, Node, copy_items};
use item_list::Items;
use semantics::Builtin;
use std::alloc::Global;

/// A function of one argument.
fn mapped(alloc: Global, function: &Expr, argument: &Expr) -> Result<Expr, Built>
    ensures { Assembles (l.mapped function.now argument.now) result }
{
    let mut arguments = Items::new(alloc);
    arguments.push(argument.copy(alloc)?)?;
    Expr::normal(alloc, function.copy(alloc)?, arguments)
}

/// A function of each argument in turn.
#[tactic(auto, using(crate::proofs::Mapped::mapped_steps))]
pub(crate) fn mapped_all(alloc: Global, function: &Expr, arguments: &[Expr]) -> Result<Exprs, Built>
    ensures { MakesAll (trees (map (l.mapped function.now) arguments.now)) result }
{
    let mut made = Items::new(alloc);
    for argument in arguments {
        made.push(mapped(alloc, function, argument)?)?;
    }
    Ok(made)
}

/// `Map`.
#[tactic(auto, using(crate::proofs::Mapped::map_steps))]
pub fn row_map(alloc: Global, items: &Exprs) -> Result<Option<Expr>, Fault>
    ensures { Works (l.map_row items.now) result }
{
    let [function, e] = items.as_slice() else {
        return Ok(None);
    };
    let Node::Normal(head, elements) = e.node() else {
        return same(alloc, e);
    };
    let nodes = e.size() + elements.len() as u64 * function.size();
    if nodes > MAX_SIZE {
        return Err(Fault::TooLarge);
    }
    match mapped_all(alloc, function, elements.as_slice()) {
        Ok(made) => call(alloc, head.copy(alloc)?, made),
        Err(Built::TooDeep(_)) => Err(Fault::TooDeep(nodes)),
        Err(fault) => Err(fault.into()),
    }
}

/// `Apply`.
#[tactic(auto, using(expr_tree::proofs::Callers::tree_steps))]
pub fn row_apply(alloc: Global, items: &Exprs) -> Result<Option<Expr>, Fault>
    ensures { Works (l.apply items.now) result }
{
    let [function, e] = items.as_slice() else {
        return Ok(None);
    };
    match e.node() {
        Node::Normal(_, elements) => {
            call(alloc, function.copy(alloc)?, copy_items(alloc, elements)?)
        }
        _ => same(alloc, e),
    }
}

/// `Total`.
pub fn row_total(alloc: Global, names: &Vocabulary, items: &Exprs) -> Result<Option<Expr>, Fault>
    ensures { Works (l.total (names_in names.now) items.now) result }
{
    let [e] = items.as_slice() else {
        return Ok(None);
    };
    match items_under(names, Builtin::List, e) {
        Some(elements) => make(alloc, names, Builtin::Plus, copy_items(alloc, elements)?),
        None => Ok(None),
    }
}

fn is_hold(names: &Vocabulary, head: &Expr) -> bool
    ensures { result ≡ is_hold (names_in names.now) head.now }
{
    is_name(names, Builtin::Hold, head)
        || is_name(names, Builtin::HoldComplete, head)
        || is_name(names, Builtin::HoldPattern, head)
}

/// `ReleaseHold`.
#[tactic(auto, using(crate::proofs::Holds::hold_steps))]
pub fn row_release_hold(
    alloc: Global,
    names: &Vocabulary,
    items: &Exprs,
) -> Result<Option<Expr>, Fault>
    ensures { Works (l.released (names_in names.now) items.now) result }
{
    let [e] = items.as_slice() else {
        return Ok(None);
    };
    let Node::Normal(head, elements) = e.node() else {
        return Ok(None);
    };
    match elements.as_slice() {
        [only] if is_hold(names, head) => same(alloc, only),
        _ => Ok(None),
    }
}

/// `Identity` and `Evaluate`.
pub fn row_itself(alloc: Global, items: &Exprs) -> Result<Option<Expr>, Fault>
    ensures { Works (l.itself items.now) result }
{
    match items.as_slice() {
        [e] => same(alloc, e),
        _ => Ok(None),
    }
}

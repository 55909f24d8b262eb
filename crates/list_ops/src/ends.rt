//! The rows of the head, the ends and the number of the elements.
ghost use Rattle.semantics.specs.Lists as l;
ghost use Rattle.builtin_names.specs.Results.{Works};

use crate::answer::{call, put_behind, same};
use builtin_names::Fault;
use expr_lists::copies;
use expr_tree::{Expr, Exprs, Node};
use item_list::Items;
use std::alloc::Global;

/// `Head`.
#[tactic(auto, using(expr_tree::proofs::Callers::tree_steps))]
pub fn row_head(alloc: Global, items: &Exprs) -> Result<Option<Expr>, Fault>
    ensures { Works (l.head items.now) result }
{
    let [e] = items.as_slice() else {
        return Ok(None);
    };
    match e.node() {
        Node::Normal(head, _) => same(alloc, head),
        _ => Ok(None),
    }
}

/// `Length`.
#[tactic(auto, using(expr_tree::proofs::Callers::tree_steps))]
pub fn row_length(items: &Exprs) -> Result<Option<Expr>, Fault>
    ensures { Works (l.length_of items.now) result }
{
    let [e] = items.as_slice() else {
        return Ok(None);
    };
    let count = match e.node() {
        Node::Normal(_, elements) => elements.len(),
        _ => 0,
    };
    Ok(Some(Expr::int(count as i128)))
}

/// `First`.
#[tactic(auto, using(expr_tree::proofs::Callers::tree_steps))]
pub fn row_first(alloc: Global, items: &Exprs) -> Result<Option<Expr>, Fault>
    ensures { Works (l.first items.now) result }
{
    let [e] = items.as_slice() else {
        return Ok(None);
    };
    let Node::Normal(_, elements) = e.node() else {
        return Ok(None);
    };
    match elements.as_slice() {
        [first, ..] => same(alloc, first),
        _ => Ok(None),
    }
}

/// `Last`.
#[tactic(auto, using(crate::proofs::LastOf::end_steps))]
pub fn row_last(alloc: Global, items: &Exprs) -> Result<Option<Expr>, Fault>
    ensures { Works (l.last items.now) result }
{
    let [e] = items.as_slice() else {
        return Ok(None);
    };
    let Node::Normal(_, elements) = e.node() else {
        return Ok(None);
    };
    match elements.as_slice() {
        [.., last] => same(alloc, last),
        _ => Ok(None),
    }
}

/// `Rest`.
#[tactic(auto, using(expr_tree::proofs::Callers::tree_steps))]
pub fn row_rest(alloc: Global, items: &Exprs) -> Result<Option<Expr>, Fault>
    ensures { Works (l.rest items.now) result }
{
    let [e] = items.as_slice() else {
        return Ok(None);
    };
    let Node::Normal(head, elements) = e.node() else {
        return Ok(None);
    };
    match elements.as_slice() {
        [_, rest @ ..] => call(alloc, head.copy(alloc)?, copies(alloc, rest)?),
        _ => Ok(None),
    }
}

/// `Append`.
#[tactic(auto, using(expr_tree::proofs::Callers::tree_steps))]
pub fn row_append(alloc: Global, items: &Exprs) -> Result<Option<Expr>, Fault>
    ensures { Works (l.append items.now) result }
{
    let [e, x] = items.as_slice() else {
        return Ok(None);
    };
    let Node::Normal(head, elements) = e.node() else {
        return Ok(None);
    };
    let mut longer = copies(alloc, elements.as_slice())?;
    longer.push(x.copy(alloc)?)?;
    call(alloc, head.copy(alloc)?, longer)
}

/// `Prepend`.
#[tactic(auto, using(expr_tree::proofs::Callers::tree_steps))]
pub fn row_prepend(alloc: Global, items: &Exprs) -> Result<Option<Expr>, Fault>
    ensures { Works (l.prepend items.now) result }
{
    let [e, x] = items.as_slice() else {
        return Ok(None);
    };
    let Node::Normal(head, elements) = e.node() else {
        return Ok(None);
    };
    let mut longer = Items::new(alloc);
    longer.push(x.copy(alloc)?)?;
    put_behind(alloc, &mut longer, elements.as_slice())?;
    call(alloc, head.copy(alloc)?, longer)
}

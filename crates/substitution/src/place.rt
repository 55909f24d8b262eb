// The new parts of an expression, where they differ from the old.
ghost use Rattle.std.specs.Prelude.{◌≡◌, ◌≤◌, IfOk, drop, length, take, unwrap_or};
ghost use Rattle.expr_tree.specs.Limits.{Makes, MakesAll};
ghost use Rattle.expr_tree.specs.Substitution.{as_one, without, put_in_place, put_in_items};
ghost use Rattle.expr_tree.specs.Tree.{normal, trees};
ghost use Rattle.substitution.specs.Puts.{Puts, PutsAll, MakesAfter};

use crate::Bindings;
use crate::lookup::run_for;
use crate::scope::{bound_in, joined};
use expr_tree::{Binders, Built, Expr, Exprs, Node, Sym, Syms, copy_items};
use item_list::Items;
use std::alloc::{AllocError, Global};

fn as_one(alloc: Global, sequence: Sym, run: &Exprs) -> Result<Expr, Built>
    ensures { Makes (as_one sequence run.now) result }
{
    match run.as_slice() {
        [only] => Ok(only.copy(alloc)?),
        _ => Expr::normal(alloc, Expr::symbol(sequence), copy_items(alloc, run)?),
    }
}

fn new_or_copy(alloc: Global, new: Option<Expr>, old: &Expr) -> Result<Expr, AllocError>
    ensures { IfOk result (λ e. e ≡ unwrap_or new old.now) }
{
    match new {
        Some(new) => Ok(new),
        None => old.copy(alloc),
    }
}

fn new_or_copies(alloc: Global, new: Option<Exprs>, old: &Exprs) -> Result<Exprs, AllocError>
    ensures { IfOk result (λ es. es ≡ unwrap_or new old.now) }
{
    match new {
        Some(new) => Ok(new),
        None => copy_items(alloc, old),
    }
}

/// The expression after putting in place, where it differs. Hidden symbols are not bound.
#[cycle(put)]
#[tactic(auto, using(crate::proofs::Scopes::scope_steps))]
pub(crate) fn put(
    alloc: Global,
    binders: &Binders,
    bindings: &Bindings,
    hidden: &Syms,
    e: &Expr,
) -> Result<Option<Expr>, Built>
    ensures { Puts e.now (put_in_place binders.now (without hidden.now bindings.now) e.now) result }
{
    match e.node() {
        Node::Int(_) | Node::Str(_) => Ok(None),
        Node::Symbol(symbol) => match run_for(bindings, hidden, *symbol) {
            None => Ok(None),
            Some(run) => Ok(Some(as_one(alloc, binders.sequence, run)?)),
        },
        Node::Normal(head, items) => {
            let bound = bound_in(alloc, binders, head, items.as_slice())?;
            if bound.is_empty() {
                return put_level(alloc, binders, bindings, hidden, head, items);
            }
            let hidden = joined(alloc, hidden, bound)?;
            put_level(alloc, binders, bindings, &hidden, head, items)
        }
    }
}

#[cycle(put)]
#[tactic(auto, using(expr_tree::proofs::Callers::tree_steps))]
fn put_level(
    alloc: Global,
    binders: &Binders,
    bindings: &Bindings,
    hidden: &Syms,
    head: &Expr,
    items: &Exprs,
) -> Result<Option<Expr>, Built>
    ensures { Puts (normal head.now (trees items.now)) (normal (put_in_place binders.now (without hidden.now bindings.now) head.now) (put_in_items binders.now (without hidden.now bindings.now) (trees items.now))) result }
{
    let new_head = put(alloc, binders, bindings, hidden, head)?;
    let new_items = put_all(alloc, binders, bindings, hidden, items.as_slice())?;
    if new_head.is_none() && new_items.is_none() {
        return Ok(None);
    }
    let head = new_or_copy(alloc, new_head, head)?;
    let items = new_or_copies(alloc, new_items, items)?;
    Ok(Some(Expr::normal(alloc, head, items)?))
}

/// The elements after putting in place, where one of them differs.
#[cycle(put)]
#[tactic(auto, using(expr_tree::proofs::Callers::tree_steps))]
fn put_all(
    alloc: Global,
    binders: &Binders,
    bindings: &Bindings,
    hidden: &Syms,
    items: &[Expr],
) -> Result<Option<Exprs>, Built>
    ensures { PutsAll items.now (put_in_items binders.now (without hidden.now bindings.now) (trees items.now)) result }
{
    for (i, item) in items.iter().enumerate() {
        if let Some(new) = put(alloc, binders, bindings, hidden, item)? {
            let mut made = copies_before(alloc, items, i)?;
            made.push(new)?;
            return Ok(Some(put_rest(alloc, binders, bindings, hidden, made, items, i + 1)?));
        }
    }
    Ok(None)
}

/// `made`, and after it the elements from a place on.
#[cycle(put)]
#[tactic(auto, using(expr_tree::proofs::Callers::tree_steps))]
fn put_rest(
    alloc: Global,
    binders: &Binders,
    bindings: &Bindings,
    hidden: &Syms,
    made: Exprs,
    items: &[Expr],
    from: usize,
) -> Result<Exprs, Built>
    requires { from ≤ length items.now }
    ensures { MakesAfter made (put_in_items binders.now (without hidden.now bindings.now) (trees (drop from items.now))) result }
{
    let mut made = made;
    for i in from..items.len() {
        let new = put(alloc, binders, bindings, hidden, &items[i])?;
        made.push(new_or_copy(alloc, new, &items[i])?)?;
    }
    Ok(made)
}

fn copies_before(alloc: Global, items: &[Expr], end: usize) -> Result<Exprs, AllocError>
    requires { end ≤ length items.now }
    ensures { IfOk result (λ es. es ≡ take end items.now) }
{
    let mut copies = Items::new(alloc);
    for item in &items[..end] {
        copies.push(item.copy(alloc)?)?;
    }
    Ok(copies)
}

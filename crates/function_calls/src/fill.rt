//! The new parts of an expression whose slots are filled.
ghost use Rattle.std.specs.Prelude.{◌≡◌, ◌≤◌, IfOk, drop, length, unwrap_or};
ghost use Rattle.expr_tree.specs.Tree.{normal, trees};
ghost use Rattle.semantics.specs.InPlace.{fill_slots, fill_in_items, filled};
ghost use Rattle.substitution.specs.Puts.{Puts, PutsAll, MakesAfter};
ghost use Rattle.builtin_names.specs.Named.{names_in};

use crate::slots::{as_one, is_pure_function, run_for, slot_of};
use builtin_names::Vocabulary;
use expr_lists::copies;
use expr_tree::{Built, Expr, Exprs, Node};
use std::alloc::{AllocError, Global};

fn new_or_copy(alloc: Global, new: Option<Expr>, old: &Expr) -> Result<Expr, AllocError>
    ensures { IfOk result (λ e. e ≡ unwrap_or new old.now) }
{
    match new {
        Some(new) => Ok(new),
        None => old.copy(alloc),
    }
}

fn new_or_copies(alloc: Global, new: Option<Exprs>, old: &[Expr]) -> Result<Exprs, AllocError>
    ensures { IfOk result (λ es. es ≡ unwrap_or new old.now) }
{
    match new {
        Some(new) => Ok(new),
        None => copies(alloc, old),
    }
}

fn fill_slot(
    alloc: Global,
    names: &Vocabulary,
    args: &[Expr],
    slot: &Expr,
    place: u128,
) -> Result<Option<Expr>, Built>
    ensures { Puts slot.now (filled (names_in names.now) args.now slot.now place) result }
{
    match run_for(names, args, slot, place) {
        None => Ok(None),
        Some(run) => Ok(Some(as_one(alloc, names, run)?)),
    }
}

/// The expression with its slots filled, where it differs.
#[cycle(fill)]
#[tactic(auto, using(crate::proofs::Filling::fill_steps))]
pub(crate) fn fill(
    alloc: Global,
    names: &Vocabulary,
    args: &[Expr],
    e: &Expr,
) -> Result<Option<Expr>, Built>
    ensures { Puts e.now (fill_slots (names_in names.now) args.now e.now) result }
{
    let Node::Normal(head, items) = e.node() else {
        return Ok(None);
    };
    if let Some(place) = slot_of(names, e) {
        return fill_slot(alloc, names, args, e, place);
    }
    if is_pure_function(names, head, items.as_slice()) {
        return Ok(None);
    }
    let new_head = fill(alloc, names, args, head)?;
    let new_items = fill_all(alloc, names, args, items.as_slice())?;
    if new_head.is_none() && new_items.is_none() {
        return Ok(None);
    }
    let head = new_or_copy(alloc, new_head, head)?;
    let items = new_or_copies(alloc, new_items, items.as_slice())?;
    Ok(Some(Expr::normal(alloc, head, items)?))
}

/// The elements with their slots filled, where one of them differs.
#[cycle(fill)]
#[tactic(auto, using(expr_tree::proofs::Callers::tree_steps))]
fn fill_all(
    alloc: Global,
    names: &Vocabulary,
    args: &[Expr],
    items: &[Expr],
) -> Result<Option<Exprs>, Built>
    ensures { PutsAll items.now (fill_in_items (names_in names.now) args.now (trees items.now)) result }
{
    for (i, item) in items.iter().enumerate() {
        if let Some(new) = fill(alloc, names, args, item)? {
            let mut made = copies(alloc, &items[..i])?;
            made.push(new)?;
            return Ok(Some(fill_rest(alloc, names, args, made, items, i + 1)?));
        }
    }
    Ok(None)
}

/// `made`, and after it the elements from a place on.
#[cycle(fill)]
#[tactic(auto, using(expr_tree::proofs::Callers::tree_steps))]
fn fill_rest(
    alloc: Global,
    names: &Vocabulary,
    args: &[Expr],
    made: Exprs,
    items: &[Expr],
    from: usize,
) -> Result<Exprs, Built>
    requires within { from ≤ length items.now }
    ensures { MakesAfter made (fill_in_items (names_in names.now) args.now (trees (drop from items.now))) result }
{
    let mut made = made;
    for i in from..items.len() {
        let new = fill(alloc, names, args, &items[i])?;
        made.push(new_or_copy(alloc, new, &items[i])?)?;
    }
    Ok(made)
}

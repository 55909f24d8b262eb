//! The size of an expression whose slots are filled, counted as far as one more than an expression may have.
ghost use Rattle.std.specs.Prelude.{◌≡◌, ◌+◌, min};
ghost use Rattle.expr_tree.specs.Tree.{trees, size, sizes};
ghost use Rattle.semantics.specs.InPlace.{as_one, fill_slots, fill_in_items, filled};
ghost use Rattle.builtin_names.specs.Named.{names_in};

use crate::slots::{is_pure_function, run_for, slot_of};
use builtin_names::Vocabulary;
use expr_lists::{TOO_MANY, nodes_of_all};
use expr_tree::{Expr, Node};

#[tactic(auto, using(expr_tree::proofs::Callers::tree_steps))]
fn nodes_of_run(_names: &Vocabulary, run: &[Expr]) -> u64
    ensures { result ≡ min (size (as_one (names_in _names.now) run.now)) 4000001 }
{
    match run {
        [only] => only.size(),
        items => (nodes_of_all(items) + 1).min(TOO_MANY),
    }
}

fn nodes_of_slot(names: &Vocabulary, args: &[Expr], slot: &Expr, place: u128) -> u64
    ensures { result ≡ min (size (filled (names_in names.now) args.now slot.now place)) 4000001 }
{
    match run_for(names, args, slot, place) {
        None => slot.size(),
        Some(run) => nodes_of_run(names, run),
    }
}

#[cycle(count)]
#[tactic(auto, using(crate::proofs::Filling::fill_steps))]
pub(crate) fn nodes_after(names: &Vocabulary, args: &[Expr], e: &Expr) -> u64
    ensures { result ≡ min (size (fill_slots (names_in names.now) args.now e.now)) 4000001 }
{
    let Node::Normal(head, items) = e.node() else {
        return 1;
    };
    if let Some(place) = slot_of(names, e) {
        return nodes_of_slot(names, args, e, place);
    }
    if is_pure_function(names, head, items.as_slice()) {
        return e.size();
    }
    let nodes = nodes_after(names, args, head);
    (nodes + nodes_after_all(names, args, items.as_slice())).min(TOO_MANY)
}

#[cycle(count)]
#[tactic(auto, using(expr_tree::proofs::Callers::tree_steps))]
fn nodes_after_all(names: &Vocabulary, args: &[Expr], items: &[Expr]) -> u64
    ensures { result ≡ min (sizes (fill_in_items (names_in names.now) args.now (trees items.now))) 4000001 }
{
    let mut total = 0;
    for item in items {
        total = (total + nodes_after(names, args, item)).min(TOO_MANY);
    }
    total
}

// The size of an expression after putting in place, counted as far as one more than an expression may have.
ghost use Rattle.std.specs.Prelude.{◌≡◌, ◌+◌, IfOk, min};
ghost use Rattle.expr_tree.specs.Substitution.{as_one, without, put_in_place, put_in_items};
ghost use Rattle.expr_tree.specs.Tree.{trees, size, sizes};

use crate::Bindings;
use crate::lookup::run_for;
use crate::scope::{bound_in, joined};
use expr_tree::{Binders, Expr, Exprs, MAX_SIZE, Node, Sym, Syms};
use std::alloc::{AllocError, Global};

/// One atom more than an expression may have.
const TOO_MANY: u64 = MAX_SIZE + 1;

#[tactic(auto, using(expr_tree::proofs::Callers::tree_steps))]
fn nodes_of_all(items: &[Expr]) -> u64
    ensures { result ≡ min (sizes (trees items.now)) 4000001 }
{
    let mut total = 0;
    for item in items {
        total = (total + item.size()).min(TOO_MANY);
    }
    total
}

#[tactic(auto, using(expr_tree::proofs::Callers::tree_steps))]
fn nodes_of_run(run: &Exprs, _sequence: Sym) -> u64
    ensures { result ≡ min (size (as_one _sequence run.now)) 4000001 }
{
    match run.as_slice() {
        [only] => only.size(),
        items => (nodes_of_all(items) + 1).min(TOO_MANY),
    }
}

#[cycle(count)]
#[tactic(auto, using(crate::proofs::Scopes::scope_steps))]
pub(crate) fn nodes_after(
    alloc: Global,
    binders: &Binders,
    bindings: &Bindings,
    hidden: &Syms,
    e: &Expr,
) -> Result<u64, AllocError>
    ensures { IfOk result (λ n. n ≡ min (size (put_in_place binders.now (without hidden.now bindings.now) e.now)) 4000001) }
{
    match e.node() {
        Node::Int(_) | Node::Str(_) => Ok(1),
        Node::Symbol(symbol) => match run_for(bindings, hidden, *symbol) {
            None => Ok(1),
            Some(run) => Ok(nodes_of_run(run, binders.sequence)),
        },
        Node::Normal(head, items) => {
            let bound = bound_in(alloc, binders, head, items.as_slice())?;
            if bound.is_empty() {
                return level_after(alloc, binders, bindings, hidden, head, items);
            }
            let hidden = joined(alloc, hidden, bound)?;
            level_after(alloc, binders, bindings, &hidden, head, items)
        }
    }
}

#[cycle(count)]
#[tactic(auto, using(expr_tree::proofs::Callers::tree_steps))]
fn level_after(
    alloc: Global,
    binders: &Binders,
    bindings: &Bindings,
    hidden: &Syms,
    head: &Expr,
    items: &Exprs,
) -> Result<u64, AllocError>
    ensures { IfOk result (λ n. n ≡ min (size (put_in_place binders.now (without hidden.now bindings.now) head.now) + sizes (put_in_items binders.now (without hidden.now bindings.now) (trees items.now))) 4000001) }
{
    let mut total = nodes_after(alloc, binders, bindings, hidden, head)?;
    for item in items.as_slice() {
        total = (total + nodes_after(alloc, binders, bindings, hidden, item)?).min(TOO_MANY);
    }
    Ok(total)
}

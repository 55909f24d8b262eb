//! Flattening: an element with the head of the call gives way to its elements, at every depth.
ghost use Rattle.std.specs.Prelude.{◌≡◌, ◌++◌, ◌≤◌, ◌∷◌, [], true, IfOk, OnOk};
ghost use Rattle.expr_tree.specs.Tree.{symbol, normal, nil, call, size, depth, trees};
ghost use Rattle.semantics.specs.Assemble.{flattened};
ghost use Rattle.semantics.specs.Steps.{is_call_of, flatten, flatten_item, flatten_items};
ghost use Rattle.builtin_names.specs.Attributes.{attributes_in};

use expr_tree::{Attrs, Expr, Exprs, Node, Sym};
use item_list::Items;
use std::alloc::{AllocError, Global};

fn is_head(head: Sym, inner: &Expr) -> bool
    ensures { result ≡ is_call_of head (normal inner.now nil) }
{
    match inner.node() {
        Node::Symbol(symbol) => head == *symbol,
        _ => false,
    }
}

fn is_flat_in(head: Sym, item: &Expr) -> bool
    ensures { result ≡ true → flatten_item head item.now ≡ item.now ∷ [] }
{
    match item.node() {
        Node::Normal(inner, _) => !is_head(head, inner),
        _ => true,
    }
}

fn are_flat_in(head: Sym, items: &[Expr]) -> bool
    ensures { result ≡ true → flatten head items.now ≡ items.now }
{
    for item in items {
        if !is_flat_in(head, item) {
            return false;
        }
    }
    true
}

#[cycle(flatten)]
#[tactic(auto, using(expr_tree::proofs::Callers::tree_steps))]
fn add_item(alloc: Global, head: Sym, item: &Expr, flat: &mut Exprs) -> Result<(), AllocError>
    ensures { OnOk result (flat.new ≡ flat.old ++ flatten_item head item.now) }
{
    match item.node() {
        Node::Normal(inner, items) if is_head(head, inner) => {
            add_items(alloc, head, items.as_slice(), flat)
        }
        _ => flat.push(item.copy(alloc)?),
    }
}

#[cycle(flatten)]
#[tactic(auto, using(expr_tree::proofs::Callers::tree_steps))]
fn add_items(alloc: Global, head: Sym, items: &[Expr], flat: &mut Exprs) -> Result<(), AllocError>
    ensures { OnOk result (flat.new ≡ flat.old ++ flatten_items head (trees items.now)) }
{
    for item in items {
        add_item(alloc, head, item, flat)?;
    }
    Ok(())
}

/// The elements with those of each call of this head in its place: an expression that is no larger and no deeper.
#[tactic(auto, using(crate::proofs::Bounds::flat_bounds))]
pub fn flatten(alloc: Global, head: Sym, items: Exprs) -> Result<Exprs, AllocError>
    ensures value { IfOk result (λ r. r ≡ flatten head items) }
    ensures no_larger { IfOk result (λ r. size (call (symbol head) r) ≤ size (call (symbol head) items)) }
    ensures no_deeper { IfOk result (λ r. depth (call (symbol head) r) ≤ depth (call (symbol head) items)) }
{
    if are_flat_in(head, items.as_slice()) {
        return Ok(items);
    }
    let mut flat = Items::new(alloc);
    add_items(alloc, head, items.as_slice(), &mut flat)?;
    Ok(flat)
}

/// What flattening leaves under this head and its attributes: an expression that is no larger and no deeper.
#[tactic(auto, using(builtin_names::proofs::Flags::flag_steps))]
pub fn flattened(
    alloc: Global,
    head: &Expr,
    attrs: &Attrs,
    items: Exprs,
) -> Result<Exprs, AllocError>
    ensures value { IfOk result (λ r. r ≡ flattened head.now (attributes_in attrs.now) items) }
    ensures no_larger { IfOk result (λ r. size (call head.now r) ≤ size (call head.now items)) }
    ensures no_deeper { IfOk result (λ r. depth (call head.now r) ≤ depth (call head.now items)) }
{
    match head.node() {
        Node::Symbol(symbol) if attrs.flat => flatten(alloc, *symbol, items),
        _ => Ok(items),
    }
}

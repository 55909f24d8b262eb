//! Threading over the elements that are a `List`.
ghost use Rattle.std.specs.Prelude.{◌≡◌, ◌≤◌, IfOk};
ghost use Rattle.expr_tree.specs.Tree.{call, symbol, size, depth};
ghost use Rattle.semantics.specs.Assemble.{threaded};
ghost use Rattle.semantics.specs.Steps.{first_length, all_of_length, thread};
ghost use Rattle.builtin_names.specs.Attributes.{attributes_in};
ghost use Rattle.builtin_names.specs.Named.{names_in};
ghost use Rattle.attr_steps.specs.Columns.{at_place, column};

use builtin_names::{Vocabulary, items_under};
use expr_tree::{Attrs, Built, Expr, Exprs, Node, Sym};
use item_list::Items;
use semantics::Builtin;
use std::alloc::{AllocError, Global};

fn first_length(names: &Vocabulary, items: &[Expr]) -> Option<usize>
    ensures { result ≡ first_length (names_in names.now) items.now }
{
    for item in items {
        if let Some(inner) = items_under(names, Builtin::List, item) {
            return Some(inner.len());
        }
    }
    None
}

fn all_of_length(names: &Vocabulary, length: usize, items: &[Expr]) -> bool
    ensures { result ≡ all_of_length (names_in names.now) length items.now }
{
    for item in items {
        if let Some(inner) = items_under(names, Builtin::List, item) {
            if inner.len() != length {
                return false;
            }
        }
    }
    true
}

#[tactic(auto, using(crate::proofs::Threads::place_steps))]
fn at_place<'a>(names: &Vocabulary, place: usize, e: &'a Expr) -> &'a Expr
    ensures { result.now ≡ at_place (names_in names.now) place e.now }
{
    match items_under(names, Builtin::List, e) {
        Some(inner) if place < inner.len() => &inner.as_slice()[place],
        _ => e,
    }
}

/// The elements with the one at this place of each `List` in its place.
fn column(
    alloc: Global,
    names: &Vocabulary,
    place: usize,
    items: &[Expr],
) -> Result<Exprs, AllocError>
    ensures { IfOk result (λ r. r ≡ column (names_in names.now) place items.now) }
{
    let mut column = Items::new(alloc);
    for item in items {
        column.push(at_place(names, place, item).copy(alloc)?)?;
    }
    Ok(column)
}

/// The call of the head with the elements at this place.
#[tactic(auto, using(crate::proofs::Bounds::column_bounds))]
fn call_at(
    alloc: Global,
    names: &Vocabulary,
    head: Sym,
    place: usize,
    items: &[Expr],
) -> Result<Expr, AllocError>
    requires small { size (call (symbol head) items.now) ≤ 4000000 }
    requires shallow { depth (call (symbol head) items.now) ≤ 512 }
    ensures { IfOk result (λ e. e ≡ call (symbol head) (column (names_in names.now) place items.now)) }
{
    let elements = column(alloc, names, place, items)?;
    match Expr::normal(alloc, Expr::symbol(head), elements) {
        Ok(e) => Ok(e),
        Err(Built::NoMemory) => Err(AllocError),
        Err(Built::TooLarge) | Err(Built::TooDeep(_)) => unreachable!(),
    }
}

/// What threading gives: nothing where no element is a `List`, or where they differ in length. The call itself is within the limits
/// of an expression, and so are the calls that it is threaded to.
#[tactic(auto, using(crate::proofs::Threads::from_start))]
pub fn thread(
    alloc: Global,
    names: &Vocabulary,
    head: Sym,
    items: &[Expr],
) -> Result<Option<Exprs>, AllocError>
    requires small { size (call (symbol head) items.now) ≤ 4000000 }
    requires shallow { depth (call (symbol head) items.now) ≤ 512 }
    ensures { IfOk result (λ r. r ≡ thread (names_in names.now) head items.now) }
{
    let Some(length) = first_length(names, items) else {
        return Ok(None);
    };
    if !all_of_length(names, length, items) {
        return Ok(None);
    }
    let mut each = Items::new(alloc);
    for place in 0..length {
        each.push(call_at(alloc, names, head, place, items)?)?;
    }
    Ok(Some(each))
}

/// What threading gives under this head and its attributes.
#[tactic(auto, using(builtin_names::proofs::Flags::flag_steps))]
pub fn threaded(
    alloc: Global,
    names: &Vocabulary,
    head: &Expr,
    attrs: &Attrs,
    items: &[Expr],
) -> Result<Option<Exprs>, AllocError>
    requires small { size (call head.now items.now) ≤ 4000000 }
    requires shallow { depth (call head.now items.now) ≤ 512 }
    ensures { IfOk result (λ r. r ≡ threaded (names_in names.now) head.now (attributes_in attrs.now) items.now) }
{
    match head.node() {
        Node::Symbol(symbol) if attrs.listable => thread(alloc, names, *symbol, items),
        _ => Ok(None),
    }
}

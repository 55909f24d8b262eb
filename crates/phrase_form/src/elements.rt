//! Elements, and calls of rows.
ghost use Rattle.std.specs.Prelude.{◌≡◌, ◌∷◌, [], IfOk};
ghost use Rattle.semantics.specs.Names as n;
ghost use Rattle.builtin_names.specs.Named.{names_in};
ghost use Rattle.laws_reading.specs.Kept.{cut, kept_added, kept_list, kept_one, kept_pair, kept_triple, kept_part, kept_call, kept_apply, kept_inverse};

use crate::kept::assembled;
use builtin_names::{Vocabulary, name};
use expr_tree::{Expr, Exprs};
use item_list::Items;
use semantics::Builtin;
use std::alloc::{AllocError, Global};

/// The list of one item.
pub(crate) fn one_item(alloc: Global, a: Expr) -> Result<Exprs, AllocError>
    ensures { IfOk result (λ es. es ≡ a ∷ []) }
{
    let mut items = Items::new(alloc);
    items.push(a)?;
    Ok(items)
}

/// The list of two items.
pub(crate) fn two_items(alloc: Global, a: Expr, b: Expr) -> Result<Exprs, AllocError>
    ensures { IfOk result (λ es. es ≡ a ∷ b ∷ []) }
{
    let mut items = one_item(alloc, a)?;
    items.push(b)?;
    Ok(items)
}

/// One more element.
pub(crate) fn added(items: Option<Exprs>, item: Option<Expr>) -> Result<Option<Exprs>, AllocError>
    ensures { IfOk result (λ es. es ≡ kept_added items item) }
{
    match (items, item) {
        (Some(mut items), Some(item)) => {
            items.push(item)?;
            Ok(Some(items))
        }
        _ => Ok(None),
    }
}

/// A call of a row.
pub(crate) fn made(
    alloc: Global,
    names: &Vocabulary,
    row: Builtin,
    items: Exprs,
) -> Result<Option<Expr>, AllocError>
    ensures { IfOk result (λ e. e ≡ cut (n.make (names_in names.now) row items)) }
{
    assembled(alloc, name(names, row), items)
}

/// A row of elements.
pub(crate) fn list_under(
    alloc: Global,
    names: &Vocabulary,
    row: Builtin,
    items: Option<Exprs>,
) -> Result<Option<Expr>, AllocError>
    ensures { IfOk result (λ e. e ≡ kept_list (names_in names.now) row items) }
{
    match items {
        Some(items) => made(alloc, names, row, items),
        None => Ok(None),
    }
}

/// A row of one element.
pub(crate) fn one_under(
    alloc: Global,
    names: &Vocabulary,
    row: Builtin,
    a: Option<Expr>,
) -> Result<Option<Expr>, AllocError>
    ensures { IfOk result (λ e. e ≡ kept_one (names_in names.now) row a) }
{
    match a {
        Some(a) => made(alloc, names, row, one_item(alloc, a)?),
        None => Ok(None),
    }
}

/// A row of two elements.
pub(crate) fn two_under(
    alloc: Global,
    names: &Vocabulary,
    row: Builtin,
    a: Option<Expr>,
    b: Option<Expr>,
) -> Result<Option<Expr>, AllocError>
    ensures { IfOk result (λ e. e ≡ kept_pair (names_in names.now) row a b) }
{
    match (a, b) {
        (Some(a), Some(b)) => made(alloc, names, row, two_items(alloc, a, b)?),
        _ => Ok(None),
    }
}

/// A row of three elements.
pub(crate) fn three_under(
    alloc: Global,
    names: &Vocabulary,
    row: Builtin,
    a: Option<Expr>,
    b: Option<Expr>,
    c: Option<Expr>,
) -> Result<Option<Expr>, AllocError>
    ensures { IfOk result (λ e. e ≡ kept_triple (names_in names.now) row a b c) }
{
    let Some(c) = c else {
        return Ok(None);
    };
    match (a, b) {
        (Some(a), Some(b)) => {
            let mut items = two_items(alloc, a, b)?;
            items.push(c)?;
            made(alloc, names, row, items)
        }
        _ => Ok(None),
    }
}

/// `h[es]`.
pub(crate) fn called(
    alloc: Global,
    head: Option<Expr>,
    items: Option<Exprs>,
) -> Result<Option<Expr>, AllocError>
    ensures { IfOk result (λ e. e ≡ kept_call head items) }
{
    match (head, items) {
        (Some(head), Some(items)) => assembled(alloc, head, items),
        _ => Ok(None),
    }
}

/// `h[e]`.
pub(crate) fn applied(
    alloc: Global,
    head: Option<Expr>,
    item: Option<Expr>,
) -> Result<Option<Expr>, AllocError>
    ensures { IfOk result (λ e. e ≡ kept_apply head item) }
{
    match (head, item) {
        (Some(head), Some(item)) => assembled(alloc, head, one_item(alloc, item)?),
        _ => Ok(None),
    }
}

/// `e[[es]]`.
pub(crate) fn parted(
    alloc: Global,
    names: &Vocabulary,
    expr: Option<Expr>,
    items: Option<Exprs>,
) -> Result<Option<Expr>, AllocError>
    ensures { IfOk result (λ e. e ≡ kept_part (names_in names.now) expr items) }
{
    match (expr, items) {
        (Some(expr), Some(items)) => {
            let mut all = one_item(alloc, expr)?;
            all.append(items)?;
            made(alloc, names, Builtin::Part, all)
        }
        _ => Ok(None),
    }
}

/// 1 divided by it.
pub(crate) fn inverse(
    alloc: Global,
    names: &Vocabulary,
    expr: Option<Expr>,
) -> Result<Option<Expr>, AllocError>
    ensures { IfOk result (λ e. e ≡ kept_inverse (names_in names.now) expr) }
{
    match expr {
        Some(expr) => {
            let items = two_items(alloc, expr, Expr::int(-1))?;
            made(alloc, names, Builtin::Power, items)
        }
        None => Ok(None),
    }
}

//! Transpose.
ghost use Rattle.std.specs.Prelude.{◌≡◌, ◌<◌, [], ◌∷◌, IfOk, map};
ghost use Rattle.expr_tree.specs.Limits.{MakesAll};
ghost use Rattle.expr_tree.specs.Tree.{trees, depths};
ghost use Rattle.semantics.specs.Lists as l;
ghost use Rattle.semantics.specs.Names as n;
ghost use Rattle.semantics.specs.Worked.{Gives};
ghost use Rattle.semantics.specs.declared.builtin.Builtin.{Builtin};
ghost use Rattle.builtin_names.specs.Named.{names_in};
ghost use Rattle.builtin_names.specs.Results.{Works};
ghost use Rattle.rows_parts.specs.Widths.{are_long, width};

use builtin_names::{Fault, Vocabulary, items_of, items_under, make};
use expr_tree::{Built, Expr, Exprs};
use item_list::Items;
use semantics::Builtin;
use std::alloc::{AllocError, Global};

/// Whether each of these is a List of so many elements.
#[tactic(auto, using(crate::proofs::Columns::long_steps))]
fn are_long(names: &Vocabulary, length: usize, rows: &[Expr]) -> bool
    ensures { result ≡ are_long (names_in names.now) length rows.now }
{
    for row in rows {
        let Some(items) = items_under(names, Builtin::List, row) else {
            return false;
        };
        if items.len() != length {
            return false;
        }
    }
    true
}

/// The length that all rows have, where each is a List and there are any.
#[tactic(auto, using(crate::proofs::Columns::width_steps))]
fn width(names: &Vocabulary, rows: &[Expr]) -> Option<usize>
    ensures { result ≡ width (names_in names.now) rows.now }
{
    let [first, ..] = rows else {
        return None;
    };
    let length = items_under(names, Builtin::List, first)?.len();
    if are_long(names, length, rows) {
        Some(length)
    } else {
        None
    }
}

/// The elements at a place of each row that has one there.
#[tactic(auto, using(crate::proofs::Columns::column_steps))]
fn column(alloc: Global, rows: &[Expr], place: usize) -> Result<Exprs, AllocError>
    ensures { IfOk result (λ es. es ≡ l.column place (map n.items_of rows.now)) }
{
    let mut made = Items::new(alloc);
    for row in rows {
        let items = items_of(row);
        if place < items.len() {
            made.push(items[place].copy(alloc)?)?;
        }
    }
    Ok(made)
}

/// The columns, each of them a List.
#[tactic(auto, using(crate::proofs::Columns::columns_steps))]
fn columns(alloc: Global, names: &Vocabulary, rows: &[Expr], width: usize) -> Result<Exprs, Built>
    ensures { MakesAll (trees (l.columns (names_in names.now) 0 width (map n.items_of rows.now))) result }
{
    let mut made = Items::new(alloc);
    for place in 0..width {
        let items = column(alloc, rows, place)?;
        made.push(make(alloc, names, Builtin::List, items)?)?;
    }
    Ok(made)
}

/// The columns of rows that are not too deep, as a List.
#[tactic(auto, using(expr_tree::proofs::Callers::tree_steps))]
fn turned(
    alloc: Global,
    names: &Vocabulary,
    rows: &[Expr],
    width: usize,
) -> Result<Option<Expr>, Fault>
    requires shallow { depths (trees rows.now) < 512 }
    ensures { Works (Gives (n.make (names_in names.now) Builtin.List (l.columns (names_in names.now) 0 width (map n.items_of rows.now)))) result }
{
    match columns(alloc, names, rows, width) {
        Ok(made) => Ok(Some(make(alloc, names, Builtin::List, made)?)),
        Err(Built::TooLarge) => Err(Fault::TooLarge),
        Err(Built::TooDeep(_)) => unreachable!(),
        Err(Built::NoMemory) => Err(Fault::NoMemory),
    }
}

#[tactic(auto, using(crate::proofs::Columns::row_steps))]
fn transposed(alloc: Global, names: &Vocabulary, e: &Expr) -> Result<Option<Expr>, Fault>
    ensures { Works (l.transpose (names_in names.now) (e.now ∷ [])) result }
{
    let _shallow = e.depth();
    let Some(rows) = items_under(names, Builtin::List, e) else {
        return Ok(None);
    };
    match width(names, rows.as_slice()) {
        Some(width) => turned(alloc, names, rows.as_slice(), width),
        None => Ok(None),
    }
}

/// `Transpose`.
pub fn row_transpose(
    alloc: Global,
    names: &Vocabulary,
    items: &Exprs,
) -> Result<Option<Expr>, Fault>
    ensures { Works (l.transpose (names_in names.now) items.now) result }
{
    match items.as_slice() {
        [e] => transposed(alloc, names, e),
        _ => Ok(None),
    }
}

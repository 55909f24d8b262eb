//! Small expressions under the names of rows.
ghost use Rattle.std.specs.Prelude.{◌≡◌, ◌≤◌, ◌∷◌, [], IfOk};
ghost use Rattle.expr_tree.specs.Tree.{trees, sizes, depths};
ghost use Rattle.semantics.specs.Names as n;
ghost use Rattle.builtin_names.specs.Named.{names_in};

use builtin_names::{Vocabulary, make};
use expr_tree::{Built, Expr, Exprs};
use item_list::Items;
use semantics::Builtin;
use std::alloc::{AllocError, Global};

/// One element.
pub(crate) fn one(alloc: Global, item: Expr) -> Result<Exprs, AllocError>
    ensures { IfOk result (λ items. items ≡ item ∷ []) }
{
    let mut items = Items::new(alloc);
    items.push(item)?;
    Ok(items)
}

/// Two elements.
pub(crate) fn two(alloc: Global, first: Expr, second: Expr) -> Result<Exprs, AllocError>
    ensures { IfOk result (λ items. items ≡ first ∷ second ∷ []) }
{
    let mut items = one(alloc, first)?;
    items.push(second)?;
    Ok(items)
}

/// The expression of a row and a few elements, which are small.
pub(crate) fn form(
    alloc: Global,
    names: &Vocabulary,
    row: Builtin,
    items: Exprs,
) -> Result<Expr, AllocError>
    requires small { sizes (trees items) ≤ 10 }
    requires shallow { depths (trees items) ≤ 10 }
    ensures { IfOk result (λ e. e ≡ n.make (names_in names.now) row items) }
{
    match make(alloc, names, row, items) {
        Ok(e) => Ok(e),
        Err(Built::NoMemory) => Err(AllocError),
        Err(_) => unreachable!(),
    }
}

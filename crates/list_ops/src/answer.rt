//! What a row answers.
ghost use Rattle.std.specs.Prelude.{◌≡◌, ◌++◌, OnOk};
ghost use Rattle.expr_tree.specs.Tree.{call};
ghost use Rattle.semantics.specs.Names.{make};
ghost use Rattle.semantics.specs.Worked.{Gives};
ghost use Rattle.builtin_names.specs.Named.{names_in};
ghost use Rattle.builtin_names.specs.Results.{Works};

use builtin_names::{Fault, Vocabulary, name};
use expr_tree::{Expr, Exprs};
use semantics::Builtin;
use std::alloc::{AllocError, Global};

/// The expression of a head and elements.
pub(crate) fn call(alloc: Global, head: Expr, items: Exprs) -> Result<Option<Expr>, Fault>
    ensures { Works (Gives (call head items)) result }
{
    Ok(Some(Expr::normal(alloc, head, items)?))
}

/// The elements under the symbol of a row.
pub(crate) fn make(
    alloc: Global,
    names: &Vocabulary,
    row: Builtin,
    items: Exprs,
) -> Result<Option<Expr>, Fault>
    ensures { Works (Gives (make (names_in names.now) row items)) result }
{
    call(alloc, name(names, row), items)
}

/// The same expression.
pub(crate) fn same(alloc: Global, e: &Expr) -> Result<Option<Expr>, Fault>
    ensures { Works (Gives e.now) result }
{
    Ok(Some(e.copy(alloc)?))
}

/// Puts the elements of a slice to the end.
pub(crate) fn put_behind(alloc: Global, items: &mut Exprs, more: &[Expr]) -> Result<(), AllocError>
    ensures { OnOk result (items.new ≡ items.old ++ more.now) }
{
    for item in more {
        items.push(item.copy(alloc)?)?;
    }
    Ok(())
}

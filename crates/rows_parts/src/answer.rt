//! What a row answers.
ghost use Rattle.expr_tree.specs.Tree.{call};
ghost use Rattle.semantics.specs.Worked.{Gives};
ghost use Rattle.builtin_names.specs.Results.{Works};

use builtin_names::Fault;
use expr_tree::{Expr, Exprs};
use std::alloc::Global;

/// The expression of a head and elements.
pub(crate) fn under(alloc: Global, head: &Expr, items: Exprs) -> Result<Option<Expr>, Fault>
    ensures { Works (Gives (call head.now items)) result }
{
    Ok(Some(Expr::normal(alloc, head.copy(alloc)?, items)?))
}

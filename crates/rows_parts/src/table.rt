//! The rows of this crate by their names.
ghost use Rattle.std.specs.Prelude.{◌≡◌, IfSome, is_some};
ghost use Rattle.semantics.specs.Table.{worked};
ghost use Rattle.builtin_names.specs.Named.{names_in};
ghost use Rattle.builtin_names.specs.Results.{Works};
ghost use Rattle.row_kinds.specs.Kinds.{is_of_parts};

use crate::parts::row_part;
use crate::pieces::row_partition;
use crate::range::row_range;
use crate::transposed::row_transpose;
use builtin_names::{Fault, Vocabulary};
use expr_tree::{Expr, Exprs};
use semantics::Builtin;
use std::alloc::Global;

/// What a row makes of its elements. `None` for a row that is none of this crate.
#[tactic(auto, unfolding(semantics::specs::Table::worked))]
pub fn rewrite(
    alloc: Global,
    row: Builtin,
    names: &Vocabulary,
    items: &Exprs,
) -> Option<Result<Option<Expr>, Fault>>
    ensures known { is_some result ≡ is_of_parts row }
    ensures value { IfSome result (λ r. Works (worked (names_in names.now) row items.now) r) }
{
    match row {
        Builtin::Part => Some(row_part(alloc, names, items)),
        Builtin::Partition => Some(row_partition(alloc, items)),
        Builtin::Transpose => Some(row_transpose(alloc, names, items)),
        Builtin::Range => Some(row_range(alloc, names, items)),
        _ => None,
    }
}

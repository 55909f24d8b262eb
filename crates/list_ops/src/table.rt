//! The rows of this crate by their names.
ghost use Rattle.std.specs.Prelude.{◌≡◌, IfSome, is_some};
ghost use Rattle.semantics.specs.Table.{worked};
ghost use Rattle.builtin_names.specs.Named.{names_in};
ghost use Rattle.builtin_names.specs.Results.{Works};
ghost use Rattle.row_kinds.specs.Kinds.{is_of_lists};

use crate::applied::{row_apply, row_itself, row_map, row_release_hold, row_total};
use crate::cuts::{row_drop, row_most, row_take};
use crate::ends::{row_append, row_first, row_head, row_last, row_length, row_prepend, row_rest};
use crate::flattening::row_flatten;
use crate::joins::row_join;
use crate::numbered::{row_array, row_constant_array};
use crate::orders::{row_reverse, row_sort, row_union};
use builtin_names::{Fault, Vocabulary};
use expr_tree::{Expr, Exprs};
use semantics::Builtin;
use std::alloc::Global;

/// What a row makes of its elements. `None` for a row that is none of this crate.
#[tactic(auto, unfolding(semantics::specs::Table::worked))]
pub fn rewrite(
    alloc: Global,
    row: Builtin,
    names: &Vocabulary,
    items: &Exprs,
) -> Option<Result<Option<Expr>, Fault>>
    ensures known { is_some result ≡ is_of_lists row }
    ensures value { IfSome result (λ r. Works (worked (names_in names.now) row items.now) r) }
{
    match row {
        Builtin::Head => Some(row_head(alloc, items)),
        Builtin::Length => Some(row_length(items)),
        Builtin::First => Some(row_first(alloc, items)),
        Builtin::Last => Some(row_last(alloc, items)),
        Builtin::Rest => Some(row_rest(alloc, items)),
        Builtin::Most => Some(row_most(alloc, items)),
        Builtin::Take => Some(row_take(alloc, names, items)),
        Builtin::Drop => Some(row_drop(alloc, names, items)),
        Builtin::Append => Some(row_append(alloc, items)),
        Builtin::Prepend => Some(row_prepend(alloc, items)),
        Builtin::Reverse => Some(row_reverse(alloc, items)),
        Builtin::Sort => Some(row_sort(alloc, items)),
        Builtin::Union => Some(row_union(alloc, names, items)),
        Builtin::Join => Some(row_join(alloc, names, items)),
        Builtin::Flatten => Some(row_flatten(alloc, names, items)),
        Builtin::Total => Some(row_total(alloc, names, items)),
        Builtin::ConstantArray => Some(row_constant_array(alloc, names, items)),
        Builtin::Array => Some(row_array(alloc, names, items)),
        Builtin::Map => Some(row_map(alloc, items)),
        Builtin::Apply => Some(row_apply(alloc, items)),
        Builtin::Evaluate => Some(row_itself(alloc, items)),
        Builtin::Identity => Some(row_itself(alloc, items)),
        Builtin::ReleaseHold => Some(row_release_hold(alloc, names, items)),
        _ => None,
    }
}

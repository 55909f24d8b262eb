//! The rows of this crate by their names.
ghost use Rattle.std.specs.Prelude.{◌≡◌, IfSome, is_some};
ghost use Rattle.semantics.specs.Table.{worked};
ghost use Rattle.builtin_names.specs.Named.{names_in};
ghost use Rattle.builtin_names.specs.Results.{Works};
ghost use Rattle.row_kinds.specs.Kinds.{is_of_strings};

use crate::{row_characters, row_string_join, row_string_length, row_string_reverse};
use builtin_names::{Fault, Vocabulary};
use expr_tree::{Expr, Exprs};
use semantics::Builtin;
use std::alloc::Global;

/// What a row makes of its elements. `None` for a row that is none of this crate.
#[tactic(auto, unfolding(semantics::specs::Table::worked))]
pub fn rewrite(
    alloc: Global,
    row: Builtin,
    names: &Vocabulary,
    items: &Exprs,
) -> Option<Result<Option<Expr>, Fault>>
    ensures known { is_some result ≡ is_of_strings row }
    ensures value { IfSome result (λ r. Works (worked (names_in names.now) row items.now) r) }
{
    match row {
        Builtin::StringJoin => Some(row_string_join(alloc, items)),
        Builtin::StringLength => Some(row_string_length(alloc, items)),
        Builtin::Characters => Some(row_characters(alloc, names, items)),
        Builtin::StringReverse => Some(row_string_reverse(alloc, items)),
        _ => None,
    }
}

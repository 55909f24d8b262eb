//! All rows of the built-in table that are functions of their elements: `rewrite` asks the crate of the row's kind, and answers `None` for
//! a row that is none of theirs.
#![tactic(auto)]

ghost use Rattle.std.specs.Prelude.{◌≡◌, IfSome, is_some};
ghost use Rattle.semantics.specs.Table.{worked};
ghost use Rattle.builtin_names.specs.Named.{names_in};
ghost use Rattle.builtin_names.specs.Results.{Works};
ghost use Rattle.row_kinds.specs.Kinds.{is_worked};

use builtin_names::{Fault, Vocabulary};
use expr_tree::{Expr, Exprs};
use row_kinds::{Kind, kind_of};
use semantics::Builtin;
use std::alloc::Global;

/// What a row makes of its elements. `None` for a row that is none of these.
pub fn rewrite(
    alloc: Global,
    row: Builtin,
    names: &Vocabulary,
    items: &Exprs,
) -> Option<Result<Option<Expr>, Fault>>
    ensures known { is_some result ≡ is_worked row }
    ensures value { IfSome result (λ r. Works (worked (names_in names.now) row items.now) r) }
{
    match kind_of(row) {
        Kind::Numbers => rows_numbers::rewrite(alloc, row, names, items),
        Kind::Tests => rows_tests::rewrite(row, names, items),
        Kind::Lists => list_ops::rewrite(alloc, row, names, items),
        Kind::Parts => rows_parts::rewrite(alloc, row, names, items),
        Kind::Strings => rows_strings::rewrite(alloc, row, names, items),
        Kind::Plain
        | Kind::KernelName
        | Kind::Form
        | Kind::Iteration
        | Kind::Change
        | Kind::Matching
        | Kind::Replacing
        | Kind::Outward => None,
    }
}

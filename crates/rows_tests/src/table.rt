//! The rows of this crate by their names.
ghost use Rattle.std.specs.Prelude.{◌≡◌, IfSome, is_some};
ghost use Rattle.semantics.specs.Table.{worked};
ghost use Rattle.builtin_names.specs.Named.{names_in};
ghost use Rattle.builtin_names.specs.Results.{Works};
ghost use Rattle.row_kinds.specs.Kinds.{is_test};

use crate::comparison::{row_greater, row_greater_equal, row_less, row_less_equal};
use crate::identity::{row_equal, row_same_q, row_unequal, row_unsame_q};
use crate::questions::{
    row_atom_q, row_integer_q, row_list_q, row_not, row_ordered_q, row_string_q, row_true_q,
};
use builtin_names::{Fault, Vocabulary};
use expr_tree::{Expr, Exprs};
use semantics::Builtin;

/// What a row makes of its elements. `None` for a row that is none of this crate.
#[tactic(auto, unfolding(semantics::specs::Table::worked))]
pub fn rewrite(
    row: Builtin,
    names: &Vocabulary,
    items: &Exprs,
) -> Option<Result<Option<Expr>, Fault>>
    ensures known { is_some result ≡ is_test row }
    ensures value { IfSome result (λ r. Works (worked (names_in names.now) row items.now) r) }
{
    match row {
        Builtin::Equal => Some(row_equal(names, items)),
        Builtin::Unequal => Some(row_unequal(names, items)),
        Builtin::Less => Some(row_less(names, items)),
        Builtin::LessEqual => Some(row_less_equal(names, items)),
        Builtin::Greater => Some(row_greater(names, items)),
        Builtin::GreaterEqual => Some(row_greater_equal(names, items)),
        Builtin::SameQ => Some(row_same_q(names, items)),
        Builtin::UnsameQ => Some(row_unsame_q(names, items)),
        Builtin::OrderedQ => Some(row_ordered_q(names, items)),
        Builtin::AtomQ => Some(row_atom_q(names, items)),
        Builtin::IntegerQ => Some(row_integer_q(names, items)),
        Builtin::StringQ => Some(row_string_q(names, items)),
        Builtin::ListQ => Some(row_list_q(names, items)),
        Builtin::TrueQ => Some(row_true_q(names, items)),
        Builtin::Not => Some(row_not(names, items)),
        _ => None,
    }
}

//! The rows of numbers by their names.
ghost use Rattle.std.specs.Prelude.{◌≡◌, IfSome, is_some};
ghost use Rattle.semantics.specs.Table.{worked};
ghost use Rattle.builtin_names.specs.Named.{names_in};
ghost use Rattle.builtin_names.specs.Results.{Works};
ghost use Rattle.row_kinds.specs.Kinds.{is_of_numbers};

use crate::{
    row_abs, row_even_q, row_factorial, row_gcd, row_max, row_min, row_mod, row_odd_q,
    row_quotient, row_sign,
};
use builtin_names::{Fault, Vocabulary};
use expr_tree::{Expr, Exprs};
use semantics::Builtin;
use std::alloc::Global;
use sum_forms::{divide, minus, plus, power, subtract, times};

/// What a row makes of its elements. `None` for a row that is none of numbers.
#[tactic(auto, unfolding(semantics::specs::Table::worked))]
pub fn rewrite(
    alloc: Global,
    row: Builtin,
    names: &Vocabulary,
    items: &Exprs,
) -> Option<Result<Option<Expr>, Fault>>
    ensures known { is_some result ≡ is_of_numbers row }
    ensures value { IfSome result (λ r. Works (worked (names_in names.now) row items.now) r) }
{
    match row {
        Builtin::Plus => Some(plus(alloc, names, items)),
        Builtin::Times => Some(times(alloc, names, items)),
        Builtin::Power => Some(power(alloc, names, items)),
        Builtin::Minus => Some(minus(alloc, names, items)),
        Builtin::Subtract => Some(subtract(alloc, names, items)),
        Builtin::Divide => Some(divide(alloc, names, items)),
        Builtin::Quotient => Some(row_quotient(items)),
        Builtin::Mod => Some(row_mod(items)),
        Builtin::EvenQ => Some(row_even_q(names, items)),
        Builtin::OddQ => Some(row_odd_q(names, items)),
        Builtin::Abs => Some(row_abs(items)),
        Builtin::Sign => Some(row_sign(items)),
        Builtin::GCD => Some(row_gcd(items)),
        Builtin::Factorial => Some(row_factorial(items)),
        Builtin::Max => Some(row_max(names, items)),
        Builtin::Min => Some(row_min(names, items)),
        _ => None,
    }
}

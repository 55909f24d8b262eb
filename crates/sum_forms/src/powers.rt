//! `Power`.
ghost use Rattle.std.specs.Prelude.{◌≡◌, MatchOption, None, Some, Ok, pos, ◌<ℤ◌};
ghost use Rattle.expr_tree.specs.Tree.{Tree};
ghost use Rattle.semantics.specs.Numbers as Numbers;
ghost use Rattle.builtin_names.specs.Named.{names_in};
ghost use Rattle.builtin_names.specs.Results.{Makes, Works};
ghost use Rattle.sum_forms.specs.Splits.{power_in};

use crate::answers::of_number;
use builtin_names::{Fault, Vocabulary, is_name, make};
use expr_lists::two;
use expr_tree::{Expr, Exprs, Node, pair_of};
use int_ops::{is_even, mul};
use semantics::Builtin;
use std::alloc::Global;

/// A base and its integer exponent.
#[derive(Clone, Copy)]
pub(crate) struct Raised<'a> {
    pub base: &'a Expr,
    pub exponent: i128,
}

/// `Power[b, k]`.
#[tactic(auto, using(crate::proofs::Shapes::power_steps))]
pub fn power(alloc: Global, names: &Vocabulary, items: &Exprs) -> Result<Option<Expr>, Fault>
    ensures { Works (Numbers.power (names_in names.now) items.now) result }
{
    let Some((base, exponent)) = pair_of(items.as_slice()) else {
        return Ok(None);
    };
    match (base.node(), exponent.node()) {
        (Node::Int(n), Node::Int(k)) => integer_power(*n, *k),
        (Node::Int(1), _) => Ok(Some(Expr::int(1))),
        (_, Node::Int(k)) => power_of(alloc, names, base, *k),
        _ => Ok(None),
    }
}

#[tactic(auto, using(crate::proofs::Shapes::integer_steps))]
fn integer_power(n: i128, k: i128) -> Result<Option<Expr>, Fault>
    ensures { Works (Numbers.integer_power n k) result }
{
    if k < 0 {
        return Ok(negative_power(n, k));
    }
    if k == 0 && n == 0 {
        return Ok(None);
    }
    of_number(int_ops::power(n, k))
}

/// Only 1 and -1 have integers as their powers of negative exponents.
#[tactic(auto, using(crate::proofs::Shapes::integer_steps))]
fn negative_power(n: i128, k: i128) -> Option<Expr>
    requires { k <ℤ pos 0 }
    ensures { Works (Numbers.integer_power n k) (Ok result) }
{
    if n == 1 {
        Some(Expr::int(1))
    } else if n == -1 {
        Some(Expr::int(if is_even(k) { 1 } else { -1 }))
    } else {
        None
    }
}

/// The power of a base that is no integer.
#[tactic(auto, using(crate::proofs::Shapes::power_steps))]
fn power_of(
    alloc: Global,
    names: &Vocabulary,
    base: &Expr,
    exponent: i128,
) -> Result<Option<Expr>, Fault>
    ensures { Works (Numbers.power_of (names_in names.now) base.now exponent) result }
{
    if exponent == 0 {
        return Ok(Some(Expr::int(1)));
    }
    if exponent == 1 {
        return Ok(Some(base.copy(alloc)?));
    }
    let Some(inner) = power_in(names, base) else {
        return Ok(None);
    };
    let Ok(product) = mul(inner.exponent, exponent) else {
        return Err(Fault::Range);
    };
    let items = two(alloc, inner.base.copy(alloc)?, Expr::int(product))?;
    Ok(Some(make(alloc, names, Builtin::Power, items)?))
}

/// The base and the exponent of a power with an integer exponent.
#[tactic(auto, using(crate::proofs::Shapes::power_in_steps))]
pub(crate) fn power_in<'a>(names: &Vocabulary, e: &'a Expr) -> Option<Raised<'a>>
    ensures { MatchOption result (power_in (names_in names.now) e.now ≡ None)
        (λ p. power_in (names_in names.now) e.now ≡ Some (record { number = p.exponent; rest = p.base.now })) }
{
    let Node::Normal(head, items) = e.node() else {
        return None;
    };
    let (base, exponent) = pair_of(items.as_slice())?;
    match exponent.node() {
        Node::Int(k) if is_name(names, Builtin::Power, head) => Some(Raised { base, exponent: *k }),
        _ => None,
    }
}

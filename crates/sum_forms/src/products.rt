//! `Times`.
ghost use Rattle.std.specs.Prelude.{◌≡◌, true, ℤ, List, Some, IfOk, OnOk};
ghost use Rattle.semantics.specs.Numbers as Numbers;
ghost use Rattle.semantics.specs.Numbers.{numbers_of, write_factor, written};
ghost use Rattle.semantics.specs.Worked.{all_in_range};
ghost use Rattle.expr_tree.specs.Tree.{Tree};
ghost use Rattle.expr_tree.specs.Limits.{Assembles, in_range};
ghost use Rattle.int_ops.specs.Products.{Stands};
ghost use Rattle.builtin_names.specs.Named.{names_in};
ghost use Rattle.builtin_names.specs.Results.{Works};
ghost use Rattle.sum_forms.specs.Planned.{Plans, Written, with_one};
ghost use Rattle.sum_forms.specs.Taken.{Took};

use crate::answers::{given, within};
use crate::groups::{Group, Part, are_in_range, gathered};
use crate::powers::power_in;
use crate::terms::Terms;
use builtin_names::{Fault, Vocabulary, make};
use expr_lists::two;
use expr_tree::{Built, Expr, Exprs, Node};
use int_ops::Product;
use semantics::Builtin;
use std::alloc::{AllocError, Global};

/// `Times[..]`: powers of equal bases add their exponents.
#[tactic(auto, using(crate::proofs::Factors::times_steps))]
pub fn times(alloc: Global, names: &Vocabulary, items: &Exprs) -> Result<Option<Expr>, Fault>
    ensures { Works (Numbers.product (names_in names.now) items.now) result }
{
    let mut parts = Vec::new(alloc);
    let mut whole = Product::one();
    for item in items.as_slice() {
        take(alloc, names, &mut whole, &mut parts, item)?;
    }
    let groups = gathered(alloc, parts)?;
    product_of(alloc, names, whole, groups.as_slice())
}

/// Takes one element more into a product.
#[tactic(auto, using(crate::proofs::Factors::take_steps))]
fn take(
    alloc: Global,
    names: &Vocabulary,
    whole: &mut Product,
    parts: &mut Vec<Part>,
    item: &Expr,
) -> Result<(), AllocError>
    ensures { (z : ℤ) → Stands whole.old z → OnOk result (Took (names_in names.now) item.now z parts.old.items whole.new parts.new.items) }
{
    match item.node() {
        Node::Int(factor) => {
            whole.multiply(*factor);
            Ok(())
        }
        _ => {
            parts.push(factor_of(alloc, names, item)?)?;
            Ok(())
        }
    }
}

/// An element of a product as an exponent and a base.
#[tactic(auto, using(crate::proofs::Factors::factor_steps))]
fn factor_of(alloc: Global, names: &Vocabulary, item: &Expr) -> Result<Part, AllocError>
    ensures { IfOk result (λ p. p ≡ Numbers.factor (names_in names.now) item.now) }
{
    match power_in(names, item) {
        Some(power) => Ok(Part {
            number: power.exponent,
            rest: power.base.copy(alloc)?,
        }),
        None => Ok(Part {
            number: 1,
            rest: item.copy(alloc)?,
        }),
    }
}

/// The product of an integer and factors.
#[tactic(auto, using(crate::proofs::Factors::product_steps))]
fn product_of(
    alloc: Global,
    names: &Vocabulary,
    whole: Product,
    groups: &[Group],
) -> Result<Option<Expr>, Fault>
    ensures { (z : ℤ) → Stands whole z → Works (Numbers.product_of (names_in names.now) (record { whole_part = z; parts = groups.now })) result }
{
    let Ok(whole) = whole.judged() else {
        return Err(Fault::Range);
    };
    if whole == 0 {
        return Ok(Some(Expr::int(0)));
    }
    if !are_in_range(groups) {
        return Err(Fault::Range);
    }
    match factors_of(alloc, names, groups) {
        Ok(factors) => given(factors.finish(alloc, names, Builtin::Times, 1, whole)),
        Err(fault) => Err(fault),
    }
}

/// The factors that are written.
#[tactic(auto, using(crate::proofs::Factors::factor_steps))]
fn factors_of(alloc: Global, names: &Vocabulary, groups: &[Group]) -> Result<Terms, Fault>
    requires range { all_in_range (numbers_of groups.now) ≡ true }
    ensures { Written (written (write_factor (names_in names.now)) groups.now) result }
{
    let mut factors = Terms::new(alloc);
    for group in groups {
        match with_factor(alloc, names, factors, group) {
            Ok(more) => factors = more,
            Err(fault) => return Err(fault),
        }
    }
    Ok(factors)
}

/// The factors with that of a group, unless its exponent is 0.
#[tactic(auto, using(crate::proofs::Factors::factor_steps))]
fn with_factor(
    alloc: Global,
    names: &Vocabulary,
    factors: Terms,
    group: &Group,
) -> Result<Terms, Fault>
    requires range { in_range group.now.number ≡ true }
    ensures { (ts : List Tree) → Plans ts factors → Written (with_one ts (write_factor (names_in names.now) group.now)) result }
{
    let Ok(exponent) = group.number() else {
        unreachable!();
    };
    if exponent == 0 {
        return Ok(factors);
    }
    factors.with(factor(alloc, names, exponent, group.rest()))
}

/// The power of a base. An exponent 1 gives the base.
fn factor(alloc: Global, names: &Vocabulary, exponent: i128, base: &Expr) -> Result<Expr, Built>
    ensures { (t : Tree) → write_factor (names_in names.now) (record { number = exponent; rest = base.now }) ≡ Some t → Assembles t result }
{
    if exponent == 1 {
        return Ok(within(base.copy(alloc)?));
    }
    let items = two(alloc, base.copy(alloc)?, Expr::int(exponent))?;
    make(alloc, names, Builtin::Power, items)
}

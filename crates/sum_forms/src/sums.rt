//! `Plus`.
ghost use Rattle.std.specs.Prelude.{◌≡◌, ◌≤◌, true, ℤ, List, [], Some, IfOk, OnOk, MatchOption};
ghost use Rattle.semantics.specs.Numbers as Numbers;
ghost use Rattle.semantics.specs.Numbers.{numbers_of, once, sum_of, write_term, written};
ghost use Rattle.semantics.specs.Names as n;
ghost use Rattle.semantics.specs.Worked.{all_in_range};
ghost use Rattle.semantics.specs.declared.builtin.Builtin.{Builtin};
ghost use Rattle.expr_tree.specs.Tree.{Tree, size, depth};
ghost use Rattle.expr_tree.specs.Limits.{Assembles, in_range};
ghost use Rattle.int_ops.specs.Totals as Totals;
ghost use Rattle.builtin_names.specs.Named.{names_in};
ghost use Rattle.builtin_names.specs.Results.{Works};
ghost use Rattle.sum_forms.specs.Planned.{Plans, Written, with_one};
ghost use Rattle.sum_forms.specs.Splits.{rest_in, IsScaled};
ghost use Rattle.sum_forms.specs.Taken.{TookTerm};

use crate::answers::{given, within};
use crate::groups::{Group, Part, are_in_range, gathered};
use crate::terms::Terms;
use builtin_names::{Fault, Vocabulary, is_call, items_of, items_under, make};
use expr_tree::{Built, Expr, Exprs, Node, copy_items};
use int_ops::total;
use item_list::Items;
use semantics::Builtin;
use std::alloc::{AllocError, Global};

/// An integer times the product of elements.
#[derive(Clone, Copy)]
struct Scaled<'a> {
    coefficient: i128,
    others: &'a [Expr],
}

/// `Plus[..]`: terms with equal rests add their coefficients.
#[tactic(auto, using(crate::proofs::Addends::plus_steps))]
pub fn plus(alloc: Global, names: &Vocabulary, items: &Exprs) -> Result<Option<Expr>, Fault>
    ensures { Works (Numbers.plus (names_in names.now) items.now) result }
{
    let mut parts = Vec::new(alloc);
    let mut numbers = Vec::new(alloc);
    for item in items.as_slice() {
        take(alloc, names, &mut numbers, &mut parts, item)?;
    }
    let groups = gathered(alloc, parts)?;
    sum_of(alloc, names, numbers.as_slice(), groups.as_slice())
}

/// Takes one element more into a sum.
#[tactic(auto, using(crate::proofs::Addends::take_steps))]
fn take(
    alloc: Global,
    names: &Vocabulary,
    numbers: &mut Vec<i128>,
    parts: &mut Vec<Part>,
    item: &Expr,
) -> Result<(), AllocError>
    ensures { OnOk result (TookTerm (names_in names.now) item.now numbers.old.items parts.old.items numbers.new.items parts.new.items) }
{
    match item.node() {
        Node::Int(number) => {
            numbers.push(*number)?;
            Ok(())
        }
        _ => {
            parts.push(term_of(alloc, names, item)?)?;
            Ok(())
        }
    }
}

/// An element of a sum as a coefficient and a rest.
#[tactic(auto, using(crate::proofs::Addends::term_steps))]
fn term_of(alloc: Global, names: &Vocabulary, item: &Expr) -> Result<Part, AllocError>
    ensures { IfOk result (λ p. p ≡ Numbers.term (names_in names.now) item.now) }
{
    match scaled_in(names, item) {
        Some(scaled) => Ok(Part {
            number: scaled.coefficient,
            rest: rest_of(alloc, names, scaled.others)?,
        }),
        None => Ok(Part {
            number: 1,
            rest: item.copy(alloc)?,
        }),
    }
}

/// The coefficient and the other elements of a product that begins with an integer and has more.
#[tactic(auto, using(crate::proofs::Addends::scaled_steps))]
fn scaled_in<'a>(names: &Vocabulary, e: &'a Expr) -> Option<Scaled<'a>>
    ensures { MatchOption result (Numbers.term (names_in names.now) e.now ≡ once e.now)
        (λ s. IsScaled (names_in names.now) e.now s.coefficient s.others.now) }
{
    if !is_call(names, Builtin::Times, e) {
        return None;
    }
    let [first, others @ ..] = items_of(e) else {
        return None;
    };
    let _size = e.size();
    let _depth = e.depth();
    match first.node() {
        Node::Int(coefficient) if !others.is_empty() => Some(Scaled {
            coefficient: *coefficient,
            others,
        }),
        _ => None,
    }
}

/// The product of the elements behind a coefficient. One element stands alone.
#[tactic(auto, using(crate::proofs::Addends::rest_steps))]
fn rest_of(alloc: Global, names: &Vocabulary, others: &[Expr]) -> Result<Expr, AllocError>
    requires small { size (n.make (names_in names.now) Builtin.Times others.now) ≤ 4000000 }
    requires shallow { depth (n.make (names_in names.now) Builtin.Times others.now) ≤ 512 }
    ensures { IfOk result (λ e. e ≡ rest_in (names_in names.now) others.now) }
{
    if let [only] = others {
        return only.copy(alloc);
    }
    let mut items = Items::new(alloc);
    for other in others {
        items.push(other.copy(alloc)?)?;
    }
    match make(alloc, names, Builtin::Times, items) {
        Ok(rest) => Ok(rest),
        Err(Built::NoMemory) => Err(AllocError),
        Err(Built::TooLarge) | Err(Built::TooDeep(_)) => unreachable!(),
    }
}

/// The sum of integers and terms.
#[tactic(auto, using(crate::proofs::Addends::sum_steps))]
fn sum_of(
    alloc: Global,
    names: &Vocabulary,
    numbers: &[i128],
    groups: &[Group],
) -> Result<Option<Expr>, Fault>
    ensures { Works (sum_of (names_in names.now) (record { whole_part = Totals.total numbers.now; parts = groups.now })) result }
{
    let Ok(whole) = total(numbers) else {
        return Err(Fault::Range);
    };
    if !are_in_range(groups) {
        return Err(Fault::Range);
    }
    match terms_of(alloc, names, groups) {
        Ok(terms) => given(terms.finish(alloc, names, Builtin::Plus, 0, whole)),
        Err(fault) => Err(fault),
    }
}

/// The terms that are written.
#[tactic(auto, using(crate::proofs::Addends::term_steps))]
fn terms_of(alloc: Global, names: &Vocabulary, groups: &[Group]) -> Result<Terms, Fault>
    requires range { all_in_range (numbers_of groups.now) ≡ true }
    ensures { Written (written (write_term (names_in names.now)) groups.now) result }
{
    let mut terms = Terms::new(alloc);
    for group in groups {
        match with_term(alloc, names, terms, group) {
            Ok(more) => terms = more,
            Err(fault) => return Err(fault),
        }
    }
    Ok(terms)
}

/// The terms with that of a group, unless its coefficient is 0.
#[tactic(auto, using(crate::proofs::Addends::with_steps))]
fn with_term(alloc: Global, names: &Vocabulary, terms: Terms, group: &Group) -> Result<Terms, Fault>
    requires range { in_range group.now.number ≡ true }
    ensures { (ts : List Tree) → Plans ts terms → Written (with_one ts (write_term (names_in names.now) group.now)) result }
{
    let Ok(coefficient) = group.number() else {
        unreachable!();
    };
    if coefficient == 0 {
        return Ok(terms);
    }
    terms.with(term(alloc, names, coefficient, group.rest()))
}

/// A coefficient times a rest. A coefficient 1 gives the rest.
#[tactic(auto, using(crate::proofs::Addends::write_steps))]
fn term(alloc: Global, names: &Vocabulary, coefficient: i128, rest: &Expr) -> Result<Expr, Built>
    ensures { (t : Tree) → write_term (names_in names.now) (record { number = coefficient; rest = rest.now }) ≡ Some t → Assembles t result }
{
    if coefficient == 1 {
        return Ok(within(rest.copy(alloc)?));
    }
    scaled_by(alloc, names, coefficient, rest)
}

/// A product with a coefficient before its elements, or before anything else.
#[tactic(auto, using(crate::proofs::Addends::scaled_by_steps))]
fn scaled_by(
    alloc: Global,
    names: &Vocabulary,
    coefficient: i128,
    rest: &Expr,
) -> Result<Expr, Built>
    ensures { Assembles (Numbers.times (names_in names.now) coefficient rest.now) result }
{
    let mut items = Items::new(alloc);
    items.push(Expr::int(coefficient))?;
    match items_under(names, Builtin::Times, rest) {
        Some(factors) => items.append(copy_items(alloc, factors)?)?,
        None => items.push(rest.copy(alloc)?)?,
    }
    make(alloc, names, Builtin::Times, items)
}

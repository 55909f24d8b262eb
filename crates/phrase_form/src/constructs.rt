//! What the constructs of the grammar give of what is kept.
ghost use Rattle.std.specs.Prelude.{◌≡◌, IfOk, Some};
ghost use Rattle.syntax.specs.Operators.{gives_of};
ghost use Rattle.syntax.specs.Phrases.{is_comparison, is_sameness, of_one_kind, chains_with, accepts_by};
ghost use Rattle.builtin_names.specs.Named.{names_in};
ghost use Rattle.laws_reading.specs.Kept as low;
ghost use Rattle.phrase_form.specs.Held.{kept_in};
ghost use Rattle.operator_levels.specs.Words.{gives_in, operator_in};
ghost use Rattle.phrase_form.specs.Words.{prefix_in, postfix_in, kind_in};

use crate::chain::{chained, is_same};
use crate::elements::{
    applied, called, inverse, list_under, one_under, parted, three_under, two_under,
};
use crate::kept::Kept;
use crate::negation::negated;
use crate::operator::{Postfix, Prefix};
use crate::terminal::PhraseKind;
use builtin_names::{Vocabulary, name};
use expr_tree::{Expr, Exprs};
use operator_levels::{Gives, Operator, result_of};
use semantics::Builtin;
use std::alloc::{AllocError, Global};

fn is_comparison(row: Builtin) -> bool
    ensures { result ≡ is_comparison row }
{
    match row {
        Builtin::Equal
        | Builtin::Unequal
        | Builtin::Less
        | Builtin::LessEqual
        | Builtin::Greater
        | Builtin::GreaterEqual => true,
        _ => false,
    }
}

fn is_sameness(row: Builtin) -> bool
    ensures { result ≡ is_sameness row }
{
    match row {
        Builtin::SameQ | Builtin::UnsameQ => true,
        _ => false,
    }
}

/// Whether both are comparisons, or both SameQ or UnsameQ.
fn of_one_kind(a: Builtin, b: Builtin) -> bool
    ensures { result ≡ of_one_kind a b }
{
    (is_comparison(a) && is_comparison(b)) || (is_sameness(a) && is_sameness(b))
}

/// Whether a chain of the row may begin with the phrase.
fn chains_with(row: Builtin, kind: PhraseKind) -> bool
    ensures { result ≡ chains_with row (kind_in kind) }
{
    match kind {
        PhraseKind::Open(other) => is_same(other, row) || !of_one_kind(row, other),
        PhraseKind::Closed | PhraseKind::NameToken | PhraseKind::NumberToken => true,
    }
}

/// Whether an operator that gives this takes the phrase as its left operand.
fn takes(gives: Gives, kind: PhraseKind) -> bool
    ensures { result ≡ accepts_by (gives_in gives) (kind_in kind) }
{
    match gives {
        Gives::Naming => kind == PhraseKind::NameToken,
        Gives::Chain(row) => chains_with(row, kind),
        Gives::Pair(_)
        | Gives::Quotient
        | Gives::Difference
        | Gives::CallOfLeft
        | Gives::CallOfRight => true,
    }
}

/// Whether an operator takes the phrase as its left operand.
pub(crate) fn accepts(operator: Operator, kind: PhraseKind) -> bool
    ensures { result ≡ accepts_by (gives_of (operator_in operator)) (kind_in kind) }
{
    takes(result_of(operator), kind)
}

/// Two phrases in a row of their own.
fn paired(
    alloc: Global,
    names: &Vocabulary,
    row: Builtin,
    x: Kept,
    y: Kept,
) -> Result<Kept, AllocError>
    ensures { IfOk result (λ k. kept_in k ≡ low.whole (low.kept_pair (names_in names.now) row (kept_in x).expr (kept_in y).expr)) }
{
    let left = x.into_expr(alloc)?;
    let right = y.into_expr(alloc)?;
    Ok(Kept::closed(two_under(alloc, names, row, left, right)?))
}

/// A phrase as the head of another.
fn called_with(alloc: Global, head: Kept, argument: Kept) -> Result<Kept, AllocError>
    ensures { IfOk result (λ k. kept_in k ≡ low.whole (low.kept_apply (kept_in head).expr (kept_in argument).expr)) }
{
    let head = head.into_expr(alloc)?;
    let argument = argument.into_expr(alloc)?;
    Ok(Kept::closed(applied(alloc, head, argument)?))
}

/// What an operator that gives this makes of its operands.
fn joined(
    alloc: Global,
    names: &Vocabulary,
    gives: Gives,
    x: Kept,
    y: Kept,
) -> Result<Kept, AllocError>
    ensures { IfOk result (λ k. kept_in k ≡ low.kept_join (names_in names.now) (gives_in gives) (kept_in x) (kept_in y)) }
{
    match gives {
        Gives::Pair(row) => paired(alloc, names, row, x, y),
        Gives::Chain(row) => {
            let last = y.into_expr(alloc)?;
            chained(alloc, names, row, x, last)
        }
        Gives::Quotient => {
            let divisor = y.into_expr(alloc)?;
            let last = inverse(alloc, names, divisor)?;
            chained(alloc, names, Builtin::Times, x, last)
        }
        Gives::Difference => {
            let last = negated(alloc, names, y)?.into_expr(alloc)?;
            chained(alloc, names, Builtin::Plus, x, last)
        }
        Gives::CallOfLeft => called_with(alloc, x, y),
        Gives::CallOfRight => called_with(alloc, y, x),
        Gives::Naming => paired(alloc, names, Builtin::Pattern, x, y),
    }
}

/// What an infix operator gives.
pub(crate) fn join(
    alloc: Global,
    names: &Vocabulary,
    operator: Operator,
    x: Kept,
    y: Kept,
) -> Result<Kept, AllocError>
    ensures { IfOk result (λ k. kept_in k ≡ low.kept_join (names_in names.now) (gives_of (operator_in operator)) (kept_in x) (kept_in y)) }
{
    joined(alloc, names, result_of(operator), x, y)
}

/// A phrase under a row of its own.
fn under(alloc: Global, names: &Vocabulary, row: Builtin, x: Kept) -> Result<Kept, AllocError>
    ensures { IfOk result (λ k. kept_in k ≡ low.whole (low.kept_one (names_in names.now) row (kept_in x).expr)) }
{
    let expr = x.into_expr(alloc)?;
    Ok(Kept::closed(one_under(alloc, names, row, expr)?))
}

/// What a prefix operator gives.
pub(crate) fn lead(
    alloc: Global,
    names: &Vocabulary,
    operator: Prefix,
    x: Kept,
) -> Result<Kept, AllocError>
    ensures { IfOk result (λ k. kept_in k ≡ low.kept_lead (names_in names.now) (prefix_in operator) (kept_in x)) }
{
    match operator {
        Prefix::PreIncrement => under(alloc, names, Builtin::PreIncrement, x),
        Prefix::PreDecrement => under(alloc, names, Builtin::PreDecrement, x),
        Prefix::Negate => negated(alloc, names, x),
        Prefix::Not => under(alloc, names, Builtin::Not, x),
    }
}

/// The row of a postfix operator.
fn trail_row(operator: Postfix) -> Builtin
    ensures { result ≡ low.trail_row (postfix_in operator) }
{
    match operator {
        Postfix::Increment => Builtin::Increment,
        Postfix::Decrement => Builtin::Decrement,
        Postfix::Function => Builtin::Function,
        Postfix::Unset => Builtin::Unset,
    }
}

/// What a postfix operator gives.
pub(crate) fn trail(
    alloc: Global,
    names: &Vocabulary,
    operator: Postfix,
    x: Kept,
) -> Result<Kept, AllocError>
    ensures { IfOk result (λ k. kept_in k ≡ (low.kept (names_in names.now)).of_trail (postfix_in operator) (kept_in x)) }
{
    under(alloc, names, trail_row(operator), x)
}

/// `x;`.
pub(crate) fn ended(alloc: Global, names: &Vocabulary, x: Kept) -> Result<Kept, AllocError>
    ensures { IfOk result (λ k. kept_in k ≡ (low.kept (names_in names.now)).of_end (kept_in x)) }
{
    let null = name(names, Builtin::Null);
    chained(alloc, names, Builtin::CompoundExpression, x, Some(null))
}

/// `t /: l = r`, which gives the row.
pub(crate) fn tagged(
    alloc: Global,
    names: &Vocabulary,
    row: Builtin,
    t: Kept,
    l: Kept,
    r: Kept,
) -> Result<Kept, AllocError>
    ensures { IfOk result (λ k. kept_in k ≡ (low.kept (names_in names.now)).of_tag row (kept_in t) (kept_in l) (kept_in r)) }
{
    let tag = t.into_expr(alloc)?;
    let left = l.into_expr(alloc)?;
    let right = r.into_expr(alloc)?;
    Ok(Kept::closed(three_under(alloc, names, row, tag, left, right)?))
}

/// `{xs}`.
pub(crate) fn listed(
    alloc: Global,
    names: &Vocabulary,
    items: Option<Exprs>,
) -> Result<Kept, AllocError>
    ensures { IfOk result (λ k. kept_in k ≡ (low.kept (names_in names.now)).of_list items) }
{
    Ok(Kept::closed(list_under(alloc, names, Builtin::List, items)?))
}

/// `x[xs]`.
pub(crate) fn call(
    alloc: Global,
    head: Option<Expr>,
    items: Option<Exprs>,
) -> Result<Kept, AllocError>
    ensures { IfOk result (λ k. kept_in k ≡ low.whole (low.kept_call head items)) }
{
    Ok(Kept::closed(called(alloc, head, items)?))
}

/// `x[[xs]]`.
pub(crate) fn part(
    alloc: Global,
    names: &Vocabulary,
    expr: Option<Expr>,
    items: Option<Exprs>,
) -> Result<Kept, AllocError>
    ensures { IfOk result (λ k. kept_in k ≡ (low.kept (names_in names.now)).of_part expr items) }
{
    Ok(Kept::closed(parted(alloc, names, expr, items)?))
}

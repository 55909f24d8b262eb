//! The rows that leave elements out at the ends or between.
ghost use Rattle.std.specs.Prelude.{◌≡◌, ◌+◌, ◌≤◌, [], ◌∷◌, IfOk, IfSome};
ghost use Rattle.semantics.specs.Lists as l;
ghost use Rattle.builtin_names.specs.Named.{names_in};
ghost use Rattle.builtin_names.specs.Results.{Works};
ghost use Rattle.list_ops.specs.Fronts.{front_of};
ghost use Rattle.list_ops.specs.Spans.{end_span, list_span, inside, outside};

use crate::answer::{call, put_behind};
use builtin_names::{Fault, Vocabulary, items_under};
use expr_lists::copies;
use expr_tree::{Expr, Exprs, Node};
use semantics::Builtin;
use std::alloc::{AllocError, Global};

/// The elements but for the last.
#[tactic(auto, using(crate::proofs::Fronts::front_steps))]
fn front(alloc: Global, items: &[Expr]) -> Result<Option<Exprs>, AllocError>
    ensures { IfOk result (λ o. o ≡ front_of items.now) }
{
    match items.len() {
        0 => Ok(None),
        count => Ok(Some(copies(alloc, &items[..count - 1])?)),
    }
}

#[tactic(auto, using(crate::proofs::Fronts::most_steps))]
fn without_last(alloc: Global, e: &Expr) -> Result<Option<Expr>, Fault>
    ensures { Works (l.most (e.now ∷ [])) result }
{
    let Node::Normal(head, elements) = e.node() else {
        return Ok(None);
    };
    match front(alloc, elements.as_slice())? {
        Some(made) => call(alloc, head.copy(alloc)?, made),
        None => Ok(None),
    }
}

/// `Most`.
pub fn row_most(alloc: Global, items: &Exprs) -> Result<Option<Expr>, Fault>
    ensures { Works (l.most items.now) result }
{
    match items.as_slice() {
        [e] => without_last(alloc, e),
        _ => Ok(None),
    }
}

/// The place, from 1, that a number names among so many. A number below 0 counts from the end.
#[tactic(auto, using(crate::proofs::Spans::place_steps))]
fn place_of(count: usize, number: i128) -> Option<usize>
    ensures value { result ≡ l.place_of count number }
    ensures within { IfSome result (λ p. (1 ≤ p) × (p ≤ count)) }
{
    let distance = number.unsigned_abs();
    if distance > count as u128 {
        return None;
    }
    let distance = distance as usize;
    if distance == 0 {
        return None;
    }
    if number > 0 {
        Some(distance)
    } else {
        Some(count - (distance - 1))
    }
}

/// How many elements stand before the span between two places, and how many in it.
#[tactic(auto, using(crate::proofs::Spans::between_steps))]
fn between(count: usize, first: i128, last: i128) -> Option<(usize, usize)>
    ensures value { result ≡ l.between (l.place_of count first) (l.place_of count last) }
    ensures within { IfSome result (λ s. s.0 + s.1 ≤ count) }
{
    let first = place_of(count, first)?;
    let last = place_of(count, last)?;
    Some((first - 1, last.saturating_sub(first - 1)))
}

/// The span that a List of two places asks for.
#[tactic(auto, using(crate::proofs::Spans::list_steps))]
fn list_span(names: &Vocabulary, count: usize, e: &Expr) -> Option<(usize, usize)>
    ensures value { result ≡ list_span (names_in names.now) count e.now }
    ensures within { IfSome result (λ s. s.0 + s.1 ≤ count) }
{
    match items_under(names, Builtin::List, e)?.as_slice() {
        [first, last] => match (first.node(), last.node()) {
            (Node::Int(first), Node::Int(last)) => between(count, *first, *last),
            _ => None,
        },
        _ => None,
    }
}

/// The first elements, or for a number below 0 the last.
#[tactic(auto, using(crate::proofs::Spans::end_steps))]
fn end_span(count: usize, number: i128) -> Option<(usize, usize)>
    ensures value { result ≡ end_span count number }
    ensures within { IfSome result (λ s. s.0 + s.1 ≤ count) }
{
    let asked = number.unsigned_abs();
    if asked > count as u128 {
        return None;
    }
    let asked = asked as usize;
    if number < 0 {
        Some((count - asked, asked))
    } else {
        Some((0, asked))
    }
}

/// The span of so many elements that is asked for.
#[tactic(auto, using(crate::proofs::Spans::span_steps))]
fn span(names: &Vocabulary, count: usize, e: &Expr) -> Option<(usize, usize)>
    ensures value { result ≡ l.span (names_in names.now) count e.now }
    ensures within { IfSome result (λ s. s.0 + s.1 ≤ count) }
{
    match e.node() {
        Node::Int(number) => end_span(count, *number),
        _ => list_span(names, count, e),
    }
}

/// The elements of the span that is asked for.
#[tactic(auto, using(crate::proofs::Spans::inside_steps))]
fn inside(
    alloc: Global,
    names: &Vocabulary,
    items: &[Expr],
    asked: &Expr,
) -> Result<Option<Exprs>, AllocError>
    ensures { IfOk result (λ o. o ≡ inside (names_in names.now) items.now asked.now) }
{
    match span(names, items.len(), asked) {
        Some((before, count)) => Ok(Some(copies(alloc, &items[before..][..count])?)),
        None => Ok(None),
    }
}

/// The elements before and behind the span that is asked for.
#[tactic(auto, using(crate::proofs::Spans::outside_steps))]
fn outside(
    alloc: Global,
    names: &Vocabulary,
    items: &[Expr],
    asked: &Expr,
) -> Result<Option<Exprs>, AllocError>
    ensures { IfOk result (λ o. o ≡ outside (names_in names.now) items.now asked.now) }
{
    match span(names, items.len(), asked) {
        Some((before, count)) => {
            let mut made = copies(alloc, &items[..before])?;
            put_behind(alloc, &mut made, &items[before + count..])?;
            Ok(Some(made))
        }
        None => Ok(None),
    }
}

#[tactic(auto, using(crate::proofs::Spans::taken_steps))]
fn taken(alloc: Global, names: &Vocabulary, e: &Expr, asked: &Expr) -> Result<Option<Expr>, Fault>
    ensures { Works (l.taken (names_in names.now) (e.now ∷ asked.now ∷ [])) result }
{
    let Node::Normal(head, elements) = e.node() else {
        return Ok(None);
    };
    match inside(alloc, names, elements.as_slice(), asked)? {
        Some(made) => call(alloc, head.copy(alloc)?, made),
        None => Ok(None),
    }
}

/// `Take`.
pub fn row_take(alloc: Global, names: &Vocabulary, items: &Exprs) -> Result<Option<Expr>, Fault>
    ensures { Works (l.taken (names_in names.now) items.now) result }
{
    match items.as_slice() {
        [e, asked] => taken(alloc, names, e, asked),
        _ => Ok(None),
    }
}

#[tactic(auto, using(crate::proofs::Spans::dropped_steps))]
fn dropped(alloc: Global, names: &Vocabulary, e: &Expr, asked: &Expr) -> Result<Option<Expr>, Fault>
    ensures { Works (l.dropped (names_in names.now) (e.now ∷ asked.now ∷ [])) result }
{
    let Node::Normal(head, elements) = e.node() else {
        return Ok(None);
    };
    match outside(alloc, names, elements.as_slice(), asked)? {
        Some(made) => call(alloc, head.copy(alloc)?, made),
        None => Ok(None),
    }
}

/// `Drop`.
pub fn row_drop(alloc: Global, names: &Vocabulary, items: &Exprs) -> Result<Option<Expr>, Fault>
    ensures { Works (l.dropped (names_in names.now) items.now) result }
{
    match items.as_slice() {
        [e, asked] => dropped(alloc, names, e, asked),
        _ => Ok(None),
    }
}

//! The option that may stand last in a form.
ghost use Rattle.std.specs.Prelude.{◌≡◌, None, IfOk};
ghost use Rattle.semantics.specs.Sections as s;
ghost use Rattle.builtin_names.specs.Named.{names_in};
ghost use Rattle.machine_outward.specs.LoopShapes.{IsSplit};
ghost use Rattle.machine_outward.specs.Options.{IsOptionIn, IsPair};

use builtin_names::{Vocabulary, is_name};
use expr_lists::copies;
use expr_tree::{Expr, Exprs, Node};
use semantics::Builtin;
use std::alloc::{AllocError, Global};

/// `Method -> value`: the head, the name, and the right side.
#[derive(Drop)]
pub struct MethodOption {
    pub head: Expr,
    pub name: Expr,
    pub value: Expr,
}

/// The head and the two elements of an expression.
#[derive(Clone, Copy)]
pub(crate) struct Pair<'a> {
    pub head: &'a Expr,
    pub first: &'a Expr,
    pub second: &'a Expr,
}

/// The expression as one with two elements.
fn pair_of(e: &Expr) -> Option<Pair<'_>>
    ensures { IsPair e.now result }
{
    let Node::Normal(head, items) = e.node() else {
        return None;
    };
    let items = items.as_slice();
    if items.len() != 2 {
        return None;
    }
    Some(Pair {
        head,
        first: &items[0],
        second: &items[1],
    })
}

/// Whether an element is the option.
pub(crate) fn is_option(names: &Vocabulary, e: &Expr) -> bool
    ensures { result ≡ s.is_option (names_in names.now) e.now }
{
    match pair_of(e) {
        Some(pair) => {
            is_name(names, Builtin::Rule, pair.head) && is_name(names, Builtin::Method, pair.first)
        }
        None => false,
    }
}

/// The elements without the option.
#[tactic(auto, using(crate::proofs::MethodOptions::without_steps))]
pub(crate) fn without_option<'a>(names: &Vocabulary, items: &'a [Expr]) -> &'a [Expr]
    ensures { result.now ≡ s.without_option (names_in names.now) items.now }
{
    match items {
        [before @ .., last] => {
            if is_option(names, last) {
                before
            } else {
                items
            }
        }
        [] => items,
    }
}

/// Whether an element is the option, where nothing stands behind it.
pub(crate) fn is_last_option(names: &Vocabulary, e: &Expr, behind: &[Expr]) -> bool
    ensures { result ≡ s.is_last_option (names_in names.now) e.now behind.now }
{
    behind.is_empty() && is_option(names, e)
}

/// Elements before the option, and the option, if one stands last.
#[derive(Drop)]
pub(crate) struct Split {
    pub before: Exprs,
    pub option: Option<MethodOption>,
}

/// The parts of an option.
fn option_in(alloc: Global, e: &Expr) -> Result<Option<MethodOption>, AllocError>
    ensures { IfOk result (λ o. IsOptionIn e.now o) }
{
    let Some(pair) = pair_of(e) else {
        return Ok(None);
    };
    Ok(Some(MethodOption {
        head: pair.head.copy(alloc)?,
        name: pair.first.copy(alloc)?,
        value: pair.second.copy(alloc)?,
    }))
}

/// Splits the option off.
pub(crate) fn split_option(
    alloc: Global,
    names: &Vocabulary,
    items: &[Expr],
) -> Result<Split, AllocError>
    ensures { IfOk result (λ s. IsSplit (names_in names.now) items.now s) }
{
    match items {
        [before @ .., last] => {
            if !is_option(names, last) {
                return unsplit(alloc, items);
            }
            let option = option_in(alloc, last)?;
            Ok(Split {
                before: copies(alloc, before)?,
                option,
            })
        }
        [] => unsplit(alloc, items),
    }
}

fn unsplit(alloc: Global, items: &[Expr]) -> Result<Split, AllocError>
    ensures { IfOk result (λ s. (s.before ≡ items.now) × (s.option ≡ None)) }
{
    Ok(Split {
        before: copies(alloc, items)?,
        option: None,
    })
}

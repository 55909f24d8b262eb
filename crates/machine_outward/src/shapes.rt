//! The shapes of forms.
ghost use Rattle.std.specs.Prelude.{◌≡◌};
ghost use Rattle.expr_tree.specs.Tree.{trees};
ghost use Rattle.semantics.specs.Sections as s;
ghost use Rattle.builtin_names.specs.Named.{names_in};
ghost use Rattle.machine_outward.specs.Shapes as shapes;

use crate::options::{is_last_option, is_option, without_option};
use builtin_names::{Vocabulary, is_call, is_name, items_under};
use expr_tree::{Expr, Node};
use semantics::Builtin;

/// Whether elements are a function and a list, or these and the option.
#[tactic(auto, using(expr_tree::proofs::Callers::tree_steps))]
pub(crate) fn is_mapping(names: &Vocabulary, items: &[Expr]) -> bool
    ensures { result ≡ shapes.is_mapping (names_in names.now) items.now }
{
    match items {
        [_, list] => !is_option(names, list),
        [_, _, option] => is_option(names, option),
        _ => false,
    }
}

/// Whether elements are a function, a normal expression, and no more than a head and the option.
#[tactic(auto, using(expr_tree::proofs::Callers::tree_steps))]
pub(crate) fn is_combining(names: &Vocabulary, items: &[Expr]) -> bool
    ensures { result ≡ shapes.is_combining (names_in names.now) items.now }
{
    match items {
        [_, list, rest @ ..] => {
            is_normal(list)
                && without_option(names, rest).len() <= 1
                && !is_last_option(names, list, rest)
        }
        _ => false,
    }
}

/// Whether elements are a function and a List.
#[tactic(auto, using(expr_tree::proofs::Callers::tree_steps))]
pub(crate) fn is_trying(names: &Vocabulary, items: &[Expr]) -> bool
    ensures { result ≡ shapes.is_trying (names_in names.now) items.now }
{
    match items {
        [_, list] => is_call(names, Builtin::List, list),
        _ => false,
    }
}

/// Whether there is one element.
#[tactic(auto, using(expr_tree::proofs::Callers::tree_steps))]
pub(crate) fn is_alone(items: &[Expr]) -> bool
    ensures { result ≡ shapes.is_alone items.now }
{
    items.len() == 1
}

fn is_normal(e: &Expr) -> bool
    ensures { result ≡ shapes.is_normal e.now }
{
    match e.node() {
        Node::Normal(_, _) => true,
        _ => false,
    }
}

/// Whether elements are symbols.
#[tactic(auto, using(expr_tree::proofs::Callers::tree_steps, crate::proofs::Shaping::symbol_steps))]
pub(crate) fn are_symbols(items: &[Expr]) -> bool
    ensures { result ≡ s.are_symbols items.now }
{
    for item in items {
        match item.node() {
            Node::Symbol(_) => {}
            _ => return false,
        }
    }
    true
}

/// Whether elements are an expression, or a List of symbols and an expression.
#[tactic(auto, using(expr_tree::proofs::Callers::tree_steps))]
pub(crate) fn is_submission(names: &Vocabulary, items: &[Expr]) -> bool
    ensures { result ≡ s.is_submission (names_in names.now) items.now }
{
    match items {
        [_] => true,
        [symbols, _] => match items_under(names, Builtin::List, symbols) {
            Some(symbols) => are_symbols(symbols.as_slice()),
            None => false,
        },
        _ => false,
    }
}

fn is_object(names: &Vocabulary, head: &Expr, items: &[Expr]) -> bool
    ensures { result ≡ s.is_object (names_in names.now) head.now (trees items.now) }
{
    match items {
        [number] => match number.node() {
            Node::Int(_) => is_name(names, Builtin::EvaluationObject, head),
            _ => false,
        },
        _ => false,
    }
}

/// Whether an object stands in an expression.
#[cycle(objects)]
#[tactic(auto, using(expr_tree::proofs::Callers::tree_steps))]
pub(crate) fn has_object(names: &Vocabulary, e: &Expr) -> bool
    ensures { result ≡ s.has_object (names_in names.now) e.now }
{
    match e.node() {
        Node::Int(_) => false,
        Node::Str(_) => false,
        Node::Symbol(_) => false,
        Node::Normal(head, items) => {
            is_object(names, head, items.as_slice())
                || has_object(names, head)
                || any_object(names, items.as_slice())
        }
    }
}

#[cycle(objects)]
#[tactic(auto, using(expr_tree::proofs::Callers::tree_steps))]
fn any_object(names: &Vocabulary, items: &[Expr]) -> bool
    ensures { result ≡ s.any_object (names_in names.now) (trees items.now) }
{
    for item in items {
        if has_object(names, item) {
            return true;
        }
    }
    false
}

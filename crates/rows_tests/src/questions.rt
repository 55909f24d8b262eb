//! Tests of one element.
ghost use Rattle.std.specs.Prelude.{◌≡◌};
ghost use Rattle.semantics.specs.Lists.{in_order};
ghost use Rattle.semantics.specs.Names.{is_name, is_call};
ghost use Rattle.semantics.specs.Table.{ordered_q};
ghost use Rattle.semantics.specs.Tests as t;
ghost use Rattle.semantics.specs.declared.builtin.Builtin.{Builtin};
ghost use Rattle.builtin_names.specs.Named.{names_in};
ghost use Rattle.builtin_names.specs.Results.{Works};

use builtin_names::{Fault, Vocabulary, is_call, is_name, truth};
use canon_order::compare;
use expr_tree::{Expr, Exprs, Node};
use semantics::Builtin;

/// `AtomQ`.
pub fn row_atom_q(names: &Vocabulary, items: &Exprs) -> Result<Option<Expr>, Fault>
    ensures { Works (t.asked_of_one (names_in names.now) t.is_atom items.now) result }
{
    let [e] = items.as_slice() else {
        return Ok(None);
    };
    match e.node() {
        Node::Normal(_, _) => Ok(Some(truth(names, false))),
        _ => Ok(Some(truth(names, true))),
    }
}

/// `IntegerQ`.
pub fn row_integer_q(names: &Vocabulary, items: &Exprs) -> Result<Option<Expr>, Fault>
    ensures { Works (t.asked_of_one (names_in names.now) t.is_int items.now) result }
{
    let [e] = items.as_slice() else {
        return Ok(None);
    };
    match e.node() {
        Node::Int(_) => Ok(Some(truth(names, true))),
        _ => Ok(Some(truth(names, false))),
    }
}

/// `StringQ`.
pub fn row_string_q(names: &Vocabulary, items: &Exprs) -> Result<Option<Expr>, Fault>
    ensures { Works (t.asked_of_one (names_in names.now) t.is_str items.now) result }
{
    let [e] = items.as_slice() else {
        return Ok(None);
    };
    match e.node() {
        Node::Str(_) => Ok(Some(truth(names, true))),
        _ => Ok(Some(truth(names, false))),
    }
}

/// `ListQ`.
pub fn row_list_q(names: &Vocabulary, items: &Exprs) -> Result<Option<Expr>, Fault>
    ensures { Works (t.asked_of_one (names_in names.now) (is_call (names_in names.now) Builtin.List) items.now) result }
{
    match items.as_slice() {
        [e] => Ok(Some(truth(names, is_call(names, Builtin::List, e)))),
        _ => Ok(None),
    }
}

/// `TrueQ`.
pub fn row_true_q(names: &Vocabulary, items: &Exprs) -> Result<Option<Expr>, Fault>
    ensures { Works (t.asked_of_one (names_in names.now) (is_name (names_in names.now) Builtin.True) items.now) result }
{
    match items.as_slice() {
        [e] => Ok(Some(truth(names, is_name(names, Builtin::True, e)))),
        _ => Ok(None),
    }
}

/// `Not`.
pub fn row_not(names: &Vocabulary, items: &Exprs) -> Result<Option<Expr>, Fault>
    ensures { Works (t.negated (names_in names.now) items.now) result }
{
    let [e] = items.as_slice() else {
        return Ok(None);
    };
    if is_name(names, Builtin::True, e) {
        return Ok(Some(truth(names, false)));
    }
    if is_name(names, Builtin::False, e) {
        return Ok(Some(truth(names, true)));
    }
    Ok(None)
}

/// Whether no element comes before the one in front of it.
#[tactic(auto, using(crate::proofs::Neighbours::order_steps))]
fn in_order(items: &[Expr]) -> bool
    ensures { result ≡ in_order items.now }
{
    let pairs = items.len().saturating_sub(1);
    for i in 0..pairs {
        if compare(&items[i], &items[i + 1]).is_gt() {
            return false;
        }
    }
    true
}

/// `OrderedQ`.
#[tactic(auto, using(expr_tree::proofs::Callers::tree_steps))]
pub fn row_ordered_q(names: &Vocabulary, items: &Exprs) -> Result<Option<Expr>, Fault>
    ensures { Works (ordered_q (names_in names.now) items.now) result }
{
    let [e] = items.as_slice() else {
        return Ok(None);
    };
    match e.node() {
        Node::Normal(_, elements) => Ok(Some(truth(names, in_order(elements.as_slice())))),
        _ => Ok(None),
    }
}

//! Whether the steps that ask nothing leave the elements of a call as they are. It takes no memory to tell.
ghost use Rattle.std.specs.Prelude.{◌≡◌, ◌∷◌, [], true, false};
ghost use Rattle.expr_tree.specs.Tree.{Tree, normal, nil};
ghost use Rattle.semantics.specs.Assemble as a;
ghost use Rattle.semantics.specs.Pass.{left_standing};
ghost use Rattle.semantics.specs.Steps.{is_call_of, flatten, flatten_item, ordered, splice};
ghost use Rattle.builtin_names.specs.Attributes.{attributes_in};
ghost use Rattle.builtin_names.specs.Named.{names_in};
ghost use Rattle.eval_seq.specs.Sequence.{stripped, values_in, IsSettled};

use crate::values::Values;
use attr_steps::has_wrapper;
use builtin_names::{Vocabulary, is_call};
use canon_order::compare;
use expr_tree::{Attrs, Expr, Node, Sym};
use semantics::Builtin;

fn has_sequence(names: &Vocabulary, items: &[Expr]) -> bool
    ensures { result ≡ false → splice (names_in names.now) items.now ≡ items.now }
{
    for item in items {
        if is_call(names, Builtin::Sequence, item) {
            return true;
        }
    }
    false
}

/// Whether splicing leaves the elements as they are.
#[tactic(auto, using(builtin_names::proofs::Flags::flag_steps))]
fn is_spliced(names: &Vocabulary, attrs: &Attrs, items: &[Expr]) -> bool
    ensures { result ≡ true → a.spliced (names_in names.now) (attributes_in attrs.now) items.now ≡ items.now }
{
    if attrs.sequence_hold || attrs.hold_all_complete {
        return true;
    }
    !has_sequence(names, items)
}

/// Whether stripping leaves the elements as they are, so that the call stands where nothing gives a result.
#[tactic(auto, using(builtin_names::proofs::Flags::flag_steps, attr_steps::proofs::Wrappers::none_stripped))]
fn is_stripped(names: &Vocabulary, attrs: &Attrs, items: &[Expr]) -> bool
    ensures value { result ≡ true → stripped (names_in names.now) (attributes_in attrs.now) items.now ≡ items.now }
    ensures stands { (head whole : Tree) → result ≡ true → left_standing (names_in names.now) (attributes_in attrs.now) head items.now whole ≡ whole }
{
    if attrs.hold_all_complete {
        return true;
    }
    !has_wrapper(names, items)
}

fn is_call_of(head: Sym, item: &Expr) -> bool
    ensures { result ≡ is_call_of head item.now }
{
    match item.node() {
        Node::Normal(inner, _) => match inner.node() {
            Node::Symbol(symbol) => head == *symbol,
            _ => false,
        },
        _ => false,
    }
}

fn has_call_of(head: Sym, items: &[Expr]) -> bool
    ensures { result ≡ false → flatten head items.now ≡ items.now }
{
    for item in items {
        if is_call_of(head, item) {
            return true;
        }
    }
    false
}

/// Whether flattening leaves the elements as they are.
#[tactic(auto, using(builtin_names::proofs::Flags::flag_steps))]
fn is_flattened(head: &Expr, attrs: &Attrs, items: &[Expr]) -> bool
    ensures { result ≡ true → a.flattened head.now (attributes_in attrs.now) items.now ≡ items.now }
{
    match head.node() {
        Node::Symbol(symbol) if attrs.flat => !has_call_of(*symbol, items),
        _ => true,
    }
}

fn is_in_order(items: &[Expr]) -> bool
    ensures { result ≡ true → ordered items.now ≡ items.now }
{
    for i in 1..items.len() {
        if compare(&items[i], &items[i - 1]).is_lt() {
            return false;
        }
    }
    true
}

/// Whether sorting leaves the elements as they are.
#[tactic(auto, using(builtin_names::proofs::Flags::flag_steps))]
fn is_sorted(attrs: &Attrs, items: &[Expr]) -> bool
    ensures { result ≡ true → a.sorted (attributes_in attrs.now) items.now ≡ items.now }
{
    if attrs.orderless {
        return is_in_order(items);
    }
    true
}

/// Whether head and elements are as they were, and no step that asks nothing changes them, threading aside.
pub(crate) fn is_settled(names: &Vocabulary, values: &Values, head: &Expr, items: &[Expr]) -> bool
    ensures same { result ≡ true → values_in head.now items.now values.now ≡ (head.now, attributes_in values.now.attrs, items.now) }
    ensures settled { result ≡ true → IsSettled (names_in names.now) head.now (attributes_in values.now.attrs) items.now }
{
    values.are_same()
        && is_spliced(names, &values.attrs, items)
        && is_stripped(names, &values.attrs, items)
        && is_flattened(head, &values.attrs, items)
        && is_sorted(&values.attrs, items)
}

//! Slots, and what stands in their places.
ghost use Rattle.std.specs.Prelude.{◌≡◌, ◌||◌};
ghost use Rattle.std.specs.Option.{option_map};
ghost use Rattle.expr_tree.specs.Limits.{Makes};
ghost use Rattle.expr_tree.specs.Tree.{trees};
ghost use Rattle.semantics.specs.InPlace as i;
ghost use Rattle.builtin_names.specs.Named.{names_in};
ghost use Rattle.function_calls.specs.Runs.{with_run};

use builtin_names::{Vocabulary, is_call, is_name, items_of, make};
use expr_lists::copies;
use expr_tree::{Built, Expr, Node};
use semantics::Builtin;
use std::alloc::Global;

/// The place, from 0, that a slot or a sequence of slots names.
pub(crate) fn slot_of(names: &Vocabulary, e: &Expr) -> Option<u128>
    ensures { result ≡ i.slot_of (names_in names.now) e.now }
{
    if is_call(names, Builtin::Slot, e) || is_call(names, Builtin::SlotSequence, e) {
        return slot_number(items_of(e));
    }
    None
}

/// Whether this head and these elements make a Function of one element, which has slots of its own.
#[tactic(auto, using(crate::proofs::Filling::function_steps))]
pub(crate) fn is_pure_function(names: &Vocabulary, head: &Expr, items: &[Expr]) -> bool
    ensures { result ≡ i.is_pure_function (names_in names.now) head.now (trees items.now) }
{
    if items.len() != 1 {
        return false;
    }
    is_name(names, Builtin::Function, head)
}

/// The place, from 0, that the number of a slot names.
#[tactic(auto, using(crate::proofs::Filling::number_steps))]
fn slot_number(items: &[Expr]) -> Option<u128>
    ensures { result ≡ i.slot_number items.now }
{
    let [item] = items else {
        return None;
    };
    match item.node() {
        Node::Int(number) if *number > 0 => Some(*number as u128 - 1),
        _ => None,
    }
}

/// The arguments that stand for a slot of this place, where it has any.
#[tactic(auto, using(crate::proofs::Filling::run_steps))]
pub(crate) fn run_for<'a>(
    names: &Vocabulary,
    args: &'a [Expr],
    e: &Expr,
    place: u128,
) -> Option<&'a [Expr]>
    ensures { with_run (names_in names.now) e.now (option_map (λ run. run.now) result) ≡ i.filled (names_in names.now) args.now e.now place }
{
    if place >= args.len() as u128 {
        return None;
    }
    let place = place as usize;
    if is_call(names, Builtin::Slot, e) {
        Some(&args[place..place + 1])
    } else {
        Some(&args[place..])
    }
}

/// A run as one expression.
pub(crate) fn as_one(alloc: Global, names: &Vocabulary, run: &[Expr]) -> Result<Expr, Built>
    ensures { Makes (i.as_one (names_in names.now) run.now) result }
{
    match run {
        [only] => Ok(only.copy(alloc)?),
        _ => make(alloc, names, Builtin::Sequence, copies(alloc, run)?),
    }
}

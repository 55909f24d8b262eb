//! Part.
ghost use Rattle.std.specs.Prelude.{◌≡◌, ◌≤◌, length, drop, is_some};
ghost use Rattle.expr_tree.specs.Tree.{call, depth};
ghost use Rattle.semantics.specs.Lists as l;
ghost use Rattle.builtin_names.specs.Named.{names_in};
ghost use Rattle.builtin_names.specs.Results.{Works};
ghost use Rattle.rows_parts.specs.Finds.{Finds, FindsAll, MakesShallow, at_index, picked};

use crate::places::part_at;
use builtin_names::{Fault, Vocabulary, is_name};
use expr_tree::{Built, Expr, Exprs, MAX_SIZE, Node};
use item_list::Items;
use semantics::Builtin;
use std::alloc::Global;

/// The part at the indices from a place on.
#[cycle(pick)]
#[tactic(auto, using(crate::proofs::Picked::pick_steps))]
fn pick(
    alloc: Global,
    names: &Vocabulary,
    e: &Expr,
    indices: &[Expr],
    from: usize,
) -> Result<Option<Expr>, Built>
    requires within { from ≤ length indices.now }
    ensures { Finds (l.part_of (names_in names.now) (drop from indices.now) e.now) result }
{
    if from == indices.len() {
        return Ok(Some(e.copy(alloc)?));
    }
    match indices[from].node() {
        Node::Int(number) => match part_at(e, *number) {
            Some(part) => pick(alloc, names, part, indices, from + 1),
            None => Ok(None),
        },
        Node::Normal(head, numbers) => {
            if is_name(names, Builtin::List, head) {
                pick_all(alloc, names, e, numbers.as_slice(), indices, from + 1)
            } else {
                Ok(None)
            }
        }
        Node::Str(_) | Node::Symbol(_) => Ok(None),
    }
}

/// The expression of a head and parts that are not too deep.
fn headed(alloc: Global, head: &Expr, parts: Exprs) -> Result<Expr, Built>
    requires { depth (call head.now parts) ≤ 512 }
    ensures { MakesShallow (call head.now parts) result }
{
    match Expr::normal(alloc, head.copy(alloc)?, parts) {
        Ok(made) => Ok(made),
        Err(Built::TooLarge) => Err(Built::TooLarge),
        Err(Built::TooDeep(_)) => unreachable!(),
        Err(Built::NoMemory) => Err(Built::NoMemory),
    }
}

/// The expression with the parts at numbers for its elements, each of them looked at further.
#[cycle(pick)]
#[tactic(auto, using(crate::proofs::Picked::level_steps))]
fn pick_all(
    alloc: Global,
    names: &Vocabulary,
    e: &Expr,
    numbers: &[Expr],
    indices: &[Expr],
    from: usize,
) -> Result<Option<Expr>, Built>
    requires within { from ≤ length indices.now }
    ensures { Finds (l.with_head e.now (picked (l.part_of (names_in names.now) (drop from indices.now)) e.now numbers.now)) result }
{
    let Node::Normal(head, _) = e.node() else {
        return Ok(None);
    };
    let _shallow = e.depth();
    match pick_each(alloc, names, e, numbers, indices, from) {
        Ok(Some(parts)) => Ok(Some(headed(alloc, head, parts)?)),
        Ok(None) => Ok(None),
        Err(fault) => Err(fault),
    }
}

/// The parts at numbers, each of them looked at further.
#[cycle(pick)]
#[tactic(auto, using(crate::proofs::Picked::each_steps))]
fn pick_each(
    alloc: Global,
    names: &Vocabulary,
    e: &Expr,
    numbers: &[Expr],
    indices: &[Expr],
    from: usize,
) -> Result<Option<Exprs>, Built>
    requires within { from ≤ length indices.now }
    ensures { FindsAll (picked (l.part_of (names_in names.now) (drop from indices.now)) e.now numbers.now) result }
{
    let mut made = Items::new(alloc);
    let mut nodes = 0;
    for number in numbers {
        let part = match pick_at(alloc, names, e, number, indices, from) {
            Ok(Some(part)) => part,
            Ok(None) => return Ok(None),
            Err(fault) => return Err(fault),
        };
        nodes += part.size();
        if nodes > MAX_SIZE {
            return Err(Built::TooLarge);
        }
        made.push(part)?;
    }
    Ok(Some(made))
}

/// The part at one number, looked at further.
#[cycle(pick)]
#[tactic(auto, using(crate::proofs::Picked::at_steps))]
fn pick_at(
    alloc: Global,
    names: &Vocabulary,
    e: &Expr,
    number: &Expr,
    indices: &[Expr],
    from: usize,
) -> Result<Option<Expr>, Built>
    requires within { from ≤ length indices.now }
    ensures { Finds (at_index (l.part_of (names_in names.now) (drop from indices.now)) e.now number.now) result }
{
    let Node::Int(number) = number.node() else {
        return Ok(None);
    };
    match part_at(e, *number) {
        Some(part) => pick(alloc, names, part, indices, from),
        None => Ok(None),
    }
}

/// Whether there is a part at the indices from a place on.
#[cycle(there)]
#[tactic(auto, using(crate::proofs::Picked::there_steps))]
fn is_there(names: &Vocabulary, e: &Expr, indices: &[Expr], from: usize) -> bool
    requires within { from ≤ length indices.now }
    ensures { result ≡ is_some (l.part_of (names_in names.now) (drop from indices.now) e.now) }
{
    if from == indices.len() {
        return true;
    }
    match indices[from].node() {
        Node::Int(number) => match part_at(e, *number) {
            Some(part) => is_there(names, part, indices, from + 1),
            None => false,
        },
        Node::Normal(head, numbers) => {
            if is_name(names, Builtin::List, head) {
                are_there(names, e, numbers.as_slice(), indices, from + 1)
            } else {
                false
            }
        }
        Node::Str(_) | Node::Symbol(_) => false,
    }
}

/// Whether there are parts at numbers, and each can be looked at further.
#[cycle(there)]
#[tactic(auto, using(crate::proofs::Picked::are_steps))]
fn are_there(names: &Vocabulary, e: &Expr, numbers: &[Expr], indices: &[Expr], from: usize) -> bool
    requires within { from ≤ length indices.now }
    ensures { result ≡ is_some (l.with_head e.now (picked (l.part_of (names_in names.now) (drop from indices.now)) e.now numbers.now)) }
{
    let Node::Normal(_, _) = e.node() else {
        return false;
    };
    for number in numbers {
        let Node::Int(number) = number.node() else {
            return false;
        };
        let Some(part) = part_at(e, *number) else {
            return false;
        };
        if !is_there(names, part, indices, from) {
            return false;
        }
    }
    true
}

#[tactic(auto, using(crate::proofs::Picked::row_steps))]
fn found(
    alloc: Global,
    names: &Vocabulary,
    e: &Expr,
    indices: &[Expr],
) -> Result<Option<Expr>, Fault>
    ensures { Works (l.given (l.part_of (names_in names.now) indices.now e.now)) result }
{
    match pick(alloc, names, e, indices, 0) {
        Ok(part) => Ok(part),
        Err(Built::TooLarge) => {
            if is_there(names, e, indices, 0) {
                Err(Fault::TooLarge)
            } else {
                Ok(None)
            }
        }
        Err(Built::TooDeep(_)) => unreachable!(),
        Err(Built::NoMemory) => Err(Fault::NoMemory),
    }
}

/// `Part`.
pub fn row_part(alloc: Global, names: &Vocabulary, items: &Exprs) -> Result<Option<Expr>, Fault>
    ensures { Works (l.part (names_in names.now) items.now) result }
{
    let [e, _, ..] = items.as_slice() else {
        return Ok(None);
    };
    found(alloc, names, e, &items.as_slice()[1..])
}

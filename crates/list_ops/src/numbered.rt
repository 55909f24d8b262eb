//! The rows that make a List of so many elements.
ghost use Rattle.std.specs.Prelude.{◌≡◌, ◌+◌, ◌*◌, ◌<◌, ◌≤◌, IfOk, pos, map, min, replicate};
ghost use Rattle.expr_tree.specs.Tree.{size};
ghost use Rattle.semantics.specs.Control.{steps_to};
ghost use Rattle.semantics.specs.Lists as l;
ghost use Rattle.builtin_names.specs.Named.{names_in};
ghost use Rattle.builtin_names.specs.Results.{Works};
ghost use Rattle.list_ops.specs.Counted.{count_of};

use crate::answer::make;
use crate::applied::mapped_all;
use builtin_names::{Fault, Vocabulary};
use expr_tree::{Built, Expr, Exprs, MAX_SIZE, Node};
use item_list::Items;
use semantics::Builtin;
use std::alloc::{AllocError, Global};

/// The same expression so many times.
fn repeated(alloc: Global, e: &Expr, count: u64) -> Result<Exprs, AllocError>
    ensures { IfOk result (λ es. es ≡ replicate count e.now) }
{
    let mut made = Items::new(alloc);
    for _k in 0..count {
        made.push(e.copy(alloc)?)?;
    }
    Ok(made)
}

/// The numbers from 1 to a count.
#[tactic(auto, using(crate::proofs::Counted::count_push))]
fn counted(alloc: Global, count: u64) -> Result<Exprs, AllocError>
    ensures { IfOk result (λ es. es ≡ l.count_up (pos 1) (pos 1) count) }
{
    let mut made = Items::new(alloc);
    for k in 0..count {
        made.push(Expr::int(k as i128 + 1))?;
    }
    Ok(made)
}

/// How many elements a number asks for, and one more than an expression may have where it is more.
fn count_of(number: i128) -> u64
    ensures value { result ≡ count_of number }
    ensures within { result ≤ 4000001 }
{
    if number <= 0 {
        0
    } else if number > MAX_SIZE as i128 {
        MAX_SIZE + 1
    } else {
        number as u64
    }
}

/// `ConstantArray`.
#[tactic(auto, using(crate::proofs::Counted::repeated_steps))]
pub fn row_constant_array(
    alloc: Global,
    names: &Vocabulary,
    items: &Exprs,
) -> Result<Option<Expr>, Fault>
    ensures { Works (l.constant_array (names_in names.now) items.now) result }
{
    let [e, number] = items.as_slice() else {
        return Ok(None);
    };
    let Node::Int(number) = number.node() else {
        return Ok(None);
    };
    let count = count_of(*number);
    if count * e.size() >= MAX_SIZE {
        return Err(Fault::TooLarge);
    }
    make(alloc, names, Builtin::List, repeated(alloc, e, count)?)
}

/// `Array`.
#[tactic(auto, using(crate::proofs::Counted::array_steps))]
pub fn row_array(alloc: Global, names: &Vocabulary, items: &Exprs) -> Result<Option<Expr>, Fault>
    ensures { Works (l.array (names_in names.now) items.now) result }
{
    let [function, number] = items.as_slice() else {
        return Ok(None);
    };
    let Node::Int(number) = number.node() else {
        return Ok(None);
    };
    let count = count_of(*number);
    let nodes = 1 + count * (function.size() + 1);
    if nodes > MAX_SIZE {
        return Err(Fault::TooLarge);
    }
    let numbers = counted(alloc, count)?;
    match mapped_all(alloc, function, numbers.as_slice()) {
        Ok(made) => make(alloc, names, Builtin::List, made),
        Err(Built::TooDeep(_)) => Err(Fault::TooDeep(nodes)),
        Err(fault) => Err(fault.into()),
    }
}

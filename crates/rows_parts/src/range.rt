//! Range.
ghost use Rattle.std.specs.Prelude.{◌≡◌, [], ◌∷◌, IfOk, ltb};
ghost use Rattle.semantics.specs.Control.{steps_to};
ghost use Rattle.semantics.specs.Lists as l;
ghost use Rattle.semantics.specs.Names.{make};
ghost use Rattle.semantics.specs.Worked.{Gives};
ghost use Rattle.builtin_names.specs.Named.{names_in};
ghost use Rattle.builtin_names.specs.Results.{Works};
ghost use Rattle.semantics.specs.declared.builtin.Builtin.{Builtin};

use builtin_names::{Fault, Vocabulary, make};
use expr_tree::{Expr, Exprs, MAX_SIZE, Node};
use int_ops::Progression;
use item_list::Items;
use semantics::Builtin;
use std::alloc::{AllocError, Global};

/// Whether a List has room for all the numbers. They are walked once, so that no memory is taken for too many of them.
#[tactic(auto, using(crate::proofs::Ranges::few_steps))]
fn are_few(from: i128, to: i128, by: i128) -> bool
    ensures { result ≡ ltb (steps_to from to by) 4000000 }
{
    let mut numbers = Progression::new(from, to, by);
    for _k in 0..MAX_SIZE {
        let Some(_) = numbers.next() else {
            return true;
        };
    }
    false
}

/// The numbers in order.
#[tactic(auto, using(crate::proofs::Ranges::number_steps))]
fn numbered(alloc: Global, from: i128, to: i128, by: i128) -> Result<Exprs, AllocError>
    ensures { IfOk result (λ es. es ≡ l.count_up from by (steps_to from to by)) }
{
    let mut numbers = Progression::new(from, to, by);
    let mut made = Items::new(alloc);
    loop {
        match numbers.next() {
            Some(number) => made.push(Expr::int(number))?,
            None => return Ok(made),
        }
    }
}

#[tactic(auto, using(expr_tree::proofs::Callers::tree_steps))]
fn ranged(
    alloc: Global,
    names: &Vocabulary,
    from: i128,
    to: i128,
    by: i128,
) -> Result<Option<Expr>, Fault>
    ensures { Works (Gives (make (names_in names.now) Builtin.List (l.count_up from by (steps_to from to by)))) result }
{
    if are_few(from, to, by) {
        let numbers = numbered(alloc, from, to, by)?;
        Ok(Some(make(alloc, names, Builtin::List, numbers)?))
    } else {
        Err(Fault::TooLarge)
    }
}

fn to_end(alloc: Global, names: &Vocabulary, to: &Expr) -> Result<Option<Expr>, Fault>
    ensures { Works (l.range (names_in names.now) (to.now ∷ [])) result }
{
    let Node::Int(to) = to.node() else {
        return Ok(None);
    };
    ranged(alloc, names, 1, *to, 1)
}

fn from_start(
    alloc: Global,
    names: &Vocabulary,
    from: &Expr,
    to: &Expr,
) -> Result<Option<Expr>, Fault>
    ensures { Works (l.range (names_in names.now) (from.now ∷ to.now ∷ [])) result }
{
    let Node::Int(from) = from.node() else {
        return Ok(None);
    };
    let Node::Int(to) = to.node() else {
        return Ok(None);
    };
    ranged(alloc, names, *from, *to, 1)
}

#[tactic(auto, using(crate::proofs::Ranges::step_steps))]
fn by_step(
    alloc: Global,
    names: &Vocabulary,
    from: &Expr,
    to: &Expr,
    by: &Expr,
) -> Result<Option<Expr>, Fault>
    ensures { Works (l.range (names_in names.now) (from.now ∷ to.now ∷ by.now ∷ [])) result }
{
    let Node::Int(from) = from.node() else {
        return Ok(None);
    };
    let Node::Int(to) = to.node() else {
        return Ok(None);
    };
    let Node::Int(by) = by.node() else {
        return Ok(None);
    };
    if *by == 0 {
        return Ok(None);
    }
    ranged(alloc, names, *from, *to, *by)
}

/// `Range`.
#[tactic(auto, using(crate::proofs::Ranges::row_steps))]
pub fn row_range(alloc: Global, names: &Vocabulary, items: &Exprs) -> Result<Option<Expr>, Fault>
    ensures { Works (l.range (names_in names.now) items.now) result }
{
    match items.as_slice() {
        [to] => to_end(alloc, names, to),
        [from, to] => from_start(alloc, names, from, to),
        [from, to, by] => by_step(alloc, names, from, to, by),
        _ => Ok(None),
    }
}

//! Partition.
ghost use Rattle.std.specs.Prelude.{◌≡◌, ◌<◌, [], ◌∷◌, map, min};
ghost use Rattle.expr_tree.specs.Limits.{MakesAll};
ghost use Rattle.expr_tree.specs.Tree.{call, integer, sizes, trees};
ghost use Rattle.semantics.specs.Lists as l;
ghost use Rattle.semantics.specs.Worked.{Gives};
ghost use Rattle.builtin_names.specs.Results.{Works};
ghost use Rattle.rows_parts.specs.Cut.{cut};

use crate::answer::under;
use builtin_names::Fault;
use expr_lists::{TOO_MANY, copies, nodes_of_all};
use expr_tree::{Built, Expr, Exprs, MAX_SIZE, Node};
use item_list::Items;
use std::alloc::Global;

/// Pieces of so many elements under a head. Elements that are left over at the end are dropped.
#[tactic(auto, using(crate::proofs::Cuts::cut_steps))]
fn pieces(alloc: Global, head: &Expr, items: &[Expr], length: usize) -> Result<Exprs, Built>
    requires { 0 < length }
    ensures { MakesAll (trees (map (call head.now) (cut length 0 items.now))) result }
{
    let mut made = Items::new(alloc);
    let mut place = 0;
    while items.len() - place >= length {
        let piece = copies(alloc, &items[place..place + length])?;
        made.push(Expr::normal(alloc, head.copy(alloc)?, piece)?)?;
        place += length;
    }
    Ok(made)
}

/// The size of the pieces, counted as far as one more than an expression may have.
#[tactic(auto, using(crate::proofs::Cuts::count_steps))]
fn nodes_of_pieces(head: &Expr, items: &[Expr], length: usize) -> u64
    requires { 0 < length }
    ensures { result ≡ min (sizes (trees (map (call head.now) (cut length 0 items.now)))) 4000001 }
{
    let mut total = 0;
    let mut place = 0;
    while items.len() - place >= length {
        let piece = head.size() + nodes_of_all(&items[place..place + length]);
        total = (total + piece).min(TOO_MANY);
        place += length;
    }
    total
}

/// The pieces under the same head.
fn cut_under(
    alloc: Global,
    head: &Expr,
    items: &[Expr],
    length: usize,
) -> Result<Option<Expr>, Fault>
    requires { 0 < length }
    ensures { Works (Gives (call head.now (map (call head.now) (cut length 0 items.now)))) result }
{
    match pieces(alloc, head, items, length) {
        Ok(made) => under(alloc, head, made),
        Err(Built::TooDeep(_)) => {
            let nodes = head.size() + nodes_of_pieces(head, items, length);
            if nodes > MAX_SIZE {
                Err(Fault::TooLarge)
            } else {
                Err(Fault::TooDeep(nodes))
            }
        }
        Err(fault) => Err(fault.into()),
    }
}

/// The elements under a head in pieces of so many.
#[tactic(auto, using(crate::proofs::Cuts::row_steps))]
fn parted(alloc: Global, head: &Expr, items: &[Expr], number: i128) -> Result<Option<Expr>, Fault>
    ensures { Works (l.partition (call head.now items.now ∷ integer number ∷ [])) result }
{
    if number <= 0 {
        return Ok(None);
    }
    if number > items.len() as i128 {
        return under(alloc, head, Items::new(alloc));
    }
    cut_under(alloc, head, items, number as usize)
}

/// `Partition`.
#[tactic(auto, using(crate::proofs::Cuts::other_steps))]
pub fn row_partition(alloc: Global, items: &Exprs) -> Result<Option<Expr>, Fault>
    ensures { Works (l.partition items.now) result }
{
    let [e, number] = items.as_slice() else {
        return Ok(None);
    };
    let Node::Normal(head, elements) = e.node() else {
        return Ok(None);
    };
    let Node::Int(number) = number.node() else {
        return Ok(None);
    };
    parted(alloc, head, elements.as_slice(), *number)
}

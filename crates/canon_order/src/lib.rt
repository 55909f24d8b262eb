//! The canonical order of expressions that `expr_tree` defines: comparing, sorting, and the law that the order is total. It stands on
//! `expr_tree`.
#![tactic(auto)]

ghost use Rattle.std.specs.Prelude.{◌≡◌, ◌↔◌, length, OnOk, OnErr};
ghost use Rattle.std.specs.List.Sorted.{IsPermutation, IsSortedBy};
ghost use Rattle.std.specs.Cmp.{IsTotalOrder};
ghost use Rattle.expr_tree.specs.Order.{tree_cmp, trees_cmp, comes_before};
ghost use Rattle.expr_tree.specs.Tree.{Tree, trees};
ghost use Rattle.std.specs.declared.cmp.Ordering.TheVariants.{Equal};

mod ordered;

use expr_tree::{Expr, Exprs, Node};
use item_list::Items;
pub use ordered::Ordered;
use std::alloc::{AllocError, Global};
use std::cmp::Ordering;
use std::mem;

/// The canonical order: integers by value, strings by bytes, symbols by base and number, then normal expressions by the number of
/// elements, by head, and by elements from the left.
#[cycle(order)]
#[tactic(auto, using(crate::proofs::Steps::order_steps))]
pub fn compare(a: &Expr, b: &Expr) -> Ordering
    ensures { result ≡ tree_cmp a.now b.now }
{
    match (a.node(), b.node()) {
        (Node::Int(x), Node::Int(y)) => x.cmp(y),
        (Node::Int(_), _) => Ordering::Less,
        (Node::Str(_), Node::Int(_)) => Ordering::Greater,
        (Node::Str(x), Node::Str(y)) => x.as_str().cmp(y.as_str()),
        (Node::Str(_), _) => Ordering::Less,
        (Node::Symbol(x), Node::Symbol(y)) => x.cmp(y),
        (Node::Symbol(_), Node::Normal(_, _)) => Ordering::Less,
        (Node::Symbol(_), _) => Ordering::Greater,
        (Node::Normal(f, xs), Node::Normal(g, ys)) => match xs.len().cmp(&ys.len()) {
            Ordering::Equal => match compare(f, g) {
                Ordering::Equal => compare_items(xs.as_slice(), ys.as_slice()),
                by_head => by_head,
            },
            by_count => by_count,
        },
        (Node::Normal(_, _), _) => Ordering::Greater,
    }
}

#[cycle(order)]
#[tactic(auto, using(crate::proofs::Steps::order_steps))]
fn compare_items(xs: &[Expr], ys: &[Expr]) -> Ordering
    requires { length xs.now ≡ length ys.now }
    ensures { result ≡ trees_cmp (trees xs.now) (trees ys.now) }
{
    for (i, x) in xs.iter().enumerate() {
        match compare(x, &ys[i]) {
            Ordering::Equal => {}
            by_item => return by_item,
        }
    }
    Ordering::Equal
}

/// The canonical order is total, and an expression stands beside itself alone.
pub fn order_is_total()
    ensures total { IsTotalOrder tree_cmp }
    ensures exact { (a b : Tree) → (tree_cmp a b ≡ Equal) ↔ (a ≡ b) }
{}

/// Puts the elements into the canonical order. An `Err` leaves them as they were.
pub fn put_in_order(alloc: Global, items: &mut Exprs) -> Result<(), AllocError>
    ensures sorted { OnOk result (IsSortedBy comes_before items.new) }
    ensures same { IsPermutation items.old items.new }
    ensures err { OnErr result (items.new ≡ items.old) }
{
    let mut sorting = mem::replace(items, Items::new(alloc)).into_vec();
    let done = sorting.sort_by(|a, b| compare(a, b));
    *items = Items::from_vec(sorting);
    done
}

#[cfg(test)]
mod tests {
    use super::*;
    use expr_tree::Sym;
    use std::test::Fail;

    #[test]
    fn elements_are_put_in_order(rt: HostRuntime) -> Result<(), Fail> {
        let mut items = Items::new(rt.alloc());
        items.push(Expr::symbol(Sym { base: 0, number: 0 }))?;
        items.push(Expr::int(1))?;
        put_in_order(rt.alloc(), &mut items)?;
        let Some(first) = items.get(0) else {
            return Err(Fail::from("no element"));
        };
        assert!(rt; first.equals(&Expr::int(1)));
        Ok(())
    }
}

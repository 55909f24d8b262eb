//! Parts by their numbers.
ghost use Rattle.std.specs.Prelude.{◌≡◌};
ghost use Rattle.std.specs.Option.{option_copied};
ghost use Rattle.expr_tree.specs.Tree.{call};
ghost use Rattle.semantics.specs.Lists as l;

use expr_tree::{Expr, Exprs, Node};

/// The head, which is at 0, or an element, from 1 or from -1 backwards.
#[tactic(auto, using(crate::proofs::Numbered::level_steps))]
fn at_number<'a>(head: &'a Expr, items: &'a Exprs, number: i128) -> Option<&'a Expr>
    ensures { option_copied result ≡ l.part_at (call head.now items.now) number }
{
    let distance = number.unsigned_abs();
    if distance == 0 {
        return Some(head);
    }
    if distance > items.len() as u128 {
        return None;
    }
    let distance = distance as usize;
    if number > 0 {
        Some(&items.as_slice()[distance - 1])
    } else {
        Some(&items.as_slice()[items.len() - distance])
    }
}

/// The part that a number names.
#[tactic(auto, using(expr_tree::proofs::Callers::tree_steps))]
pub(crate) fn part_at(e: &Expr, number: i128) -> Option<&Expr>
    ensures { option_copied result ≡ l.part_at e.now number }
{
    match e.node() {
        Node::Normal(head, items) => at_number(head, items, number),
        _ => None,
    }
}

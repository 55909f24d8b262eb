//! The parts of an expression.
ghost use Rattle.std.specs.Prelude.{◌≡◌, ◌++◌, OnOk, IfOk};
ghost use Rattle.expr_tree.specs.Tree.{trees};
ghost use Rattle.machine_rules.specs.Parts.{parts, parts_in};

use expr_tree::{Expr, Exprs, Node};
use item_list::Items;
use std::alloc::{AllocError, Global};

/// Adds an expression and its parts.
#[cycle(parts)]
#[tactic(auto, using(crate::proofs::PatternRows::part_steps))]
fn add_parts(alloc: Global, e: &Expr, found: &mut Exprs) -> Result<(), AllocError>
    ensures { OnOk result (found.new ≡ found.old ++ parts e.now) }
{
    found.push(e.copy(alloc)?)?;
    match e.node() {
        Node::Normal(head, items) => {
            add_parts(alloc, head, found)?;
            add_parts_in(alloc, items.as_slice(), found)
        }
        Node::Int(_) | Node::Str(_) | Node::Symbol(_) => Ok(()),
    }
}

#[cycle(parts)]
#[tactic(auto, using(crate::proofs::PatternRows::part_steps))]
fn add_parts_in(alloc: Global, items: &[Expr], found: &mut Exprs) -> Result<(), AllocError>
    ensures { OnOk result (found.new ≡ found.old ++ parts_in (trees items.now)) }
{
    for item in items {
        add_parts(alloc, item, found)?;
    }
    Ok(())
}

/// All the parts of an expression: it, those of its head, and those of its elements.
pub(crate) fn parts_of(alloc: Global, e: &Expr) -> Result<Exprs, AllocError>
    ensures { IfOk result (λ found. found ≡ parts e.now) }
{
    let mut found = Items::new(alloc);
    add_parts(alloc, e, &mut found)?;
    Ok(found)
}

//! The row that puts lists one after the other.
ghost use Rattle.std.specs.Prelude.{◌≡◌, IfOk};
ghost use Rattle.std.specs.Option.{option_map};
ghost use Rattle.semantics.specs.Lists as l;
ghost use Rattle.builtin_names.specs.Named.{names_in};
ghost use Rattle.builtin_names.specs.Results.{Works};
ghost use Rattle.list_ops.specs.Under.{under};

use crate::answer::{call, make, put_behind};
use builtin_names::{Fault, Vocabulary};
use expr_tree::{Expr, Exprs, Node};
use item_list::Items;
use semantics::Builtin;
use std::alloc::{AllocError, Global};

/// The elements of an expression with a head.
#[tactic(auto, using(expr_tree::proofs::Callers::tree_steps))]
fn elements_under<'a>(head: &Expr, e: &'a Expr) -> Option<&'a Exprs>
    ensures { option_map (λ items. items.now) result ≡ under head.now e.now }
{
    match e.node() {
        Node::Normal(other, elements) if head.equals(other) => Some(elements),
        _ => None,
    }
}

/// The elements of expressions with one head, one after the other.
#[tactic(auto, using(crate::proofs::Joined::joined_steps))]
fn joined(alloc: Global, head: &Expr, items: &[Expr]) -> Result<Option<Exprs>, AllocError>
    ensures { IfOk result (λ o. o ≡ l.joined head.now items.now) }
{
    let mut made = Items::new(alloc);
    for item in items {
        let Some(elements) = elements_under(head, item) else {
            return Ok(None);
        };
        put_behind(alloc, &mut made, elements.as_slice())?;
    }
    Ok(Some(made))
}

/// `Join`.
#[tactic(auto, using(crate::proofs::Joined::join_steps))]
pub fn row_join(alloc: Global, names: &Vocabulary, items: &Exprs) -> Result<Option<Expr>, Fault>
    ensures { Works (l.join (names_in names.now) items.now) result }
{
    let [first, ..] = items.as_slice() else {
        return make(alloc, names, Builtin::List, Items::new(alloc));
    };
    let Node::Normal(head, _) = first.node() else {
        return Ok(None);
    };
    match joined(alloc, head, items.as_slice())? {
        Some(made) => call(alloc, head.copy(alloc)?, made),
        None => Ok(None),
    }
}

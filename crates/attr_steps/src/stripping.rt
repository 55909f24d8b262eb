//! Stripping: the outermost `Unevaluated` of each element is taken off.
ghost use Rattle.std.specs.Prelude.{◌≡◌, IfOk};
ghost use Rattle.std.specs.Option.{option_map};
ghost use Rattle.semantics.specs.Steps.{unwrapped, strip, has_wrapper};
ghost use Rattle.builtin_names.specs.Named.{names_in};

use builtin_names::{Vocabulary, is_name};
use expr_tree::{Expr, Exprs, Node};
use item_list::Items;
use semantics::Builtin;
use std::alloc::{AllocError, Global};

#[tactic(auto, using(crate::proofs::Wrappers::wrapper_steps))]
fn unwrapped<'a>(names: &Vocabulary, e: &'a Expr) -> Option<&'a Expr>
    ensures { option_map (λ x. x.now) result ≡ unwrapped (names_in names.now) e.now }
{
    let Node::Normal(head, items) = e.node() else {
        return None;
    };
    match items.as_slice() {
        [inner] => {
            if is_name(names, Builtin::Unevaluated, head) {
                Some(inner)
            } else {
                None
            }
        }
        _ => None,
    }
}

/// Whether some element is `Unevaluated[x]`.
pub fn has_wrapper(names: &Vocabulary, items: &[Expr]) -> bool
    ensures { result ≡ has_wrapper (names_in names.now) items.now }
{
    for item in items {
        if unwrapped(names, item).is_some() {
            return true;
        }
    }
    false
}

/// The elements, with `x` in the place of each `Unevaluated[x]`.
#[tactic(auto, using(crate::proofs::Wrappers::none_stripped))]
pub fn strip(alloc: Global, names: &Vocabulary, items: Exprs) -> Result<Exprs, AllocError>
    ensures { IfOk result (λ r. r ≡ strip (names_in names.now) items) }
{
    if !has_wrapper(names, items.as_slice()) {
        return Ok(items);
    }
    let mut stripped = Items::new(alloc);
    for item in items.as_slice() {
        let inner = unwrapped(names, item).unwrap_or(item);
        stripped.push(inner.copy(alloc)?)?;
    }
    Ok(stripped)
}

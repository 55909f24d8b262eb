//! Putting in place: expressions with runs of expressions in the place of symbols, so that what an inner Module, With or Function
//! binds stays. The definition is that of `expr_tree`; the six names come from `builtin_names`.
#![tactic(auto)]

ghost use Rattle.expr_tree.specs.Limits.{Assembles};
ghost use Rattle.expr_tree.specs.Substitution.{put_in_place};

mod by_names;
mod count;
mod lookup;
mod place;
mod scope;
#[cfg(test)]
mod tests;

pub use by_names::{binders_of, subst};
use expr_tree::{Binders, Built, Expr, Exprs, MAX_SIZE, Sym};
use item_list::Items;
use std::alloc::Global;

/// Runs of expressions for symbols. The first run of a symbol counts.
pub type Bindings = Items<(Sym, Exprs)>;

/// The expression with the run of each bound symbol in its place: a run of one as its element, another in a `Sequence`. A symbol
/// is put into no inner `Module`, `With` or `Function` that binds it. Levels in which nothing is put are shared with `e`.
#[tactic(auto, using(crate::proofs::Scopes::scope_steps))]
pub fn subst_with(
    alloc: Global,
    binders: &Binders,
    bindings: &Bindings,
    e: &Expr,
) -> Result<Expr, Built>
    ensures { Assembles (put_in_place binders.now bindings.now e.now) result }
{
    let hidden = Items::new(alloc);
    match place::put(alloc, binders, bindings, &hidden, e) {
        Ok(None) => {
            let _within = (e.size(), e.depth());
            Ok(e.copy(alloc)?)
        }
        Ok(Some(made)) => {
            let _within = (made.size(), made.depth());
            Ok(made)
        }
        Err(Built::TooDeep(_)) => {
            let nodes = count::nodes_after(alloc, binders, bindings, &hidden, e)?;
            if nodes > MAX_SIZE {
                Err(Built::TooLarge)
            } else {
                Err(Built::TooDeep(nodes))
            }
        }
        Err(fault) => Err(fault),
    }
}

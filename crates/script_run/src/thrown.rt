//! What a throw that nothing caught shows.
ghost use Rattle.std.specs.Prelude.{◌≡◌, ◌∷◌, [], IfOk};
ghost use Rattle.semantics.specs.Ends as ends;
ghost use Rattle.semantics.specs.Names as n;
ghost use Rattle.builtin_names.specs.Named.{names_in};
ghost use Rattle.evaluation_steps.specs.Stopping.{AreBounded};

use builtin_names::{Vocabulary, name};
use expr_tree::{Expr, Limits};
use item_list::Items;
use made_exprs::Formed;
use semantics::Builtin;
use std::alloc::{AllocError, Global};

/// The call of a row with one element.
fn call_of(
    alloc: Global,
    names: &Vocabulary,
    row: Builtin,
    element: Formed,
) -> Result<Formed, AllocError>
    ensures { IfOk result (λ e. e ≡ n.make (names_in names.now) row (element ∷ [])) }
{
    let mut items = Items::new(alloc);
    items.push(element)?;
    Formed::call(alloc, Formed::of(name(names, row)), items)
}

/// `Hold[Throw[v]]`; `$Aborted` where that is beyond the limits.
pub(crate) fn shown_throw(
    alloc: Global,
    names: &Vocabulary,
    limits: &Limits,
    value: Expr,
) -> Result<Expr, AllocError>
    requires bounded { AreBounded limits.now }
    ensures { IfOk result (λ e. e ≡ ends.shown_throw (names_in names.now) limits.now value) }
{
    let thrown = call_of(alloc, names, Builtin::Throw, Formed::of(value))?;
    match call_of(alloc, names, Builtin::Hold, thrown)?.judged(limits) {
        Ok(held) => Ok(held),
        Err(_) => Ok(name(names, Builtin::Aborted)),
    }
}

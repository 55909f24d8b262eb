//! The questions of guards.
ghost use Rattle.std.specs.Prelude.{◌≡◌, ◌∷◌, [], IfOk};
ghost use Rattle.semantics.specs.Match.{guard_expression};
ghost use Rattle.evaluation_steps.specs.Stopping.{AreBounded, Checked};
ghost use Rattle.builtin_names.specs.Named.{names_in};
ghost use Rattle.match_seq.specs.Goals.{guard_of};

use builtin_names::Vocabulary;
use evaluation_steps::{Halt, checked};
use expr_tree::{Expr, Exprs, Limits};
use item_list::Items;
use made_exprs::placed;
use match_seq::Guard;
use std::alloc::{AllocError, Global};
use substitution::Bindings;

fn one(alloc: Global, e: Expr) -> Result<Exprs, AllocError>
    ensures { IfOk result (λ items. items ≡ e ∷ []) }
{
    let mut items = Items::new(alloc);
    items.push(e)?;
    Ok(items)
}

/// The expression of a guard, where it is within the limits.
pub(crate) fn question(
    alloc: Global,
    names: &Vocabulary,
    limits: &Limits,
    bindings: &Bindings,
    guard: &Guard,
) -> Result<Expr, Halt>
    requires bounded { AreBounded limits.now }
    ensures { Checked limits.now (guard_expression (names_in names.now) bindings.now (guard_of guard.now)) result }
{
    match guard {
        Guard::Test(test, asked) => {
            let head = test.copy(alloc)?;
            let items = one(alloc, asked.copy(alloc)?)?;
            checked(alloc, limits, head, items)
        }
        Guard::Cond(condition) => placed(alloc, names, limits, bindings, condition),
    }
}

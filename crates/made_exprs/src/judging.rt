//! Expressions that were made, judged by the limits of an evaluation.
ghost use Rattle.expr_tree.specs.Limits.{Assembles};
ghost use Rattle.expr_tree.specs.Tree.{Tree};
ghost use Rattle.semantics.specs.InPlace.{put_in_place};
ghost use Rattle.evaluation_steps.specs.Stopping.{AreBounded, Checked};
ghost use Rattle.builtin_names.specs.Named.{names_in};

use builtin_names::Vocabulary;
use evaluation_steps::{Halt, fits, stop_for};
use expr_tree::{Built, Expr, Limits};
use std::alloc::Global;
use substitution::{Bindings, subst};

/// An expression that was made, where it is within the limits.
pub fn judged(limits: &Limits, made: Result<Expr, Built>) -> Result<Expr, Halt>
    requires bounded { AreBounded limits.now }
    ensures { (t : Tree) → Assembles t made → Checked limits.now t result }
{
    match made {
        Ok(e) => match fits(limits, &e) {
            None => Ok(e),
            Some(stop) => Err(Halt::Stopped(stop)),
        },
        Err(built) => Err(stop_for(limits, built)),
    }
}

/// An expression with runs put in place, where it is within the limits.
pub fn placed(
    alloc: Global,
    names: &Vocabulary,
    limits: &Limits,
    bindings: &Bindings,
    e: &Expr,
) -> Result<Expr, Halt>
    requires bounded { AreBounded limits.now }
    ensures { Checked limits.now (put_in_place (names_in names.now) bindings.now e.now) result }
{
    judged(limits, subst(alloc, e, bindings, names))
}

//! Size and Depth of what is made.
ghost use Rattle.std.specs.Prelude.{◌≡◌, Err};
ghost use Rattle.expr_tree.specs.Tree.{Tree, call};
ghost use Rattle.expr_tree.specs.Limits.{Assembles};
ghost use Rattle.semantics.specs.Play.{too_large};
ghost use Rattle.evaluation_steps.specs.Stopping.{AreBounded, HaltsFor, Checked};

use crate::Halt;
use expr_tree::{Built, Expr, Exprs, Limits, Stop};
use std::alloc::Global;

/// Of Size and Depth the first that an expression passes.
pub fn fits(limits: &Limits, e: &Expr) -> Option<Stop>
    ensures { result ≡ too_large limits.now e.now }
{
    if limits.size < e.size() {
        return Some(Stop::Size);
    }
    if limits.depth < e.depth() {
        return Some(Stop::Depth);
    }
    None
}

/// Why an evaluation ends at an expression that was not made.
pub fn stop_for(limits: &Limits, built: Built) -> Halt
    requires bounded { AreBounded limits.now }
    ensures { (t : Tree) → Assembles t (Err built) → HaltsFor limits.now t result }
{
    match built {
        Built::TooLarge => Halt::Stopped(Stop::Size),
        Built::TooDeep(nodes) => {
            if limits.size < nodes {
                Halt::Stopped(Stop::Size)
            } else {
                Halt::Stopped(Stop::Depth)
            }
        }
        Built::NoMemory => Halt::NoMemory,
    }
}

/// The expression of a head and elements, where it is within the limits.
pub fn checked(alloc: Global, limits: &Limits, head: Expr, items: Exprs) -> Result<Expr, Halt>
    requires bounded { AreBounded limits.now }
    ensures { Checked limits.now (call head items) result }
{
    match Expr::normal(alloc, head, items) {
        Ok(e) => match fits(limits, &e) {
            None => Ok(e),
            Some(stop) => Err(Halt::Stopped(stop)),
        },
        Err(built) => Err(stop_for(limits, built)),
    }
}

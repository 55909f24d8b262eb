//! Machines of other crates as machines of this one.
ghost use Rattle.std.specs.Prelude.{Bool};
ghost use Rattle.semantics.specs.Names as n;
ghost use Rattle.semantics.specs.Play.{Setting};
ghost use Rattle.semantics.specs.Program.{Prog};
ghost use Rattle.machine_steps.specs.Steps.{Starts, StartsWhere};
ghost use Rattle.machine_changes.specs.ChangeLeft as change;
ghost use Rattle.machine_iterators.specs.IterationLeft as iteration;
ghost use Rattle.machine_outward.specs.OutwardLeft as outward;
ghost use Rattle.machine_rules.specs.RowLeft as rules;
ghost use Rattle.machine_rows.specs.Machines as f;

use crate::machine::Machine;
use machine_changes::Change;
use machine_iterators::Iteration;
use machine_outward::OutwardRow;
use machine_rules::RuleRow;
use std::alloc::AllocError;

/// A form with an iterator.
pub(crate) fn iteration_machine(
    started: Result<Option<Iteration>, AllocError>,
) -> Result<Option<Machine>, AllocError>
    ensures { (names : n.Names) (p : Prog → Prog) → Starts (iteration.left names) p started → Starts (f.left names) p result }
{
    match started {
        Ok(Some(form)) => Ok(Some(Machine::Iteration(form))),
        Ok(None) => Ok(None),
        Err(error) => Err(error),
    }
}

/// A row that changes definitions.
pub(crate) fn change_machine(
    started: Result<Option<Change>, AllocError>,
) -> Result<Option<Machine>, AllocError>
    ensures { (names : n.Names) (p : Prog → Prog) → Starts (change.left names) p started → Starts (f.left names) p result }
{
    match started {
        Ok(Some(row)) => Ok(Some(Machine::Change(row))),
        Ok(None) => Ok(None),
        Err(error) => Err(error),
    }
}

/// A row that tries a pattern or rules on expressions.
pub(crate) fn rule_machine(
    started: Result<Option<RuleRow>, AllocError>,
) -> Result<Option<Machine>, AllocError>
    ensures { (names : n.Names) (p : Prog → Prog) → Starts (rules.left names) p started → Starts (f.left names) p result }
{
    match started {
        Ok(Some(row)) => Ok(Some(Machine::RuleRow(row))),
        Ok(None) => Ok(None),
        Err(error) => Err(error),
    }
}

/// A row that throws, catches or is one of the mode table.
pub(crate) fn outward_machine(
    started: Result<Option<OutwardRow>, AllocError>,
) -> Result<Option<Machine>, AllocError>
    ensures { (set : Setting) (names : n.Names) (p : Prog → Prog) (is_open used used' : Bool) → StartsWhere set (outward.left names) p is_open used started used' → StartsWhere set (f.left names) p is_open used result used' }
{
    match started {
        Ok(Some(row)) => Ok(Some(Machine::Outward(row))),
        Ok(None) => Ok(None),
        Err(error) => Err(error),
    }
}

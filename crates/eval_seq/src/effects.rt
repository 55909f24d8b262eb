//! What the evaluator does besides computing.
ghost use Rattle.std.specs.Prelude.{◌≡◌, true, IfOk};
ghost use Rattle.expr_tree.specs.Tree.{call};
ghost use Rattle.laws_calls.specs.Calls.{may_come};
ghost use Rattle.builtin_names.specs.Named.{names_in};
ghost use Rattle.evaluation_steps.specs.Stopping.{AreBounded};
ghost use Rattle.evaluation_steps.specs.Words.{Called, Counted, Fits};
ghost use Rattle.machine_steps.specs.Outward.{call_of};
ghost use Rattle.machine_steps.specs.Setup.{state_of};
ghost use Rattle.eval_seq.specs.Outward.{opens_after, Guarded};

use crate::outward::Upcall;
use evaluation_steps::{Exit, Halt, fits};
use expr_tree::{Expr, Limits, Stop};
use machine_steps::{Answer, KernelState, Want};

/// Calls the outside.
pub(crate) fn outward<U: Upcall>(
    state: &mut KernelState,
    up: &mut U,
    want: Want,
) -> Result<Expr, Exit>
    requires ready { U.ready up.old }
    requires comes { may_come (names_in (U.names up.old)) (U.mode up.old) (U.is_open up.old) (call_of want) ≡ true }
    ensures called { Called (Guarded U.step U.ready U.names U.mode U.is_open) (call_of want) up.old (state_of state.old) result (state_of state.new) up.new }
    ensures rest { state.new ≡ record state.old { defs = state.new.defs } }
    ensures ready { IfOk result (λ _. U.ready up.new) }
    ensures names { U.names up.new ≡ U.names up.old }
    ensures mode { U.mode up.new ≡ U.mode up.old }
    ensures is_open { IfOk result (λ _. U.is_open up.new ≡ opens_after (call_of want) (U.is_open up.old)) }
{
    match up.call(&mut state.defs, want) {
        Answer::Value(v) => Ok(v),
        Answer::Stopped(c) => Err(Exit::Stopped(c)),
        Answer::Closed => Err(Exit::Closed),
        Answer::NoMemory => Err(Exit::NoMemory),
    }
}

/// Counts one step, if this is a turn.
pub(crate) fn count(limits: &Limits, turn: bool, state: &mut KernelState) -> Result<(), Halt>
    ensures steps { Counted turn limits.now.steps state.old.steps result state.new.steps }
    ensures rest { state.new ≡ record state.old { steps = state.new.steps } }
{
    if turn {
        if limits.steps <= state.steps {
            return Err(Halt::Stopped(Stop::Steps));
        }
        state.steps += 1;
    }
    Ok(())
}

/// An expression that counts as a result is within the limits, or stops the evaluation.
pub(crate) fn check(limits: &Limits, e: &Expr) -> Result<(), Halt>
    ensures { Fits limits.now e.now result }
{
    match fits(limits, e) {
        Some(stop) => Err(Halt::Stopped(stop)),
        None => Ok(()),
    }
}

/// The same of the call of a head and elements.
#[tactic(auto, using(crate::proofs::Fitting::fitting_steps, expr_tree::proofs::Callers::tree_steps))]
pub(crate) fn check_call(limits: &Limits, head: &Expr, items: &[Expr]) -> Result<(), Halt>
    requires { AreBounded limits.now }
    ensures { Fits limits.now (call head.now items.now) result }
{
    let mut nodes = head.size();
    let mut levels = head.depth();
    for item in items {
        nodes += item.size();
        levels = levels.max(item.depth());
        if limits.size < nodes {
            return Err(Halt::Stopped(Stop::Size));
        }
    }
    if limits.size < nodes {
        return Err(Halt::Stopped(Stop::Size));
    }
    if limits.depth <= levels {
        return Err(Halt::Stopped(Stop::Depth));
    }
    Ok(())
}

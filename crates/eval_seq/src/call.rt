//! The evaluation of an expression.
ghost use Rattle.std.specs.Prelude.{◌≡◌, false, List, []};
ghost use Rattle.semantics.specs.Eval as v;
ghost use Rattle.semantics.specs.Eval.{Event};
ghost use Rattle.semantics.specs.Play.{whole};
ghost use Rattle.evaluation_steps.specs.Explain.{Explain};
ghost use Rattle.evaluation_steps.specs.Stopping.{AreBounded};
ghost use Rattle.machine_steps.specs.Setup.{mode_of, state_of};
ghost use Rattle.eval_seq.specs.Told.{setting, kept_use, outcome_of, AfterOutcome, Came, IsClosed, IsThrowing, Says};

use crate::context::Context;
use crate::evaluate::value_of;
use crate::outward::Upcall;
use crate::room::Room;
use evaluation_steps::Exit;
use expr_tree::{Expr, Limits, Stop};
use machine_steps::{KernelState, Scene};
use std::alloc::Global;

/// How an evaluation ended.
#[derive(Drop)]
pub enum Outcome {
    Value(Expr),
    Stopped(Stop),
    /// A throw that nothing caught.
    Thrown(Expr),
    Quit,
    Closed,
    NoMemory,
}

fn outcome_of(end: Result<Expr, Exit>) -> Outcome
    requires { IsThrowing end → ⊥ }
    ensures { result ≡ outcome_of end }
{
    match end {
        Ok(value) => Outcome::Value(value),
        Err(Exit::Stopped(stop)) => Outcome::Stopped(stop),
        Err(Exit::Throwing(_)) => unreachable!(),
        Err(Exit::Thrown(value)) => Outcome::Thrown(value),
        Err(Exit::Quit) => Outcome::Quit,
        Err(Exit::Closed) => Outcome::Closed,
        Err(Exit::NoMemory) => Outcome::NoMemory,
    }
}

/// With want of memory nothing is told of mode and kernel.
fn keep_use(state: &mut KernelState, outcome: &Outcome)
    ensures { state_of state.new ≡ kept_use outcome.now (state_of state.old) }
{
    match outcome {
        Outcome::Value(_)
        | Outcome::Stopped(_)
        | Outcome::Thrown(_)
        | Outcome::Quit
        | Outcome::Closed => {}
        Outcome::NoMemory => state.used = false,
    }
}

/// Evaluates an expression. Steps of the outside explain its calls: the definition of an evaluation over these calls, their
/// replies and the definitions after them has its outcome, and its definitions, steps and use of the mode are those of the state
/// afterwards, whose open section tells whether it quit inside one. The same steps lead along the definition's play.
pub fn eval<U: Upcall>(
    alloc: Global,
    context: &Context,
    limits: &Limits,
    state: &mut KernelState,
    up: &mut U,
    e: &Expr,
) -> Outcome
    requires bounded { AreBounded limits.now }
    requires ready { U.ready up.old }
    requires names { U.names up.old ≡ context.now.names.now }
    requires mode { U.mode up.old ≡ mode_of context.now.mode }
    requires closed { U.is_open up.old ≡ false }
    ensures explained { (events : List Event)
        × Explain U.step (v.eval (setting context.now limits.now) state.old.defs e.now) up.old [] events up.new
        × Says (v.eval (setting context.now limits.now) state.old.defs e.now events) result (state_of state.new) }
    ensures went { Came U.step up.old (whole (setting context.now limits.now) state.old.defs e.now) result (state_of state.new) up.new }
    ensures ready { AfterOutcome result (U.ready up.new) }
    ensures names { U.names up.new ≡ U.names up.old }
    ensures mode { U.mode up.new ≡ U.mode up.old }
    ensures closed { IsClosed result (state_of state.new) (U.is_open up.new) }
{
    let scene = Scene {
        alloc,
        names: context.names,
        limits: *limits,
        mode: context.mode,
        kernel: context.kernel,
    };
    let room = Room {
        scene: &scene,
        left: limits.recursion,
    };
    state.begin();
    let outcome = outcome_of(value_of(room, state, up, e));
    keep_use(state, &outcome);
    outcome
}

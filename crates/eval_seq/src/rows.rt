//! How the rows of the built-in table begin.
ghost use Rattle.std.specs.Prelude.{◌≡◌, true, false};
ghost use Rattle.expr_tree.specs.Tree.{Tree};
ghost use Rattle.semantics.specs.Names.{make};
ghost use Rattle.semantics.specs.Scoping.{apply_function};
ghost use Rattle.semantics.specs.Table as t;
ghost use Rattle.semantics.specs.Worked.{Worked};
ghost use Rattle.builtin_names.specs.Named.{names_in};
ghost use Rattle.builtin_names.specs.Results.{IsFaultOf, Works};
ghost use Rattle.evaluation_steps.specs.Stopping.{AreBounded, HaltsFor};
ghost use Rattle.evaluation_steps.specs.declared.Halt.{Halt};
ghost use Rattle.machine_steps.specs.Setup.{setting_of, state_of};
ghost use Rattle.row_kinds.specs.Kinds.{is_outward, is_plain};
ghost use Rattle.eval_seq.specs.Driven.{Opens, OpensFrom, started_as};

use crate::machine::Start;
use builtin_names::Fault;
use evaluation_steps::{Exit, Halt};
use expr_tree::{Expr, Exprs, Limits, Stop};
use function_calls::apply;
use machine_outward::{Form, Place};
use machine_rows::Machine;
use machine_steps::{KernelState, Scene};
use row_kinds::{Kind, kind_of};
use rows_elements::rewrite;
use semantics::Builtin;
use std::alloc::AllocError;

/// Why an evaluation ends where a row makes no result.
fn halt_for(limits: &Limits, fault: Fault) -> Halt
    requires bounded { AreBounded limits.now }
    ensures large { (t : Tree) → IsFaultOf t fault → HaltsFor limits.now t result }
    ensures range { fault ≡ Fault.Range → result ≡ Halt.Stopped Stop.Range }
    ensures memory { fault ≡ Fault.NoMemory → result ≡ Halt.NoMemory }
{
    match fault {
        Fault::Range => Halt::Stopped(Stop::Range),
        Fault::TooLarge => Halt::Stopped(Stop::Size),
        Fault::TooDeep(nodes) => {
            if limits.size < nodes {
                Halt::Stopped(Stop::Size)
            } else {
                Halt::Stopped(Stop::Depth)
            }
        }
        Fault::NoMemory => Halt::NoMemory,
    }
}

/// What a row makes of its elements.
fn made(scene: &Scene, worked: Result<Option<Expr>, Fault>) -> Result<Start, Exit>
    ensures { (w : Worked) → Works w worked → Opens (setting_of scene.now) (λ rest. t.as_program rest w) result }
{
    match worked {
        Ok(value) => Ok(Start::Given(value)),
        Err(fault) => Err(Exit::from(halt_for(&scene.limits, fault))),
    }
}

/// How a row of the built-in table begins that does the same wherever it is evaluated.
pub(crate) fn row_start(scene: &Scene, row: Builtin, items: &Exprs) -> Result<Start, Exit>
    requires { is_outward row ≡ false }
    ensures { Opens (setting_of scene.now) (λ rest. t.row (names_in scene.now.names.now) row rest items.now) result }
{
    if is_plain(row) {
        return Ok(Start::Given(None));
    }
    if let Some(worked) = rewrite(scene.alloc, row, scene.names, items) {
        return made(scene, worked);
    }
    let Some(started) = Machine::start(scene.alloc, scene.names, row, items.as_slice()) else {
        unreachable!();
    };
    match started? {
        Some(frame) => Ok(Start::Machine(frame)),
        None => Ok(Start::Given(None)),
    }
}

/// How a row begins that throws, catches or is one of the mode table, where it is evaluated.
pub(crate) fn outward_start(
    scene: &Scene,
    state: &mut KernelState,
    row: Builtin,
    form: &Form,
) -> Result<Start, Exit>
    requires outward { is_outward row ≡ true }
    requires whole { form.now.whole.now ≡ make (names_in scene.now.names.now) row form.now.items.now }
    ensures kept { state.new ≡ record state.old { used = state.new.used } }
    ensures opens { OpensFrom (setting_of scene.now) (λ rest. t.row (names_in scene.now.names.now) row rest form.now.items.now) (state_of state.old) result (state_of state.new) }
{
    let place = Place {
        scene,
        is_open: state.open_section.is_some(),
    };
    let Some(started) = Machine::start_at(&place, &mut state.used, row, form) else {
        unreachable!();
    };
    machine_start(started)
}

/// A machine as the beginning of a step.
fn machine_start(started: Result<Option<Machine>, AllocError>) -> Result<Start, Exit>
    ensures { result ≡ started_as started }
{
    match started {
        Ok(Some(machine)) => Ok(Start::Machine(machine)),
        Ok(None) => Ok(Start::Given(None)),
        Err(AllocError) => Err(Exit::NoMemory),
    }
}

/// How the application of a `Function` begins.
pub(crate) fn function_start(scene: &Scene, parts: &[Expr], args: &[Expr]) -> Result<Start, Exit>
    ensures { Opens (setting_of scene.now) (λ rest. apply_function (names_in scene.now.names.now) rest parts.now args.now) result }
{
    made(scene, apply(scene.alloc, scene.names, parts, args))
}

/// Whether a row has no equation.
fn is_plain(row: Builtin) -> bool
    ensures { result ≡ is_plain row }
{
    match kind_of(row) {
        Kind::Plain | Kind::KernelName => true,
        Kind::Numbers
        | Kind::Tests
        | Kind::Lists
        | Kind::Parts
        | Kind::Strings
        | Kind::Form
        | Kind::Iteration
        | Kind::Change
        | Kind::Matching
        | Kind::Replacing
        | Kind::Outward => false,
    }
}

/// Whether a row throws, catches, or is one of the mode table.
pub(crate) fn is_outward(row: Builtin) -> bool
    ensures { result ≡ is_outward row }
{
    match kind_of(row) {
        Kind::Outward => true,
        Kind::Plain
        | Kind::KernelName
        | Kind::Numbers
        | Kind::Tests
        | Kind::Lists
        | Kind::Parts
        | Kind::Strings
        | Kind::Form
        | Kind::Iteration
        | Kind::Change
        | Kind::Matching
        | Kind::Replacing => false,
    }
}

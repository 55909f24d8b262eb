//! Control forms over the definitions.
ghost use Rattle.std.specs.Prelude.{◌≡◌, IfOk};
ghost use Rattle.semantics.specs.Program.{Prog};
ghost use Rattle.semantics.specs.Table as t;
ghost use Rattle.builtin_names.specs.Named.{names_in};
ghost use Rattle.machine_steps.specs.Setup.{setting_of};
ghost use Rattle.machine_steps.specs.Steps.{Falls, Starts, Stepped};
ghost use Rattle.frames_control.specs.ControlLeft as control;
ghost use Rattle.frames_control.specs.ControlMoves.{local_of};
ghost use Rattle.frames_scope.specs.Reading.{locals_in};
ghost use Rattle.machine_rows.specs.Machines as f;

use crate::machine::Machine;
use crate::results::{is_shared, result_move};
use builtin_names::Vocabulary;
use evaluation_steps::{Halt, checked};
use expr_tree::Expr;
use frames_control::{Control, ControlForm, ControlMove, Local as ControlLocal};
use frames_scope::{Local, Locals};
use item_list::Items;
use kernel_defs::Defs;
use machine_steps::{Move, Scene};
use std::alloc::{AllocError, Global};

/// The machine of a control form.
pub(crate) fn start_control(
    alloc: Global,
    names: &Vocabulary,
    form: ControlForm,
    items: &[Expr],
) -> Result<Option<Machine>, AllocError>
    ensures { Starts (f.left (names_in names.now)) (λ stay. t.row (names_in names.now) (control.row_for form) stay items.now) result }
{
    match Control::start(alloc, names, form, items) {
        Ok(Some(started)) => Ok(Some(Machine::Control(started))),
        Ok(None) => Ok(None),
        Err(error) => Err(error),
    }
}

fn locals_of(alloc: Global, local: Option<ControlLocal>) -> Result<Locals, AllocError>
    ensures { IfOk result (λ ls. locals_in ls ≡ local_of local) }
{
    let mut locals = Items::new(alloc);
    if let Some(local) = local {
        locals.push(Local {
            symbol: local.symbol,
            value: Some(local.value),
        })?;
    }
    Ok(locals)
}

/// Goes on until there is a question, a turn or the result: a symbol that is not shared needs none of them.
pub(crate) fn step_control(
    form: &mut Control,
    scene: &Scene,
    defs: &Defs,
    used: &mut bool,
    answer: Option<Expr>,
) -> Result<Move, Halt>
    ensures stepped { (stay : Prog) → Stepped (setting_of scene.now) (control.left (names_in scene.now.names.now) form.old answer) stay defs.now used.old result (control.left (names_in scene.now.names.now) form.new) defs.now used.new }
    ensures falls { Falls result (control.questions form.old) (λ v. control.questions form.new) }
{
    match form.step(scene.alloc, scene.names, &scene.limits, answer) {
        Ok(ControlMove::Ask(e, turn)) => Ok(Move::Ask(e, turn)),
        Ok(ControlMove::Local(local, e, turn)) => {
            Ok(Move::Within(locals_of(scene.alloc, local)?, e, turn))
        }
        Ok(ControlMove::Unless(symbol, e)) => {
            if is_shared(defs.shared(), symbol) {
                *used = true;
                return Ok(Move::Done(e));
            }
            step_control(form, scene, defs, used, None)
        }
        Ok(ControlMove::Done(e)) => Ok(Move::Done(e)),
        Ok(ControlMove::Build(head, items)) => {
            result_move(checked(scene.alloc, &scene.limits, head, items))
        }
        Err(halt) => Err(halt),
    }
}

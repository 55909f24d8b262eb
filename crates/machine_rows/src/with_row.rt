//! With over the definitions.
ghost use Rattle.std.specs.Prelude.{◌≡◌, Bool};
ghost use Rattle.semantics.specs.Program.{Prog};
ghost use Rattle.semantics.specs.Table as t;
ghost use Rattle.semantics.specs.declared.builtin.Builtin as b;
ghost use Rattle.builtin_names.specs.Named.{names_in};
ghost use Rattle.machine_steps.specs.Setup.{setting_of};
ghost use Rattle.machine_steps.specs.Steps.{Falls, Starts, Stepped};
ghost use Rattle.frames_scope.specs.ScopingLeft.{left_with};
ghost use Rattle.machine_rows.specs.Asking.{asks};
ghost use Rattle.machine_rows.specs.Machines as f;

use crate::machine::Machine;
use crate::scoped::scope_move;
use builtin_names::Vocabulary;
use evaluation_steps::Halt;
use expr_tree::Expr;
use frames_scope::{With, block_scope};
use kernel_defs::Defs;
use machine_steps::{Move, Scene};
use std::alloc::{AllocError, Global};

/// A With before its first step.
pub(crate) fn start_with(
    alloc: Global,
    names: &Vocabulary,
    items: &[Expr],
) -> Result<Option<Machine>, AllocError>
    ensures { Starts (f.left (names_in names.now)) (λ stay. t.row (names_in names.now) b.Builtin.With stay items.now) result }
{
    let Some(scope) = block_scope(alloc, names, items)? else {
        return Ok(None);
    };
    match With::start(alloc, &scope)? {
        Some(form) => Ok(Some(Machine::With(form))),
        None => Ok(None),
    }
}

/// Goes on with the values.
pub(crate) fn step_with(
    form: &mut With,
    scene: &Scene,
    defs: &mut Defs,
    answer: Option<Expr>,
) -> Result<Move, Halt>
    ensures stepped { (stay : Prog) (used : Bool) → Stepped (setting_of scene.now) (left_with (names_in scene.now.names.now) form.old answer) stay defs.old used result (left_with (names_in scene.now.names.now) form.new) defs.new used }
    ensures falls { Falls result (asks (left_with (names_in scene.now.names.now) form.old answer)) (λ v. asks (left_with (names_in scene.now.names.now) form.new v)) }
{
    let moved = form.step(scene.alloc, answer);
    scope_move(scene, defs, moved)
}

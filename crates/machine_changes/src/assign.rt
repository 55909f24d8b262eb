//! An assignment whose left side is evaluated.
ghost use Rattle.std.specs.Prelude.{◌≡◌, Bool, IfOk, Option, map};
ghost use Rattle.expr_tree.specs.Tree.{Tree};
ghost use Rattle.semantics.specs.Changes as changes;
ghost use Rattle.semantics.specs.Program.{Prog};
ghost use Rattle.builtin_names.specs.Named.{names_in};
ghost use Rattle.machine_steps.specs.Setup.{setting_of};
ghost use Rattle.machine_steps.specs.Steps.{Stepped};
ghost use Rattle.kernel_defs.specs.Targets.{form_of, target_of};
ghost use Rattle.kernel_defs.proofs.Runs.{seen_all};
ghost use Rattle.machine_changes.specs.Effects as effects;
ghost use Rattle.machine_changes.specs.Assigning.{asks_right, assigned, is_delayed};
ghost use Rattle.machine_changes.specs.Results.{done_with};

use crate::effects::{any_shared, is_refused};
use builtin_names::name;
use evaluation_steps::Halt;
use expr_tree::{Expr, Syms};
use kernel_defs::{Assigned, Defs, Form, Targets, asked_symbols, targets_of};
use machine_steps::Scene;
use semantics::Builtin;
use std::alloc::AllocError;

/// Whether something would be attached to a shared symbol.
fn attaches_shared(scene: &Scene, defs: &Defs, targets: &Targets, asked: &Syms) -> bool
    ensures { result ≡ changes.attaches_shared (map target_of targets.now) (seen_all (names_in scene.now.names.now) defs.now asked.now) }
{
    match targets.as_slice() {
        [] => false,
        [_, ..] => any_shared(scene, defs, asked),
    }
}

/// Attaches a value or a rule to all the symbols of a left side, unless that is refused.
fn assign(
    scene: &Scene,
    defs: &mut Defs,
    used: &mut bool,
    form: Form,
    left: &Expr,
    right: &Expr,
) -> Result<bool, AllocError>
    ensures { IfOk result (λ done. effects.Assigned (setting_of scene.now) (form_of form) left.now right.now defs.old used.old done defs.new used.new) }
{
    let targets = targets_of(scene.alloc, scene.names, form, left)?;
    let asked = asked_symbols(scene.alloc, form, &targets)?;
    let shared = attaches_shared(scene, defs, &targets, &asked);
    if is_refused(scene, used, shared) {
        return Ok(false);
    }
    match defs.assign(scene.alloc, scene.names, form, left, right)? {
        Assigned::Done => Ok(true),
        Assigned::Refused(_) => Ok(false),
    }
}

/// Whether an assignment gives Null in place of its right side.
fn is_delayed(form: Form) -> bool
    ensures { result ≡ is_delayed form }
{
    match form {
        Form::Set | Form::UpSet | Form::TagSet(_) => false,
        Form::SetDelayed | Form::UpSetDelayed | Form::TagSetDelayed(_) => true,
    }
}

/// Whether an assignment evaluates its right side itself.
pub(crate) fn asks_right(form: Form) -> bool
    ensures { result ≡ asks_right form }
{
    match form {
        Form::TagSet(_) => true,
        Form::Set | Form::SetDelayed | Form::UpSet | Form::UpSetDelayed | Form::TagSetDelayed(_) =>
            false,
    }
}

/// All of an assignment.
pub(crate) fn assign_or_fail(
    scene: &Scene,
    defs: &mut Defs,
    used: &mut bool,
    form: Form,
    left: &Expr,
    right: Expr,
) -> Result<Expr, Halt>
    ensures { (stay : Prog) (rest : Option Tree → Prog) → Stepped (setting_of scene.now) (assigned (names_in scene.now.names.now) form right left.now) stay defs.old used.old (done_with result) rest defs.new used.new }
{
    if !assign(scene, defs, used, form, left, &right)? {
        return Ok(name(scene.names, Builtin::Failed));
    }
    if is_delayed(form) {
        return Ok(name(scene.names, Builtin::Null));
    }
    Ok(right)
}

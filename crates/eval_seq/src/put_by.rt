//! Locals of a machine are put by.
ghost use Rattle.std.specs.Prelude.{◌≡◌, ◌++◌, ◌∷◌, [], IfOk, OnOk};
ghost use Rattle.semantics.specs.Definitions as d;
ghost use Rattle.semantics.specs.Play as play;
ghost use Rattle.builtin_names.specs.Named.{names_in};
ghost use Rattle.frames_scope.specs.Reading.{local_in, locals_in};
ghost use Rattle.kernel_defs.specs.Locals.{saved_along};
ghost use Rattle.kernel_defs.specs.Saved.{saved_in};

use expr_tree::Expr;
use frames_scope::{Local, Locals};
use kernel_defs::{Defs, Saved};
use machine_steps::Scene;
use std::alloc::{AllocError, Global};

fn value_of_local(alloc: Global, local: &Local) -> Result<Option<Expr>, AllocError>
    ensures { IfOk result (λ v. v ≡ local.now.value) }
{
    match &local.value {
        Some(e) => Ok(Some(e.copy(alloc)?)),
        None => Ok(None),
    }
}

/// Puts one local by.
fn put_by_one(
    scene: &Scene,
    defs: &mut Defs,
    local: &Local,
    saved: &mut Saved,
) -> Result<(), AllocError>
    ensures definitions { OnOk result (defs.new ≡ d.put (names_in scene.now.names.now) defs.old local.now.symbol (play.local_definition (local_in local.now))) }
    ensures saved { OnOk result (saved_in saved.new ≡ saved_in saved.old ++ (local.now.symbol, d.look_up defs.old.entries local.now.symbol) ∷ []) }
{
    let value = value_of_local(scene.alloc, local)?;
    defs.put_by(scene.alloc, scene.names, local.symbol, value, saved)
}

/// Puts locals by, which get their values. Where memory is short, those that were put by are put back.
pub(crate) fn put_by(scene: &Scene, defs: &mut Defs, locals: &Locals) -> Result<Saved, AllocError>
    ensures definitions { IfOk result (λ s. defs.new ≡ play.put_locals (names_in scene.now.names.now) (locals_in locals.now) defs.old) }
    ensures saved { IfOk result (λ s. saved_in s ≡ saved_along (names_in scene.now.names.now) (locals_in locals.now) defs.old) }
{
    let mut saved = Saved::new(scene.alloc);
    for local in locals.as_slice() {
        if let Err(error) = put_by_one(scene, defs, local, &mut saved) {
            defs.put_back(scene.names, saved);
            return Err(error);
        }
    }
    Ok(saved)
}

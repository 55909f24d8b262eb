//! What a step reads of definitions and of the mode.
ghost use Rattle.std.specs.Prelude.{◌≡◌, ◌||◌, is_some};
ghost use Rattle.semantics.specs.Changes as changes;
ghost use Rattle.semantics.specs.Play.{seen};
ghost use Rattle.builtin_names.specs.Named.{names_in};
ghost use Rattle.machine_steps.specs.Setup.{mode_of};
ghost use Rattle.kernel_defs.proofs.Runs.{seen_all};
ghost use Rattle.machine_changes.specs.Effects.{is_refused};

use expr_tree::{Sym, Syms};
use kernel_defs::Defs;
use machine_steps::{Mode, Scene};

/// Whether a symbol is shared.
pub(crate) fn is_shared(scene: &Scene, defs: &Defs, symbol: Sym) -> bool
    ensures { result ≡ is_some (seen (names_in scene.now.names.now) defs.now symbol).shared }
{
    let _names = scene.names;
    defs.shared().kind_of(symbol).is_some()
}

/// Mode and kernel matter from the use of a shared symbol on.
pub(crate) fn note_use(used: &mut bool, shared: bool)
    ensures { used.new ≡ (shared || used.old) }
{
    if shared {
        *used = true;
    }
}

/// Whether some of these symbols are shared.
pub(crate) fn any_shared(scene: &Scene, defs: &Defs, symbols: &Syms) -> bool
    ensures { result ≡ changes.any_shared (seen_all (names_in scene.now.names.now) defs.now symbols.now) }
{
    for symbol in symbols.as_slice() {
        if is_shared(scene, defs, *symbol) {
            return true;
        }
    }
    false
}

/// Whether a change of a shared symbol fails here, where it is no access.
pub(crate) fn is_refused(scene: &Scene, used: &mut bool, shared: bool) -> bool
    ensures refused { result ≡ is_refused (mode_of scene.now.mode) shared }
    ensures used { used.new ≡ (shared || used.old) }
{
    note_use(used, shared);
    if !shared {
        return false;
    }
    match scene.mode {
        Mode::Item => true,
        Mode::Cell | Mode::Service => false,
    }
}

//! Symbols: their attributes and values, and whether a use of one is an access of a shared symbol.
ghost use Rattle.std.specs.Prelude.{◌≡◌, ℕ, true, IfOk};
ghost use Rattle.expr_tree.specs.Tree.{symbol};
ghost use Rattle.semantics.specs.Program as p;
ghost use Rattle.semantics.specs.Program.{Outer, Access};
ghost use Rattle.semantics.specs.Pass.{number_in, symbol_pass, symbol_row};
ghost use Rattle.semantics.specs.Sections.{unless_access, unless_identical};
ghost use Rattle.builtin_names.specs.Attributes.{attributes_in};
ghost use Rattle.builtin_names.specs.Named.{names_in};
ghost use Rattle.shared_calls.specs.View.{share_of};
ghost use Rattle.laws_calls.specs.Calls.{is_item};
ghost use Rattle.eval_seq.specs.Outward.{Faces, Guarded};
ghost use Rattle.machine_steps.specs.Setup.{mode_of, setting_of, state_of};
ghost use Rattle.eval_seq.specs.Walks.{or_itself, PassOf, Stepped};
ghost use Rattle.eval_seq.specs.Sequence.{attributes_seen, Accesses, Marks, Uses};

use crate::effects::outward;
use crate::outward::Upcall;
use builtin_names::{Vocabulary, is_known};
use evaluation_steps::Exit;
use expr_tree::{Attrs, Expr, Node, Sym};
use kernel_defs::Defs;
use machine_steps::{KernelState, Mode, Request, Scene, Want};
use semantics::Builtin;
use shared_calls::{ShareKind, accesses_are_sent, changed_symbol};

/// The attributes of a head.
pub(crate) fn attrs_under(names: &Vocabulary, defs: &Defs, head: &Expr) -> Attrs
    ensures { attributes_in result ≡ attributes_seen (names_in names.now) defs.now head.now }
{
    match head.node() {
        Node::Symbol(symbol) => defs.attrs_of(names, *symbol),
        _ => Attrs::none(),
    }
}

fn is_item(mode: Mode) -> bool
    ensures { result ≡ is_item (mode_of mode) }
{
    match mode {
        Mode::Cell => false,
        Mode::Item => true,
        Mode::Service => false,
    }
}

/// Looks at a symbol, and says whether this use of it is sent outward.
#[tactic(auto, using(crate::proofs::Marking::marks_steps))]
pub(crate) fn marks(scene: &Scene, state: &mut KernelState, kind: ShareKind, symbol: Sym) -> bool
    ensures kept { state.new ≡ record state.old { used = state.new.used } }
    ensures sent { result ≡ true → is_item (mode_of scene.now.mode) ≡ true }
    ensures marks { Marks (setting_of scene.now) (share_of kind) symbol (state_of state.old) result (state_of state.new) }
{
    let Some(found) = state.defs.shared().kind_of(symbol) else {
        return false;
    };
    state.used = true;
    found.is(kind) && is_item(scene.mode)
}

/// Whether a row that changes a shared symbol is sent outward.
#[tactic(auto, using(crate::proofs::Marking::uses_steps))]
pub(crate) fn changes(scene: &Scene, state: &mut KernelState, row: Sym, items: &[Expr]) -> bool
    ensures kept { state.new ≡ record state.old { used = state.new.used } }
    ensures sent { result ≡ true → is_item (mode_of scene.now.mode) ≡ true }
    ensures uses { Uses (setting_of scene.now) (λ e stay p. unless_access (names_in scene.now.names.now) (symbol row) items.now e stay p) (state_of state.old) result (state_of state.new) }
{
    accesses_are_sent();
    if changed_symbol(state.defs.shared(), scene.names, row, items).is_none() {
        return false;
    }
    state.used = true;
    is_item(scene.mode)
}

/// Whether a call of a head is sent outward, as that of a shared function.
pub(crate) fn accesses(scene: &Scene, state: &mut KernelState, head: &Expr) -> bool
    ensures kept { state.new ≡ record state.old { used = state.new.used } }
    ensures sent { result ≡ true → is_item (mode_of scene.now.mode) ≡ true }
    ensures accesses { Accesses (setting_of scene.now) head.now (state_of state.old) result (state_of state.new) }
{
    match head.node() {
        Node::Symbol(symbol) => marks(scene, state, ShareKind::Function, *symbol),
        Node::Normal(_, _) => false,
        Node::Int(_) => false,
        Node::Str(_) => false,
    }
}

/// Sends an access. `None` is a reply identical to it.
pub(crate) fn send_access<U: Upcall>(
    scene: &Scene,
    state: &mut KernelState,
    up: &mut U,
    access: &Expr,
) -> Result<Option<Expr>, Exit>
    requires faces { Faces U.ready U.names U.mode U.is_open (setting_of scene.now) state.old.open_section up.old }
    requires item { is_item (mode_of scene.now.mode) ≡ true }
    ensures stepped { (n : ℕ) → Stepped (Guarded U.step U.ready U.names U.mode U.is_open) (setting_of scene.now) n (λ rest. Outer (Access access.now) (unless_identical access.now rest)) up.old (state_of state.old) result (state_of state.new) up.new }
    ensures faces { IfOk result (λ _. Faces U.ready U.names U.mode U.is_open (setting_of scene.now) state.new.open_section up.new) }
{
    let sent = access.copy(scene.alloc)?;
    match outward(state, up, Want::Access(sent)) {
        Ok(reply) => {
            if reply.equals(access) {
                return Ok(None);
            }
            Ok(Some(reply))
        }
        Err(exit) => Err(exit),
    }
}

/// The number of the kernel in an item, and of the master elsewhere.
fn kernel_number(scene: &Scene) -> u32
    ensures { result ≡ number_in (mode_of scene.now.mode) scene.now.kernel }
{
    match scene.mode {
        Mode::Item => scene.kernel,
        Mode::Cell => 0,
        Mode::Service => 0,
    }
}

/// The row of a symbol alone.
fn symbol_row<U: Upcall>(
    scene: &Scene,
    state: &mut KernelState,
    up: &mut U,
    symbol: Sym,
) -> Result<Option<Expr>, Exit>
    requires { Faces U.ready U.names U.mode U.is_open (setting_of scene.now) state.old.open_section up.old }
    ensures { (n : ℕ) → PassOf (Guarded U.step U.ready U.names U.mode U.is_open) (setting_of scene.now) n (symbol_row (names_in scene.now.names.now) symbol) up.old (state_of state.old) (or_itself (Rattle.expr_tree.specs.Tree.symbol symbol) result) (state_of state.new) up.new }
{
    if is_known(scene.names, Builtin::KernelID, symbol) {
        state.used = true;
        return Ok(Some(Expr::int(kernel_number(scene) as i128)));
    }
    if is_known(scene.names, Builtin::KernelCount, symbol) {
        state.used = true;
        return match outward(state, up, Want::Sends(Request::Count)) {
            Ok(v) => Ok(Some(v)),
            Err(exit) => Err(exit),
        };
    }
    Ok(None)
}

/// One pass over a symbol.
pub(crate) fn own<U: Upcall>(
    scene: &Scene,
    state: &mut KernelState,
    up: &mut U,
    symbol: Sym,
) -> Result<Option<Expr>, Exit>
    requires { Faces U.ready U.names U.mode U.is_open (setting_of scene.now) state.old.open_section up.old }
    ensures { (n : ℕ) → PassOf (Guarded U.step U.ready U.names U.mode U.is_open) (setting_of scene.now) n (symbol_pass (names_in scene.now.names.now) symbol) up.old (state_of state.old) (or_itself (Rattle.expr_tree.specs.Tree.symbol symbol) result) (state_of state.new) up.new }
{
    if marks(scene, state, ShareKind::Variable, symbol) {
        let access = Expr::symbol(symbol);
        return send_access(scene, state, up, &access);
    }
    if let Some(value) = state.defs.own_of(symbol) {
        return Ok(Some(value.copy(scene.alloc)?));
    }
    symbol_row(scene, state, up, symbol)
}

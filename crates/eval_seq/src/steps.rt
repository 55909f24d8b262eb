//! How the steps of a pass after splicing begin.
ghost use Rattle.std.specs.Prelude.{◌≡◌, ℕ, IfOk, Some};
ghost use Rattle.expr_tree.specs.Tree as t;
ghost use Rattle.expr_tree.specs.Tree.{call};
ghost use Rattle.semantics.specs.Attempt.{try_rules};
ghost use Rattle.semantics.specs.Pass as p;
ghost use Rattle.semantics.specs.Play.{Setting};
ghost use Rattle.semantics.specs.Program.{Done};
ghost use Rattle.builtin_names.specs.Named.{names_in};
ghost use Rattle.machine_steps.specs.Setup.{mode_of, setting_of, state_of};
ghost use Rattle.eval_seq.specs.Driven.{Begins, Opens};
ghost use Rattle.eval_seq.specs.Outward.{Faces, Guarded};
ghost use Rattle.eval_seq.specs.Sequence.{head_row, head_rules, Sees};

use crate::machine::Start;
use crate::outward::Upcall;
use crate::rows::{function_start, is_outward, outward_start, row_start};
use crate::symbols::{changes, send_access};
use builtin_names::{is_name, role_of, rows_are_names};
use evaluation_steps::Exit;
use expr_tree::{Expr, Exprs, Node, Sym};
use machine_outward::Form;
use machine_rows::Machine;
use machine_steps::{KernelState, Scene};
use rule_store::Rules;
use semantics::Builtin;
use std::alloc::Global;

/// Looks at a symbol, whose use is marked where it is shared.
#[tactic(auto, using(crate::proofs::Marking::sees_steps))]
fn see(scene: &Scene, state: &mut KernelState, symbol: Sym)
    ensures kept { state.new ≡ record state.old { used = state.new.used } }
    ensures sees { Sees (setting_of scene.now) symbol (state_of state.old) (state_of state.new) }
{
    let _names = scene.names;
    if state.defs.shared().kind_of(symbol).is_some() {
        state.used = true;
    }
}

/// How trying rules begins. Nothing begins where there are none.
fn rules_start(alloc: Global, rules: &Rules, whole: &Expr) -> Result<Start, Exit>
    ensures { (set : Setting) → Opens set (λ rest. try_rules set.names rules.now whole.now Done rest) result }
{
    if rules.as_slice().is_empty() {
        return Ok(Start::Given(None));
    }
    let frame = Machine::of_rules(alloc, rules, whole)?;
    Ok(Start::Machine(frame))
}

/// How trying the up rules of a symbol begins.
pub(crate) fn up_start<U: Upcall>(
    scene: &Scene,
    state: &mut KernelState,
    _up: &U,
    symbol: Sym,
    whole: &Expr,
) -> Result<Start, Exit>
    requires { Faces U.ready U.names U.mode U.is_open (setting_of scene.now) state.old.open_section _up.now }
    ensures begins { (n : ℕ) → Begins (Guarded U.step U.ready U.names U.mode U.is_open) (setting_of scene.now) n (λ rest. p.symbol_rules (names_in scene.now.names.now) (Some symbol) whole.now rest) _up.now (state_of state.old) result (state_of state.new) _up.now }
    ensures faces { IfOk result (λ _. Faces U.ready U.names U.mode U.is_open (setting_of scene.now) state.new.open_section _up.now) }
{
    see(scene, state, symbol);
    rules_start(scene.alloc, state.defs.ups_of(symbol), whole)
}

/// How trying the rules of a head begins, or applying it where it is a `Function`.
pub(crate) fn head_start<U: Upcall>(
    scene: &Scene,
    state: &KernelState,
    _up: &U,
    whole: &Expr,
    head: &Expr,
    items: &[Expr],
) -> Result<Start, Exit>
    ensures { (n : ℕ) → Begins (Guarded U.step U.ready U.names U.mode U.is_open) (setting_of scene.now) n (λ rest. head_rules (names_in scene.now.names.now) state.now.defs head.now items.now whole.now rest) _up.now (state_of state.now) result (state_of state.now) _up.now }
{
    match head.node() {
        Node::Symbol(symbol) => rules_start(scene.alloc, state.defs.downs_of(*symbol), whole),
        Node::Normal(inner, parts) => {
            if is_name(scene.names, Builtin::Function, inner) {
                return function_start(scene, parts.as_slice(), items);
            }
            Ok(Start::Given(None))
        }
        Node::Int(_) => Ok(Start::Given(None)),
        Node::Str(_) => Ok(Start::Given(None)),
    }
}

/// How the row of a symbol begins.
fn built_in<U: Upcall>(
    scene: &Scene,
    state: &mut KernelState,
    up: &mut U,
    symbol: Sym,
    whole: &Expr,
    items: &Exprs,
) -> Result<Start, Exit>
    requires faces { Faces U.ready U.names U.mode U.is_open (setting_of scene.now) state.old.open_section up.old }
    requires whole { whole.now ≡ call (t.symbol symbol) items.now }
    ensures begins { (n : ℕ) → Begins (Guarded U.step U.ready U.names U.mode U.is_open) (setting_of scene.now) n (λ rest. p.built_in (names_in scene.now.names.now) symbol items.now whole.now rest) up.old (state_of state.old) result (state_of state.new) up.new }
    ensures faces { IfOk result (λ _. Faces U.ready U.names U.mode U.is_open (setting_of scene.now) state.new.open_section up.new) }
{
    let Some(row) = role_of(scene.names, symbol) else {
        return Ok(Start::Given(None));
    };
    if changes(scene, state, symbol, items.as_slice()) {
        let reply = send_access(scene, state, up, whole)?;
        return Ok(Start::Given(reply));
    }
    if is_outward(row) {
        rows_are_names(scene.names);
        let form = Form {
            whole,
            items: items.as_slice(),
        };
        return outward_start(scene, state, row, &form);
    }
    row_start(scene, row, items)
}

/// How the row of a head begins.
pub(crate) fn head_row_start<U: Upcall>(
    scene: &Scene,
    state: &mut KernelState,
    up: &mut U,
    whole: &Expr,
    head: &Expr,
    items: &Exprs,
) -> Result<Start, Exit>
    requires faces { Faces U.ready U.names U.mode U.is_open (setting_of scene.now) state.old.open_section up.old }
    requires whole { whole.now ≡ call head.now items.now }
    ensures begins { (n : ℕ) → Begins (Guarded U.step U.ready U.names U.mode U.is_open) (setting_of scene.now) n (λ rest. head_row (names_in scene.now.names.now) head.now items.now whole.now rest) up.old (state_of state.old) result (state_of state.new) up.new }
    ensures faces { IfOk result (λ _. Faces U.ready U.names U.mode U.is_open (setting_of scene.now) state.new.open_section up.new) }
{
    match head.node() {
        Node::Symbol(symbol) => built_in(scene, state, up, *symbol, whole, items),
        Node::Normal(_, _) => Ok(Start::Given(None)),
        Node::Int(_) => Ok(Start::Given(None)),
        Node::Str(_) => Ok(Start::Given(None)),
    }
}

//! What a left side holds, taken away.
ghost use Rattle.std.specs.Prelude.{◌≡◌, [], IfOk, OnOk, Option};
ghost use Rattle.std.specs.List.{filter};
ghost use Rattle.expr_tree.specs.Shapes as shapes;
ghost use Rattle.expr_tree.specs.Tree.{Tree};
ghost use Rattle.semantics.specs.Assign as assign;
ghost use Rattle.semantics.specs.Changes as changes;
ghost use Rattle.semantics.specs.Definitions.{definition_of};
ghost use Rattle.semantics.specs.Program.{Prog};
ghost use Rattle.builtin_names.specs.Named.{names_in};
ghost use Rattle.machine_steps.specs.Setup.{setting_of};
ghost use Rattle.machine_steps.specs.Steps.{Stepped};
ghost use Rattle.kernel_defs.proofs.Runs.{seen_all};
ghost use Rattle.machine_changes.specs.Results.{done_with};
ghost use Rattle.machine_changes.specs.Unsetting.{is_kept, taken_away, unset_at};

use crate::effects::{any_shared, is_refused};
use builtin_names::{Vocabulary, items_of, name};
use evaluation_steps::Halt;
use expr_tree::{Expr, Syms, symbol_of};
use item_list::Items;
use kernel_defs::{Defs, inner, item_symbols};
use machine_steps::Scene;
use semantics::Builtin;
use std::alloc::{AllocError, Global};

/// The symbol of an expression's head, if it has one.
fn head_symbol(alloc: Global, e: &Expr) -> Result<Syms, AllocError>
    ensures { IfOk result (λ ss. ss ≡ assign.add_symbol (shapes.symbol_of e.now) []) }
{
    let mut symbols = Items::new(alloc);
    match symbol_of(e) {
        None => Ok(symbols),
        Some(symbol) => {
            symbols.push(symbol)?;
            Ok(symbols)
        }
    }
}

/// The symbols that may hold something with a left side, each once.
pub(crate) fn holders(alloc: Global, names: &Vocabulary, left: &Expr) -> Result<Syms, AllocError>
    ensures { IfOk result (λ ss. ss ≡ changes.holders (names_in names.now) left.now) }
{
    let left = inner(names, left);
    let mut symbols = head_symbol(alloc, left)?;
    item_symbols(items_of(left), &mut symbols)?;
    Ok(symbols)
}

/// Those of some symbols that hold something with a left side.
fn holding(scene: &Scene, defs: &Defs, left: &Expr, symbols: &Syms) -> Result<Syms, AllocError>
    ensures { IfOk result (λ ss. ss ≡ filter (λ s. changes.holds left.now (definition_of (names_in scene.now.names.now) defs.now s)) symbols.now) }
{
    let _names = scene.names;
    let mut held = Items::new(scene.alloc);
    for symbol in symbols.as_slice() {
        if defs.holds(*symbol, left) {
            held.push(*symbol)?;
        }
    }
    Ok(held)
}

/// Whether some of these symbols are Protected.
fn any_protected(scene: &Scene, defs: &Defs, symbols: &Syms) -> bool
    ensures { result ≡ changes.any_protected (seen_all (names_in scene.now.names.now) defs.now symbols.now) }
{
    for symbol in symbols.as_slice() {
        if defs.is_protected(scene.names, *symbol) {
            return true;
        }
    }
    false
}

/// Whether symbols may not give up what they hold: there is none, or one is Protected.
fn is_kept(scene: &Scene, defs: &Defs, symbols: &Syms) -> bool
    ensures { result ≡ is_kept (seen_all (names_in scene.now.names.now) defs.now symbols.now) }
{
    match symbols.as_slice() {
        [] => true,
        [_, ..] => any_protected(scene, defs, symbols),
    }
}

/// Takes away what these symbols hold with a left side.
fn take_away(scene: &Scene, defs: &mut Defs, left: &Expr, symbols: &Syms) -> Result<(), AllocError>
    ensures { OnOk result (defs.new ≡ taken_away (names_in scene.now.names.now) left.now symbols.now defs.old) }
{
    for symbol in symbols.as_slice() {
        defs.take_away(scene.alloc, scene.names, *symbol, left)?;
    }
    Ok(())
}

/// All of Unset, once its left side is evaluated. All symbols are looked at before the first of them changes.
pub(crate) fn unset(
    scene: &Scene,
    defs: &mut Defs,
    used: &mut bool,
    left: &Expr,
) -> Result<Expr, Halt>
    ensures { (stay : Prog) (rest : Option Tree → Prog) → Stepped (setting_of scene.now) (unset_at (names_in scene.now.names.now) left.now) stay defs.old used.old (done_with result) rest defs.new used.new }
{
    let symbols = holders(scene.alloc, scene.names, left)?;
    let shared = any_shared(scene, defs, &symbols);
    if is_refused(scene, used, shared) {
        return Ok(name(scene.names, Builtin::Failed));
    }
    let held = holding(scene, defs, left, &symbols)?;
    if is_kept(scene, defs, &held) {
        return Ok(name(scene.names, Builtin::Failed));
    }
    take_away(scene, defs, left, &held)?;
    Ok(name(scene.names, Builtin::Null))
}

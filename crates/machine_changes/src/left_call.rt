//! The call that a left side is, once its head and its elements have their values.
ghost use Rattle.std.specs.Prelude.{◌≡◌, ◌≤◌, ◌∷◌, [], IfOk, MatchOption};
ghost use Rattle.expr_tree.specs.Tree.{call, symbol, size, depth};
ghost use Rattle.semantics.specs.Assemble as a;
ghost use Rattle.semantics.specs.Names as n;
ghost use Rattle.semantics.specs.Play.{Evaluator, State, Over, Stopped, run};
ghost use Rattle.semantics.specs.Program.{Prog};
ghost use Rattle.semantics.specs.declared.builtin.Builtin.{Builtin};
ghost use Rattle.builtin_names.specs.Attributes.{attributes_in};
ghost use Rattle.builtin_names.specs.Named.{names_in};
ghost use Rattle.machine_steps.specs.Setup.{setting_of};
ghost use Rattle.machine_changes.specs.Effects.{Evaluates};
ghost use Rattle.machine_changes.specs.Assigning.{assembled, settled};
ghost use Rattle.machine_changes.specs.Larger.{AreUnder};

use crate::elements::Elements;
use crate::shapes::symbol_in;
use attr_steps::{flattened, sorted, spliced, threaded};
use builtin_names::{make, name};
use evaluation_steps::{Halt, checked, fits};
use expr_tree::{Attrs, Built, Expr, Exprs, Stop, Sym, copy_items};
use item_list::Items;
use machine_steps::Scene;
use semantics::Builtin;
use std::alloc::{AllocError, Global};

/// A left side that is evaluated: an expression; or a List larger or deeper than any expression, with the List that stands in its place.
#[derive(Drop)]
pub(crate) enum LeftSide {
    Whole(Expr),
    Large(Expr),
}

/// The call of a head and elements that is within the limits of an expression.
fn call(alloc: Global, head: Expr, items: Exprs) -> Result<Expr, AllocError>
    requires small { size (call head items) ≤ 4000000 }
    requires shallow { depth (call head items) ≤ 512 }
    ensures { IfOk result (λ e. e ≡ call head items) }
{
    match Expr::normal(alloc, head, items) {
        Ok(e) => Ok(e),
        Err(Built::NoMemory) => Err(AllocError),
        Err(Built::TooLarge) | Err(Built::TooDeep(_)) => unreachable!(),
    }
}

/// What sorting leaves, as the call.
#[tactic(auto, using(crate::proofs::Smaller::smaller_steps))]
fn sorted_call(alloc: Global, head: Expr, attrs: &Attrs, items: Exprs) -> Result<Expr, AllocError>
    requires small { size (call head items) ≤ 4000000 }
    requires shallow { depth (call head items) ≤ 512 }
    ensures { IfOk result (λ e. e ≡ call head (a.sorted (attributes_in attrs.now) items)) }
{
    let items = sorted(alloc, attrs, items)?;
    call(alloc, head, items)
}

/// The first limit that one of some expressions passes.
fn first_stop(scene: &Scene, each: &Exprs) -> Option<Stop>
    ensures { MatchOption result
        ((p : Prog) (ev : Evaluator) (st : State) → run (setting_of scene.now) ev (a.check_all each.now p) st ≡ run (setting_of scene.now) ev p st)
        (λ stop. (p : Prog) (ev : Evaluator) (st : State) → run (setting_of scene.now) ev (a.check_all each.now p) st ≡ Over (Stopped stop) st) }
{
    for e in each.as_slice() {
        if let Some(stop) = fits(&scene.limits, e) {
            return Some(stop);
        }
    }
    None
}

/// The List of a symbol.
fn list_of(scene: &Scene, head: Sym) -> Result<Expr, AllocError>
    ensures { IfOk result (λ e. e ≡ n.make (names_in scene.now.names.now) Builtin.List (symbol head ∷ [])) }
{
    let mut items = Items::new(scene.alloc);
    items.push(Expr::symbol(head))?;
    call(scene.alloc, name(scene.names, Builtin::List), items)
}

/// The List of the calls of a symbol to which a left side is threaded.
fn listed(scene: &Scene, head: Sym, each: Exprs) -> Result<LeftSide, Halt>
    requires { (each ≡ [] → ⊥) → AreUnder head each }
    ensures { Evaluates (setting_of scene.now) (λ k. a.check_all each (k (n.make (names_in scene.now.names.now) Builtin.List each))) result }
{
    if let Some(stop) = first_stop(scene, &each) {
        return Err(Halt::Stopped(stop));
    }
    match make(scene.alloc, scene.names, Builtin::List, each) {
        Ok(list) => Ok(LeftSide::Whole(list)),
        Err(Built::NoMemory) => Err(Halt::NoMemory),
        Err(Built::TooLarge) => Ok(LeftSide::Large(list_of(scene, head)?)),
        Err(Built::TooDeep(_)) => Ok(LeftSide::Large(list_of(scene, head)?)),
    }
}

/// What flattening, threading and sorting leave.
fn settled(scene: &Scene, head: Expr, attrs: &Attrs, items: Exprs) -> Result<LeftSide, Halt>
    requires small { size (call head items) ≤ 4000000 }
    requires shallow { depth (call head items) ≤ 512 }
    ensures { Evaluates (setting_of scene.now) (λ k. settled (names_in scene.now.names.now) head (attributes_in attrs.now) k items) result }
{
    let items = flattened(scene.alloc, &head, attrs, items)?;
    match threaded(scene.alloc, scene.names, &head, attrs, items.as_slice())? {
        Some(each) => match symbol_in(&head) {
            Some(symbol) => listed(scene, symbol, each),
            None => unreachable!(),
        },
        None => Ok(LeftSide::Whole(sorted_call(scene.alloc, head, attrs, items)?)),
    }
}

/// The left side after all steps that follow its elements.
pub(crate) fn evaluated(scene: &Scene, elements: Elements) -> Result<LeftSide, Halt>
    ensures { Evaluates (setting_of scene.now) (λ k. assembled (names_in scene.now.names.now) elements.head (attributes_in elements.attrs) k elements.done) result }
{
    let Elements {
        head,
        attrs,
        rest: _,
        done,
    } = elements;
    let items = spliced(scene.alloc, scene.names, &attrs, done)?;
    let copies = copy_items(scene.alloc, &items)?;
    match checked(scene.alloc, &scene.limits, head.copy(scene.alloc)?, copies) {
        Err(halt) => Err(halt),
        Ok(whole) => {
            let _nodes = whole.size();
            let _levels = whole.depth();
            settled(scene, head, &attrs, items)
        }
    }
}

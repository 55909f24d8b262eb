//! ParallelCombine where it is no call.
ghost use Rattle.std.specs.Prelude.{◌≡◌, ◌∷◌, [], Bool, Option, unwrap_or, IfOk};
ghost use Rattle.expr_tree.specs.Tree.{Tree, call};
ghost use Rattle.semantics.specs.Definitions.{Definitions};
ghost use Rattle.semantics.specs.Program.{Prog, Done};
ghost use Rattle.builtin_names.specs.Named.{names_in};
ghost use Rattle.machine_steps.specs.Setup.{setting_of};
ghost use Rattle.machine_steps.specs.Steps.{Falls, Stepped};
ghost use Rattle.machine_outward.specs.OutwardLeft.{combiner_in, left_combine};

use builtin_names::name;
use evaluation_steps::{Halt, stop_for};
use expr_lists::one;
use expr_tree::{Expr, Exprs, Node};
use kernel_defs::Defs;
use machine_steps::{Move, Scene};
use semantics::Builtin;
use std::alloc::AllocError;

/// A function, an expression that it is applied to as a whole, and the head of the result, if one was given.
#[derive(Drop)]
pub struct Combine {
    pub(crate) function: Expr,
    pub(crate) list: Expr,
    pub(crate) combiner: Option<Expr>,
}

/// The head of the result where none was given: that of the expression, if it is a symbol that has Flat; else `Join`.
#[tactic(auto, using(builtin_names::proofs::Flags::flag_steps, expr_tree::proofs::Callers::tree_steps, crate::proofs::Combining::combine_steps))]
fn own_combiner(scene: &Scene, defs: &Defs, list: &Expr) -> Result<Expr, AllocError>
    ensures { IfOk result (λ e. e ≡ combiner_in (names_in scene.now.names.now) defs.now list.now) }
{
    if let Node::Normal(head, _) = list.node() {
        if let Node::Symbol(symbol) = head.node() {
            if defs.attrs_of(scene.names, *symbol).flat {
                return head.copy(scene.alloc);
            }
        }
    }
    Ok(name(scene.names, Builtin::Join))
}

/// The call of a head and elements is the result.
fn call_move(scene: &Scene, head: Expr, items: Exprs) -> Result<Move, Halt>
    ensures stepped { (stay : Prog) (d : Definitions) (used : Bool) (rest : Option Tree → Prog) → Stepped (setting_of scene.now) (Done (call head items)) stay d used result rest d used }
    ensures falls { Falls result 0 (λ _. 0) }
{
    match Expr::normal(scene.alloc, head, items) {
        Ok(e) => Ok(Move::Done(e)),
        Err(built) => Err(stop_for(&scene.limits, built)),
    }
}

impl Combine {
    /// The head of the result.
    fn result_head(&self, scene: &Scene, defs: &Defs) -> Result<Expr, AllocError>
        ensures { IfOk result (λ e. e ≡ unwrap_or self.now.combiner (combiner_in (names_in scene.now.names.now) defs.now self.now.list)) }
    {
        match &self.combiner {
            Some(combiner) => combiner.copy(scene.alloc),
            None => own_combiner(scene, defs, &self.list),
        }
    }

    /// The call of the function, which is no larger than the form, so that only memory can be wanting.
    fn applied(&self, scene: &Scene) -> Result<Expr, AllocError>
        ensures { IfOk result (λ e. e ≡ call self.now.function (self.now.list ∷ [])) }
    {
        let function = self.function.copy(scene.alloc)?;
        let items = one(scene.alloc, self.list.copy(scene.alloc)?)?;
        match Expr::normal(scene.alloc, function, items) {
            Ok(e) => Ok(e),
            Err(_) => Err(AllocError),
        }
    }

    /// The result.
    pub(crate) fn step(&self, scene: &Scene, defs: &Defs) -> Result<Move, Halt>
        ensures stepped { (stay : Prog) (used : Bool) (rest : Option Tree → Prog) → Stepped (setting_of scene.now) (left_combine (names_in scene.now.names.now) self.now) stay defs.now used result rest defs.now used }
        ensures falls { Falls result 0 (λ _. 0) }
    {
        let head = self.result_head(scene, defs)?;
        let items = one(scene.alloc, self.applied(scene)?)?;
        call_move(scene, head, items)
    }
}

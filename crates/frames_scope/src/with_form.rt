//! With: its body with the values of its locals in their place.
ghost use Rattle.std.specs.Prelude.{◌≡◌, ◌<◌, ◌-◌, ◌∷◌, [], length, IfOk, OnOk};
ghost use Rattle.expr_tree.specs.declared.limits.Limits.{Limits};
ghost use Rattle.evaluation_steps.specs.Moves.{Moved};
ghost use Rattle.semantics.specs.Names.{Names};
ghost use Rattle.frames_scope.specs.Asked.{IsValued, StartsWith};
ghost use Rattle.frames_scope.specs.ScopingLeft.{as_run, bound, left_with};
ghost use Rattle.frames_scope.specs.ScopeMoves.{moving, IfAsks};
ghost use Rattle.frames_scope.specs.Reading.{locals_in};

use crate::locals::{Locals, Scope};
use crate::moves::ScopeMove;
use expr_tree::{Expr, Exprs, Sym};
use item_list::Items;
use std::alloc::{AllocError, Global};
use std::mem;
use substitution::Bindings;

/// Symbols with expressions.
type Values = Items<(Sym, Expr)>;

/// The locals, the place of the next one, the symbol whose value was asked for, and the values of those before it.
#[derive(Drop)]
pub struct With {
    locals: Values,
    place: usize,
    asked: Option<Sym>,
    done: Bindings,
    body: Expr,
}

/// The locals with their values, where each has one.
fn values_of(alloc: Global, locals: &Locals) -> Result<Option<Values>, AllocError>
    ensures { IfOk result (λ r. IsValued (locals_in locals.now) r) }
{
    let mut values = Items::new(alloc);
    for local in locals.as_slice() {
        match &local.value {
            Some(e) => values.push((local.symbol, e.copy(alloc)?))?,
            None => return Ok(None),
        }
    }
    Ok(Some(values))
}

fn run_of(alloc: Global, value: Option<Expr>) -> Result<Exprs, AllocError>
    ensures { IfOk result (λ run. run ≡ as_run value) }
{
    let mut run = Items::new(alloc);
    if let Some(e) = value {
        run.push(e)?;
    }
    Ok(run)
}

impl With {
    /// A With before its first question; one in which a local has no value stays as it is.
    pub fn start(alloc: Global, scope: &Scope) -> Result<Option<With>, AllocError>
        ensures { (names : Names) → IfOk result (λ r. StartsWith names (locals_in scope.now.locals) scope.now.body r) }
    {
        let Some(locals) = values_of(alloc, &scope.locals)? else {
            return Ok(None);
        };
        Ok(Some(With {
            locals,
            place: 0,
            asked: None,
            done: Items::new(alloc),
            body: scope.body.copy(alloc)?,
        }))
    }

    fn take(&mut self, alloc: Global, answer: Option<Expr>) -> Result<(), AllocError>
        ensures done { OnOk result (self.new.done ≡ bound self.old.asked answer self.old.done) }
        ensures same { OnOk result ((self.new.locals ≡ self.old.locals) × (self.new.place ≡ self.old.place) × (self.new.body ≡ self.old.body)) }
    {
        match self.asked {
            Some(symbol) => {
                let run = run_of(alloc, answer)?;
                self.done.push((symbol, run))
            }
            None => Ok(()),
        }
    }

    /// The next question, or the result.
    pub fn step(&mut self, alloc: Global, answer: Option<Expr>) -> Result<ScopeMove, AllocError>
        ensures moved { (limits : Limits) (names : Names) → Moved limits (left_with names self.old answer) (moving names result) (left_with names self.new) }
        ensures falls { IfAsks result (length self.new.locals - self.new.place < length self.old.locals - self.old.place) }
    {
        self.take(alloc, answer)?;
        if self.place < self.locals.len() {
            let local = &self.locals.as_slice()[self.place];
            let question = local.1.copy(alloc)?;
            self.asked = Some(local.0);
            self.place += 1;
            return Ok(ScopeMove::Ask(question));
        }
        let done = mem::replace(&mut self.done, Items::new(alloc));
        Ok(ScopeMove::Place(done, self.body.copy(alloc)?))
    }
}

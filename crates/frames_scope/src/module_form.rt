//! Module: its locals are new symbols for good.
ghost use Rattle.std.specs.Prelude.{◌≡◌, ◌<◌, [], None, IfOk};
ghost use Rattle.expr_tree.specs.declared.limits.Limits.{Limits};
ghost use Rattle.semantics.specs.InPlace.{put_in_place};
ghost use Rattle.semantics.specs.Program.{Done};
ghost use Rattle.semantics.specs.Scoping.{ask_values, make_all, with_number, renaming};
ghost use Rattle.evaluation_steps.specs.Moves.{Moved};
ghost use Rattle.semantics.specs.Names.{Names};
ghost use Rattle.frames_scope.specs.Asked.{locals_left, IsMade};
ghost use Rattle.frames_scope.specs.ScopingLeft.{left_module};
ghost use Rattle.frames_scope.specs.ScopeMoves.{moving, IfAsks};
ghost use Rattle.frames_scope.specs.Reading.{locals_in};

use crate::asking::Asking;
use crate::locals::{Local, Locals, Scope};
use crate::moves::ScopeMove;
use expr_lists::{one, value_copied};
use expr_tree::{Expr, Sym};
use item_list::Items;
use std::alloc::{AllocError, Global};
use substitution::Bindings;

/// A Module whose number was taken.
#[derive(Drop)]
pub struct Module {
    number: u64,
    asking: Asking,
    body: Expr,
}

fn renamed(number: u64, symbol: Sym) -> Sym
    ensures { result ≡ record { base = symbol.base; number = number } }
{
    Sym {
        base: symbol.base,
        number,
    }
}

/// The locals with their new symbols.
fn with_number(alloc: Global, number: u64, locals: &Locals) -> Result<Locals, AllocError>
    ensures { IfOk result (λ r. locals_in r ≡ with_number number (locals_in locals.now)) }
{
    let mut numbered = Items::new(alloc);
    for local in locals.as_slice() {
        numbered.push(Local {
            symbol: renamed(number, local.symbol),
            value: value_copied(alloc, &local.value)?,
        })?;
    }
    Ok(numbered)
}

/// Each symbol with its new one.
fn renaming(alloc: Global, number: u64, locals: &Locals) -> Result<Bindings, AllocError>
    ensures { IfOk result (λ r. r ≡ renaming number (locals_in locals.now)) }
{
    let mut bindings = Items::new(alloc);
    for local in locals.as_slice() {
        let run = one(alloc, Expr::symbol(renamed(number, local.symbol)))?;
        bindings.push((local.symbol, run))?;
    }
    Ok(bindings)
}

impl Module {
    /// A Module with this number.
    pub fn start(alloc: Global, scope: Scope, number: u64) -> Module
        ensures { (names : Names) → left_module names result None ≡ ask_values (locals_in scope.locals) [] (λ ls. make_all (with_number number ls) (Done (put_in_place names (renaming number ls) scope.body))) }
    {
        Module {
            number,
            asking: Asking::new(alloc, scope.locals),
            body: scope.body,
        }
    }

    fn make_symbols(&mut self, alloc: Global) -> Result<ScopeMove, AllocError>
        ensures { IfOk result (λ move. IsMade self.old.number self.old.asking.done self.old.body move) }
    {
        let locals = self.asking.finish(alloc);
        let bindings = renaming(alloc, self.number, &locals)?;
        let numbered = with_number(alloc, self.number, &locals)?;
        Ok(ScopeMove::Make(numbered, bindings, self.body.copy(alloc)?))
    }

    /// The next question, or the symbols that are made and the result.
    pub fn step(&mut self, alloc: Global, answer: Option<Expr>) -> Result<ScopeMove, AllocError>
        ensures moved { (limits : Limits) (names : Names) → Moved limits (left_module names self.old answer) (moving names result) (left_module names self.new) }
        ensures falls { IfAsks result (locals_left self.new.asking < locals_left self.old.asking) }
    {
        match self.asking.next(alloc, answer)? {
            Some(question) => Ok(ScopeMove::Ask(question)),
            None => self.make_symbols(alloc),
        }
    }
}

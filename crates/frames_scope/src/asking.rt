//! The values of locals, asked for from left to right.
ghost use Rattle.std.specs.Prelude.{◌≡◌, ◌≤◌, ◌<◌, ◌-◌, ◌+◌, [], None, length, IfOk, OnOk, List};
ghost use Rattle.semantics.specs.Scoping.{ask_values};
ghost use Rattle.frames_scope.specs.Reading.{locals_in};
ghost use Rattle.frames_scope.specs.ScopingLeft.{answered};
ghost use Rattle.frames_scope.specs.Asked.{Goes, FallsBy, locals_left};

use crate::locals::{Local, Locals};
use expr_lists::value_copied;
use expr_tree::{Expr, Sym};
use item_list::Items;
use std::alloc::{AllocError, Global};

/// The locals, the place of the next one, the symbol whose value was asked for, and the locals before it with their values.
#[derive(Drop)]
pub struct Asking {
    locals: Locals,
    place: usize,
    asked: Option<Sym>,
    done: Locals,
}

impl Asking {
    pub(crate) fn new(alloc: Global, locals: Locals) -> Asking
        ensures { result ≡ record { locals = locals; place = 0; asked = None; done = [] } }
    {
        Asking {
            locals,
            place: 0,
            asked: None,
            done: Items::new(alloc),
        }
    }

    #[tactic(auto, using(crate::proofs::Questions::push_steps))]
    fn take(&mut self, answer: Option<Expr>) -> Result<(), AllocError>
        ensures done { OnOk result (locals_in self.new.done ≡ answered self.old.asked answer (locals_in self.old.done)) }
        ensures same { OnOk result ((self.new.locals ≡ self.old.locals) × (self.new.place ≡ self.old.place) × (self.new.asked ≡ None)) }
    {
        match self.asked.take() {
            Some(symbol) => self.done.push(Local {
                symbol,
                value: answer,
            }),
            None => Ok(()),
        }
    }

    /// The next question, or nothing where `done` has all values.
    pub(crate) fn next(
        &mut self,
        alloc: Global,
        answer: Option<Expr>,
    ) -> Result<Option<Expr>, AllocError>
        ensures goes { IfOk result (λ question. Goes self.old answer question self.new) }
        ensures falls { IfOk result (λ question. FallsBy question (locals_left self.new) (locals_left self.old)) }
    {
        self.take(answer)?;
        while self.place < self.locals.len() {
            let local = &self.locals.as_slice()[self.place];
            let symbol = local.symbol;
            let value = value_copied(alloc, &local.value)?;
            self.place += 1;
            match value {
                Some(question) => {
                    self.asked = Some(symbol);
                    return Ok(Some(question));
                }
                None => self.done.push(Local {
                    symbol,
                    value: None,
                })?,
            }
        }
        Ok(None)
    }

    /// The locals with their values.
    pub(crate) fn finish(&mut self, alloc: Global) -> Locals
        ensures { result ≡ self.old.done }
    {
        std::mem::replace(&mut self.done, Items::new(alloc))
    }
}

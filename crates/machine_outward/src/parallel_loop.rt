//! ParallelTable, ParallelDo and ParallelSum in a cell outside a section: the parts of the first iterator and the right side of the option are
//! asked for, and then the form is sent.
ghost use Rattle.std.specs.Prelude.{◌≡◌, Bool};
ghost use Rattle.semantics.specs.Definitions.{Definitions};
ghost use Rattle.semantics.specs.Program.{Prog};
ghost use Rattle.builtin_names.specs.Named.{names_in};
ghost use Rattle.machine_steps.specs.Setup.{setting_of};
ghost use Rattle.machine_steps.specs.Steps.{Falls, Stepped};
ghost use Rattle.machine_outward.specs.Loops.{after_parts, further_with, left_at, left_loop, questions, questions_at, sent};

use crate::loop_call::LoopCall;
use crate::loop_parts::{Found, LoopParts};
use evaluation_steps::Halt;
use expr_tree::{Expr, Exprs};
use item_list::Items;
use kernel_defs::Defs;
use machine_steps::{Move, Request, Scene};
use std::mem;

/// What is asked for, or that the form was sent. With the right side of the option the parts are known.
#[derive(Drop)]
pub enum LoopState {
    Parts(LoopParts),
    Method(Exprs),
    Sent,
}

/// A form that is going to be sent, and where it stands.
#[derive(Drop)]
pub struct ParallelLoop {
    pub(crate) call: LoopCall,
    pub(crate) state: LoopState,
}

impl LoopState {
    /// Sends the form with these parts, and with the right side of its option, if it has one.
    fn send(
        &mut self,
        scene: &Scene,
        call: &LoopCall,
        parts: Exprs,
        value: Option<Expr>,
    ) -> Result<Move, Halt>
        ensures stepped { (stay : Prog) (d : Definitions) (used : Bool) → Stepped (setting_of scene.now) (sent (names_in scene.now.names.now) call.now parts (further_with call.now value)) stay d used result (left_at (names_in scene.now.names.now) call.now self.new stay) d used }
        ensures falls { Falls result 2 (λ _. questions_at self.new) }
    {
        let form = call.formed(scene, parts, value)?;
        match form.judged(&scene.limits) {
            Ok(e) => {
                *self = LoopState::Sent;
                Ok(Move::Call(Request::Outside(e)))
            }
            Err(stop) => Err(Halt::Stopped(stop)),
        }
    }

    /// Goes on with the parts of the iterator.
    fn with_parts(&mut self, scene: &Scene, call: &LoopCall, parts: Exprs) -> Result<Move, Halt>
        ensures stepped { (stay : Prog) (d : Definitions) (used : Bool) → Stepped (setting_of scene.now) (after_parts (names_in scene.now.names.now) call.now parts) stay d used result (left_at (names_in scene.now.names.now) call.now self.new stay) d used }
        ensures falls { Falls result 3 (λ _. questions_at self.new) }
    {
        match &call.option {
            Some(option) => {
                let question = option.value.copy(scene.alloc)?;
                *self = LoopState::Method(parts);
                Ok(Move::Ask(question, false))
            }
            None => self.send(scene, call, parts, None),
        }
    }

    fn step(
        &mut self,
        scene: &Scene,
        call: &LoopCall,
        defs: &Defs,
        used: &mut bool,
        answer: Option<Expr>,
    ) -> Result<Move, Halt>
        ensures stepped { (stay : Prog) → Stepped (setting_of scene.now) (left_at (names_in scene.now.names.now) call.now self.old stay answer) stay defs.now used.old result (left_at (names_in scene.now.names.now) call.now self.new stay) defs.now used.new }
        ensures falls { Falls result (questions_at self.old) (λ _. questions_at self.new) }
    {
        match self {
            LoopState::Parts(parts) => match answer {
                None => Ok(parts.open(scene, defs, used)),
                Some(value) => match parts.take(scene, value)? {
                    Found::Moves(next) => Ok(next),
                    Found::Parts(found) => self.with_parts(scene, call, found),
                },
            },
            LoopState::Method(parts) => match answer {
                None => Ok(Move::Stays),
                Some(value) => {
                    let parts = mem::replace(parts, Items::new(scene.alloc));
                    self.send(scene, call, parts, Some(value))
                }
            },
            LoopState::Sent => match answer {
                None => Ok(Move::Stays),
                Some(value) => Ok(Move::Done(value)),
            },
        }
    }
}

impl ParallelLoop {
    /// The next question, the call, or the result.
    pub(crate) fn step(
        &mut self,
        scene: &Scene,
        defs: &Defs,
        used: &mut bool,
        answer: Option<Expr>,
    ) -> Result<Move, Halt>
        ensures stepped { (stay : Prog) → Stepped (setting_of scene.now) (left_loop (names_in scene.now.names.now) self.old stay answer) stay defs.now used.old result (left_loop (names_in scene.now.names.now) self.new stay) defs.now used.new }
        ensures falls { Falls result (questions self.old) (λ _. questions self.new) }
    {
        self.state.step(scene, &self.call, defs, used, answer)
    }
}

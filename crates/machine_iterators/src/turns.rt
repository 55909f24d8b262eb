//! The body for each value.
ghost use Rattle.std.specs.Prelude.{◌≡◌, ℕ, Bool, Option, None, Ok, reverse, length, OnOk};
ghost use Rattle.expr_tree.specs.Tree.{Tree};
ghost use Rattle.semantics.specs.Definitions.{Definitions};
ghost use Rattle.semantics.specs.Names as n;
ghost use Rattle.semantics.specs.Program.{Prog, Done};
ghost use Rattle.builtin_names.specs.Named.{names_in};
ghost use Rattle.machine_steps.specs.Setup.{setting_of};
ghost use Rattle.machine_steps.specs.Steps.{Stepped, Falls};
ghost use Rattle.machine_iterators.specs.IterationForms.{finish};
ghost use Rattle.machine_iterators.specs.IterationLeft.{values_in, left_turns};

use crate::body::{Body, IterationForm, locals_of};
use crate::iterator_values::IteratorValues;
use builtin_names::{make, name};
use evaluation_steps::{Halt, stop_for};
use expr_tree::{Expr, Exprs};
use frames_control::Stack;
use machine_steps::{Move, Scene};
use semantics::Builtin;
use std::alloc::AllocError;

/// The values that are left, and those of the body so far, the last first. Do keeps none.
#[derive(Drop)]
pub struct Turns {
    pub(crate) values: IteratorValues,
    pub(crate) done: Stack,
}

/// The result of a form: a row of values.
fn row_of_values(scene: &Scene, row: Builtin, values: Exprs) -> Result<Move, Halt>
    ensures stepped { (stay : Prog) (d : Definitions) (used : Bool) (rest : Option Tree → Prog) → Stepped (setting_of scene.now) (Done (n.make (names_in scene.now.names.now) row values)) stay d used result rest d used }
    ensures ends { (before : ℕ) (after : Option Tree → ℕ) → Falls result before after }
{
    match make(scene.alloc, scene.names, row, values) {
        Ok(e) => Ok(Move::Done(e)),
        Err(built) => Err(stop_for(&scene.limits, built)),
    }
}

impl Turns {
    fn keep(&mut self, body: &Body, answer: Option<Expr>) -> Result<(), AllocError>
        ensures kept { (names : n.Names) → OnOk result (left_turns names body.now self.old answer ≡ left_turns names body.now self.new None) }
        ensures values { OnOk result (values_in self.new.values ≡ values_in self.old.values) }
    {
        let Some(value) = answer else {
            return Ok(());
        };
        match body.form {
            IterationForm::Do => Ok(()),
            IterationForm::Table | IterationForm::Sum => self.done.push(value),
        }
    }

    fn finish(&mut self, scene: &Scene, form: IterationForm) -> Result<Move, Halt>
        ensures stepped { (stay : Prog) (d : Definitions) (used : Bool) (rest : Option Tree → Prog) → Stepped (setting_of scene.now) (finish (names_in scene.now.names.now) form (reverse self.old.done)) stay d used result rest d used }
        ensures ends { (before : ℕ) (after : Option Tree → ℕ) → Falls result before after }
    {
        let values = self.done.take_reversed(scene.alloc);
        match form {
            IterationForm::Do => Ok(Move::Done(name(scene.names, Builtin::Null))),
            IterationForm::Table => row_of_values(scene, Builtin::List, values),
            IterationForm::Sum => row_of_values(scene, Builtin::Plus, values),
        }
    }

    fn turn(&mut self, scene: &Scene, body: &Body) -> Result<Move, Halt>
        ensures stepped { (stay : Prog) (d : Definitions) (used : Bool) → Stepped (setting_of scene.now) (left_turns (names_in scene.now.names.now) body.now self.old None) stay d used result (left_turns (names_in scene.now.names.now) body.now self.new) d used }
        ensures falls { Falls result (length (values_in self.old.values)) (λ _. length (values_in self.new.values)) }
    {
        let Some(value) = self.values.next() else {
            return self.finish(scene, body.form);
        };
        let locals = locals_of(scene.alloc, body.symbol, value)?;
        Ok(Move::Within(locals, body.expression.copy(scene.alloc)?, true))
    }

    /// The body with the next value, or the result. The answer is the value of the body with the one before.
    pub(crate) fn step(
        &mut self,
        scene: &Scene,
        body: &Body,
        answer: Option<Expr>,
    ) -> Result<Move, Halt>
        ensures stepped { (stay : Prog) (d : Definitions) (used : Bool) → Stepped (setting_of scene.now) (left_turns (names_in scene.now.names.now) body.now self.old answer) stay d used result (left_turns (names_in scene.now.names.now) body.now self.new) d used }
        ensures falls { Falls result (length (values_in self.old.values)) (λ _. length (values_in self.new.values)) }
    {
        self.keep(body, answer)?;
        self.turn(scene, body)
    }
}

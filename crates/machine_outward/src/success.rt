//! ParallelTry where it is no call: the elements in turn, until a result is not `$Failed`.
ghost use Rattle.std.specs.Prelude.{◌≡◌, Bool, length, None};
ghost use Rattle.semantics.specs.Definitions.{Definitions};
ghost use Rattle.semantics.specs.Program.{Prog};
ghost use Rattle.builtin_names.specs.Named.{names_in};
ghost use Rattle.machine_steps.specs.Setup.{setting_of};
ghost use Rattle.machine_steps.specs.Steps.{Falls, Stepped};
ghost use Rattle.machine_outward.specs.OutwardLeft.{left_success};

use builtin_names::{is_name, name};
use evaluation_steps::{Halt, checked};
use expr_lists::one;
use expr_tree::Expr;
use frames_control::Stack;
use machine_steps::{Move, Scene};
use semantics::Builtin;

/// A function, and the elements that are left.
#[derive(Drop)]
pub struct Success {
    pub(crate) function: Expr,
    pub(crate) rest: Stack,
}

impl Success {
    /// Asks for the function at the next element.
    fn next(&mut self, scene: &Scene) -> Result<Move, Halt>
        ensures stepped { (stay : Prog) (d : Definitions) (used : Bool) → Stepped (setting_of scene.now) (left_success (names_in scene.now.names.now) self.old None) stay d used result (left_success (names_in scene.now.names.now) self.new) d used }
        ensures falls { Falls result (length self.old.rest) (λ _. length self.new.rest) }
    {
        let Some(element) = self.rest.pop() else {
            return Ok(Move::Done(name(scene.names, Builtin::Failed)));
        };
        let function = self.function.copy(scene.alloc)?;
        let question = checked(
            scene.alloc,
            &scene.limits,
            function,
            one(scene.alloc, element)?,
        )?;
        Ok(Move::Ask(question, true))
    }

    /// Goes on with the result at the element before.
    pub(crate) fn step(&mut self, scene: &Scene, answer: Option<Expr>) -> Result<Move, Halt>
        ensures stepped { (stay : Prog) (d : Definitions) (used : Bool) → Stepped (setting_of scene.now) (left_success (names_in scene.now.names.now) self.old answer) stay d used result (left_success (names_in scene.now.names.now) self.new) d used }
        ensures falls { Falls result (length self.old.rest) (λ _. length self.new.rest) }
    {
        match answer {
            None => self.next(scene),
            Some(value) => {
                if is_name(scene.names, Builtin::Failed, &value) {
                    return self.next(scene);
                }
                Ok(Move::Done(value))
            }
        }
    }
}

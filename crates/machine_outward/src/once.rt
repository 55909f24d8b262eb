//! Rows of one move.
ghost use Rattle.std.specs.Prelude.{Bool, None, Ok};
ghost use Rattle.semantics.specs.Definitions.{Definitions};
ghost use Rattle.semantics.specs.Program.{Prog};
ghost use Rattle.builtin_names.specs.Named.{names_in};
ghost use Rattle.machine_steps.specs.Setup.{setting_of};
ghost use Rattle.machine_steps.specs.Steps.{Falls, Stepped};
ghost use Rattle.machine_outward.specs.OutwardLeft.{given, left_once, once_left};

use builtin_names::name;
use expr_tree::Expr;
use machine_steps::{Move, Scene};
use semantics::Builtin;

/// What the answer to a move gives: itself, or `Null`.
#[derive(Clone, Copy, Debug, PartialEq, Eq)]
pub enum Reply {
    Itself,
    Null,
}

/// A row of one move, as long as it is not made, whose answer gives the result.
#[derive(Drop)]
pub struct Once {
    pub(crate) next: Option<Move>,
    pub(crate) reply: Reply,
}

/// The result, by the answer to the move.
fn given(scene: &Scene, reply: Reply, answer: Option<Expr>) -> Move
    ensures stepped { (stay : Prog) (d : Definitions) (used : Bool) → Stepped (setting_of scene.now) (given (names_in scene.now.names.now) reply stay answer) stay d used (Ok result) (given (names_in scene.now.names.now) reply stay) d used }
    ensures falls { Falls (Ok result) 0 (λ _. 0) }
{
    let Some(value) = answer else {
        return Move::Stays;
    };
    match reply {
        Reply::Itself => Move::Done(value),
        Reply::Null => Move::Done(name(scene.names, Builtin::Null)),
    }
}

impl Once {
    /// Makes the move, or gives the result.
    pub(crate) fn step(&mut self, scene: &Scene, answer: Option<Expr>) -> Move
        ensures stepped { (stay : Prog) (d : Definitions) (used : Bool) → Stepped (setting_of scene.now) (left_once (names_in scene.now.names.now) self.old stay answer) stay d used (Ok result) (left_once (names_in scene.now.names.now) self.new stay) d used }
        ensures falls { Falls (Ok result) (once_left self.old) (λ _. once_left self.new) }
    {
        match self.next.take() {
            Some(next) => next,
            None => given(scene, self.reply, answer),
        }
    }
}

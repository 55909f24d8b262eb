//! The words in which the code of an evaluator speaks of the definition, and the laws by which such contracts are put together: that
//! a call or a step leads from one program to another, what an evaluation told, and which stop an expression makes that is too large
//! or too deep. It has the types `Halt`, why a piece of work has no result, `Exit`, how an evaluation ends without a value, and
//! `Outside`, and stands on `semantics`.
#![tactic(auto)]

ghost use Rattle.std.specs.Prelude.{◌≡◌};
ghost use Rattle.semantics.specs.Definitions.{Definitions};
ghost use Rattle.semantics.specs.Program.{Call};
ghost use Rattle.semantics.specs.Play.{Reply};
ghost use Rattle.evaluation_steps.specs.declared.Exit.{Exit};
ghost use Rattle.evaluation_steps.specs.declared.Halt.{Halt};
ghost use Rattle.evaluation_steps.specs.Explain.{Explained};

mod stops;

use expr_tree::{Expr, Stop};
use std::alloc::AllocError;
pub use stops::{checked, fits, stop_for};

/// Why a piece of work of an evaluation has no result.
#[derive(Clone, Copy)]
pub enum Halt {
    Stopped(Stop),
    NoMemory,
}

/// How an evaluation ends without a value.
#[derive(Drop)]
pub enum Exit {
    Stopped(Stop),
    /// A pass throws a value, which its evaluation judges before it ends with `Thrown`.
    Throwing(Expr),
    Thrown(Expr),
    Quit,
    Closed,
    NoMemory,
}

impl From<AllocError> for Halt {
    ghost from_gives = { λ _ h. h ≡ Halt.NoMemory };

    fn from(_error: AllocError) -> Halt {
        Halt::NoMemory
    }
}

impl From<Halt> for Exit {
    ghost use Rattle.evaluation_steps.specs.Leads.{exit_of};

    ghost from_gives = { λ h x. x ≡ exit_of h };

    fn from(halt: Halt) -> Exit {
        match halt {
            Halt::Stopped(stop) => Exit::Stopped(stop),
            Halt::NoMemory => Exit::NoMemory,
        }
    }
}

impl From<AllocError> for Exit {
    ghost from_gives = { λ _ x. x ≡ Exit.NoMemory };

    fn from(_error: AllocError) -> Exit {
        Exit::NoMemory
    }
}

/// The outside of an evaluation. Its step relates the state before, the definitions before, the call, the reply,
/// the definitions after and the state after.
pub trait Outside {
    ghost step: { Self → Definitions → Call → Reply → Definitions → Self → Type 0 };
}

/// The calls of an evaluation, their replies and the definitions after them are a list that explains it.
pub fn calls_explain<U: Outside>()
    ensures law { Explained U.step }
{}

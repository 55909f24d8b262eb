//! The value of a cell.
ghost use Rattle.std.specs.Prelude.{◌≡◌, ◌≤◌, length, [], Some, IfOk};
ghost use Rattle.expr_tree.specs.Tree.{depth};
ghost use Rattle.script_text.specs.Laws.{IsKept};
ghost use Rattle.script_text.specs.Spelling.{by_texts, place_in};
ghost use Rattle.semantics.specs.Definitions.{empty};
ghost use Rattle.semantics.specs.Eval as sem;
ghost use Rattle.builtin_names.specs.Named.{names_in};
ghost use Rattle.laws_bases.specs.Kept.{AreKeptIn, IsKeptValue};
ghost use Rattle.sequential_transcript.specs.Transcript.{limits_of, alone, ran, value_in};

use crate::outside::NoOutside;
use crate::thrown::shown_throw;
use crate::unbuilt::has_unbuilt;
use builtin_names::{Vocabulary, name};
use eval_seq::{Context, Defs, KernelState, Mode, Outcome, eval};
use expr_tree::{Expr, Limits};
use semantics::Builtin;
use std::alloc::{AllocError, Global};

/// The definitions before the first cell.
pub(crate) fn first_definitions(alloc: Global) -> Result<Defs, AllocError>
    ensures { IfOk result (λ d. d ≡ empty) }
{
    Defs::new(alloc)
}

/// The limits of each cell.
fn limits_of(steps: u64) -> Limits
    ensures { result ≡ limits_of steps }
{
    Limits {
        recursion: 256,
        iteration: 4096,
        steps,
        size: 4_000_000,
        depth: 512,
    }
}

/// An expression is at most 512 deep.
fn is_within_depth(e: &Expr)
    ensures { depth e.now ≤ 512 }
{
    let _ = e.depth();
}

/// What an expression that is evaluated alone shows: its value, `$Aborted` where it stops, `Hold[Throw[v]]` where it throws. Where mode or kernel mattered
/// or a call was needed, though no name of a row that does so stands in the cell, there is no answer but that of want of memory.
fn evaluated(
    alloc: Global,
    names: &Vocabulary,
    steps: u64,
    state: &mut KernelState,
    e: &Expr,
) -> Result<Expr, AllocError>
    requires kept { IsKept (length names.now.texts) e.now }
    requires kept_before { AreKeptIn (length names.now.texts) state.old.defs }
    ensures value { IfOk result (λ v. Some v ≡ value_in (names_in names.now) (limits_of steps) (sem.eval (alone (by_texts names.now.texts) (names_in names.now) steps) state.old.defs e.now []).outcome) }
    ensures definitions { IfOk result (λ v. state.new.defs ≡ (sem.eval (alone (by_texts names.now.texts) (names_in names.now) steps) state.old.defs e.now []).definitions) }
    ensures kept { IfOk result (λ v. IsKept (length names.now.texts) v) }
    ensures kept_after { IfOk result (λ v. AreKeptIn (length names.now.texts) state.new.defs) }
{
    let _rows = names.names();
    let context = Context {
        names,
        mode: Mode::Cell,
        kernel: 0,
    };
    let limits = limits_of(steps);
    let mut outside = NoOutside { names };
    let outcome = eval(alloc, &context, &limits, state, &mut outside, e);
    if state.used {
        return Err(AllocError);
    }
    match outcome {
        Outcome::Value(value) => Ok(value),
        Outcome::Stopped(_) => Ok(name(names, Builtin::Aborted)),
        Outcome::Thrown(value) => shown_throw(alloc, names, &limits, value),
        Outcome::Quit | Outcome::Closed | Outcome::NoMemory => Err(AllocError),
    }
}

/// The value of a cell that is read as an expression, if it is built.
#[tactic(auto, using(crate::proofs::TranscriptLemmas::value_steps))]
pub(crate) fn value_of(
    alloc: Global,
    names: &Vocabulary,
    steps: u64,
    state: &mut KernelState,
    e: Expr,
) -> Result<Option<Expr>, AllocError>
    requires kept { IsKept (length names.now.texts) e }
    requires kept_before { AreKeptIn (length names.now.texts) state.old.defs }
    ensures value { IfOk result (λ v. v ≡ (ran (by_texts names.now.texts) (names_in names.now) (place_in names.now.texts) steps state.old.defs e).value) }
    ensures definitions { IfOk result (λ v. state.new.defs ≡ (ran (by_texts names.now.texts) (names_in names.now) (place_in names.now.texts) steps state.old.defs e).definitions) }
    ensures kept { IfOk result (λ v. IsKeptValue (length names.now.texts) v) }
    ensures kept_after { IfOk result (λ v. AreKeptIn (length names.now.texts) state.new.defs) }
{
    is_within_depth(&e);
    if has_unbuilt(names, &e) {
        return Ok(None);
    }
    Ok(Some(evaluated(alloc, names, steps, state, &e)?))
}

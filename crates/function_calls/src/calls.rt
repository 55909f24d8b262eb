//! Function[body][arguments] and Function[parameters, body][arguments].
ghost use Rattle.std.specs.Prelude.{[], ◌∷◌};
ghost use Rattle.semantics.specs.InPlace.{fill_slots, put_in_place};
ghost use Rattle.semantics.specs.Worked.{Gives};
ghost use Rattle.builtin_names.specs.Named.{names_in};
ghost use Rattle.builtin_names.specs.Results.{Works};
ghost use Rattle.function_calls.specs.Applies.{Applies};

use crate::count::nodes_after;
use crate::fill::fill;
use crate::parameters::{paired, parameters};
use builtin_names::{Fault, Vocabulary};
use expr_lists::differ;
use expr_tree::{Built, Expr, MAX_SIZE};
use std::alloc::Global;
use substitution::{Bindings, subst};

/// The body with the arguments in the places of its slots. Levels without slots are shared with it.
fn filled(
    alloc: Global,
    names: &Vocabulary,
    args: &[Expr],
    body: &Expr,
) -> Result<Option<Expr>, Fault>
    ensures { Works (Gives (fill_slots (names_in names.now) args.now body.now)) result }
{
    match fill(alloc, names, args, body) {
        Ok(None) => Ok(Some(body.copy(alloc)?)),
        Ok(Some(made)) => Ok(Some(made)),
        Err(Built::TooDeep(_)) => {
            let nodes = nodes_after(names, args, body);
            if nodes > MAX_SIZE {
                Err(Fault::TooLarge)
            } else {
                Err(Fault::TooDeep(nodes))
            }
        }
        Err(fault) => Err(fault.into()),
    }
}

/// The body with the arguments in the places of the parameters.
fn placed(
    alloc: Global,
    names: &Vocabulary,
    bindings: &Bindings,
    body: &Expr,
) -> Result<Option<Expr>, Fault>
    ensures { Works (Gives (put_in_place (names_in names.now) bindings.now body.now)) result }
{
    Ok(Some(subst(alloc, body, bindings, names)?))
}

#[tactic(auto, using(crate::proofs::Applied::named_steps))]
fn apply_named(
    alloc: Global,
    names: &Vocabulary,
    first: &Expr,
    body: &Expr,
    args: &[Expr],
) -> Result<Option<Expr>, Fault>
    ensures { Applies (names_in names.now) (first.now ∷ body.now ∷ []) args.now result }
{
    let Some(symbols) = parameters(alloc, names, first)? else {
        return Ok(None);
    };
    if !differ(symbols.as_slice()) {
        return Ok(None);
    }
    match paired(alloc, symbols.as_slice(), args)? {
        Some(bindings) => placed(alloc, names, &bindings, body),
        None => Ok(None),
    }
}

/// What a Function of these elements makes of arguments: nothing where it stays as it is.
#[tactic(auto, using(crate::proofs::Applied::apply_steps))]
pub fn apply(
    alloc: Global,
    names: &Vocabulary,
    parts: &[Expr],
    args: &[Expr],
) -> Result<Option<Expr>, Fault>
    ensures { Applies (names_in names.now) parts.now args.now result }
{
    if parts.len() == 1 {
        return filled(alloc, names, args, &parts[0]);
    }
    if parts.len() != 2 {
        return Ok(None);
    }
    apply_named(alloc, names, &parts[0], &parts[1], args)
}

//! The call of a head and elements, after the steps that ask nothing.
ghost use Rattle.std.specs.Prelude.{◌≡◌, ◌≤◌, None, Some, IfOk, unwrap_or};
ghost use Rattle.expr_tree.specs.Tree.{Tree, call, trees, size, sizes, depth, depths};
ghost use Rattle.semantics.specs.declared.builtin.Builtin.{Builtin};
ghost use Rattle.semantics.specs.Names.{make};
ghost use Rattle.semantics.specs.Program.{Done};
ghost use Rattle.semantics.specs.Assemble.{check_all};
ghost use Rattle.semantics.specs.Pass.{left_standing};
ghost use Rattle.builtin_names.specs.Attributes.{attributes_in};
ghost use Rattle.builtin_names.specs.Named.{names_in};
ghost use Rattle.evaluation_steps.specs.Stopping.{AreBounded};
ghost use Rattle.eval_seq.specs.Sequence.{stripped, AssembledBy, Answers};

use crate::effects::check;
use attr_steps::{flattened, has_wrapper, sorted, strip, threaded};
use builtin_names::{Vocabulary, make};
use evaluation_steps::{Halt, stop_for};
use expr_tree::{Attrs, Built, Expr, Exprs, Limits, copy_items};
use semantics::Builtin;
use std::alloc::{AllocError, Global};

/// A head with its attributes and the elements that splicing left.
#[derive(Drop)]
pub(crate) struct Spliced {
    pub head: Expr,
    pub attrs: Attrs,
    pub items: Exprs,
}

/// What the steps give: the calls to which a call is threaded; or the call, with what stands where nothing else gives a result,
/// where that is another expression.
#[derive(Drop)]
pub(crate) enum Assembled {
    Threaded(Exprs),
    Call(Expr, Option<Expr>),
}

/// The call of a head and elements that is within the limits of an expression.
fn call(alloc: Global, head: Expr, items: Exprs) -> Result<Expr, AllocError>
    requires small { size (call head items) ≤ 4000000 }
    requires shallow { depth (call head items) ≤ 512 }
    ensures { IfOk result (λ e. e ≡ call head items) }
{
    match Expr::normal(alloc, head, items) {
        Ok(e) => Ok(e),
        Err(Built::NoMemory) => Err(AllocError),
        Err(Built::TooLarge) | Err(Built::TooDeep(_)) => unreachable!(),
    }
}

/// What stands where nothing gives a result, if it is not the call.
#[tactic(auto, using(builtin_names::proofs::Flags::flag_steps))]
fn standing(
    alloc: Global,
    names: &Vocabulary,
    head: &Expr,
    attrs: &Attrs,
    items: &Exprs,
) -> Result<Option<Expr>, AllocError>
    requires small { size (call head.now items.now) ≤ 4000000 }
    requires shallow { depth (call head.now items.now) ≤ 512 }
    ensures { IfOk result (λ o. (whole : Tree) → unwrap_or o whole ≡ left_standing (names_in names.now) (attributes_in attrs.now) head.now items.now whole) }
{
    if attrs.hold_all_complete {
        return Ok(None);
    }
    if !has_wrapper(names, items.as_slice()) {
        return Ok(None);
    }
    let head = head.copy(alloc)?;
    let items = copy_items(alloc, items)?;
    Ok(Some(call(alloc, head, items)?))
}

#[tactic(auto, using(builtin_names::proofs::Flags::flag_steps, crate::proofs::Smaller::smaller_steps))]
fn stripped(
    alloc: Global,
    names: &Vocabulary,
    attrs: &Attrs,
    items: Exprs,
) -> Result<Exprs, AllocError>
    ensures value { IfOk result (λ r. r ≡ stripped (names_in names.now) (attributes_in attrs.now) items) }
    ensures no_larger { IfOk result (λ r. sizes (trees r) ≤ sizes (trees items)) }
    ensures no_deeper { IfOk result (λ r. depths (trees r) ≤ depths (trees items)) }
{
    if attrs.hold_all_complete {
        return Ok(items);
    }
    strip(alloc, names, items)
}

/// What sorting leaves, as the call.
#[tactic(auto, using(crate::proofs::Smaller::smaller_steps))]
fn sorted_call(alloc: Global, head: Expr, attrs: &Attrs, items: Exprs) -> Result<Expr, AllocError>
    requires small { size (call head items) ≤ 4000000 }
    requires shallow { depth (call head items) ≤ 512 }
    ensures { IfOk result (λ e. e ≡ call head (Rattle.semantics.specs.Assemble.sorted (attributes_in attrs.now) items)) }
{
    let items = sorted(alloc, attrs, items)?;
    call(alloc, head, items)
}

/// The steps after splicing that ask nothing.
pub(crate) fn assemble(
    alloc: Global,
    names: &Vocabulary,
    head: Expr,
    attrs: &Attrs,
    items: Exprs,
) -> Result<Assembled, AllocError>
    requires small { size (call head items) ≤ 4000000 }
    requires shallow { depth (call head items) ≤ 512 }
    ensures { IfOk result (λ x. AssembledBy (names_in names.now) head (attributes_in attrs.now) items x) }
{
    let standing = standing(alloc, names, &head, attrs, &items)?;
    let items = stripped(alloc, names, attrs, items)?;
    let items = flattened(alloc, &head, attrs, items)?;
    if let Some(each) = threaded(alloc, names, &head, attrs, items.as_slice())? {
        return Ok(Assembled::Threaded(each));
    }
    Ok(Assembled::Call(sorted_call(alloc, head, attrs, items)?, standing))
}

/// The list of the calls to which a call is threaded.
#[tactic(auto, using(crate::proofs::Answered::listed_steps))]
pub(crate) fn listed(
    alloc: Global,
    names: &Vocabulary,
    limits: &Limits,
    each: Exprs,
) -> Result<Expr, Halt>
    requires bounded { AreBounded limits.now }
    ensures { Answers limits.now (check_all each (Done (make (names_in names.now) Builtin.List each))) result }
{
    for e in each.as_slice() {
        check(limits, e)?;
    }
    match make(alloc, names, Builtin::List, each) {
        Ok(v) => Ok(v),
        Err(built) => Err(stop_for(limits, built)),
    }
}

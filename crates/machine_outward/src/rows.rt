//! How rows begin.
ghost use Rattle.std.specs.Prelude.{◌≡◌, Bool, true, IfOk, IfSome, is_some};
ghost use Rattle.semantics.specs.Names.{make};
ghost use Rattle.semantics.specs.Control as c;
ghost use Rattle.semantics.specs.Sections as s;
ghost use Rattle.semantics.specs.Table as t;
ghost use Rattle.semantics.specs.declared.builtin.Builtin.{Builtin as B};
ghost use Rattle.row_kinds.specs.Kinds.{is_outward};
ghost use Rattle.machine_outward.specs.Beginnings.{Combines, IsLoop, IsSection};
ghost use Rattle.machine_outward.specs.Loops as loops;
ghost use Rattle.machine_outward.specs.Placing.{names_at, Opens};
ghost use Rattle.machine_outward.specs.Shapes as shapes;

use crate::combine::Combine;
use crate::forms::{call_of, failure, instead, result_of};
use crate::loop_call::{LoopCall, LoopForm};
use crate::loop_parts::{LoopParts, shape_of};
use crate::once::Reply;
use crate::options::{is_last_option, split_option, without_option};
use crate::outward_row::OutwardRow;
use crate::parallel_loop::{LoopState, ParallelLoop};
use crate::place::{Form, Place};
use crate::printed::printed;
use crate::shapes::{
    are_symbols, has_object, is_alone, is_combining, is_mapping, is_submission, is_trying,
};
use crate::success::Success;
use builtin_names::{items_of, items_under};
use expr_lists::symbols_in;
use expr_tree::{Expr, Syms};
use frames_control::Stack;
use item_list::Items;
use machine_steps::{Mode, Move, Request};
use semantics::Builtin;
use std::alloc::{AllocError, Global};

/// A row that begins, or that stays as it is.
type Begun = Result<Option<OutwardRow>, AllocError>;

fn throw(place: &Place, items: &[Expr]) -> Begun
    ensures { (used : Bool) → Opens place.now (λ stay. c.throw stay items.now) used result used }
{
    let [value] = items else {
        return Ok(None);
    };
    let value = value.copy(place.scene.alloc)?;
    Ok(Some(OutwardRow::once(Move::Throw(value), Reply::Itself)))
}

fn catch(place: &Place, items: &[Expr]) -> Begun
    ensures { (used : Bool) → Opens place.now (λ stay. c.catch stay items.now) used result used }
{
    let [body] = items else {
        return Ok(None);
    };
    let body = body.copy(place.scene.alloc)?;
    Ok(Some(OutwardRow::once(Move::Catch(body), Reply::Itself)))
}

fn parallel_map(place: &Place, used: &mut bool, form: &Form) -> Begun
    requires { form.now.whole.now ≡ make (names_at place.now) B.ParallelMap form.now.items.now }
    ensures { Opens place.now (λ stay. s.parallel_map (names_at place.now) stay form.now.items.now) used.old result used.new }
{
    if !is_mapping(place.scene.names, form.items) {
        return Ok(None);
    }
    if place.is_outside(used) {
        return Ok(Some(call_of(place, form)?));
    }
    Ok(Some(instead(place, Builtin::Map, &form.items[..2])?))
}

/// ParallelCombine where it is no call.
fn combine(place: &Place, items: &[Expr]) -> Result<OutwardRow, AllocError>
    requires { shapes.is_combining (names_at place.now) items.now ≡ true }
    ensures { IfOk result (Combines (names_at place.now) items.now) }
{
    let alloc = place.scene.alloc;
    let combiner = match without_option(place.scene.names, &items[2..]) {
        [combiner] => Some(combiner.copy(alloc)?),
        _ => None,
    };
    Ok(OutwardRow::Combine(Combine {
        function: items[0].copy(alloc)?,
        list: items[1].copy(alloc)?,
        combiner,
    }))
}

fn parallel_combine(place: &Place, used: &mut bool, form: &Form) -> Begun
    requires { form.now.whole.now ≡ make (names_at place.now) B.ParallelCombine form.now.items.now }
    ensures { Opens place.now (λ stay. s.parallel_combine (names_at place.now) stay form.now.items.now) used.old result used.new }
{
    if !is_combining(place.scene.names, form.items) {
        return Ok(None);
    }
    if place.is_outside(used) {
        return Ok(Some(call_of(place, form)?));
    }
    Ok(Some(combine(place, form.items)?))
}

fn parallel_try(place: &Place, used: &mut bool, form: &Form) -> Begun
    requires { form.now.whole.now ≡ make (names_at place.now) B.ParallelTry form.now.items.now }
    ensures { Opens place.now (λ stay. s.parallel_try (names_at place.now) stay form.now.items.now) used.old result used.new }
{
    if !is_trying(place.scene.names, form.items) {
        return Ok(None);
    }
    if place.is_outside(used) {
        return Ok(Some(call_of(place, form)?));
    }
    Ok(Some(OutwardRow::Success(Success {
        function: form.items[0].copy(place.scene.alloc)?,
        rest: Stack::of(place.scene.alloc, items_of(&form.items[1]))?,
    })))
}

/// ParallelEvaluate and WaitNext.
fn outside_or_failed(place: &Place, used: &mut bool, form: &Form) -> Begun
    ensures { (row : B) → form.now.whole.now ≡ make (names_at place.now) row form.now.items.now → Opens place.now (λ stay. s.outside_or_failed (names_at place.now) row stay form.now.items.now) used.old result used.new }
{
    if !is_alone(form.items) {
        return Ok(None);
    }
    if place.is_outside(used) {
        return Ok(Some(call_of(place, form)?));
    }
    Ok(Some(failure(place)))
}

fn wait_all(place: &Place, used: &mut bool, form: &Form) -> Begun
    requires { form.now.whole.now ≡ make (names_at place.now) B.WaitAll form.now.items.now }
    ensures { Opens place.now (λ stay. s.wait_all (names_at place.now) stay form.now.items.now) used.old result used.new }
{
    let [waited] = form.items else {
        return Ok(None);
    };
    if !has_object(place.scene.names, waited) {
        return Ok(Some(result_of(waited.copy(place.scene.alloc)?)));
    }
    if place.is_outside(used) {
        return Ok(Some(call_of(place, form)?));
    }
    Ok(Some(failure(place)))
}

/// The forms that are one call in a cell, and fail elsewhere, where they have their shape.
fn outside_only(place: &Place, used: &mut bool, fits: bool, form: &Form) -> Begun
    ensures { (row : B) → form.now.whole.now ≡ make (names_at place.now) row form.now.items.now → Opens place.now (λ stay. s.outside_only (names_at place.now) row fits stay form.now.items.now) used.old result used.new }
{
    if !fits {
        return Ok(None);
    }
    *used = true;
    match place.scene.mode {
        Mode::Cell => Ok(Some(call_of(place, form)?)),
        Mode::Item => Ok(Some(failure(place))),
        Mode::Service => Ok(Some(failure(place))),
    }
}

fn parallel_submit(place: &Place, used: &mut bool, form: &Form) -> Begun
    requires { form.now.whole.now ≡ make (names_at place.now) B.ParallelSubmit form.now.items.now }
    ensures { Opens place.now (λ stay. s.parallel_submit (names_at place.now) stay form.now.items.now) used.old result used.new }
{
    let fits = is_submission(place.scene.names, form.items);
    outside_only(place, used, fits, form)
}

/// DistributeDefinitions and the sharing forms.
fn of_symbols(place: &Place, used: &mut bool, form: &Form) -> Begun
    ensures { (row : B) → form.now.whole.now ≡ make (names_at place.now) row form.now.items.now → Opens place.now (λ stay. s.of_symbols (names_at place.now) row stay form.now.items.now) used.old result used.new }
{
    let fits = are_symbols(form.items);
    outside_only(place, used, fits, form)
}

fn section(alloc: Global, locks: Syms, body: &Expr) -> Result<OutwardRow, AllocError>
    ensures { IfOk result (IsSection locks body.now) }
{
    let body = body.copy(alloc)?;
    let next = if locks.is_empty() {
        Move::Ask(body, false)
    } else {
        Move::Section(locks, body)
    };
    Ok(OutwardRow::once(next, Reply::Itself))
}

fn critical_section(place: &Place, used: &mut bool, items: &[Expr]) -> Begun
    ensures { Opens place.now (λ stay. s.critical_section (names_at place.now) stay items.now) used.old result used.new }
{
    let [list, body] = items else {
        return Ok(None);
    };
    let Some(locks) = items_under(place.scene.names, Builtin::List, list) else {
        return Ok(None);
    };
    let Some(locks) = symbols_in(place.scene.alloc, locks.as_slice())? else {
        return Ok(None);
    };
    *used = true;
    match place.scene.mode {
        Mode::Cell => Ok(Some(section(place.scene.alloc, locks, body)?)),
        Mode::Item => Ok(Some(section(place.scene.alloc, locks, body)?)),
        Mode::Service => Ok(Some(failure(place))),
    }
}

fn quit(place: &Place, used: &mut bool, items: &[Expr]) -> Begun
    ensures { Opens place.now (λ stay. s.quit (names_at place.now) stay items.now) used.old result used.new }
{
    if !items.is_empty() {
        return Ok(None);
    }
    *used = true;
    match place.scene.mode {
        Mode::Cell => Ok(Some(failure(place))),
        Mode::Item => Ok(Some(OutwardRow::once(Move::Quit, Reply::Itself))),
        Mode::Service => Ok(Some(failure(place))),
    }
}

fn print(place: &Place, used: &mut bool, items: &[Expr]) -> Begun
    ensures { Opens place.now (λ stay. s.print (names_at place.now) items.now) used.old result used.new }
{
    *used = true;
    let text = printed(place.scene, items)?;
    Ok(Some(OutwardRow::once(Move::Call(Request::Print(text)), Reply::Null)))
}

/// The call of a form with an iterator, before its parts are asked for.
fn loop_of(place: &Place, items: &[Expr], form: LoopForm) -> Begun
    ensures { IfOk result (IsLoop (names_at place.now) form items.now) }
{
    let alloc = place.scene.alloc;
    let [body, iterator, behind @ ..] = items else {
        return Ok(None);
    };
    let Some(list) = items_under(place.scene.names, Builtin::List, iterator) else {
        return Ok(None);
    };
    let Some(shape) = shape_of(list.as_slice()) else {
        return Ok(None);
    };
    let split = split_option(alloc, place.scene.names, behind)?;
    Ok(Some(OutwardRow::Loop(ParallelLoop {
        call: LoopCall {
            form,
            body: body.copy(alloc)?,
            further: split.before,
            option: split.option,
        },
        state: LoopState::Parts(LoopParts {
            symbol: shape.symbol,
            known: Items::new(alloc),
            rest: Stack::of(alloc, shape.parts)?,
        }),
    })))
}

/// ParallelTable, ParallelDo and ParallelSum.
fn parallel_loop(place: &Place, used: &mut bool, items: &[Expr], form: LoopForm) -> Begun
    ensures { Opens place.now (λ stay. s.parallel_loop (names_at place.now) (loops.outward_row form) (loops.inward_row form) stay items.now) used.old result used.new }
{
    let [_, iterator, behind @ ..] = items else {
        return Ok(None);
    };
    if is_last_option(place.scene.names, iterator, behind) {
        return Ok(None);
    }
    if place.is_outside(used) {
        return loop_of(place, items, form);
    }
    let inward = without_option(place.scene.names, items);
    Ok(Some(instead(place, form.inward_row(), inward)?))
}

/// How Throw, Catch or a row of the mode table begins, or that it stays as it is. `None` for any other row.
#[tactic(auto, unfolding(semantics::specs::Table::row))]
pub fn start(place: &Place, used: &mut bool, row: Builtin, form: &Form) -> Option<Begun>
    requires { form.now.whole.now ≡ make (names_at place.now) row form.now.items.now }
    ensures known { is_some result ≡ is_outward row }
    ensures opens { IfSome result (λ r. Opens place.now (λ stay. t.row (names_at place.now) row stay form.now.items.now) used.old r used.new) }
{
    match row {
        Builtin::Throw => Some(throw(place, form.items)),
        Builtin::Catch => Some(catch(place, form.items)),
        Builtin::ParallelMap => Some(parallel_map(place, used, form)),
        Builtin::ParallelCombine => Some(parallel_combine(place, used, form)),
        Builtin::ParallelTry => Some(parallel_try(place, used, form)),
        Builtin::ParallelTable => Some(parallel_loop(place, used, form.items, LoopForm::Table)),
        Builtin::ParallelDo => Some(parallel_loop(place, used, form.items, LoopForm::Do)),
        Builtin::ParallelSum => Some(parallel_loop(place, used, form.items, LoopForm::Sum)),
        Builtin::ParallelEvaluate => Some(outside_or_failed(place, used, form)),
        Builtin::WaitNext => Some(outside_or_failed(place, used, form)),
        Builtin::WaitAll => Some(wait_all(place, used, form)),
        Builtin::ParallelSubmit => Some(parallel_submit(place, used, form)),
        Builtin::DistributeDefinitions => Some(of_symbols(place, used, form)),
        Builtin::SetSharedVariable => Some(of_symbols(place, used, form)),
        Builtin::SetSharedFunction => Some(of_symbols(place, used, form)),
        Builtin::CriticalSection => Some(critical_section(place, used, form.items)),
        Builtin::Quit => Some(quit(place, used, form.items)),
        Builtin::Print => Some(print(place, used, form.items)),
        _ => None,
    }
}

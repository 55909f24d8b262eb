//! What forms are made of: calls, failures, and what a form is where it is no call.
ghost use Rattle.std.specs.Prelude.{◌≡◌, IfOk};
ghost use Rattle.semantics.specs.Names as n;
ghost use Rattle.semantics.specs.declared.builtin.Builtin.{Builtin as B};
ghost use Rattle.machine_outward.specs.Placing.{names_at};
ghost use Rattle.machine_outward.specs.Beginnings.{Calls, Results};

use crate::once::Reply;
use crate::outward_row::OutwardRow;
use crate::place::{Form, Place};
use builtin_names::{make, name};
use expr_lists::copies;
use expr_tree::Expr;
use machine_steps::{Move, Request};
use semantics::Builtin;
use std::alloc::AllocError;

/// The form as it stands is one call.
pub(crate) fn call_of(place: &Place, form: &Form) -> Result<OutwardRow, AllocError>
    ensures { IfOk result (λ row. Calls form.now.whole.now row) }
{
    let sent = form.whole.copy(place.scene.alloc)?;
    Ok(OutwardRow::once(Move::Call(Request::Outside(sent)), Reply::Itself))
}

/// An expression is the result.
pub(crate) fn result_of(e: Expr) -> OutwardRow
    ensures { Results e result }
{
    OutwardRow::once(Move::Done(e), Reply::Itself)
}

/// `$Failed` is the result.
pub(crate) fn failure(place: &Place) -> OutwardRow
    ensures { Results (n.name (names_at place.now) B.Failed) result }
{
    result_of(name(place.scene.names, Builtin::Failed))
}

/// Another row with these elements is the result. It is no larger than the form, so that only memory can be wanting.
pub(crate) fn instead(place: &Place, row: Builtin, items: &[Expr]) -> Result<OutwardRow, AllocError>
    ensures { IfOk result (λ made. Results (n.make (names_at place.now) row items.now) made) }
{
    let items = copies(place.scene.alloc, items)?;
    match make(place.scene.alloc, place.scene.names, row, items) {
        Ok(e) => Ok(result_of(e)),
        Err(_) => Err(AllocError),
    }
}

ghost use Rattle.std.specs.Prelude.{IfOk};
ghost use Rattle.evaluation_steps.specs.Stopping.{AreBounded};

use crate::{Form, OutwardRow, Place, start};
use builtin_names::{Vocabulary, make, names_with};
use expr_lists::copies;
use expr_tree::{Expr, Limits};
use item_list::Items;
use kernel_defs::Defs;
use machine_steps::{Mode, Move, Request, Scene};
use semantics::Builtin;
use std::alloc::Global;
use std::test::Fail;

fn table(alloc: Global) -> Result<Vocabulary, Fail> {
    let none = Items::new(alloc);
    Ok(names_with(alloc, &none)?)
}

fn small() -> Limits
    ensures { AreBounded result }
{
    Limits {
        recursion: 10,
        iteration: 10,
        steps: 100,
        size: 1000,
        depth: 100,
    }
}

// the row of Print[1], or of another form of one element
fn begun(place: &Place, row: Builtin) -> Result<Option<OutwardRow>, Fail> {
    let alloc = place.scene.alloc;
    let mut items = Items::new(alloc);
    items.push(Expr::int(1))?;
    let kept = copies(alloc, items.as_slice())?;
    let whole = make(alloc, place.scene.names, row, items)?;
    let mut used = false;
    let form = Form {
        whole: &whole,
        items: kept.as_slice(),
    };
    match start(place, &mut used, row, &form) {
        Some(Ok(begun)) => Ok(begun),
        _ => Err(Fail::from("not begun")),
    }
}

/// What a machine does first.
#[derive(Clone, Copy, Debug)]
enum First {
    Sends,
    Prints,
    Ends,
    Other,
}

fn told(next: &Move) -> First {
    match next {
        Move::Call(Request::Outside(_)) => First::Sends,
        Move::Call(Request::Print(_)) => First::Prints,
        Move::Done(_) => First::Ends,
        _ => First::Other,
    }
}

fn first_of(machine: &mut OutwardRow, scene: &Scene, defs: &mut Defs) -> Result<First, Fail> {
    let mut used = false;
    match machine.step(scene, defs, &mut used, None) {
        Ok(next) => Ok(told(&next)),
        Err(_) => Err(Fail::from("no move")),
    }
}

fn first_move(place: &Place, row: Builtin) -> Result<First, Fail> {
    let mut defs = Defs::new(place.scene.alloc)?;
    match begun(place, row)? {
        Some(mut machine) => first_of(&mut machine, place.scene, &mut defs),
        None => Err(Fail::from("no machine")),
    }
}

// the first move of a row in a cell, outside a section or inside
fn in_a_cell(alloc: Global, row: Builtin, is_open: bool) -> Result<First, Fail> {
    let names = table(alloc)?;
    let scene = Scene {
        alloc,
        names: &names,
        limits: small(),
        mode: Mode::Cell,
        kernel: 0,
    };
    first_move(
        &Place {
            scene: &scene,
            is_open,
        },
        row,
    )
}

#[test]
fn a_form_is_sent_from_a_cell_but_not_from_a_section(rt: HostRuntime) -> Result<(), Fail> {
    let sent = in_a_cell(rt.alloc(), Builtin::ParallelEvaluate, false)?;
    assert!(rt; matches!(sent, First::Sends));
    let shown = in_a_cell(rt.alloc(), Builtin::Print, false)?;
    assert!(rt; matches!(shown, First::Prints));
    let failed = in_a_cell(rt.alloc(), Builtin::ParallelEvaluate, true)?;
    assert!(rt; matches!(failed, First::Ends));
    Ok(())
}

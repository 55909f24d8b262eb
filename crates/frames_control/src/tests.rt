ghost use Rattle.std.specs.Prelude.{IfOk};
ghost use Rattle.evaluation_steps.specs.Stopping.{AreBounded};

use crate::{Control, ControlForm, ControlMove};
use builtin_names::{Vocabulary, names_with};
use expr_tree::{Expr, Exprs, Limits, Sym};
use item_list::Items;
use std::alloc::Global;
use std::test::Fail;

fn table(alloc: Global) -> Result<Vocabulary, Fail> {
    let none = Items::new(alloc);
    Ok(names_with(alloc, &none)?)
}

fn small() -> Limits
    ensures { AreBounded result }
{
    Limits {
        recursion: 10,
        iteration: 10,
        steps: 100,
        size: 1000,
        depth: 100,
    }
}

fn integers(alloc: Global, first: i128, second: i128) -> Result<Exprs, Fail> {
    let mut items = Items::new(alloc);
    items.push(Expr::int(first))?;
    items.push(Expr::int(second))?;
    Ok(items)
}

// f, 1 and f[2, 3]
fn folding(alloc: Global) -> Result<Exprs, Fail> {
    let f = Expr::symbol(Sym {
        base: 500,
        number: 0,
    });
    let elements = Expr::normal(alloc, f.copy(alloc)?, integers(alloc, 2, 3)?)?;
    let mut items = Items::new(alloc);
    items.push(f)?;
    items.push(Expr::int(1))?;
    items.push(elements)?;
    Ok(items)
}

fn begin(
    alloc: Global,
    names: &Vocabulary,
    form: ControlForm,
    items: &Exprs,
) -> Result<Control, Fail> {
    match Control::start(alloc, names, form, items.as_slice())? {
        Some(frame) => Ok(frame),
        None => Err(Fail::from("no machine")),
    }
}

// the atoms of the question, or 0 where there is none
fn atoms_asked_for(
    alloc: Global,
    names: &Vocabulary,
    frame: &mut Control,
    answer: Option<Expr>,
) -> u64 {
    match frame.step(alloc, names, &small(), answer) {
        Ok(ControlMove::Ask(question, _)) => question.size(),
        _ => 0,
    }
}

fn ends_with(alloc: Global, names: &Vocabulary, frame: &mut Control, last: i128) -> bool {
    match frame.step(alloc, names, &small(), Some(Expr::int(last))) {
        Ok(ControlMove::Done(value)) => value.equals(&Expr::int(last)),
        _ => false,
    }
}

#[test]
fn a_compound_asks_in_turn_and_has_the_last_value(rt: HostRuntime) -> Result<(), Fail> {
    let names = table(rt.alloc())?;
    let items = integers(rt.alloc(), 1, 2)?;
    let mut frame = begin(rt.alloc(), &names, ControlForm::CompoundExpression, &items)?;
    assert_eq!(rt; atoms_asked_for(rt.alloc(), &names, &mut frame, None), 1);
    assert_eq!(rt;
        atoms_asked_for(rt.alloc(), &names, &mut frame, Some(Expr::int(7))),
        1
    );
    assert!(rt; ends_with(rt.alloc(), &names, &mut frame, 8));
    Ok(())
}

#[test]
fn a_fold_asks_for_its_function_at_each_element(rt: HostRuntime) -> Result<(), Fail> {
    let names = table(rt.alloc())?;
    let items = folding(rt.alloc())?;
    let mut frame = begin(rt.alloc(), &names, ControlForm::Fold, &items)?;
    assert_eq!(rt; atoms_asked_for(rt.alloc(), &names, &mut frame, None), 3);
    assert_eq!(rt;
        atoms_asked_for(rt.alloc(), &names, &mut frame, Some(Expr::int(7))),
        3
    );
    assert!(rt; ends_with(rt.alloc(), &names, &mut frame, 8));
    Ok(())
}

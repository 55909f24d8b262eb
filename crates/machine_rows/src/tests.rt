ghost use Rattle.std.specs.Prelude.{IfOk};
ghost use Rattle.evaluation_steps.specs.Stopping.{AreBounded};

use crate::Machine;
use builtin_names::{Vocabulary, make, names_with};
use expr_tree::{Expr, Exprs, Limits, Node, Sym};
use item_list::Items;
use kernel_defs::Defs;
use machine_steps::{Mode, Move, Scene};
use semantics::Builtin;
use std::alloc::Global;
use std::test::Fail;

const X: Sym = Sym {
    base: 500,
    number: 0,
};

fn table(alloc: Global) -> Result<Vocabulary, Fail> {
    let none = Items::new(alloc);
    Ok(names_with(alloc, &none)?)
}

fn small() -> Limits
    ensures { AreBounded result }
{
    Limits {
        recursion: 10,
        iteration: 10,
        steps: 100,
        size: 1000,
        depth: 100,
    }
}

// {x} and x
fn items(alloc: Global, names: &Vocabulary) -> Result<Exprs, Fail> {
    let mut locals = Items::new(alloc);
    locals.push(Expr::symbol(X))?;
    let mut items = Items::new(alloc);
    items.push(make(alloc, names, Builtin::List, locals)?)?;
    items.push(Expr::symbol(X))?;
    Ok(items)
}

fn begin(alloc: Global, names: &Vocabulary, row: Builtin) -> Result<Machine, Fail> {
    let items = items(alloc, names)?;
    match Machine::start(alloc, names, row, items.as_slice()) {
        Some(Ok(Some(machine))) => Ok(machine),
        _ => Err(Fail::from("no machine")),
    }
}

// the number of the symbol that is the result
fn number_of(
    alloc: Global,
    names: &Vocabulary,
    machine: &mut Machine,
    defs: &mut Defs,
) -> Option<u64> {
    let scene = Scene {
        alloc,
        names,
        limits: small(),
        mode: Mode::Cell,
        kernel: 0,
    };
    let mut used = false;
    let Ok(Move::Done(value)) = machine.step(&scene, defs, &mut used, None) else {
        return None;
    };
    match value.node() {
        Node::Symbol(symbol) => Some(symbol.number),
        _ => None,
    }
}

#[test]
fn each_module_has_a_number_of_its_own(rt: HostRuntime) -> Result<(), Fail> {
    let names = table(rt.alloc())?;
    let mut defs = Defs::new(rt.alloc())?;
    let mut first = begin(rt.alloc(), &names, Builtin::Module)?;
    assert_eq!(rt;
        number_of(rt.alloc(), &names, &mut first, &mut defs),
        Some(1)
    );
    let mut second = begin(rt.alloc(), &names, Builtin::Module)?;
    assert_eq!(rt;
        number_of(rt.alloc(), &names, &mut second, &mut defs),
        Some(2)
    );
    Ok(())
}

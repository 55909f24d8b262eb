ghost use Rattle.std.specs.Prelude.{IfOk};

use crate::{flatten, flattened, order, sorted, splice, spliced, strip, thread, threaded};
use builtin_names::{Vocabulary, make, names_with};
use expr_tree::{Attrs, Expr, Exprs, Sym};
use item_list::Items;
use semantics::Builtin;
use std::alloc::Global;
use std::test::Fail;

fn names(alloc: Global) -> Result<Vocabulary, Fail> {
    Ok(names_with(alloc, &Items::new(alloc))?)
}

fn one(alloc: Global, e: Expr) -> Result<Exprs, Fail> {
    let mut items = Items::new(alloc);
    items.push(e)?;
    Ok(items)
}

fn two(alloc: Global, a: i128, b: i128) -> Result<Exprs, Fail> {
    let mut items = one(alloc, Expr::int(a))?;
    items.push(Expr::int(b))?;
    Ok(items)
}

fn are(items: &Exprs, a: i128, b: i128) -> bool {
    match items.as_slice() {
        [x, y] => x.equals(&Expr::int(a)) && y.equals(&Expr::int(b)),
        _ => false,
    }
}

// row[1, 2] alone
fn wrapped(alloc: Global, names: &Vocabulary, row: Builtin) -> Result<Exprs, Fail> {
    one(alloc, make(alloc, names, row, two(alloc, 1, 2)?)?)
}

#[test]
fn a_sequence_is_spliced(rt: HostRuntime) -> Result<(), Fail> {
    let names = names(rt.alloc())?;
    let items = wrapped(rt.alloc(), &names, Builtin::Sequence)?;
    let items = spliced(rt.alloc(), &names, &Attrs::none(), items)?;
    assert!(rt; are(&items, 1, 2));
    let items = splice(rt.alloc(), &names, items)?;
    assert!(rt; are(&items, 1, 2));
    Ok(())
}

#[test]
fn an_unevaluated_is_taken_off(rt: HostRuntime) -> Result<(), Fail> {
    let names = names(rt.alloc())?;
    let inner = one(rt.alloc(), Expr::int(3))?;
    let items = one(
        rt.alloc(),
        make(rt.alloc(), &names, Builtin::Unevaluated, inner)?,
    )?;
    let items = strip(rt.alloc(), &names, items)?;
    let Some(only) = items.get(0) else {
        return Err(Fail::from("no element"));
    };
    assert!(rt; only.equals(&Expr::int(3)));
    Ok(())
}

fn head() -> Sym {
    Sym { base: 1, number: 7 }
}

// f[1, 2] alone
fn nested(alloc: Global) -> Result<Exprs, Fail> {
    one(
        alloc,
        Expr::normal(alloc, Expr::symbol(head()), two(alloc, 1, 2)?)?,
    )
}

#[test]
fn a_call_of_the_head_is_flattened(rt: HostRuntime) -> Result<(), Fail> {
    let flat = flatten(rt.alloc(), head(), nested(rt.alloc())?)?;
    assert!(rt; are(&flat, 1, 2));
    let attrs = Attrs {
        flat: true,
        ..Attrs::none()
    };
    let flat = flattened(
        rt.alloc(),
        &Expr::symbol(head()),
        &attrs,
        nested(rt.alloc())?,
    )?;
    assert!(rt; are(&flat, 1, 2));
    Ok(())
}

#[test]
fn elements_are_sorted(rt: HostRuntime) -> Result<(), Fail> {
    let items = order(rt.alloc(), two(rt.alloc(), 2, 1)?)?;
    assert!(rt; are(&items, 1, 2));
    let attrs = Attrs {
        orderless: true,
        ..Attrs::none()
    };
    let items = sorted(rt.alloc(), &attrs, items)?;
    assert!(rt; are(&items, 1, 2));
    Ok(())
}

// f[1] is threaded over nothing
#[test]
fn a_call_without_lists_is_not_threaded(rt: HostRuntime) -> Result<(), Fail> {
    let names = names(rt.alloc())?;
    assert!(rt; thread(rt.alloc(), &names, head(), &[])?.is_none());
    let attrs = Attrs::none();
    assert!(rt; threaded(rt.alloc(), &names, &Expr::symbol(head()), &attrs, &[])?.is_none());
    Ok(())
}

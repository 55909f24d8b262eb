use crate::{Bindings, binders_of, subst, subst_with};
use builtin_names::names_with;
use expr_tree::{Binders, Expr, Sym};
use item_list::Items;
use std::alloc::Global;
use std::test::Fail;

fn plain(base: u32) -> Sym {
    Sym { base, number: 0 }
}

fn name(base: u32) -> Expr {
    Expr::symbol(plain(base))
}

fn call(alloc: Global, head: u32, first: Expr, second: Expr) -> Result<Expr, Fail> {
    let mut items = Items::new(alloc);
    items.push(first)?;
    items.push(second)?;
    Ok(Expr::normal(alloc, name(head), items)?)
}

// f[x, Function[x, x]] with 7 for x is f[7, Function[x, x]]
#[test]
fn runs_are_put_in_but_not_into_a_function_of_the_name(rt: HostRuntime) -> Result<(), Fail> {
    let binders = Binders {
        module: plain(10),
        with: plain(11),
        function: plain(12),
        list: plain(13),
        set: plain(14),
        sequence: plain(15),
    };
    let mut run = Items::new(rt.alloc());
    run.push(Expr::int(7))?;
    let mut bindings: Bindings = Items::new(rt.alloc());
    bindings.push((plain(1), run))?;
    let function = call(rt.alloc(), 12, name(1), name(1))?;
    let e = call(rt.alloc(), 0, name(1), function.copy(rt.alloc())?)?;
    let wanted = call(rt.alloc(), 0, Expr::int(7), function)?;
    let made = subst_with(rt.alloc(), &binders, &bindings, &e)?;
    assert!(rt; made.equals(&wanted));
    Ok(())
}

// an empty run is Sequence[], which has two levels
#[test]
fn an_empty_run_is_a_sequence(rt: HostRuntime) -> Result<(), Fail> {
    let names = names_with(rt.alloc(), &Items::new(rt.alloc()))?;
    let binders = binders_of(&names);
    let mut bindings: Bindings = Items::new(rt.alloc());
    bindings.push((binders.list, Items::new(rt.alloc())))?;
    let made = subst(rt.alloc(), &Expr::symbol(binders.list), &bindings, &names)?;
    assert_eq!(rt; made.depth(), 2);
    Ok(())
}

use crate::{divide, minus, power, subtract};
use builtin_names::{Fault, names_with};
use expr_tree::{Expr, Exprs};
use item_list::Items;
use std::alloc::Global;
use std::test::Fail;

fn two(alloc: Global, first: i128, second: i128) -> Result<Exprs, Fail> {
    let mut items = Items::new(alloc);
    items.push(Expr::int(first))?;
    items.push(Expr::int(second))?;
    Ok(items)
}

fn is_integer(answer: Result<Option<Expr>, Fault>, value: i128) -> bool {
    match answer {
        Ok(Some(e)) => e.equals(&Expr::int(value)),
        _ => false,
    }
}

fn has_size(answer: Result<Option<Expr>, Fault>, atoms: u64) -> bool {
    match answer {
        Ok(Some(e)) => e.size() == atoms,
        _ => false,
    }
}

#[test]
fn powers_are_integers(rt: HostRuntime) -> Result<(), Fail> {
    let names = names_with(rt.alloc(), &Items::new(rt.alloc()))?;
    let items = two(rt.alloc(), 2, 10)?;
    assert!(rt; is_integer(power(rt.alloc(), &names, &items), 1024));
    Ok(())
}

#[test]
fn differences_and_quotients_are_sums_and_products(rt: HostRuntime) -> Result<(), Fail> {
    let names = names_with(rt.alloc(), &Items::new(rt.alloc()))?;
    let items = two(rt.alloc(), 3, 4)?;
    assert!(rt; has_size(subtract(rt.alloc(), &names, &items), 5));
    assert!(rt; has_size(divide(rt.alloc(), &names, &items), 5));
    let mut one = Items::new(rt.alloc());
    one.push(Expr::int(3))?;
    assert!(rt; has_size(minus(rt.alloc(), &names, &one), 3));
    Ok(())
}

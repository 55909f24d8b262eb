use crate::apply;
use builtin_names::{make, names_with};
use expr_tree::{Expr, Exprs, Text};
use item_list::Items;
use semantics::Builtin;
use std::alloc::Global;
use std::test::Fail;

fn one(alloc: Global, e: Expr) -> Result<Exprs, Fail> {
    let mut items = Items::new(alloc);
    items.push(e)?;
    Ok(items)
}

// Function[#1][7] is 7
#[test]
fn a_slot_is_filled(rt: HostRuntime) -> Result<(), Fail> {
    let names = names_with(rt.alloc(), &Items::new(rt.alloc()))?;
    let number = one(rt.alloc(), Expr::int(1))?;
    let slot = make(rt.alloc(), &names, Builtin::Slot, number)?;
    let parts = one(rt.alloc(), slot)?;
    let args = one(rt.alloc(), Expr::int(7))?;
    let made = apply(rt.alloc(), &names, parts.as_slice(), args.as_slice())?;
    let Some(e) = made else {
        return Err(Fail::from("it stays"));
    };
    assert!(rt; e.equals(&Expr::int(7)));
    Ok(())
}

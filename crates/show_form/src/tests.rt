use crate::{full, full_names, read_full};
use expr_tree::{Expr, Sym, Text};
use item_list::Items;
use name_table::Names;
use std::alloc::Global;
use std::test::Fail;

fn no_names(alloc: Global) -> Result<Names, Fail> {
    Ok(Names::of_texts(alloc, &Items::new(alloc), &Items::new(alloc))?)
}

#[test]
fn texts_are_quoted(rt: HostRuntime) -> Result<(), Fail> {
    let names = no_names(rt.alloc())?;
    let text = Expr::text(Text::of(rt.alloc(), "a\"b\n")?);
    let shown = full(rt.alloc(), &text, &names)?;
    assert_eq!(rt; shown.as_str(), "\"a\\\"b\\n\"");
    Ok(())
}

#[test]
fn a_base_that_is_not_kept_shows_as_nothing(rt: HostRuntime) -> Result<(), Fail> {
    let names = no_names(rt.alloc())?;
    let symbol = Expr::symbol(Sym { base: 7, number: 2 });
    let shown = full(rt.alloc(), &symbol, &names)?;
    assert_eq!(rt; shown.as_str(), "$2");
    Ok(())
}

#[test]
fn names_outside_texts_are_found(rt: HostRuntime) -> Result<(), Fail> {
    let mut found = Items::new(rt.alloc());
    full_names(rt.alloc(), "f[x$12, \"y\", 3]", &mut found)?;
    assert_eq!(rt; found.len(), 2);
    Ok(())
}

#[test]
fn integers_are_read(rt: HostRuntime) -> Result<(), Fail> {
    let names = no_names(rt.alloc())?;
    match read_full(rt.alloc(), "-7", &names) {
        Ok(read) => assert!(rt; read.equals(&Expr::int(-7))),
        Err(_) => return Err(Fail::from("not read")),
    }
    Ok(())
}

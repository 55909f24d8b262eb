use crate::{input, value_text};
use expr_tree::{Expr, Sym, Text};
use item_list::Items;
use name_table::Names;
use std::test::Fail;

#[test]
fn a_negative_term_has_its_sign_in_front(rt: HostRuntime) -> Result<(), Fail> {
    let mut texts = Items::new(rt.alloc());
    texts.push(Text::of(rt.alloc(), "Plus")?)?;
    let known = Items::new(rt.alloc());
    let names = Names::of_texts(rt.alloc(), &known, &texts)?;
    let found = names.find("Plus");
    assert!(rt; found.is_some());
    if let Some(plus) = found {
        let mut items = Items::new(rt.alloc());
        items.push(Expr::int(3))?;
        items.push(Expr::int(-2))?;
        let sum = Expr::normal(rt.alloc(), Expr::symbol(plus), items);
        if let Ok(sum) = sum {
            let shown = value_text(rt.alloc(), &sum, &names)?;
            assert_eq!(rt; shown.as_str(), "3 - 2");
            let text = input(rt.alloc(), &sum, &names)?;
            assert_eq!(rt; text.as_str(), "3 - 2");
        }
    }
    Ok(())
}

#[test]
fn a_base_that_is_not_kept_shows_as_nothing(rt: HostRuntime) -> Result<(), Fail> {
    let names = Names::of_texts(rt.alloc(), &Items::new(rt.alloc()), &Items::new(rt.alloc()))?;
    let head = Expr::symbol(Sym { base: 7, number: 0 });
    let mut items = Items::new(rt.alloc());
    items.push(Expr::symbol(Sym { base: 7, number: 2 }))?;
    if let Ok(call) = Expr::normal(rt.alloc(), head, items) {
        let shown = value_text(rt.alloc(), &call, &names)?;
        assert_eq!(rt; shown.as_str(), "[$2]");
        let text = input(rt.alloc(), &call, &names)?;
        assert_eq!(rt; text.as_str(), "[$2]");
    }
    Ok(())
}

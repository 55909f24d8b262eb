use crate::Names;
use expr_tree::{Sym, Text, Texts};
use item_list::Items;
use std::alloc::Global;
use std::test::Fail;

fn pair(alloc: Global, first: &str, second: &str) -> Result<Texts, Fail> {
    let mut texts = Items::new(alloc);
    texts.push(Text::of(alloc, first)?)?;
    texts.push(Text::of(alloc, second)?)?;
    Ok(texts)
}

#[test]
fn each_base_is_kept_once_in_the_order_of_names(rt: HostRuntime) -> Result<(), Fail> {
    let known = pair(rt.alloc(), "Plus", "x")?;
    let texts = pair(rt.alloc(), "X", "x$12")?;
    if known.len() + texts.len() > 4 {
        return Ok(());
    }
    let names = Names::of_texts(rt.alloc(), &known, &texts)?;
    assert_eq!(rt; names.len(), 3);
    let capital = names.find("X");
    assert_eq!(rt; capital, Some(Sym { base: 2, number: 0 }));
    assert_eq!(rt; names.find("y"), None);
    let generated = Sym {
        base: 1,
        number: 12,
    };
    assert_eq!(rt; names.find("x$12"), Some(generated));
    assert_eq!(rt; names.text(rt.alloc(), generated)?.as_str(), "x$12");
    Ok(())
}

#[test]
fn a_base_that_is_not_kept_has_no_text(rt: HostRuntime) -> Result<(), Fail> {
    let names = Names::of_texts(rt.alloc(), &Items::new(rt.alloc()), &Items::new(rt.alloc()))?;
    let symbol = Sym { base: 7, number: 2 };
    assert_eq!(rt; names.text(rt.alloc(), symbol)?.as_str(), "$2");
    assert_eq!(rt; names.base_text(7), "");
    Ok(())
}

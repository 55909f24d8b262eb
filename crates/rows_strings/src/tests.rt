use crate::{row_string_join, row_string_reverse};
use expr_tree::{Expr, Exprs, Node, Text};
use item_list::Items;
use std::alloc::Global;
use std::test::Fail;

fn one_text(alloc: Global, text: &str) -> Result<Exprs, Fail> {
    let mut items = Items::new(alloc);
    items.push(Expr::text(Text::of(alloc, text)?))?;
    Ok(items)
}

fn is_text(e: &Expr, text: &str) -> bool {
    match e.node() {
        Node::Str(kept) => kept.as_str() == text,
        _ => false,
    }
}

fn is_made(made: Option<Expr>, text: &str) -> bool {
    match made {
        Some(e) => is_text(&e, text),
        None => false,
    }
}

#[test]
fn a_text_is_turned(rt: HostRuntime) -> Result<(), Fail> {
    let items = one_text(rt.alloc(), "aé")?;
    let Ok(made) = row_string_reverse(rt.alloc(), &items) else {
        return Err(Fail::from("no answer"));
    };
    assert!(rt; is_made(made, "éa"));
    Ok(())
}

#[test]
fn a_text_is_joined(rt: HostRuntime) -> Result<(), Fail> {
    let items = one_text(rt.alloc(), "ab")?;
    let Ok(made) = row_string_join(rt.alloc(), &items) else {
        return Err(Fail::from("no answer"));
    };
    assert!(rt; is_made(made, "ab"));
    Ok(())
}

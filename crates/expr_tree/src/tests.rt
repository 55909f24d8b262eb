use crate::{Expr, Node, Sym, Text};
use item_list::Items;
use std::alloc::Global;
use std::test::Fail;

#[test]
fn texts_are_written_shared_and_copied(rt: HostRuntime) -> Result<(), Fail> {
    let mut text = Text::of(rt.alloc(), "ab")?;
    text.push('é')?;
    text.append("cd")?;
    let text = text.shared(rt.alloc())?;
    let mut longer = text.copy(rt.alloc())?;
    longer.append("!")?;
    assert_eq!(rt; text.as_str(), "abécd");
    assert_eq!(rt; longer.as_str(), "abécd!");
    Ok(())
}

fn pair(alloc: Global, head: Sym, first: Expr, second: Expr) -> Result<Expr, Fail> {
    let mut items = Items::new(alloc);
    items.push(first)?;
    items.push(second)?;
    Ok(Expr::normal(alloc, Expr::symbol(head), items)?)
}

fn made_again(alloc: Global, e: Expr) -> Result<Expr, Fail> {
    match e.into_node(alloc)? {
        Node::Int(value) => Ok(Expr::int(value)),
        Node::Str(value) => Ok(Expr::text(value)),
        Node::Symbol(value) => Ok(Expr::symbol(value)),
        Node::Normal(head, items) => Ok(Expr::normal(alloc, Box::into_inner(head), items)?),
    }
}

// f[1, "a"]
#[test]
fn expressions_are_made_copied_and_taken_apart(rt: HostRuntime) -> Result<(), Fail> {
    let f = Sym { base: 3, number: 0 };
    let letter = Expr::text(Text::of(rt.alloc(), "a")?);
    let made = pair(rt.alloc(), f, Expr::int(1), letter)?;
    assert_eq!(rt; made.size(), 3);
    assert_eq!(rt; made.depth(), 2);
    let copied = made.copy(rt.alloc())?;
    assert!(rt; copied.equals(&made));
    let again = made_again(rt.alloc(), copied)?;
    assert!(rt; again.equals(&made));
    Ok(())
}

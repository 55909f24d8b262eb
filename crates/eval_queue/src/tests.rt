use crate::{Item, Queue};
use expr_tree::Expr;
use std::test::Fail;

#[test]
fn the_least_waiting_item_is_found(rt: HostRuntime) -> Result<(), Fail> {
    let mut queue = Queue::new(rt.alloc());
    queue.submit(Item::Pinned(2, Expr::int(1)), ())?;
    queue.submit(Item::Plain(Expr::int(2)), ())?;
    assert_eq!(rt; queue.first_for(1), Some(2));
    queue.take(2, 1);
    assert_eq!(rt; queue.first_for(1), None);
    queue.give_back(2, 1);
    assert_eq!(rt; queue.first_for(2), Some(1));
    Ok(())
}

use crate::Locks;
use expr_tree::Sym;
use item_list::Items;
use std::test::Fail;

fn lock(base: u32) -> Sym {
    Sym { base, number: 0 }
}

#[test]
fn locks_are_taken_and_freed(rt: HostRuntime) -> Result<(), Fail> {
    let mut locks = Locks::new(rt.alloc());
    locks.reserve(2)?;
    let mut both = Items::new(rt.alloc());
    both.push(lock(1))?;
    both.push(lock(2))?;
    let mut one = Items::new(rt.alloc());
    one.push(lock(2))?;
    assert_eq!(rt; locks.enter(1, &both), Ok(()));
    locks.leave(1);
    assert_eq!(rt; locks.enter(2, &one), Ok(()));
    assert_eq!(rt; locks.holder(lock(2)), Some(2));
    Ok(())
}

use crate::Formed;
use expr_tree::{Expr, Limits, Stop, Sym};
use item_list::Items;
use std::alloc::Global;
use std::test::Fail;

const LIMITS: Limits = Limits {
    recursion: 256,
    iteration: 4096,
    steps: 100,
    size: 4_000_000,
    depth: 512,
};

// f[f[..1..]]
fn nested(alloc: Global, levels: u32) -> Result<Formed, Fail> {
    let mut e = Formed::of(Expr::int(1));
    for _ in 1..levels {
        let mut items = Items::new(alloc);
        items.push(e)?;
        e = Formed::call(
            alloc,
            Formed::of(Expr::symbol(Sym { base: 0, number: 0 })),
            items,
        )?;
    }
    Ok(e)
}

#[test]
fn what_is_too_deep_is_told_at_the_end(rt: HostRuntime) -> Result<(), Fail> {
    let whole = nested(rt.alloc(), 512)?;
    assert!(rt; whole.judged(&LIMITS).is_ok());
    let deep = nested(rt.alloc(), 600)?;
    assert!(rt; matches!(deep.judged(&LIMITS), Err(Stop::Depth)));
    Ok(())
}

use crate::{Block, Local, Module, Scope, ScopeMove};
use expr_tree::{Expr, Sym};
use item_list::Items;
use std::alloc::Global;
use std::test::Fail;

const X: Sym = Sym { base: 1, number: 0 };

// {x = 2} and the body x
fn scope(alloc: Global) -> Result<Scope, Fail> {
    let mut locals = Items::new(alloc);
    locals.push(Local {
        symbol: X,
        value: Some(Expr::int(2)),
    })?;
    Ok(Scope {
        locals,
        body: Expr::symbol(X),
    })
}

#[test]
fn a_module_asks_and_makes(rt: HostRuntime) -> Result<(), Fail> {
    let mut module = Module::start(rt.alloc(), scope(rt.alloc())?, 7);
    let ScopeMove::Ask(question) = module.step(rt.alloc(), None)? else {
        return Err(Fail::from("no question"));
    };
    assert!(rt; question.equals(&Expr::int(2)));
    let ScopeMove::Make(locals, _, _) = module.step(rt.alloc(), Some(question))? else {
        return Err(Fail::from("no symbol"));
    };
    assert_eq!(rt; locals.len(), 1);
    Ok(())
}

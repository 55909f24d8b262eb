ghost use Rattle.std.specs.Prelude.{IfOk};

use crate::Rules;
use builtin_names::{Vocabulary, make, name, names_with};
use expr_tree::{Expr, Sym};
use item_list::Items;
use semantics::Builtin;
use std::alloc::Global;
use std::test::Fail;

fn table(alloc: Global) -> Result<Vocabulary, Fail> {
    let none = Items::new(alloc);
    Ok(names_with(alloc, &none)?)
}

// f[_] with a symbol that stands past the table
fn any(alloc: Global, names: &Vocabulary) -> Result<Expr, Fail> {
    let blank = make(alloc, names, Builtin::Blank, Items::new(alloc))?;
    let mut items = Items::new(alloc);
    items.push(blank)?;
    let f = Expr::symbol(Sym {
        base: 500,
        number: 0,
    });
    Ok(Expr::normal(alloc, f, items)?)
}

#[test]
fn a_rule_with_a_blank_stands_behind_one_without(rt: HostRuntime) -> Result<(), Fail> {
    let names = table(rt.alloc())?;
    let mut rules = Rules::new(rt.alloc());
    rules.insert(rt.alloc(), &names, any(rt.alloc(), &names)?, Expr::int(1))?;
    rules.insert(
        rt.alloc(),
        &names,
        name(&names, Builtin::Plus),
        Expr::int(2),
    )?;
    let Some(first) = rules.get(0) else {
        return Err(Fail::from("no rule"));
    };
    assert!(rt; first.right().equals(&Expr::int(2)));
    let rest = rules.without(rt.alloc(), &name(&names, Builtin::Plus))?;
    assert_eq!(rt; rest.len(), 1);
    assert_eq!(rt; rules.len(), 2);
    Ok(())
}

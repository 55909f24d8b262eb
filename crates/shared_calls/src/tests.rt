use crate::{ShareKind, Shared, SharedSymbol, access_of};
use builtin_names::names_with;
use expr_tree::{Attrs, Expr, Sym};
use item_list::Items;
use std::test::Fail;

#[test]
fn a_shared_variable_is_an_access(rt: HostRuntime) -> Result<(), Fail> {
    let none = Items::new(rt.alloc());
    let names = names_with(rt.alloc(), &none)?;
    let symbol = Sym {
        base: 500,
        number: 0,
    };
    let mut shared = Shared::new(rt.alloc());
    shared.push(SharedSymbol {
        symbol,
        kind: ShareKind::Variable,
        attrs: Attrs::none(),
    })?;
    let found = access_of(&shared, &names, &Expr::symbol(symbol));
    assert_eq!(rt; found, Some(symbol));
    Ok(())
}

use crate::{name, share};
use builtin_names::{Vocabulary, names_with};
use expr_tree::{Attrs, Sym, Syms};
use item_list::Items;
use kernel_defs::Defs;
use shared_calls::ShareKind;
use std::alloc::Global;
use std::test::Fail;

const X: Sym = Sym {
    base: 500,
    number: 0,
};

const Y: Sym = Sym {
    base: 501,
    number: 0,
};

fn table(alloc: Global) -> Result<Vocabulary, Fail> {
    let none = Items::new(alloc);
    Ok(names_with(alloc, &none)?)
}

fn both(alloc: Global) -> Result<Syms, Fail> {
    let mut symbols = Items::new(alloc);
    symbols.push(X)?;
    symbols.push(Y)?;
    Ok(symbols)
}

#[test]
fn a_protected_symbol_refuses_the_whole_list(rt: HostRuntime) -> Result<(), Fail> {
    let names = table(rt.alloc())?;
    let symbols = both(rt.alloc())?;
    let mut defs = Defs::new(rt.alloc())?;
    let mut attrs = Attrs::none();
    attrs.protected = true;
    defs.set_attrs(rt.alloc(), &names, Y, attrs)?;
    let done = share(rt.alloc(), &names, &mut defs, &symbols, ShareKind::Variable)?;
    assert!(rt; !done);
    assert_eq!(rt; defs.shared().len(), 0);
    defs.set_attrs(rt.alloc(), &names, Y, Attrs::none())?;
    let done = share(rt.alloc(), &names, &mut defs, &symbols, ShareKind::Variable)?;
    assert!(rt; done);
    assert_eq!(rt; defs.shared().len(), 2);
    Ok(())
}

#[test]
fn a_symbol_is_named_once(rt: HostRuntime) -> Result<(), Fail> {
    let symbols = both(rt.alloc())?;
    let mut defs = Defs::new(rt.alloc())?;
    name(rt.alloc(), &mut defs, &symbols)?;
    name(rt.alloc(), &mut defs, &symbols)?;
    assert_eq!(rt; defs.named().len(), 2);
    Ok(())
}

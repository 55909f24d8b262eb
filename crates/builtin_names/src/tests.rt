use crate::{names_with, role_of, symbol_for};
use item_list::Items;
use semantics::Builtin;
use std::test::Fail;

#[test]
fn rows_are_found_by_their_symbols(rt: HostRuntime) -> Result<(), Fail> {
    let none = Items::new(rt.alloc());
    let names = names_with(rt.alloc(), &none)?;
    let plus = symbol_for(&names, Builtin::Plus);
    assert!(rt; role_of(&names, plus) == Some(Builtin::Plus));
    Ok(())
}

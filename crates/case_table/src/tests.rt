use crate::{BUILTINS, Builtin, OPERATORS, builtins, name_of, operators};
use std::test::Fail;

#[test]
fn names_have_places(rt: HostRuntime) -> Result<(), Fail> {
    assert_eq!(rt; builtins().find("Plus"), Some(0));
    assert_eq!(rt; builtins().find("$KernelCount"), Some(BUILTINS - 1));
    assert_eq!(rt; builtins().find("plus"), None);
    assert_eq!(rt; operators().find("==="), Some(0));
    assert_eq!(rt; builtins().rows.len(), BUILTINS);
    assert_eq!(rt; operators().rows.len(), OPERATORS);
    assert_eq!(rt; name_of(Builtin::Aborted), "$Aborted");
    Ok(())
}

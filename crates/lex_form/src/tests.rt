use crate::{Kind, LexFault, Span, cells, lex, names_of};
use item_list::Items;
use std::test::Fail;

#[test]
fn tokens_stand_before_the_fault(rt: HostRuntime) -> Result<(), Fail> {
    let lexed = lex(rt.alloc(), "x_ :=#2 (* (* *) *) \"a\\q")?;
    let kinds = [Kind::Blank, Kind::Operator, Kind::Slot];
    let ends = [2, 5, 7];
    assert_eq!(rt; lexed.tokens.len(), 3);
    for (at, token) in lexed.tokens.as_slice().iter().enumerate() {
        assert_eq!(rt; Some(&token.kind), kinds.get(at));
        assert_eq!(rt; Some(&token.to), ends.get(at));
    }
    assert_eq!(rt; lexed.fault, Some(LexFault::BadByte(22)));
    Ok(())
}

#[test]
fn cells_are_runs_of_lines(rt: HostRuntime) -> Result<(), Fail> {
    let spans = cells(rt.alloc(), "a\n \n b\nc\n")?;
    let wanted = [Span { from: 0, to: 1 }, Span { from: 4, to: 8 }];
    assert_eq!(rt; spans.as_slice(), wanted.as_slice());
    Ok(())
}

#[test]
fn tokens_spell_names(rt: HostRuntime) -> Result<(), Fail> {
    let text = "f[x_h] = \"g\"";
    let lexed = lex(rt.alloc(), text)?;
    let mut names = Items::new(rt.alloc());
    names_of(rt.alloc(), text, &lexed.tokens, &mut names)?;
    let wanted = ["f", "x", "h"];
    assert_eq!(rt; names.len(), 3);
    for (at, name) in names.as_slice().iter().enumerate() {
        assert_eq!(rt; Some(&name.as_str()), wanted.get(at));
    }
    Ok(())
}

ghost use Rattle.std.specs.Prelude.{◌≡◌, IfOk};
ghost use Rattle.syntax.specs.Tokens as syn;
ghost use Rattle.lex_form.specs.Lexes as form;
ghost use Rattle.read_form.specs.Kept.{AreKeptNames};

use crate::{ReadNo, read_lexed};
use builtin_names::{Vocabulary, names_with};
use expr_tree::Expr;
use item_list::Items;
use lex_form::{Lexed, lex, names_of};
use std::alloc::Global;
use std::test::Fail;

/// The names of the built-in table and of a cell.
fn names_for(alloc: Global, cell: &str, lexed: &Lexed) -> Result<Vocabulary, Fail>
    requires { form.lexed lexed.now ≡ syn.lex cell.now }
    ensures kept { IfOk result (λ names. AreKeptNames names.texts (syn.names_in cell.now (syn.lex cell.now).tokens)) }
{
    let mut texts = Items::new(alloc);
    names_of(alloc, cell, &lexed.tokens, &mut texts)?;
    if texts.len() >= 1 << 31 {
        return Err(Fail::from("too many names"));
    }
    Ok(names_with(alloc, &texts)?)
}

fn read(alloc: Global, cell: &str) -> Result<Result<Expr, ReadNo>, Fail> {
    let lexed = lex(alloc, cell)?;
    let names = names_for(alloc, cell, &lexed)?;
    if cell.len() > 1_048_576 {
        return Err(Fail::from("too long"));
    }
    Ok(read_lexed(alloc, &names, cell, &lexed))
}

fn are_read_alike(alloc: Global, cell: &str, other: &str) -> Result<bool, Fail> {
    match (read(alloc, cell)?, read(alloc, other)?) {
        (Ok(a), Ok(b)) => Ok(a.equals(&b)),
        _ => Ok(false),
    }
}

fn is_refused(alloc: Global, cell: &str, place: usize) -> Result<bool, Fail> {
    match read(alloc, cell)? {
        Ok(_) => Ok(false),
        Err(no) => Ok(no == ReadNo::Syntax(place)),
    }
}

#[test]
fn operators_are_read(rt: HostRuntime) -> Result<(), Fail> {
    let cell = "HoldComplete[-x^2 - 3 y /; a == b]";
    let full = "HoldComplete[Condition[Plus[Times[-1, Power[x, 2]], Times[-3, y]], Equal[a, b]]]";
    assert!(rt; are_read_alike(rt.alloc(), cell, full)?);
    Ok(())
}

#[test]
fn slots_and_strings_are_read(rt: HostRuntime) -> Result<(), Fail> {
    let map = "Map[Function[Plus[Slot[1], 1]], a]";
    assert!(rt; are_read_alike(rt.alloc(), "# + 1 & /@ a", map)?);
    match read(rt.alloc(), "\"a\\n\\\"\"")? {
        Ok(e) => assert!(rt; e.equals(&Expr::text(expr_tree::Text::of(rt.alloc(), "a\n\"")?))),
        Err(_) => return Err(Fail::from("not read")),
    }
    Ok(())
}

#[test]
fn the_first_bad_token_is_found(rt: HostRuntime) -> Result<(), Fail> {
    assert!(rt; is_refused(rt.alloc(), "1 +", 3)?);
    assert!(rt; is_refused(rt.alloc(), "a + ] b", 4)?);
    assert!(rt; is_refused(rt.alloc(), "f[ \"open", 3)?);
    assert!(rt; is_refused(rt.alloc(), "f ] \"open", 2)?);
    Ok(())
}

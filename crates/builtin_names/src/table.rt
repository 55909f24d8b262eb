//! The names of a script and of the built-in table.
ghost use Rattle.std.specs.Prelude.{◌≡◌, ◌<◌, ◌+◌, ◌^◌, ◌++◌, map, length, take, IfOk};
ghost use Rattle.script_text.specs.Spelling.{bases};
ghost use Rattle.semantics.specs.Builtin.{rows};
ghost use Rattle.semantics.specs.Texts.{row_text};

use crate::symbols::row_of_place;
use crate::vocabulary::Vocabulary;
use case_table::{BUILTINS, name_of};
use expr_tree::{Text, Texts};
use item_list::Items;
use name_table::Names;
use std::alloc::{AllocError, Global};

/// The names of the rows, in their order.
fn row_names(alloc: Global) -> Result<Texts, AllocError>
    ensures { IfOk result (λ texts. texts ≡ map row_text rows) }
{
    let mut texts = Items::new(alloc);
    for place in 0..BUILTINS {
        texts.push(Text::of(alloc, name_of(row_of_place(place)))?)?;
    }
    Ok(texts)
}

/// The bases of the built-in table and of some texts, each of which is a name; the known names are those of the table.
pub fn names_with(alloc: Global, texts: &Texts) -> Result<Vocabulary, AllocError>
    requires { length texts.now < 2 ^ 31 }
    ensures texts { IfOk result (λ names. names.texts ≡ bases (map row_text rows ++ texts.now)) }
{
    let known = row_names(alloc)?;
    let names = Names::of_texts(alloc, &known, texts)?;
    names.known_are_kept();
    Ok(Vocabulary::new(names))
}

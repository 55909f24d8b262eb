//! The symbols of the rows, and the row of a symbol.
ghost use Rattle.std.specs.Prelude.{◌≡◌, ◌<◌, length, get_or};
ghost use Rattle.semantics.specs.declared.builtin.Builtin.{Builtin};
ghost use Rattle.semantics.specs.Builtin.{row_number, rows, row_count};
ghost use Rattle.semantics.specs.Names.{IsNames, known, is_known, role_of};
ghost use Rattle.builtin_names.specs.Named.{names_in};

use crate::vocabulary::Vocabulary;
use case_table::{Code, builtins};
use expr_tree::Sym;
use semantics::Builtin;

/// The place of a row in the table.
pub(crate) fn place_of(row: Builtin) -> usize
    ensures { result ≡ row_number row }
{
    row as usize
}

/// The row at a place of the table.
#[tactic(auto)]
pub(crate) fn row_of_place(place: usize) -> Builtin
    requires { place < row_count }
    ensures { result ≡ get_or rows place Builtin.Plus }
{
    match builtins().rows[place].code {
        Code::Builtin(row) => row,
        Code::Operator(_) => unreachable!(),
    }
}

/// The symbol of a row.
#[tactic(auto)]
pub fn symbol_for(names: &Vocabulary, row: Builtin) -> Sym
    ensures symbol { result ≡ known (names_in names.now) row }
    ensures kept { result.base < length names.now.texts }
{
    names.names().known(place_of(row))
}

/// Whether a symbol is that of a row.
pub fn is_known(names: &Vocabulary, row: Builtin, symbol: Sym) -> bool
    ensures { result ≡ is_known (names_in names.now) row symbol }
{
    let known = symbol_for(names, row);
    symbol.number == 0 && symbol.base == known.base
}

/// The row of a symbol. A generated symbol has none.
pub fn role_of(names: &Vocabulary, symbol: Sym) -> Option<Builtin>
    ensures { result ≡ role_of (names_in names.now) symbol }
{
    let table = names.names();
    table.texts_are_distinct();
    match table.row(symbol) {
        Some(place) => Some(row_of_place(place)),
        None => None,
    }
}

/// Each row stands at one place of the names, and no other place is a row.
pub fn rows_are_names(names: &Vocabulary)
    ensures { IsNames (names_in names.now) }
{
    names.names().texts_are_distinct();
}

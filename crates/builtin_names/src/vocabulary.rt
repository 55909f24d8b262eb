//! The names of a script among which the built-in table is.
ghost use Rattle.std.specs.Prelude.{◌≡◌};
ghost use Rattle.builtin_names.specs.Named.{HasBuiltins};

use name_table::Names;
use std::marker::Model;

/// A table of names whose known names are the rows of the built-in table, in their order.
#[derive(Drop)]
pub struct Vocabulary {
    names: Names,
}

impl Model for Vocabulary {
    ghost use Rattle.name_table.specs.Table.{NameTable};
    ghost use Rattle.builtin_names.specs.Named.{HasBuiltins};

    ghost Value = { NameTable };

    ghost view = { λ v. v.names };

    ghost invariant = { λ v. HasBuiltins v.names };
}

impl Vocabulary {
    /// Names that hold the rows.
    pub(crate) fn new(names: Names) -> Vocabulary
        requires { HasBuiltins names }
        ensures { result ≡ names }
    {
        Vocabulary { names }
    }

    /// The table itself, for what does not ask for rows.
    pub fn names(&self) -> &Names
        ensures same { result.now ≡ self.now }
        ensures rows { HasBuiltins result.now }
    {
        &self.names
    }
}

//! The attributes of a symbol.
ghost use Rattle.std.specs.Prelude.{◌≡◌};
ghost use Rattle.semantics.specs.Builtin.{first_attributes};
ghost use Rattle.builtin_names.specs.Attributes.{attributes_in};

use crate::symbols::place_of;
use case_table::builtins;
use expr_tree::Attrs;
use semantics::Builtin;

/// The attributes that a row has at the start.
#[tactic(auto)]
pub fn first_attrs(row: Builtin) -> Attrs
    ensures { attributes_in result ≡ first_attributes row }
{
    builtins().rows[place_of(row)].attrs
}

//! Putting in place by the names of a script.
ghost use Rattle.std.specs.Prelude.{◌≡◌};
ghost use Rattle.expr_tree.specs.Limits.{Assembles};
ghost use Rattle.semantics.specs.InPlace.{binders, put_in_place};
ghost use Rattle.builtin_names.specs.Named.{names_in};

use crate::{Bindings, subst_with};
use builtin_names::{Vocabulary, symbol_for};
use expr_tree::{Binders, Built, Expr};
use semantics::Builtin;
use std::alloc::Global;

/// The symbols that putting in place looks for.
pub fn binders_of(names: &Vocabulary) -> Binders
    ensures { result ≡ binders (names_in names.now) }
{
    Binders {
        module: symbol_for(names, Builtin::Module),
        with: symbol_for(names, Builtin::With),
        function: symbol_for(names, Builtin::Function),
        list: symbol_for(names, Builtin::List),
        set: symbol_for(names, Builtin::Set),
        sequence: symbol_for(names, Builtin::Sequence),
    }
}

/// `subst_with` by the symbols of the six names.
pub fn subst(
    alloc: Global,
    e: &Expr,
    bindings: &Bindings,
    names: &Vocabulary,
) -> Result<Expr, Built>
    ensures { Assembles (put_in_place (names_in names.now) bindings.now e.now) result }
{
    subst_with(alloc, &binders_of(names), bindings, e)
}

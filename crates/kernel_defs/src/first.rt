//! What symbols have at the start.
ghost use Rattle.std.specs.Prelude.{◌≡◌, is_none};
ghost use Rattle.semantics.specs.Definitions as d;
ghost use Rattle.builtin_names.specs.Attributes.{attributes_in};
ghost use Rattle.builtin_names.specs.Named.{names_in};
ghost use Rattle.kernel_defs.specs.Definition.{definition_of};

use crate::definition::Definition;
use builtin_names::{Vocabulary, first_attrs, role_of};
use expr_tree::{Attrs, Expr, Sym};
use rule_store::Rules;
use std::alloc::Global;

/// The attributes that the built-in table gives a symbol.
pub(crate) fn attrs_at_first(names: &Vocabulary, symbol: Sym) -> Attrs
    ensures { attributes_in result ≡ (d.first_definition (names_in names.now) symbol).attributes }
{
    match role_of(names, symbol) {
        None => Attrs::none(),
        Some(row) => first_attrs(row),
    }
}

/// What a symbol has at the start.
pub(crate) fn definition_at_first(alloc: Global, names: &Vocabulary, symbol: Sym) -> Definition
    ensures { definition_of result ≡ d.first_definition (names_in names.now) symbol }
{
    Definition {
        attrs: attrs_at_first(names, symbol),
        own: None,
        downs: Rules::new(alloc),
        ups: Rules::new(alloc),
    }
}

fn are_same(a: Attrs, b: Attrs) -> bool
    ensures { result ≡ d.same_attributes (attributes_in a) (attributes_in b) }
{
    a == b
}

fn has_no_rules(rules: &Rules) -> bool
    ensures { result ≡ d.is_empty rules.now }
{
    match rules.as_slice() {
        [] => true,
        [_, ..] => false,
    }
}

fn has_no_own(own: &Option<Expr>) -> bool
    ensures { result ≡ is_none own.now }
{
    own.is_none()
}

/// Whether a definition says no more than the built-in table.
pub(crate) fn is_first(names: &Vocabulary, symbol: Sym, definition: &Definition) -> bool
    ensures { result ≡ d.is_first (names_in names.now) symbol (definition_of definition.now) }
{
    has_no_own(&definition.own)
        && (has_no_rules(&definition.downs)
            && (has_no_rules(&definition.ups)
                && are_same(definition.attrs, attrs_at_first(names, symbol))))
}

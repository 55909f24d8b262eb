//! What is read of a symbol.
ghost use Rattle.std.specs.Prelude.{◌≡◌, Option};
ghost use Rattle.std.specs.Option.{option_copied, option_map};
ghost use Rattle.semantics.specs.Changes as changes;
ghost use Rattle.semantics.specs.Definitions as d;
ghost use Rattle.semantics.specs.Names as n;
ghost use Rattle.builtin_names.specs.Attributes.{attributes_in};
ghost use Rattle.builtin_names.specs.Named.{names_in};
ghost use Rattle.kernel_defs.specs.Definition.{definition_of};

use crate::defs::Defs;
use crate::first::attrs_at_first;
use builtin_names::Vocabulary;
use expr_tree::{Attrs, Expr, Sym};
use rule_store::Rules;

impl Defs {
    /// The attributes of a symbol.
    pub fn attrs_of(&self, names: &Vocabulary, symbol: Sym) -> Attrs
        ensures { attributes_in result ≡ (d.definition_of (names_in names.now) self.now symbol).attributes }
    {
        match self.shared().find(symbol) {
            Some(shared) => shared.attrs,
            None => self.stored_attrs(names, symbol),
        }
    }

    /// The attributes that are stored for a symbol, whether or not it is shared.
    pub fn stored_attrs(&self, names: &Vocabulary, symbol: Sym) -> Attrs
        ensures { attributes_in result ≡ (d.stored (names_in names.now) self.now symbol).attributes }
    {
        match self.find(symbol) {
            Some(definition) => definition.attrs,
            None => attrs_at_first(names, symbol),
        }
    }

    /// Whether a symbol is Protected.
    #[tactic(auto, using(crate::proofs::Attributes::has_protected))]
    pub fn is_protected(&self, names: &Vocabulary, symbol: Sym) -> bool
        ensures { result ≡ changes.is_protected (d.definition_of (names_in names.now) self.now symbol) }
    {
        self.attrs_of(names, symbol).protected
    }

    /// The own value of a symbol.
    pub fn own_of(&self, symbol: Sym) -> Option<&Expr>
        ensures { (names : n.Names) → option_copied result ≡ (d.definition_of names self.now symbol).own }
    {
        match self.find(symbol) {
            Some(definition) => definition.own.as_ref(),
            None => None,
        }
    }

    /// The down rules of a symbol, in the order in which they are tried.
    pub fn downs_of(&self, symbol: Sym) -> &Rules
        ensures { (names : n.Names) → result.now ≡ (d.definition_of names self.now symbol).downs }
    {
        match self.find(symbol) {
            Some(definition) => &definition.downs,
            None => self.no_rules(),
        }
    }

    /// The up rules of a symbol, in the order in which they are tried.
    pub fn ups_of(&self, symbol: Sym) -> &Rules
        ensures { (names : n.Names) → result.now ≡ (d.definition_of names self.now symbol).ups }
    {
        match self.find(symbol) {
            Some(definition) => &definition.ups,
            None => self.no_rules(),
        }
    }

    /// Whether a symbol has an own value, for a symbol as left side, or a rule with this left side.
    pub fn holds(&self, symbol: Sym, left: &Expr) -> bool
        ensures { (names : n.Names) → result ≡ changes.holds left.now (d.definition_of names self.now symbol) }
    {
        match self.find(symbol) {
            Some(definition) => definition.holds(left),
            None => false,
        }
    }
}

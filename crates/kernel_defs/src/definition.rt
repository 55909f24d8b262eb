ghost use Rattle.std.specs.Prelude.{◌≡◌, IfOk, OnOk, OnErr};
ghost use Rattle.semantics.specs.Assign as assign;
ghost use Rattle.semantics.specs.Changes as changes;
ghost use Rattle.semantics.specs.Rule as rule;
ghost use Rattle.builtin_names.specs.Named.{names_in};
ghost use Rattle.kernel_defs.specs.Targets.{place_of};
ghost use Rattle.kernel_defs.specs.Definition.{definition_of};

use crate::targets::Place;
use builtin_names::Vocabulary;
use expr_tree::{Attrs, Expr, Node};
use rule_store::Rules;
use std::alloc::{AllocError, Global};

/// What an evaluation knows of a symbol.
#[derive(Debug, Drop)]
pub struct Definition {
    pub attrs: Attrs,
    pub own: Option<Expr>,
    pub downs: Rules,
    pub ups: Rules,
}

fn has_left(rules: &Rules, left: &Expr) -> bool
    ensures { result ≡ rule.has_left left.now rules.now }
{
    for rule in rules.as_slice() {
        if rule.left().equals(left) {
            return true;
        }
    }
    false
}

impl Definition {
    /// Attaches a value or a rule. An `Err` leaves the definition unchanged.
    pub fn attach(
        &mut self,
        alloc: Global,
        names: &Vocabulary,
        place: Place,
        left: Expr,
        right: Expr,
    ) -> Result<(), AllocError>
        ensures ok { OnOk result (definition_of self.new ≡ assign.attached (names_in names.now) (place_of place) left right (definition_of self.old)) }
        ensures err { OnErr result (self.new ≡ self.old) }
    {
        match place {
            Place::Own => {
                self.own = Some(right);
                Ok(())
            }
            Place::Down => self.downs.insert(alloc, names, left, right),
            Place::Up => self.ups.insert(alloc, names, left, right),
        }
    }

    /// Whether there is an own value, for a symbol, or a rule with this left side.
    pub fn holds(&self, left: &Expr) -> bool
        ensures { result ≡ changes.holds left.now (definition_of self.now) }
    {
        match left.node() {
            Node::Symbol(_) => self.own.is_some(),
            _ => has_left(&self.downs, left) || has_left(&self.ups, left),
        }
    }

    /// Takes away the own value, for a symbol, or the rules with this left side. An `Err` leaves the definition unchanged.
    pub fn take_away(&mut self, alloc: Global, left: &Expr) -> Result<(), AllocError>
        ensures ok { OnOk result (definition_of self.new ≡ changes.without_left left.now (definition_of self.old)) }
        ensures err { OnErr result (definition_of self.new ≡ definition_of self.old) }
    {
        match left.node() {
            Node::Symbol(_) => self.own = None,
            _ => {
                let downs = self.downs.without(alloc, left)?;
                let ups = self.ups.without(alloc, left)?;
                self.downs = downs;
                self.ups = ups;
            }
        }
        Ok(())
    }

    /// The same definition, whose value and rules are shared.
    pub fn copy(&self, alloc: Global) -> Result<Definition, AllocError>
        ensures { IfOk result (λ x. definition_of x ≡ definition_of self.now) }
    {
        let own = match &self.own {
            None => None,
            Some(value) => Some(value.copy(alloc)?),
        };
        Ok(Definition {
            attrs: self.attrs,
            own,
            downs: self.downs.copy(alloc)?,
            ups: self.ups.copy(alloc)?,
        })
    }

    /// Takes away all but the attributes.
    pub fn clear(&mut self, alloc: Global)
        ensures { definition_of self.new ≡ changes.cleared (definition_of self.old) }
    {
        self.own = None;
        self.downs = Rules::new(alloc);
        self.ups = Rules::new(alloc);
    }
}

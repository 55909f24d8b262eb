//! Definitions in a chain. What a chain gives out goes back into it, or into another, without memory.
ghost use Rattle.std.specs.Prelude.{◌≡◌, ◌∷◌, [], List, Option, MatchOption, IfSome, IfOk, OnOk, OnErr};
ghost use Rattle.std.specs.Option.{option_copied, option_map};
ghost use Rattle.semantics.specs.Assign as assign;
ghost use Rattle.semantics.specs.Changes as changes;
ghost use Rattle.semantics.specs.Definitions as d;
ghost use Rattle.builtin_names.specs.Attributes.{attributes_in};
ghost use Rattle.builtin_names.specs.Named.{names_in};
ghost use Rattle.kernel_defs.specs.Targets.{place_of};
ghost use Rattle.kernel_defs.specs.Chains.{entry_of, listed, behind, without_first};
ghost use Rattle.kernel_defs.specs.Definition.{definition_of};

use crate::definition::Definition;
use crate::targets::Place;
use builtin_names::Vocabulary;
use expr_tree::{Attrs, Expr, Sym};
use std::alloc::{AllocError, Global};
use std::mem;

/// A symbol with its definition, and what stands behind it.
#[cycle(chain)]
#[derive(Drop)]
pub(crate) struct Entry {
    pub(crate) symbol: Sym,
    pub(crate) definition: Definition,
    rest: Chain,
}

/// Entries, each behind the one before it.
#[cycle(chain)]
pub(crate) enum Chain {
    End,
    Link(Box<Entry>),
}

impl Drop for Chain {
    fn drop(mut self) {
        loop {
            match self {
                Chain::End => return,
                Chain::Link(entry) => {
                    let Entry {
                        symbol: _,
                        definition,
                        rest,
                    } = Box::into_inner(entry);
                    drop(definition);
                    self = rest;
                }
            }
        }
    }
}

impl Entry {
    pub(crate) fn boxed(
        alloc: Global,
        symbol: Sym,
        definition: Definition,
    ) -> Result<Box<Entry>, AllocError>
        ensures symbol { IfOk result (λ e. e.value.symbol ≡ symbol) }
        ensures definition { IfOk result (λ e. definition_of e.value.definition ≡ definition_of definition) }
    {
        let entry = Entry {
            symbol,
            definition,
            rest: Chain::End,
        };
        Ok(Box::new(alloc, entry)?)
    }

    /// Puts a definition in the place of the old one.
    pub(crate) fn set(&mut self, definition: Definition)
        ensures symbol { self.new.symbol ≡ self.old.symbol }
        ensures definition { definition_of self.new.definition ≡ definition_of definition }
    {
        self.definition = definition;
    }

    /// Puts attributes in the place of the old ones.
    pub(crate) fn set_attrs(&mut self, attrs: Attrs)
        ensures symbol { self.new.symbol ≡ self.old.symbol }
        ensures definition { definition_of self.new.definition ≡ record (definition_of self.old.definition) { attributes = attributes_in attrs } }
    {
        self.definition.attrs = attrs;
    }

    /// Attaches a value or a rule. An `Err` leaves the entry unchanged.
    pub(crate) fn attach(
        &mut self,
        alloc: Global,
        names: &Vocabulary,
        place: Place,
        left: Expr,
        right: Expr,
    ) -> Result<(), AllocError>
        ensures symbol { self.new.symbol ≡ self.old.symbol }
        ensures ok { OnOk result (definition_of self.new.definition ≡ assign.attached (names_in names.now) (place_of place) left right (definition_of self.old.definition)) }
        ensures err { OnErr result (definition_of self.new.definition ≡ definition_of self.old.definition) }
    {
        self.definition.attach(alloc, names, place, left, right)
    }

    /// Takes away the own value, for a symbol as left side, or the rules with it. An `Err` leaves the entry unchanged.
    pub(crate) fn take_away(&mut self, alloc: Global, left: &Expr) -> Result<(), AllocError>
        ensures symbol { self.new.symbol ≡ self.old.symbol }
        ensures ok { OnOk result (definition_of self.new.definition ≡ changes.without_left left.now (definition_of self.old.definition)) }
        ensures err { OnErr result (definition_of self.new.definition ≡ definition_of self.old.definition) }
    {
        self.definition.take_away(alloc, left)
    }

    /// The same entry with nothing behind it.
    fn copy(&self, alloc: Global) -> Result<Box<Entry>, AllocError>
        ensures { IfOk result (λ e. entry_of e.value ≡ entry_of self.now) }
    {
        Entry::boxed(alloc, self.symbol, self.definition.copy(alloc)?)
    }
}

impl Chain {
    fn open(self) -> Option<Box<Entry>>
        ensures { MatchOption result (listed self ≡ []) (λ e. listed self ≡ entry_of e.value ∷ listed e.value.rest) }
    {
        match self {
            Chain::End => None,
            Chain::Link(entry) => Some(entry),
        }
    }

    /// Takes the first entry off.
    pub(crate) fn pop(&mut self) -> Option<Box<Entry>>
        ensures { MatchOption result ((listed self.old ≡ []) × (listed self.new ≡ [])) (λ e. listed self.old ≡ entry_of e.value ∷ listed self.new) }
    {
        let mut entry = mem::replace(self, Chain::End).open()?;
        *self = mem::replace(&mut entry.rest, Chain::End);
        Some(entry)
    }

    /// Puts an entry in front.
    pub(crate) fn push(&mut self, mut entry: Box<Entry>)
        ensures { listed self.new ≡ entry_of entry.value ∷ listed self.old }
    {
        entry.rest = mem::replace(self, Chain::End);
        *self = Chain::Link(entry);
    }

    /// The definition of a symbol, if the chain has one.
    pub(crate) fn find(&self, symbol: Sym) -> Option<&Definition>
        ensures { option_map definition_of (option_copied result) ≡ d.look_up (listed self.now) symbol }
    {
        let mut at = self;
        while let Chain::Link(entry) = at {
            if entry.symbol == symbol {
                return Some(&entry.definition);
            }
            at = &entry.rest;
        }
        None
    }

    /// Puts entries back that were taken off one after the other.
    fn push_all(&mut self, mut passed: Chain)
        ensures { listed self.new ≡ behind (listed passed) (listed self.old) }
    {
        while let Some(entry) = passed.pop() {
            self.push(entry);
        }
    }

    /// The same entries.
    pub(crate) fn copy(&self, alloc: Global) -> Result<Chain, AllocError>
        ensures { IfOk result (λ c. listed c ≡ listed self.now) }
    {
        let mut passed = Chain::End;
        let mut at = self;
        while let Chain::Link(entry) = at {
            passed.push(entry.copy(alloc)?);
            at = &entry.rest;
        }
        let mut copy = Chain::End;
        copy.push_all(passed);
        Ok(copy)
    }

    /// Takes the first entry of a symbol out.
    pub(crate) fn take(&mut self, symbol: Sym) -> Option<Box<Entry>>
        ensures definition { option_map (λ e. definition_of e.value.definition) result ≡ d.look_up (listed self.old) symbol }
        ensures symbol { IfSome result (λ e. e.value.symbol ≡ symbol) }
        ensures rest { listed self.new ≡ without_first (listed self.old) symbol }
    {
        let mut passed = Chain::End;
        while let Some(entry) = self.pop() {
            if entry.symbol == symbol {
                self.push_all(passed);
                return Some(entry);
            }
            passed.push(entry);
        }
        self.push_all(passed);
        None
    }
}

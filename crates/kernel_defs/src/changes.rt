//! The definition of one symbol changes.
ghost use Rattle.std.specs.Prelude.{◌≡◌, IfOk, IfSome, OnOk, OnErr, Some, None};
ghost use Rattle.std.specs.Option.{option_map};
ghost use Rattle.semantics.specs.Assign as assign;
ghost use Rattle.semantics.specs.Changes as changes;
ghost use Rattle.semantics.specs.Definitions as d;
ghost use Rattle.semantics.specs.Play as play;
ghost use Rattle.builtin_names.specs.Attributes.{attributes_in};
ghost use Rattle.builtin_names.specs.Named.{names_in};
ghost use Rattle.kernel_defs.specs.Definition.{definition_of};
ghost use Rattle.kernel_defs.specs.Locals.{without};
ghost use Rattle.kernel_defs.specs.Targets.{place_of};

use crate::chain::Entry;
use crate::definition::Definition;
use crate::defs::Defs;
use crate::first::{definition_at_first, is_first};
use crate::targets::{Place, Target};
use builtin_names::Vocabulary;
use expr_tree::{Attrs, Expr, Sym};
use rule_store::Rules;
use std::alloc::{AllocError, Global};

/// An entry that says what the built-in table does.
fn first_entry(alloc: Global, names: &Vocabulary, symbol: Sym) -> Result<Box<Entry>, AllocError>
    ensures symbol { IfOk result (λ e. e.value.symbol ≡ symbol) }
    ensures definition { IfOk result (λ e. definition_of e.value.definition ≡ d.first_definition (names_in names.now) symbol) }
{
    Entry::boxed(alloc, symbol, definition_at_first(alloc, names, symbol))
}

impl Defs {
    /// Puts an entry in, where it says more than the built-in table.
    #[tactic(auto, using(crate::proofs::Written::store_steps))]
    pub(crate) fn store(&mut self, names: &Vocabulary, entry: Box<Entry>)
        requires absent { d.look_up self.old.entries entry.value.symbol ≡ None }
        ensures { self.new ≡ d.put (names_in names.now) self.old entry.value.symbol (definition_of entry.value.definition) }
    {
        if is_first(names, entry.symbol, &entry.definition) {
            return;
        }
        self.link(entry);
    }

    /// Takes the entry of a symbol out, or makes one that says what the built-in table does.
    #[tactic(auto, using(crate::proofs::Written::stored_steps))]
    pub(crate) fn take_or_first(
        &mut self,
        alloc: Global,
        names: &Vocabulary,
        symbol: Sym,
    ) -> Result<Box<Entry>, AllocError>
        ensures symbol { IfOk result (λ e. e.value.symbol ≡ symbol) }
        ensures definition { IfOk result (λ e. definition_of e.value.definition ≡ d.stored (names_in names.now) self.old symbol) }
        ensures rest { OnOk result (self.new ≡ without self.old symbol) }
        ensures err { OnErr result (self.new ≡ self.old) }
    {
        match self.take(symbol) {
            Some(entry) => Ok(entry),
            None => first_entry(alloc, names, symbol),
        }
    }

    /// Gives a symbol a definition. An `Err` leaves the definitions unchanged.
    #[tactic(auto, using(crate::proofs::Written::stored_steps))]
    pub fn put(
        &mut self,
        alloc: Global,
        names: &Vocabulary,
        symbol: Sym,
        definition: Definition,
    ) -> Result<(), AllocError>
        ensures ok { OnOk result (self.new ≡ d.put (names_in names.now) self.old symbol (definition_of definition)) }
        ensures err { OnErr result (self.new ≡ self.old) }
    {
        let mut entry = self.take_or_first(alloc, names, symbol)?;
        entry.set(definition);
        self.store(names, entry);
        Ok(())
    }

    /// Gives a symbol an own value. An `Err` leaves the definitions unchanged.
    #[tactic(auto, using(crate::proofs::Written::stored_steps))]
    pub fn set_own(
        &mut self,
        alloc: Global,
        names: &Vocabulary,
        symbol: Sym,
        value: Expr,
    ) -> Result<(), AllocError>
        ensures ok { OnOk result (self.new ≡ play.written (names_in names.now) self.old symbol (record (d.definition_of (names_in names.now) self.old symbol) { own = Some value })) }
        ensures err { OnErr result (self.new ≡ self.old) }
    {
        let mut entry = self.take_or_first(alloc, names, symbol)?;
        entry.definition.own = Some(value);
        self.store(names, entry);
        Ok(())
    }

    /// Takes away all that a symbol has but its attributes.
    #[tactic(auto, using(crate::proofs::Written::stored_steps))]
    pub fn clear(&mut self, alloc: Global, names: &Vocabulary, symbol: Sym)
        ensures { self.new ≡ play.written (names_in names.now) self.old symbol (changes.cleared (d.definition_of (names_in names.now) self.old symbol)) }
    {
        if let Some(mut entry) = self.take(symbol) {
            entry.definition.clear(alloc);
            self.store(names, entry);
        }
    }

    /// Takes away the own value, for a symbol as left side, or the rules with this left side. An `Err` leaves the definitions
    /// unchanged.
    pub fn take_away(
        &mut self,
        alloc: Global,
        names: &Vocabulary,
        symbol: Sym,
        left: &Expr,
    ) -> Result<(), AllocError>
        ensures ok { OnOk result (self.new ≡ play.written (names_in names.now) self.old symbol (changes.without_left left.now (d.definition_of (names_in names.now) self.old symbol))) }
        ensures err { OnErr result (self.new ≡ self.old) }
    {
        match self.take(symbol) {
            Some(entry) => self.take_from(alloc, names, entry, left),
            None => Ok(()),
        }
    }

    /// Takes a value or rules away from an entry that was taken out, and puts it in.
    fn take_from(
        &mut self,
        alloc: Global,
        names: &Vocabulary,
        mut entry: Box<Entry>,
        left: &Expr,
    ) -> Result<(), AllocError>
        requires absent { d.look_up self.old.entries entry.value.symbol ≡ None }
        ensures ok { OnOk result (self.new ≡ d.put (names_in names.now) self.old entry.value.symbol (changes.without_left left.now (definition_of entry.value.definition))) }
        ensures err { OnErr result (self.new ≡ record self.old { entries = d.add_entry self.old.entries entry.value.symbol (definition_of entry.value.definition) }) }
    {
        match entry.take_away(alloc, left) {
            Ok(()) => {
                self.store(names, entry);
                Ok(())
            }
            Err(error) => {
                self.link(entry);
                Err(error)
            }
        }
    }

    /// The attributes that a symbol has after new ones were written: a shared symbol keeps what is stored.
    fn written_attrs(&self, symbol: Sym, stored: Attrs, new: Attrs) -> Attrs
        ensures { attributes_in result ≡ elim (d.shared_as self.now.shared symbol) [ None ↦ attributes_in new | Some e ↦ attributes_in stored ] }
    {
        match self.shared().find(symbol) {
            None => new,
            Some(_) => stored,
        }
    }

    /// Gives a symbol attributes in place of its own. An `Err` leaves the definitions unchanged.
    pub fn set_attrs(
        &mut self,
        alloc: Global,
        names: &Vocabulary,
        symbol: Sym,
        attrs: Attrs,
    ) -> Result<(), AllocError>
        ensures ok { OnOk result (self.new ≡ play.written (names_in names.now) self.old symbol (record (d.definition_of (names_in names.now) self.old symbol) { attributes = attributes_in attrs })) }
        ensures err { OnErr result (self.new ≡ self.old) }
    {
        let mut entry = self.take_or_first(alloc, names, symbol)?;
        let kept = self.written_attrs(symbol, entry.definition.attrs, attrs);
        entry.set_attrs(kept);
        self.store(names, entry);
        Ok(())
    }

    /// Gives a symbol this own value, or none, and nothing else. An `Err` leaves the definitions unchanged.
    pub fn make(
        &mut self,
        alloc: Global,
        names: &Vocabulary,
        symbol: Sym,
        value: Option<Expr>,
    ) -> Result<(), AllocError>
        ensures ok { OnOk result (self.new ≡ play.written (names_in names.now) self.old symbol (play.local_definition (record { symbol = symbol; value = value }))) }
        ensures err { OnErr result (self.new ≡ self.old) }
    {
        let mut entry = self.take_or_first(alloc, names, symbol)?;
        let kept = self.written_attrs(symbol, entry.definition.attrs, Attrs::none());
        entry.set(Definition {
            attrs: kept,
            own: value,
            downs: Rules::new(alloc),
            ups: Rules::new(alloc),
        });
        self.store(names, entry);
        Ok(())
    }

    /// Attaches a value or a rule to a symbol. An `Err` leaves the definitions unchanged.
    pub fn attach(
        &mut self,
        alloc: Global,
        names: &Vocabulary,
        target: Target,
        left: Expr,
        right: Expr,
    ) -> Result<(), AllocError>
        ensures ok { OnOk result (self.new ≡ play.written (names_in names.now) self.old target.symbol (assign.attached (names_in names.now) (place_of target.place) left right (d.definition_of (names_in names.now) self.old target.symbol))) }
        ensures err { OnErr result (self.new ≡ self.old) }
    {
        match self.take(target.symbol) {
            Some(entry) => self.attach_to(alloc, names, entry, target.place, left, right),
            None => {
                let mut entry = first_entry(alloc, names, target.symbol)?;
                entry.attach(alloc, names, target.place, left, right)?;
                self.store(names, entry);
                Ok(())
            }
        }
    }

    /// Attaches a value or a rule to an entry that was taken out, and puts it in.
    fn attach_to(
        &mut self,
        alloc: Global,
        names: &Vocabulary,
        mut entry: Box<Entry>,
        place: Place,
        left: Expr,
        right: Expr,
    ) -> Result<(), AllocError>
        requires absent { d.look_up self.old.entries entry.value.symbol ≡ None }
        ensures ok { OnOk result (self.new ≡ d.put (names_in names.now) self.old entry.value.symbol (assign.attached (names_in names.now) (place_of place) left right (definition_of entry.value.definition))) }
        ensures err { OnErr result (self.new ≡ record self.old { entries = d.add_entry self.old.entries entry.value.symbol (definition_of entry.value.definition) }) }
    {
        match entry.attach(alloc, names, place, left, right) {
            Ok(()) => {
                self.store(names, entry);
                Ok(())
            }
            Err(error) => {
                self.link(entry);
                Err(error)
            }
        }
    }
}

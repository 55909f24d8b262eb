//! A kernel's table of definitions.
ghost use Rattle.std.specs.Prelude.{◌≡◌, ◌≤◌, ◌<◌, [], length, map, IfOk, IfSome, MatchOption, None};
ghost use Rattle.std.specs.Option.{option_copied, option_map};
ghost use Rattle.semantics.specs.Definitions as d;
ghost use Rattle.semantics.specs.Play as play;
ghost use Rattle.kernel_defs.specs.Definition.{definition_of};
ghost use Rattle.kernel_defs.specs.Chains.{listed};
ghost use Rattle.kernel_defs.specs.Table.{slot, AreEmpty, Ascends};
ghost use Rattle.kernel_defs.specs.Locals.{without};

use crate::chain::{Chain, Entry};
use crate::definition::Definition;
use expr_tree::{Sym, Syms};
use item_list::Items;
use rule_store::Rules;
use shared_calls::Shared;
use std::alloc::{AllocError, Global};
use std::marker::Model;

/// How many chains a table has.
const WIDTH: usize = 4096;

/// The module number that is never taken.
const LAST_NUMBER: u64 = 999999999999999999;

/// What an evaluation knows of symbols. A look-up takes as long as the chain of the symbol, among 4096.
#[derive(Drop)]
pub struct Defs {
    chains: Vec<Chain>,
    shared: Shared,
    named: Syms,
    module_number: u64,
    /// What a symbol without rules has.
    no_rules: Rules,
}

impl Model for Defs {
    ghost use Rattle.semantics.specs.Definitions.{Definitions};
    ghost use Rattle.expr_tree.specs.Code.{coded_tree};
    ghost use Rattle.std.specs.Coded.{codes};

    ghost Value = { Definitions };

    ghost coded = { Prim.hlevel (codes, coded_tree) };

    ghost use Rattle.kernel_defs.specs.Defs.{definitions_in, IsDefs};

    ghost view = { definitions_in };

    ghost invariant = { IsDefs };
}

/// The chain of a symbol.
fn slot(symbol: Sym) -> usize
    ensures at { result ≡ slot symbol }
    ensures within { result < 4096 }
{
    let base = symbol.base % 4096;
    let number = symbol.number % 4096;
    ((u64::from(base) + number) % 4096) as usize
}

fn empty_chains(alloc: Global) -> Result<Vec<Chain>, AllocError>
    ensures len { IfOk result (λ cs. length cs.items ≡ 4096) }
    ensures empty { IfOk result (λ cs. AreEmpty (map listed cs.items)) }
{
    let mut chains = Vec::with_capacity(alloc, WIDTH)?;
    for _made in 0..WIDTH {
        chains.push(Chain::End)?;
    }
    Ok(chains)
}

/// The same chains in a list of their own.
fn copies_of(alloc: Global, chains: &[Chain]) -> Result<Vec<Chain>, AllocError>
    ensures len { IfOk result (λ cs. length cs.items ≡ length chains.now) }
    ensures same { IfOk result (λ cs. map listed cs.items ≡ map listed chains.now) }
{
    let mut copies = Vec::with_capacity(alloc, chains.len())?;
    for chain in chains {
        copies.push(chain.copy(alloc)?)?;
    }
    Ok(copies)
}

/// The same symbols in a list of their own.
pub fn symbols_of(alloc: Global, symbols: &[Sym]) -> Result<Syms, AllocError>
    ensures { IfOk result (λ ss. ss ≡ symbols.now) }
{
    let mut copies = Items::new(alloc);
    for symbol in symbols {
        copies.push(*symbol)?;
    }
    Ok(copies)
}

impl Defs {
    /// The definitions at the start: nothing but the built-in table.
    pub fn new(alloc: Global) -> Result<Defs, AllocError>
        ensures { IfOk result (λ t. t ≡ d.empty) }
    {
        Ok(Defs {
            chains: empty_chains(alloc)?,
            shared: Shared::new(alloc),
            named: Items::new(alloc),
            module_number: 1,
            no_rules: Rules::new(alloc),
        })
    }

    /// The same definitions. Values and rules are shared, so this takes a time that depends on the number of symbols with a
    /// definition, and not on what they have.
    pub fn copy(&self, alloc: Global) -> Result<Defs, AllocError>
        ensures { IfOk result (λ t. t ≡ self.now) }
    {
        Ok(Defs {
            chains: copies_of(alloc, self.chains.as_slice())?,
            shared: self.shared.copy(alloc)?,
            named: symbols_of(alloc, self.named.as_slice())?,
            module_number: self.module_number,
            no_rules: Rules::new(alloc),
        })
    }

    /// No rules, to lend.
    pub(crate) fn no_rules(&self) -> &Rules
        ensures { result.now ≡ [] }
    {
        &self.no_rules
    }

    /// The definition of a symbol where it says more than the built-in table.
    pub fn find(&self, symbol: Sym) -> Option<&Definition>
        ensures { option_map definition_of (option_copied result) ≡ d.look_up self.now.entries symbol }
    {
        self.chains[slot(symbol)].find(symbol)
    }

    /// Takes the entry of a symbol out.
    pub(crate) fn take(&mut self, symbol: Sym) -> Option<Box<Entry>>
        ensures definition { option_map (λ e. definition_of e.value.definition) result ≡ d.look_up self.old.entries symbol }
        ensures symbol { IfSome result (λ e. e.value.symbol ≡ symbol) }
        ensures rest { self.new ≡ without self.old symbol }
        ensures back { IfSome result (λ e. self.old ≡ record self.new { entries = d.add_entry self.new.entries symbol (definition_of e.value.definition) }) }
    {
        self.chains[slot(symbol)].take(symbol)
    }

    /// Puts an entry in.
    pub(crate) fn link(&mut self, entry: Box<Entry>)
        requires { d.look_up self.old.entries entry.value.symbol ≡ None }
        ensures { self.new ≡ record self.old { entries = d.add_entry self.old.entries entry.value.symbol (definition_of entry.value.definition) } }
    {
        let at = slot(entry.symbol);
        self.chains[at].push(entry);
    }

    /// The entries stand in the order of their symbols.
    pub(crate) fn entries_ascend(&self)
        ensures { Ascends self.now.entries }
    {
        let _ = &self.chains;
    }

    /// The shared symbols.
    pub fn shared(&self) -> &Shared
        ensures { result.now ≡ self.now.shared }
    {
        &self.shared
    }

    /// The symbols that were named to be distributed.
    pub fn named(&self) -> &Syms
        ensures { result.now ≡ self.now.named }
    {
        &self.named
    }

    /// Puts a list of shared symbols in the place of the old one.
    pub fn set_shared(&mut self, shared: Shared)
        ensures { self.new ≡ record self.old { shared = shared } }
    {
        self.shared = shared;
    }

    /// Puts a list of symbols that were named to be distributed in the place of the old one.
    pub fn set_named(&mut self, named: Syms)
        ensures { self.new ≡ record self.old { named = named } }
    {
        self.named = named;
    }

    /// The number that the next module takes.
    pub fn module_number(&self) -> u64
        ensures value { result ≡ self.now.module_number }
        ensures within { result ≤ play.last_number }
    {
        self.module_number
    }

    /// Puts a module number in the place of the old one.
    pub fn set_module(&mut self, number: u64)
        requires { number ≤ play.last_number }
        ensures { self.new ≡ record self.old { module_number = number } }
    {
        self.module_number = number;
    }

    /// Takes the module number, which then grows by one. The last number is never taken.
    pub fn next_module(&mut self) -> Option<u64>
        ensures { MatchOption result ((self.old.module_number ≡ play.last_number) × (self.new ≡ self.old)) (λ m. (self.old.module_number ≡ play.last_number → ⊥) × (m ≡ self.old.module_number) × (self.new ≡ play.after_number self.old)) }
    {
        let number = self.module_number;
        if number == LAST_NUMBER {
            return None;
        }
        self.module_number = number + 1;
        Some(number)
    }
}

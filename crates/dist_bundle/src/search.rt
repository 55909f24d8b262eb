//! The search for the symbols of a closure: each that is found waits until it is followed.
ghost use Rattle.std.specs.Prelude.{◌≡◌, ◌++◌, ◌∷◌, [], IfOk, OnOk, MatchOption};
ghost use Rattle.expr_tree.specs.Tree.{trees};
ghost use Rattle.journal.specs.Closure as closure;
ghost use Rattle.builtin_names.specs.Named.{names_in};
ghost use Rattle.kernel_defs.specs.Definition.{definition_of};
ghost use Rattle.dist_bundle.specs.Search.{nothing, added, added_all, stored_added, followed, row_symbols, table_followed, turn};

use builtin_names::{Vocabulary, role_of};
use expr_tree::{Expr, Node, Sym, Syms};
use item_list::Items;
use kernel_defs::{Definition, Defs};
use rule_store::Rule;
use std::alloc::{AllocError, Global};
use std::collections::BTreeSet;
use std::marker::Model;

/// The symbols found, and those of them that are not followed yet.
#[derive(Drop)]
pub(crate) struct Search {
    found: BTreeSet<Sym>,
    waiting: Syms,
    table: bool,
}

impl Model for Search {
    ghost use Rattle.dist_bundle.specs.Search.{Search};

    ghost Value = { Search };

    ghost view = { λ s. record { symbols = s.found.keys; waiting = s.waiting; table = s.table } };
}

/// Whether a symbol is shared.
fn is_shared(defs: &Defs, symbol: Sym) -> bool
    ensures { result ≡ closure.is_shared defs.now symbol }
{
    defs.shared().find(symbol).is_some()
}

/// Whether a symbol is a name of the built-in table.
fn is_row(names: &Vocabulary, symbol: Sym) -> bool
    ensures { result ≡ closure.is_row (names_in names.now) symbol }
{
    role_of(names, symbol).is_some()
}

/// The names of the built-in table, in the order of its rows.
pub(crate) fn row_symbols(alloc: Global, names: &Vocabulary) -> Result<Syms, AllocError>
    ensures { IfOk result (λ ss. ss ≡ row_symbols (names_in names.now)) }
{
    let table = names.names();
    let mut symbols = Items::new(alloc);
    for row in 0..table.known_len() {
        symbols.push(table.known(row))?;
    }
    Ok(symbols)
}

impl Search {
    /// Nothing is found.
    pub(crate) fn new(alloc: Global) -> Search
        ensures { result ≡ nothing }
    {
        Search {
            found: BTreeSet::new(alloc),
            waiting: Items::new(alloc),
            table: false,
        }
    }

    fn add(&mut self, symbol: Sym) -> Result<(), AllocError>
        ensures { OnOk result (self.new ≡ added symbol self.old) }
    {
        if self.found.insert(symbol)? {
            self.waiting.push(symbol)?;
        }
        Ok(())
    }

    /// Adds symbols.
    pub(crate) fn add_all(&mut self, symbols: &[Sym]) -> Result<(), AllocError>
        ensures { OnOk result (self.new ≡ added_all symbols.now self.old) }
    {
        for symbol in symbols {
            self.add(*symbol)?;
        }
        Ok(())
    }

    /// Adds the symbols of an expression.
    #[cycle(add)]
    #[tactic(auto, using(expr_tree::proofs::Callers::tree_steps, crate::proofs::Searched::added_append))]
    fn add_tree(&mut self, e: &Expr) -> Result<(), AllocError>
        ensures { OnOk result (self.new ≡ added_all (closure.symbols_of e.now) self.old) }
    {
        match e.node() {
            Node::Int(_) | Node::Str(_) => Ok(()),
            Node::Symbol(symbol) => self.add(*symbol),
            Node::Normal(head, items) => {
                self.add_tree(head)?;
                self.add_items(items.as_slice())
            }
        }
    }

    #[cycle(add)]
    #[tactic(auto, using(expr_tree::proofs::Callers::tree_steps, crate::proofs::Searched::added_append))]
    fn add_items(&mut self, items: &[Expr]) -> Result<(), AllocError>
        ensures { OnOk result (self.new ≡ added_all (closure.symbols_of_items (trees items.now)) self.old) }
    {
        for item in items {
            self.add_tree(item)?;
        }
        Ok(())
    }

    #[tactic(auto, using(crate::proofs::Searched::added_append))]
    fn add_rules(&mut self, rules: &[Rule]) -> Result<(), AllocError>
        ensures { OnOk result (self.new ≡ added_all (closure.symbols_of_rules rules.now) self.old) }
    {
        for rule in rules {
            self.add_tree(rule.left())?;
            self.add_tree(rule.right())?;
        }
        Ok(())
    }

    #[tactic(auto, using(crate::proofs::Searched::added_append))]
    fn add_definition(&mut self, definition: &Definition) -> Result<(), AllocError>
        ensures { OnOk result (self.new ≡ added_all (closure.symbols_of_definition (definition_of definition.now)) self.old) }
    {
        if let Some(own) = &definition.own {
            self.add_tree(own)?;
        }
        self.add_rules(definition.downs.as_slice())?;
        self.add_rules(definition.ups.as_slice())
    }

    /// Adds the symbols that stand in what is stored for a symbol.
    fn add_stored(&mut self, defs: &Defs, symbol: Sym) -> Result<(), AllocError>
        ensures { OnOk result (self.new ≡ added_all (closure.stored_symbols defs.now symbol) self.old) }
    {
        match defs.find(symbol) {
            None => Ok(()),
            Some(definition) => self.add_definition(definition),
        }
    }

    /// Follows symbols that are not shared.
    fn follow_all(&mut self, defs: &Defs, symbols: &[Sym]) -> Result<(), AllocError>
        ensures { OnOk result (self.new ≡ followed defs.now symbols.now self.old) }
    {
        for symbol in symbols {
            if !is_shared(defs, *symbol) {
                self.add_stored(defs, *symbol)?;
            }
        }
        Ok(())
    }

    /// Follows all names of the table, once.
    fn follow_table(
        &mut self,
        alloc: Global,
        names: &Vocabulary,
        defs: &Defs,
    ) -> Result<(), AllocError>
        ensures { OnOk result (self.new ≡ table_followed (names_in names.now) defs.now self.old) }
    {
        if self.table {
            return Ok(());
        }
        self.table = true;
        let symbols = row_symbols(alloc, names)?;
        self.follow_all(defs, symbols.as_slice())
    }

    /// Follows a symbol: what is stored for it is found, or for all names of the table, where it is one of them.
    pub(crate) fn follow(
        &mut self,
        alloc: Global,
        names: &Vocabulary,
        defs: &Defs,
        symbol: Sym,
    ) -> Result<(), AllocError>
        ensures { OnOk result (self.new ≡ turn (names_in names.now) defs.now symbol self.old) }
    {
        if is_shared(defs, symbol) {
            return Ok(());
        }
        if is_row(names, symbol) {
            self.follow_table(alloc, names, defs)
        } else {
            self.add_stored(defs, symbol)
        }
    }

    /// Takes a symbol that is not followed yet.
    pub(crate) fn take(&mut self) -> Option<Sym>
        ensures { MatchOption result ((self.old.waiting ≡ []) × (self.new ≡ self.old)) (λ s. self.old ≡ record self.new { waiting = self.new.waiting ++ s ∷ [] }) }
    {
        self.waiting.pop()
    }

    /// Whether a name of the table was followed.
    pub(crate) fn has_table(&self) -> bool
        ensures { result ≡ self.now.table }
    {
        self.table
    }

    /// The symbols found, in order.
    pub(crate) fn symbols(&self, alloc: Global) -> Result<Syms, AllocError>
        ensures { IfOk result (λ ss. ss ≡ self.now.symbols) }
    {
        let mut symbols = Items::new(alloc);
        for symbol in self.found.iter() {
            symbols.push(*symbol)?;
        }
        Ok(symbols)
    }
}

ghost use Rattle.std.specs.Prelude.{◌≡◌, ◌++◌, IfOk};
ghost use Rattle.journal.specs.Closure as closure;
ghost use Rattle.laws_journal.specs.Symbols.{Ascends};
ghost use Rattle.builtin_names.specs.Named.{names_in};
ghost use Rattle.dist_bundle.specs.Search.{added_all, found, nothing};

use crate::search::Search;
use builtin_names::{Vocabulary, rows_are_names};
use expr_tree::{Sym, Syms};
use kernel_defs::{Defs, symbols_of};
use laws_journal::ascending_symbols_are_told_by_their_members;
use std::alloc::{AllocError, Global};
use std::marker::Model;

/// A set of symbols: some, in order and without repeats, and, where `table` says so, all names of the built-in table.
#[derive(Debug, Drop)]
pub struct Reach {
    symbols: Syms,
    table: bool,
}

impl Model for Reach {
    ghost use Rattle.std.specs.Coded.{codes};
    ghost use Rattle.journal.specs.Closure as closure;

    ghost Value = { closure.Reach };

    ghost coded = { Prim.hlevel (codes) };

    ghost use Rattle.dist_bundle.specs.Reach.{reach_in, IsReach};

    ghost view = { reach_in };

    ghost invariant = { IsReach };
}

/// The search that begins with some symbols, and with those that are named to be distributed.
fn begun(alloc: Global, defs: &Defs, seeds: &[Sym]) -> Result<Search, AllocError>
    ensures { IfOk result (λ x. x ≡ added_all (seeds.now ++ defs.now.named) nothing) }
{
    let mut search = Search::new(alloc);
    search.add_all(seeds)?;
    search.add_all(defs.named().as_slice())?;
    Ok(search)
}

/// The search that has followed each symbol that it found.
fn ended(
    alloc: Global,
    names: &Vocabulary,
    defs: &Defs,
    seeds: &[Sym],
) -> Result<Search, AllocError>
    ensures closure { IfOk result (λ x. found x ≡ closure.closure (names_in names.now) defs.now seeds.now) }
    ensures in_order { IfOk result (λ x. Ascends x.symbols) }
{
    ascending_symbols_are_told_by_their_members();
    rows_are_names(names);
    let mut search = begun(alloc, defs, seeds)?;
    while let Some(symbol) = search.take() {
        search.follow(alloc, names, defs, symbol)?;
    }
    Ok(search)
}

impl Reach {
    /// The symbols that an item with these takes with it. The time depends on what is found and on the shared symbols, and not on all
    /// definitions.
    pub fn closure(
        alloc: Global,
        names: &Vocabulary,
        defs: &Defs,
        seeds: &[Sym],
    ) -> Result<Reach, AllocError>
        ensures { IfOk result (λ r. r ≡ closure.closure (names_in names.now) defs.now seeds.now) }
    {
        let search = ended(alloc, names, defs, seeds)?;
        Ok(Reach {
            symbols: search.symbols(alloc)?,
            table: search.has_table(),
        })
    }

    /// The same set.
    pub fn copy(&self, alloc: Global) -> Result<Reach, AllocError>
        ensures { IfOk result (λ r. r ≡ self.now) }
    {
        Ok(Reach {
            symbols: symbols_of(alloc, self.symbols.as_slice())?,
            table: self.table,
        })
    }
}

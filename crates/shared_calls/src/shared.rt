ghost use Rattle.std.specs.Prelude.{◌≡◌, ◌++◌, ◌∷◌, [], length, map, slice_get, IfOk, OnOk, OnErr};
ghost use Rattle.std.specs.Option.{option_map};
ghost use Rattle.semantics.specs.Definitions as d;
ghost use Rattle.semantics.specs.Sections.{same_share};
ghost use Rattle.builtin_names.specs.Attributes.{attributes_in};
ghost use Rattle.shared_calls.specs.View.{share_of, shared_symbol};
ghost use Rattle.shared_calls.specs.Access.{kind_in, is_shared_as};

use expr_tree::{Attrs, Sym};
use std::alloc::{AllocError, Global};
use std::marker::Model;

/// How a symbol is shared: its own value, or its rules.
#[derive(Clone, Copy, Debug, PartialEq, Eq)]
pub enum ShareKind {
    Variable,
    Function,
}

/// A shared symbol.
#[derive(Clone, Copy, Debug)]
pub struct SharedSymbol {
    pub symbol: Sym,
    pub kind: ShareKind,
    pub attrs: Attrs,
}

/// The shared symbols, in the order in which they were shared.
#[derive(Debug, Drop)]
pub struct Shared {
    symbols: Vec<SharedSymbol>,
}

impl Model for Shared {
    ghost use Rattle.std.specs.Prelude.{List, map};
    ghost use Rattle.semantics.specs.Definitions as d;

    ghost Value = { List d.Shared };

    ghost use Rattle.shared_calls.specs.View.{shared_symbol};

    ghost view = { λ s. map shared_symbol s.symbols.items };
}

impl Shared {
    /// No shared symbol. It takes no memory before the first `push`.
    pub fn new(alloc: Global) -> Shared
        ensures { result ≡ [] }
    {
        Shared {
            symbols: Vec::new(alloc),
        }
    }

    /// The same list.
    pub fn copy(&self, alloc: Global) -> Result<Shared, AllocError>
        ensures { IfOk result (λ s. s ≡ self.now) }
    {
        Ok(Shared {
            symbols: copies_of(alloc, self.symbols.as_slice())?,
        })
    }

    pub fn len(&self) -> usize
        ensures { result ≡ length self.now }
    {
        self.symbols.len()
    }

    /// The shared symbol at a place, which is counted from 0.
    #[tactic(auto, using(crate::proofs::Found::found_steps))]
    pub fn get(&self, at: usize) -> Option<SharedSymbol>
        ensures { option_map shared_symbol result ≡ slice_get self.now at }
    {
        if at < self.symbols.len() {
            Some(self.symbols[at])
        } else {
            None
        }
    }

    /// Adds a symbol at the end. An `Err` leaves the list unchanged.
    #[tactic(auto, using(crate::proofs::Found::found_steps))]
    pub fn push(&mut self, symbol: SharedSymbol) -> Result<(), AllocError>
        ensures ok { OnOk result (self.new ≡ self.old ++ shared_symbol symbol ∷ []) }
        ensures err { OnErr result (self.new ≡ self.old) }
    {
        self.symbols.push(symbol)?;
        Ok(())
    }

    /// What is shared of a symbol, if it is shared.
    #[tactic(auto, using(crate::proofs::Found::found_steps))]
    pub fn find(&self, symbol: Sym) -> Option<SharedSymbol>
        ensures { option_map shared_symbol result ≡ d.shared_as self.now symbol }
    {
        find_in(self.symbols.as_slice(), symbol)
    }

    /// How a symbol is shared, if it is shared.
    #[tactic(auto, using(crate::proofs::Found::found_steps))]
    pub fn kind_of(&self, symbol: Sym) -> Option<ShareKind>
        ensures { option_map share_of result ≡ kind_in self.now symbol }
    {
        let shared = self.find(symbol)?;
        Some(shared.kind)
    }

    /// The attributes of a symbol, if it is shared.
    #[tactic(auto, using(crate::proofs::Found::found_steps))]
    pub fn attrs_of(&self, symbol: Sym) -> Option<Attrs>
        ensures { option_map attributes_in result ≡ option_map (λ e. e.attributes) (d.shared_as self.now symbol) }
    {
        let shared = self.find(symbol)?;
        Some(shared.attrs)
    }

    /// Whether a symbol is shared in this way.
    #[tactic(auto, using(crate::proofs::Found::found_steps))]
    pub(crate) fn has(&self, kind: ShareKind, symbol: Sym) -> bool
        ensures { result ≡ is_shared_as (share_of kind) (kind_in self.now symbol) }
    {
        match self.kind_of(symbol) {
            None => false,
            Some(found) => found.is(kind),
        }
    }
}

fn copies_of(alloc: Global, symbols: &[SharedSymbol]) -> Result<Vec<SharedSymbol>, AllocError>
    ensures { IfOk result (λ copies. copies.items ≡ symbols.now) }
{
    let mut copies = Vec::with_capacity(alloc, symbols.len())?;
    for symbol in symbols {
        copies.push(*symbol)?;
    }
    Ok(copies)
}

fn find_in(symbols: &[SharedSymbol], symbol: Sym) -> Option<SharedSymbol>
    ensures { option_map shared_symbol result ≡ d.shared_as (map shared_symbol symbols.now) symbol }
{
    for shared in symbols {
        if shared.symbol == symbol {
            return Some(*shared);
        }
    }
    None
}

impl ShareKind {
    /// Whether two ways of sharing are the same.
    pub fn is(self, other: ShareKind) -> bool
        ensures { result ≡ same_share (share_of self) (share_of other) }
    {
        match (self, other) {
            (ShareKind::Variable, ShareKind::Variable)
            | (ShareKind::Function, ShareKind::Function) => true,
            _ => false,
        }
    }
}

//! Lists of symbols.
ghost use Rattle.std.specs.Prelude.{◌≡◌, IfOk};
ghost use Rattle.expr_tree.specs.Substitution.{among};
ghost use Rattle.semantics.specs.Scoping as s;

use expr_tree::{Expr, Node, Sym, Syms};
use item_list::Items;
use std::alloc::{AllocError, Global};

/// Whether a symbol is one of these.
pub fn is_among(symbol: Sym, symbols: &[Sym]) -> bool
    ensures { result ≡ among symbol symbols.now }
{
    for other in symbols {
        if symbol == *other {
            return true;
        }
    }
    false
}

/// Whether no symbol comes twice.
pub fn differ(symbols: &[Sym]) -> bool
    ensures { result ≡ s.differ symbols.now }
{
    for (i, symbol) in symbols.iter().enumerate() {
        if is_among(*symbol, &symbols[i + 1..]) {
            return false;
        }
    }
    true
}

/// The symbols that some expressions are, where all are symbols.
#[tactic(auto, using(crate::proofs::SymbolLists::symbol_steps))]
pub fn symbols_in(alloc: Global, items: &[Expr]) -> Result<Option<Syms>, AllocError>
    ensures { IfOk result (λ r. r ≡ s.symbols_in items.now) }
{
    let mut symbols = Items::new(alloc);
    for item in items {
        match item.node() {
            Node::Symbol(symbol) => symbols.push(*symbol)?,
            _ => return Ok(None),
        }
    }
    Ok(Some(symbols))
}

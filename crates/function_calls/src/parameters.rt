//! The parameters of a Function, and their arguments.
ghost use Rattle.std.specs.Prelude.{◌≡◌, IfOk};
ghost use Rattle.semantics.specs.Scoping as s;
ghost use Rattle.builtin_names.specs.Named.{names_in};

use builtin_names::{Vocabulary, items_under};
use expr_lists::{copies, symbols_in};
use expr_tree::{Expr, Node, Sym, Syms};
use item_list::Items;
use semantics::Builtin;
use std::alloc::{AllocError, Global};
use substitution::Bindings;

/// The parameters that the first of two elements names: itself, or the symbols of a list.
#[tactic(auto, using(crate::proofs::Arguments::parameter_steps))]
pub(crate) fn parameters(
    alloc: Global,
    names: &Vocabulary,
    e: &Expr,
) -> Result<Option<Syms>, AllocError>
    ensures { IfOk result (λ r. r ≡ s.parameters (names_in names.now) e.now) }
{
    if let Node::Symbol(symbol) = e.node() {
        let mut symbols = Items::new(alloc);
        symbols.push(*symbol)?;
        return Ok(Some(symbols));
    }
    match items_under(names, Builtin::List, e) {
        Some(items) => symbols_in(alloc, items.as_slice()),
        None => Ok(None),
    }
}

/// Each symbol with its argument. Arguments that are left over are dropped.
#[tactic(auto, using(crate::proofs::Arguments::pair_steps))]
pub(crate) fn paired(
    alloc: Global,
    symbols: &[Sym],
    args: &[Expr],
) -> Result<Option<Bindings>, AllocError>
    ensures { IfOk result (λ r. r ≡ s.paired symbols.now args.now) }
{
    if symbols.len() > args.len() {
        return Ok(None);
    }
    let mut bindings = Items::new(alloc);
    for (i, symbol) in symbols.iter().enumerate() {
        bindings.push((*symbol, copies(alloc, &args[i..][..1])?))?;
    }
    Ok(Some(bindings))
}

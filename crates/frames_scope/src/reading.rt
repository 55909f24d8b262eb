//! The locals and the body of a form of two elements.
ghost use Rattle.std.specs.Prelude.{◌≡◌, IfOk};
ghost use Rattle.semantics.specs.Scoping as s;
ghost use Rattle.builtin_names.specs.Named.{names_in};
ghost use Rattle.frames_scope.specs.Reading.{local_read, locals_in, locals_read, locals_under, IsRead};

use crate::locals::{Local, Locals, Scope};
use crate::symbols::bases_differ;
use builtin_names::{Vocabulary, items_under};
use expr_lists::differ;
use expr_tree::{Expr, Exprs, Node, Syms};
use item_list::Items;
use semantics::Builtin;
use std::alloc::{AllocError, Global};

fn plain_local(e: &Expr) -> Option<Local>
    ensures { local_read result ≡ s.plain_local e.now }
{
    match e.node() {
        Node::Symbol(symbol) => Some(Local {
            symbol: *symbol,
            value: None,
        }),
        _ => None,
    }
}

#[tactic(auto, using(crate::proofs::Readings::local_steps))]
fn valued_local(alloc: Global, items: &Exprs) -> Result<Option<Local>, AllocError>
    ensures { IfOk result (λ r. local_read r ≡ s.valued_local items.now) }
{
    if items.len() != 2 {
        return Ok(None);
    }
    let parts = items.as_slice();
    match parts[0].node() {
        Node::Symbol(symbol) => Ok(Some(Local {
            symbol: *symbol,
            value: Some(parts[1].copy(alloc)?),
        })),
        _ => Ok(None),
    }
}

/// A local: a symbol, or `symbol = value`.
fn local_of(alloc: Global, names: &Vocabulary, e: &Expr) -> Result<Option<Local>, AllocError>
    ensures { IfOk result (λ r. local_read r ≡ s.local_of (names_in names.now) e.now) }
{
    match items_under(names, Builtin::Set, e) {
        Some(items) => valued_local(alloc, items),
        None => Ok(plain_local(e)),
    }
}

#[tactic(auto, using(crate::proofs::Readings::locals_steps))]
fn locals_of(
    alloc: Global,
    names: &Vocabulary,
    items: &[Expr],
) -> Result<Option<Locals>, AllocError>
    ensures { IfOk result (λ r. locals_read r ≡ s.locals_of (names_in names.now) items.now) }
{
    let mut locals = Items::new(alloc);
    for item in items {
        match local_of(alloc, names, item)? {
            Some(local) => locals.push(local)?,
            None => return Ok(None),
        }
    }
    Ok(Some(locals))
}

/// The symbols of locals, in order.
fn symbols_of(alloc: Global, locals: &Locals) -> Result<Syms, AllocError>
    ensures { IfOk result (λ symbols. symbols ≡ s.symbols_of (locals_in locals.now)) }
{
    let mut symbols = Items::new(alloc);
    for local in locals.as_slice() {
        symbols.push(local.symbol)?;
    }
    Ok(symbols)
}

/// The locals of a list of locals.
fn locals_under(
    alloc: Global,
    names: &Vocabulary,
    list: &Expr,
) -> Result<Option<Locals>, AllocError>
    ensures { IfOk result (λ r. locals_read r ≡ locals_under (names_in names.now) list.now) }
{
    match items_under(names, Builtin::List, list) {
        Some(items) => locals_of(alloc, names, items.as_slice()),
        None => Ok(None),
    }
}

/// The locals and the body of a Module, whose locals have different bases.
#[tactic(auto, using(crate::proofs::Readings::read_steps))]
pub fn module_scope(
    alloc: Global,
    names: &Vocabulary,
    items: &[Expr],
) -> Result<Option<Scope>, AllocError>
    ensures { IfOk result (λ r. IsRead (names_in names.now) s.bases_differ items.now r) }
{
    let [list, body] = items else {
        return Ok(None);
    };
    let Some(locals) = locals_under(alloc, names, list)? else {
        return Ok(None);
    };
    let symbols = symbols_of(alloc, &locals)?;
    if !bases_differ(symbols.as_slice()) {
        return Ok(None);
    }
    let body = body.copy(alloc)?;
    Ok(Some(Scope { locals, body }))
}

/// The locals and the body of a Block or a With, whose locals are different symbols.
#[tactic(auto, using(crate::proofs::Readings::read_steps))]
pub fn block_scope(
    alloc: Global,
    names: &Vocabulary,
    items: &[Expr],
) -> Result<Option<Scope>, AllocError>
    ensures { IfOk result (λ r. IsRead (names_in names.now) s.differ items.now r) }
{
    let [list, body] = items else {
        return Ok(None);
    };
    let Some(locals) = locals_under(alloc, names, list)? else {
        return Ok(None);
    };
    let symbols = symbols_of(alloc, &locals)?;
    if !differ(symbols.as_slice()) {
        return Ok(None);
    }
    let body = body.copy(alloc)?;
    Ok(Some(Scope { locals, body }))
}

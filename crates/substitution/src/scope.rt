// What a level binds.
ghost use Rattle.std.specs.Prelude.{◌≡◌, ◌++◌, IfOk};
ghost use Rattle.expr_tree.specs.Substitution.{symbol_in, plain_symbol, bound_by, bound_locals, bound_parameters, bound_under, bound_in};
ghost use Rattle.substitution.specs.Members.{member_symbol};

use expr_tree::{Binders, Expr, Node, Sym, Syms, elements_under, pair_under};
use item_list::Items;
use std::alloc::{AllocError, Global};

/// Which expressions are members of a list that binds.
#[derive(Clone, Copy)]
pub(crate) enum Members {
    /// Symbols and `symbol = value`.
    Locals,
    /// `symbol = value`.
    Values,
    Symbols,
}

fn plain_symbol(e: &Expr) -> Option<Sym>
    ensures { result ≡ plain_symbol e.now }
{
    match e.node() {
        Node::Symbol(symbol) => Some(*symbol),
        _ => None,
    }
}

/// The symbol that a member binds.
fn member_symbol(binders: &Binders, members: Members, e: &Expr) -> Option<Sym>
    ensures { result ≡ member_symbol binders.now members e.now }
{
    match members {
        Members::Locals => match pair_under(binders.set, e) {
            None => plain_symbol(e),
            Some((left, _)) => plain_symbol(left),
        },
        Members::Values => match pair_under(binders.set, e) {
            None => None,
            Some((left, _)) => plain_symbol(left),
        },
        Members::Symbols => plain_symbol(e),
    }
}

/// The symbols of all members, or none where one of them binds none.
#[tactic(auto, using(crate::proofs::Members::member_steps))]
fn bound_by(
    alloc: Global,
    binders: &Binders,
    members: Members,
    items: &[Expr],
) -> Result<Syms, AllocError>
    ensures { IfOk result (λ bound. bound ≡ bound_by (member_symbol binders.now members) items.now) }
{
    let mut bound = Items::new(alloc);
    for item in items {
        match member_symbol(binders, members, item) {
            None => return Ok(Items::new(alloc)),
            Some(symbol) => bound.push(symbol)?,
        }
    }
    Ok(bound)
}

fn bound_locals(
    alloc: Global,
    binders: &Binders,
    members: Members,
    items: &[Expr],
) -> Result<Syms, AllocError>
    ensures { IfOk result (λ bound. bound ≡ bound_locals binders.now (member_symbol binders.now members) items.now) }
{
    let [locals, _] = items else {
        return Ok(Items::new(alloc));
    };
    match elements_under(binders.list, locals) {
        None => Ok(Items::new(alloc)),
        Some(listed) => bound_by(alloc, binders, members, listed.as_slice()),
    }
}

fn symbol_alone(alloc: Global, e: &Expr) -> Result<Syms, AllocError>
    ensures { IfOk result (λ bound. bound ≡ symbol_in e.now) }
{
    let mut bound = Items::new(alloc);
    if let Node::Symbol(symbol) = e.node() {
        bound.push(*symbol)?;
    }
    Ok(bound)
}

fn bound_parameters(alloc: Global, binders: &Binders, items: &[Expr]) -> Result<Syms, AllocError>
    ensures { IfOk result (λ bound. bound ≡ bound_parameters binders.now items.now) }
{
    let [parameters, _] = items else {
        return Ok(Items::new(alloc));
    };
    match elements_under(binders.list, parameters) {
        None => symbol_alone(alloc, parameters),
        Some(listed) => bound_by(alloc, binders, Members::Symbols, listed.as_slice()),
    }
}

fn bound_under(
    alloc: Global,
    binders: &Binders,
    symbol: Sym,
    items: &[Expr],
) -> Result<Syms, AllocError>
    ensures { IfOk result (λ bound. bound ≡ bound_under binders.now symbol items.now) }
{
    if symbol == binders.module {
        return bound_locals(alloc, binders, Members::Locals, items);
    }
    if symbol == binders.with {
        return bound_locals(alloc, binders, Members::Values, items);
    }
    if symbol == binders.function {
        return bound_parameters(alloc, binders, items);
    }
    Ok(Items::new(alloc))
}

/// The symbols that the expression of this head and these elements binds.
pub(crate) fn bound_in(
    alloc: Global,
    binders: &Binders,
    head: &Expr,
    items: &[Expr],
) -> Result<Syms, AllocError>
    ensures { IfOk result (λ bound. bound ≡ bound_in binders.now head.now items.now) }
{
    match head.node() {
        Node::Symbol(symbol) => bound_under(alloc, binders, *symbol, items),
        _ => Ok(Items::new(alloc)),
    }
}

/// The symbols of both lists.
pub(crate) fn joined(alloc: Global, outer: &Syms, inner: Syms) -> Result<Syms, AllocError>
    ensures { IfOk result (λ all. all ≡ outer.now ++ inner) }
{
    let mut all = Items::new(alloc);
    for symbol in outer.as_slice() {
        all.push(*symbol)?;
    }
    all.append(inner)?;
    Ok(all)
}

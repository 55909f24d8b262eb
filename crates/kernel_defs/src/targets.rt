ghost use Rattle.std.specs.Prelude.{◌≡◌, ◌∷◌, [], map, IfOk, OnOk};
ghost use Rattle.semantics.specs.Names as n;
ghost use Rattle.expr_tree.specs.Shapes as shapes;
ghost use Rattle.expr_tree.specs.Substitution as substitution;
ghost use Rattle.semantics.specs.Assign as assign;
ghost use Rattle.builtin_names.specs.Named.{names_in};
ghost use Rattle.kernel_defs.specs.Targets.{form_of, place_of, target_of};

use crate::left_side::inner;
use builtin_names::{Vocabulary, items_of};
use expr_tree::{Expr, Node, Sym, Syms, symbol_of};
use item_list::Items;
use std::alloc::{AllocError, Global};

/// The form of an assignment. The tagged ones have their tag.
#[derive(Clone, Copy, Debug, PartialEq, Eq)]
pub enum Form {
    Set,
    SetDelayed,
    UpSet,
    UpSetDelayed,
    TagSet(Sym),
    TagSetDelayed(Sym),
}

/// Where something is attached to a symbol.
#[derive(Clone, Copy, Debug, PartialEq, Eq)]
pub enum Place {
    Own,
    Down,
    Up,
}

/// A symbol that an assignment is attached to, with the place.
#[derive(Clone, Copy, Debug)]
pub struct Target {
    pub symbol: Sym,
    pub place: Place,
}

/// Targets in their order.
pub type Targets = Items<Target>;

/// Whether a symbol is among some.
pub fn is_among(symbol: Sym, symbols: &Syms) -> bool
    ensures { result ≡ substitution.among symbol symbols.now }
{
    for other in symbols.as_slice() {
        if symbol == *other {
            return true;
        }
    }
    false
}

fn add_symbol(found: Option<Sym>, symbols: &mut Syms) -> Result<(), AllocError>
    ensures { OnOk result (symbols.new ≡ assign.add_symbol found symbols.old) }
{
    let Some(symbol) = found else {
        return Ok(());
    };
    if is_among(symbol, symbols) {
        return Ok(());
    }
    symbols.push(symbol)
}

/// Adds the symbols of items, each once, from left to right.
pub fn item_symbols(items: &[Expr], symbols: &mut Syms) -> Result<(), AllocError>
    ensures { OnOk result (symbols.new ≡ assign.item_symbols items.now symbols.old) }
{
    for item in items {
        add_symbol(symbol_of(item), symbols)?;
    }
    Ok(())
}

fn symbols_of_items(alloc: Global, e: &Expr) -> Result<Syms, AllocError>
    ensures { IfOk result (λ ss. ss ≡ assign.item_symbols (n.items_of e.now) []) }
{
    let mut symbols = Items::new(alloc);
    item_symbols(items_of(e), &mut symbols)?;
    Ok(symbols)
}

fn one_target(alloc: Global, symbol: Sym, place: Place) -> Result<Targets, AllocError>
    ensures { IfOk result (λ ts. map target_of ts ≡ record { symbol = symbol; place = place_of place } ∷ []) }
{
    let mut targets = Items::new(alloc);
    targets.push(Target { symbol, place })?;
    Ok(targets)
}

fn at_head(alloc: Global, symbol: Option<Sym>) -> Result<Targets, AllocError>
    ensures { IfOk result (λ ts. map target_of ts ≡ assign.at_head symbol) }
{
    match symbol {
        None => Ok(Items::new(alloc)),
        Some(symbol) => one_target(alloc, symbol, Place::Down),
    }
}

#[tactic(auto, using(crate::proofs::Ups::up_steps))]
fn all_up(alloc: Global, symbols: &Syms) -> Result<Targets, AllocError>
    ensures { IfOk result (λ ts. map target_of ts ≡ assign.all_at assign.Up symbols.now) }
{
    let mut targets = Items::new(alloc);
    for symbol in symbols.as_slice() {
        targets.push(Target {
            symbol: *symbol,
            place: Place::Up,
        })?;
    }
    Ok(targets)
}

fn tag_place(alloc: Global, tag: Sym, e: &Expr) -> Result<Targets, AllocError>
    ensures { IfOk result (λ ts. map target_of ts ≡ assign.tag_place tag e.now) }
{
    if is_that(tag, symbol_of(e)) {
        return match e.node() {
            Node::Normal(_, _) => one_target(alloc, tag, Place::Down),
            _ => Ok(Items::new(alloc)),
        };
    }
    if is_among(tag, &symbols_of_items(alloc, e)?) {
        one_target(alloc, tag, Place::Up)
    } else {
        Ok(Items::new(alloc))
    }
}

fn is_that(tag: Sym, symbol: Option<Sym>) -> bool
    ensures { result ≡ assign.is_that tag symbol }
{
    match symbol {
        None => false,
        Some(symbol) => tag == symbol,
    }
}

fn targets_in(alloc: Global, form: Form, e: &Expr) -> Result<Targets, AllocError>
    ensures { IfOk result (λ ts. map target_of ts ≡ assign.places_in (form_of form) e.now) }
{
    match form {
        Form::Set | Form::SetDelayed => match e.node() {
            Node::Symbol(symbol) => one_target(alloc, *symbol, Place::Own),
            _ => at_head(alloc, symbol_of(e)),
        },
        Form::UpSet | Form::UpSetDelayed => all_up(alloc, &symbols_of_items(alloc, e)?),
        Form::TagSet(tag) | Form::TagSetDelayed(tag) => tag_place(alloc, tag, e),
    }
}

/// The symbols that an assignment is attached to, with the places.
pub fn targets_of(
    alloc: Global,
    names: &Vocabulary,
    form: Form,
    left: &Expr,
) -> Result<Targets, AllocError>
    ensures { IfOk result (λ ts. map target_of ts ≡ assign.places (names_in names.now) (form_of form) left.now) }
{
    targets_in(alloc, form, inner(names, left))
}

fn symbols_at(alloc: Global, targets: &Targets) -> Result<Syms, AllocError>
    ensures { IfOk result (λ ss. ss ≡ map (λ t. t.symbol) targets.now) }
{
    let mut symbols = Items::new(alloc);
    for target in targets.as_slice() {
        symbols.push(target.symbol)?;
    }
    Ok(symbols)
}

fn one_symbol(alloc: Global, symbol: Sym) -> Result<Syms, AllocError>
    ensures { IfOk result (λ ss. ss ≡ symbol ∷ []) }
{
    let mut symbols = Items::new(alloc);
    symbols.push(symbol)?;
    Ok(symbols)
}

/// The symbols of which none may be Protected. A tag counts also where it does not occur.
#[tactic(auto, using(crate::proofs::Ups::up_steps))]
pub fn asked_symbols(alloc: Global, form: Form, targets: &Targets) -> Result<Syms, AllocError>
    ensures { IfOk result (λ ss. ss ≡ assign.asked_symbols (form_of form) (map target_of targets.now)) }
{
    match form {
        Form::Set | Form::SetDelayed | Form::UpSet | Form::UpSetDelayed => {
            symbols_at(alloc, targets)
        }
        Form::TagSet(tag) | Form::TagSetDelayed(tag) => one_symbol(alloc, tag),
    }
}

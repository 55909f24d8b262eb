//! The attributes of a symbol, as rows name them.
ghost use Rattle.std.specs.Prelude.{◌≡◌, ◌++◌, ◌==◌, ◌||◌, ◌&&◌, not, [], Bool, IfOk, OnOk, Option, map};
ghost use Rattle.expr_tree.specs.Limits.{Assembles};
ghost use Rattle.expr_tree.specs.Tree.{Tree};
ghost use Rattle.semantics.specs.Builtin.{row_number};
ghost use Rattle.semantics.specs.Changes as changes;
ghost use Rattle.semantics.specs.Definitions as d;
ghost use Rattle.semantics.specs.Names as n;
ghost use Rattle.semantics.specs.declared.builtin.Builtin.{Builtin};
ghost use Rattle.semantics.specs.Program.{Prog, Done};
ghost use Rattle.semantics.specs.Steps.{ordered};
ghost use Rattle.builtin_names.specs.Attributes.{attributes_in, where_set};
ghost use Rattle.builtin_names.specs.Named.{names_in};
ghost use Rattle.machine_steps.specs.Setup.{setting_of};
ghost use Rattle.machine_steps.specs.Steps.{Stepped};
ghost use Rattle.machine_changes.specs.Named.{named_as};
ghost use Rattle.machine_changes.specs.Results.{done_with};

use attr_steps::order;
use builtin_names::{Vocabulary, items_under, make, name, role_of};
use evaluation_steps::{Halt, stop_for};
use expr_tree::{Attrs, Built, Expr, Exprs, Node, Sym};
use item_list::Items;
use kernel_defs::Defs;
use machine_steps::Scene;
use semantics::Builtin;
use std::alloc::{AllocError, Global};

fn number_of(row: Builtin) -> usize
    ensures { result ≡ row_number row }
{
    row as usize
}

fn is_same(a: Builtin, b: Builtin) -> bool
    ensures { result ≡ (row_number a == row_number b) }
{
    number_of(a) == number_of(b)
}

fn has(names: &Items<Builtin>, attribute: Builtin) -> bool
    ensures { result ≡ d.has attribute names.now }
{
    for other in names.as_slice() {
        if is_same(attribute, *other) {
            return true;
        }
    }
    false
}

fn or_named(new: &Items<Builtin>, attribute: Builtin, old: bool) -> bool
    ensures { result ≡ (d.has attribute new.now || old) }
{
    has(new, attribute) || old
}

fn and_not_named(gone: &Items<Builtin>, attribute: Builtin, old: bool) -> bool
    ensures { result ≡ (old && not (d.has attribute gone.now)) }
{
    old && !has(gone, attribute)
}

/// Attributes with those that are named.
pub(crate) fn with_those(new: &Items<Builtin>, old: Attrs) -> Attrs
    ensures { attributes_in result ≡ changes.those (λ a. d.has a new.now || d.has a (attributes_in old)) changes.all_attributes }
{
    Attrs {
        flat: or_named(new, Builtin::Flat, old.flat),
        orderless: or_named(new, Builtin::Orderless, old.orderless),
        listable: or_named(new, Builtin::Listable, old.listable),
        hold_first: or_named(new, Builtin::HoldFirst, old.hold_first),
        hold_rest: or_named(new, Builtin::HoldRest, old.hold_rest),
        hold_all: or_named(new, Builtin::HoldAll, old.hold_all),
        hold_all_complete: or_named(new, Builtin::HoldAllComplete, old.hold_all_complete),
        sequence_hold: or_named(new, Builtin::SequenceHold, old.sequence_hold),
        one_identity: or_named(new, Builtin::OneIdentity, old.one_identity),
        protected: or_named(new, Builtin::Protected, old.protected),
    }
}

/// Attributes without those that are named.
pub(crate) fn without_those(gone: &Items<Builtin>, old: Attrs) -> Attrs
    ensures { attributes_in result ≡ changes.those (λ a. d.has a (attributes_in old) && not (d.has a gone.now)) changes.all_attributes }
{
    Attrs {
        flat: and_not_named(gone, Builtin::Flat, old.flat),
        orderless: and_not_named(gone, Builtin::Orderless, old.orderless),
        listable: and_not_named(gone, Builtin::Listable, old.listable),
        hold_first: and_not_named(gone, Builtin::HoldFirst, old.hold_first),
        hold_rest: and_not_named(gone, Builtin::HoldRest, old.hold_rest),
        hold_all: and_not_named(gone, Builtin::HoldAll, old.hold_all),
        hold_all_complete: and_not_named(gone, Builtin::HoldAllComplete, old.hold_all_complete),
        sequence_hold: and_not_named(gone, Builtin::SequenceHold, old.sequence_hold),
        one_identity: and_not_named(gone, Builtin::OneIdentity, old.one_identity),
        protected: and_not_named(gone, Builtin::Protected, old.protected),
    }
}

fn is_attribute(row: Builtin) -> bool
    ensures { result ≡ d.has row changes.all_attributes }
{
    is_same(row, Builtin::Flat)
        || is_same(row, Builtin::Orderless)
        || is_same(row, Builtin::Listable)
        || is_same(row, Builtin::HoldFirst)
        || is_same(row, Builtin::HoldRest)
        || is_same(row, Builtin::HoldAll)
        || is_same(row, Builtin::HoldAllComplete)
        || is_same(row, Builtin::SequenceHold)
        || is_same(row, Builtin::OneIdentity)
        || is_same(row, Builtin::Protected)
}

fn attribute_name(names: &Vocabulary, e: &Expr) -> Option<Builtin>
    ensures { result ≡ changes.attribute_name (names_in names.now) e.now }
{
    let Node::Symbol(symbol) = e.node() else {
        return None;
    };
    let row = role_of(names, *symbol)?;
    if is_attribute(row) { Some(row) } else { None }
}

fn attribute_names(
    alloc: Global,
    names: &Vocabulary,
    items: &[Expr],
) -> Result<Option<Items<Builtin>>, AllocError>
    ensures { IfOk result (λ r. named_as r ≡ changes.attribute_names (names_in names.now) items.now) }
{
    let mut found = Items::new(alloc);
    for item in items {
        match attribute_name(names, item) {
            None => return Ok(None),
            Some(row) => found.push(row)?,
        }
    }
    Ok(Some(found))
}

/// The attributes that a name or a `List` of names stands for.
pub(crate) fn named_attributes(
    alloc: Global,
    names: &Vocabulary,
    e: &Expr,
) -> Result<Option<Items<Builtin>>, AllocError>
    ensures { IfOk result (λ r. named_as r ≡ changes.named_attributes (names_in names.now) e.now) }
{
    match items_under(names, Builtin::List, e) {
        Some(items) => attribute_names(alloc, names, items.as_slice()),
        None => {
            let Some(row) = attribute_name(names, e) else {
                return Ok(None);
            };
            let mut found = Items::new(alloc);
            found.push(row)?;
            Ok(Some(found))
        }
    }
}

fn push_where(
    set: bool,
    row: Builtin,
    names: &Vocabulary,
    told: &mut Exprs,
) -> Result<(), AllocError>
    ensures { OnOk result (told.new ≡ told.old ++ map (n.name (names_in names.now)) (where_set set row [])) }
{
    if set {
        told.push(name(names, row))?;
    }
    Ok(())
}

/// The names of attributes.
fn names_of(alloc: Global, names: &Vocabulary, attrs: Attrs) -> Result<Exprs, AllocError>
    ensures { IfOk result (λ r. r ≡ map (n.name (names_in names.now)) (attributes_in attrs)) }
{
    let mut told = Items::new(alloc);
    push_where(attrs.flat, Builtin::Flat, names, &mut told)?;
    push_where(attrs.orderless, Builtin::Orderless, names, &mut told)?;
    push_where(attrs.listable, Builtin::Listable, names, &mut told)?;
    push_where(attrs.hold_first, Builtin::HoldFirst, names, &mut told)?;
    push_where(attrs.hold_rest, Builtin::HoldRest, names, &mut told)?;
    push_where(attrs.hold_all, Builtin::HoldAll, names, &mut told)?;
    push_where(
        attrs.hold_all_complete,
        Builtin::HoldAllComplete,
        names,
        &mut told,
    )?;
    push_where(attrs.sequence_hold, Builtin::SequenceHold, names, &mut told)?;
    push_where(attrs.one_identity, Builtin::OneIdentity, names, &mut told)?;
    push_where(attrs.protected, Builtin::Protected, names, &mut told)?;
    Ok(told)
}

/// The attributes of a symbol as a list in the canonical order.
pub(crate) fn attributes_told(scene: &Scene, defs: &Defs, symbol: Sym) -> Result<Expr, Halt>
    ensures { (used : Bool) (stay : Prog) (rest : Option Tree → Prog) → Stepped (setting_of scene.now)
        (Done (n.make (names_in scene.now.names.now) Builtin.List (ordered (map (n.name (names_in scene.now.names.now)) (d.definition_of (names_in scene.now.names.now) defs.now symbol).attributes))))
        stay defs.now used (done_with result) rest defs.now used }
{
    match told_list(scene, defs, symbol) {
        Ok(list) => Ok(list),
        Err(built) => Err(stop_for(&scene.limits, built)),
    }
}

fn told_list(scene: &Scene, defs: &Defs, symbol: Sym) -> Result<Expr, Built>
    ensures { Assembles (n.make (names_in scene.now.names.now) Builtin.List (ordered (map (n.name (names_in scene.now.names.now)) (d.definition_of (names_in scene.now.names.now) defs.now symbol).attributes))) result }
{
    let attrs = defs.attrs_of(scene.names, symbol);
    let told = names_of(scene.alloc, scene.names, attrs)?;
    let sorted = order(scene.alloc, told)?;
    make(scene.alloc, scene.names, Builtin::List, sorted)
}

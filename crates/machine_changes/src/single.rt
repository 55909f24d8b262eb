//! The rows on one symbol that ask nothing.
ghost use Rattle.std.specs.Prelude.{◌≡◌, ◌∷◌, [], Bool, IfOk, Option, true, false};
ghost use Rattle.expr_tree.specs.Tree.{Tree};
ghost use Rattle.semantics.specs.Changes as changes;
ghost use Rattle.semantics.specs.Definitions as d;
ghost use Rattle.semantics.specs.declared.builtin.Builtin.{Builtin};
ghost use Rattle.semantics.specs.Control.{null};
ghost use Rattle.semantics.specs.Program.{Prog, Put};
ghost use Rattle.builtin_names.specs.Named.{names_in};
ghost use Rattle.machine_steps.specs.Setup.{setting_of};
ghost use Rattle.machine_steps.specs.Steps.{Starts, Stepped};
ghost use Rattle.machine_changes.specs.ChangeLeft.{left};
ghost use Rattle.machine_changes.specs.Single.{deed_on, deed_with, done_to, fails_for, row_of};
ghost use Rattle.machine_changes.specs.Results.{done_with};

use crate::attributes::{attributes_told, named_attributes, with_those, without_those};
use crate::change::Change;
use crate::effects::{is_shared, note_use};
use crate::shapes::symbol_in;
use builtin_names::{Vocabulary, name};
use evaluation_steps::Halt;
use expr_tree::{Expr, Sym};
use item_list::Items;
use kernel_defs::Defs;
use machine_steps::Scene;
use semantics::Builtin;
use std::alloc::{AllocError, Global};

/// What becomes of the definition of a symbol.
#[derive(Drop)]
pub enum Deed {
    Clear,
    ClearAll,
    /// It gets these attributes, or loses them, unless it is Protected.
    Add(Items<Builtin>),
    Remove(Items<Builtin>),
    Protect,
    Unprotect,
    /// Its attributes are the result.
    Tell,
}

/// A row on one symbol.
#[derive(Drop)]
pub struct Single {
    pub(crate) symbol: Sym,
    pub(crate) deed: Deed,
}

impl Deed {
    /// Whether it fails, for a symbol that is shared or not.
    fn fails_for(&self, shared: bool) -> bool
        ensures { result ≡ fails_for self.now shared }
    {
        match self {
            Deed::Clear => false,
            Deed::ClearAll
            | Deed::Add(_)
            | Deed::Remove(_)
            | Deed::Protect
            | Deed::Unprotect
            | Deed::Tell => shared,
        }
    }
}

fn only_protected(alloc: Global) -> Result<Items<Builtin>, AllocError>
    ensures { IfOk result (λ r. r ≡ Builtin.Protected ∷ []) }
{
    let mut names = Items::new(alloc);
    names.push(Builtin::Protected)?;
    Ok(names)
}

impl Single {
    /// All of the row.
    pub(crate) fn step(&self, scene: &Scene, defs: &mut Defs, used: &mut bool) -> Result<Expr, Halt>
        ensures { (stay : Prog) (rest : Option Tree → Prog) → Stepped (setting_of scene.now) (done_to (names_in scene.now.names.now) self.now.symbol self.now.deed) stay defs.old used.old (done_with result) rest defs.new used.new }
    {
        let shared = is_shared(scene, defs, self.symbol);
        note_use(used, shared);
        if self.deed.fails_for(shared) {
            return Ok(name(scene.names, Builtin::Failed));
        }
        self.perform(scene, defs)
    }

    fn perform(&self, scene: &Scene, defs: &mut Defs) -> Result<Expr, Halt>
        ensures { (used : Bool) (stay : Prog) (rest : Option Tree → Prog) → Stepped (setting_of scene.now) (deed_on (names_in scene.now.names.now) self.now.symbol self.now.deed (d.definition_of (names_in scene.now.names.now) defs.old self.now.symbol)) stay defs.old used (done_with result) rest defs.new used }
    {
        let symbol = self.symbol;
        match &self.deed {
            Deed::Clear => clear(scene, defs, symbol),
            Deed::ClearAll => clear_all(scene, defs, symbol),
            Deed::Add(new) => add(scene, defs, symbol, new),
            Deed::Remove(old) => remove(scene, defs, symbol, old),
            Deed::Protect => protect(scene, defs, symbol),
            Deed::Unprotect => unprotect(scene, defs, symbol),
            Deed::Tell => attributes_told(scene, defs, symbol),
        }
    }
}

fn clear(scene: &Scene, defs: &mut Defs, symbol: Sym) -> Result<Expr, Halt>
    ensures { (used : Bool) (stay : Prog) (rest : Option Tree → Prog) → Stepped (setting_of scene.now) (changes.write (names_in scene.now.names.now) symbol changes.cleared (d.definition_of (names_in scene.now.names.now) defs.old symbol)) stay defs.old used (done_with result) rest defs.new used }
{
    if defs.is_protected(scene.names, symbol) {
        return Ok(name(scene.names, Builtin::Failed));
    }
    defs.clear(scene.alloc, scene.names, symbol);
    Ok(name(scene.names, Builtin::Null))
}

fn clear_all(scene: &Scene, defs: &mut Defs, symbol: Sym) -> Result<Expr, Halt>
    ensures { (used : Bool) (stay : Prog) (rest : Option Tree → Prog) → Stepped (setting_of scene.now) (changes.write (names_in scene.now.names.now) symbol changes.nothing_left (d.definition_of (names_in scene.now.names.now) defs.old symbol)) stay defs.old used (done_with result) rest defs.new used }
{
    if defs.is_protected(scene.names, symbol) {
        return Ok(name(scene.names, Builtin::Failed));
    }
    defs.make(scene.alloc, scene.names, symbol, None)?;
    Ok(name(scene.names, Builtin::Null))
}

fn set_with(scene: &Scene, defs: &mut Defs, symbol: Sym, new: &Items<Builtin>) -> Result<Expr, Halt>
    ensures { (used : Bool) (stay : Prog) (rest : Option Tree → Prog) → Stepped (setting_of scene.now) (Put symbol (changes.with_attributes new.now (d.definition_of (names_in scene.now.names.now) defs.old symbol)) (null (names_in scene.now.names.now))) stay defs.old used (done_with result) rest defs.new used }
{
    let attrs = with_those(new, defs.attrs_of(scene.names, symbol));
    defs.set_attrs(scene.alloc, scene.names, symbol, attrs)?;
    Ok(name(scene.names, Builtin::Null))
}

fn set_without(
    scene: &Scene,
    defs: &mut Defs,
    symbol: Sym,
    old: &Items<Builtin>,
) -> Result<Expr, Halt>
    ensures { (used : Bool) (stay : Prog) (rest : Option Tree → Prog) → Stepped (setting_of scene.now) (Put symbol (changes.without_attributes old.now (d.definition_of (names_in scene.now.names.now) defs.old symbol)) (null (names_in scene.now.names.now))) stay defs.old used (done_with result) rest defs.new used }
{
    let attrs = without_those(old, defs.attrs_of(scene.names, symbol));
    defs.set_attrs(scene.alloc, scene.names, symbol, attrs)?;
    Ok(name(scene.names, Builtin::Null))
}

fn protect(scene: &Scene, defs: &mut Defs, symbol: Sym) -> Result<Expr, Halt>
    ensures { (used : Bool) (stay : Prog) (rest : Option Tree → Prog) → Stepped (setting_of scene.now) (Put symbol (changes.with_attributes (Builtin.Protected ∷ []) (d.definition_of (names_in scene.now.names.now) defs.old symbol)) (null (names_in scene.now.names.now))) stay defs.old used (done_with result) rest defs.new used }
{
    let names = only_protected(scene.alloc)?;
    set_with(scene, defs, symbol, &names)
}

fn unprotect(scene: &Scene, defs: &mut Defs, symbol: Sym) -> Result<Expr, Halt>
    ensures { (used : Bool) (stay : Prog) (rest : Option Tree → Prog) → Stepped (setting_of scene.now) (Put symbol (changes.without_attributes (Builtin.Protected ∷ []) (d.definition_of (names_in scene.now.names.now) defs.old symbol)) (null (names_in scene.now.names.now))) stay defs.old used (done_with result) rest defs.new used }
{
    let names = only_protected(scene.alloc)?;
    set_without(scene, defs, symbol, &names)
}

fn add(scene: &Scene, defs: &mut Defs, symbol: Sym, new: &Items<Builtin>) -> Result<Expr, Halt>
    ensures { (used : Bool) (stay : Prog) (rest : Option Tree → Prog) → Stepped (setting_of scene.now) (changes.write (names_in scene.now.names.now) symbol (changes.with_attributes new.now) (d.definition_of (names_in scene.now.names.now) defs.old symbol)) stay defs.old used (done_with result) rest defs.new used }
{
    if defs.is_protected(scene.names, symbol) {
        return Ok(name(scene.names, Builtin::Failed));
    }
    set_with(scene, defs, symbol, new)
}

fn remove(scene: &Scene, defs: &mut Defs, symbol: Sym, old: &Items<Builtin>) -> Result<Expr, Halt>
    ensures { (used : Bool) (stay : Prog) (rest : Option Tree → Prog) → Stepped (setting_of scene.now) (changes.write (names_in scene.now.names.now) symbol (changes.without_attributes old.now) (d.definition_of (names_in scene.now.names.now) defs.old symbol)) stay defs.old used (done_with result) rest defs.new used }
{
    if defs.is_protected(scene.names, symbol) {
        return Ok(name(scene.names, Builtin::Failed));
    }
    set_without(scene, defs, symbol, old)
}

/// The machine of a row that has a symbol and nothing else.
pub(crate) fn of_symbol(
    names: &Vocabulary,
    deed: Deed,
    items: &[Expr],
) -> Result<Option<Change>, AllocError>
    ensures { Starts (left (names_in names.now)) (λ stay. row_of (names_in names.now) deed stay items.now) result }
{
    let [first] = items else {
        return Ok(None);
    };
    match symbol_in(first) {
        None => Ok(None),
        Some(symbol) => Ok(Some(Change::Single(Single { symbol, deed }))),
    }
}

/// The machine of a row that gives a symbol attributes, or takes them.
pub(crate) fn of_attributes(
    alloc: Global,
    names: &Vocabulary,
    adds: bool,
    items: &[Expr],
) -> Result<Option<Change>, AllocError>
    ensures { Starts (left (names_in names.now)) (λ stay. changes.change_attributes (names_in names.now) (elim adds [ true ↦ changes.with_attributes | false ↦ changes.without_attributes ]) stay items.now) result }
{
    let [first, second] = items else {
        return Ok(None);
    };
    let Some(symbol) = symbol_in(first) else {
        return Ok(None);
    };
    let Some(named) = named_attributes(alloc, names, second)? else {
        return Ok(None);
    };
    let deed = deed_with(adds, named);
    Ok(Some(Change::Single(Single { symbol, deed })))
}

fn deed_with(adds: bool, named: Items<Builtin>) -> Deed
    ensures { result ≡ deed_with adds named }
{
    if adds {
        Deed::Add(named)
    } else {
        Deed::Remove(named)
    }
}

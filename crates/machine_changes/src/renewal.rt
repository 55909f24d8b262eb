//! An own value that is made anew from the old one.
ghost use Rattle.std.specs.Prelude.{◌≡◌, ◌∷◌, [], IfOk, Bool, Option, Some, None, Err, true, false};
ghost use Rattle.expr_tree.specs.Limits.{Assembles};
ghost use Rattle.expr_tree.specs.Tree.{Tree, call, symbol};
ghost use Rattle.expr_tree.specs.declared.sym.Sym.{Sym};
ghost use Rattle.semantics.specs.Changes as changes;
ghost use Rattle.semantics.specs.Program.{Prog};
ghost use Rattle.builtin_names.specs.Named.{names_in};
ghost use Rattle.evaluation_steps.specs.Stopping.{AreBounded, Checked, HaltsFor};
ghost use Rattle.machine_steps.specs.Setup.{setting_of};
ghost use Rattle.machine_steps.specs.Steps.{Falls, Starts, Stepped};
ghost use Rattle.machine_changes.specs.declared.renewal.Operand.{Operand};
ghost use Rattle.machine_changes.specs.declared.change.Change.{Change};
ghost use Rattle.machine_changes.specs.Results.{done_with};
ghost use Rattle.machine_changes.specs.ChangeLeft.{asked_once, left};
ghost use Rattle.machine_changes.specs.Renewing.{assigned, given_by, left_renewal, next_of, operand_of, put, renewed};

use crate::change::{Change, done_with};
use crate::effects::{is_refused, is_shared, note_use};
use crate::shapes::symbol_in;
use builtin_names::{Vocabulary, make, name, symbol_for};
use evaluation_steps::{Halt, checked};
use expr_tree::{Built, Expr, Exprs, Limits, Stop, Sym};
use item_list::Items;
use kernel_defs::Defs;
use machine_steps::{Move, Scene};
use semantics::Builtin;
use std::alloc::{AllocError, Global};

/// What stands behind the old value.
#[derive(Drop)]
pub enum Operand {
    Given(Expr),
    /// Minus this.
    Negated(Expr),
}

/// A row that evaluates `row[old, operand]`, the new own value of a symbol. After the question the old value is kept.
#[derive(Drop)]
pub struct Renewal {
    pub(crate) symbol: Sym,
    pub(crate) row: Builtin,
    pub(crate) operand: Operand,
    pub(crate) gives_old: bool,
    pub(crate) before: Option<Expr>,
}

/// A list of two expressions.
fn two(alloc: Global, e: Expr, f: Expr) -> Result<Exprs, AllocError>
    ensures { IfOk result (λ items. items ≡ e ∷ f ∷ []) }
{
    let mut items = Items::new(alloc);
    items.push(e)?;
    items.push(f)?;
    Ok(items)
}

/// Why an evaluation ends where an operand was not made, with the old value before it.
fn stop_behind(limits: &Limits, old: &Expr, built: Built) -> Halt
    requires bounded { AreBounded limits.now }
    ensures { (s : Sym) (t : Tree) → Assembles t (Err built) → HaltsFor limits.now (call (symbol s) (old.now ∷ t ∷ [])) result }
{
    let others = old.size() + 1;
    match built {
        Built::TooLarge => Halt::Stopped(Stop::Size),
        Built::TooDeep(nodes) => {
            if limits.size < nodes {
                return Halt::Stopped(Stop::Size);
            }
            if limits.size - nodes < others {
                return Halt::Stopped(Stop::Size);
            }
            Halt::Stopped(Stop::Depth)
        }
        Built::NoMemory => Halt::NoMemory,
    }
}

/// Minus an expression.
fn negated(scene: &Scene, e: &Expr) -> Result<Expr, Built>
    ensures { Assembles (operand_of (names_in scene.now.names.now) (Operand.Negated e.now)) result }
{
    let factors = two(scene.alloc, Expr::int(-1), e.copy(scene.alloc)?)?;
    make(scene.alloc, scene.names, Builtin::Times, factors)
}

/// The head with the old value and minus an expression.
fn negated_next(scene: &Scene, head: Sym, old: &Expr, e: &Expr) -> Result<Expr, Halt>
    ensures { Checked scene.now.limits (call (symbol head) (old.now ∷ operand_of (names_in scene.now.names.now) (Operand.Negated e.now) ∷ [])) result }
{
    match negated(scene, e) {
        Err(built) => Err(stop_behind(&scene.limits, old, built)),
        Ok(operand) => {
            let items = two(scene.alloc, old.copy(scene.alloc)?, operand)?;
            checked(scene.alloc, &scene.limits, Expr::symbol(head), items)
        }
    }
}

impl Renewal {
    /// The expression that is evaluated.
    fn next(&self, scene: &Scene, old: &Expr) -> Result<Expr, Halt>
        ensures { Checked scene.now.limits (next_of (names_in scene.now.names.now) self.now.row self.now.operand old.now) result }
    {
        let head = symbol_for(scene.names, self.row);
        match &self.operand {
            Operand::Given(e) => {
                let items = two(scene.alloc, old.copy(scene.alloc)?, e.copy(scene.alloc)?)?;
                checked(scene.alloc, &scene.limits, Expr::symbol(head), items)
            }
            Operand::Negated(e) => negated_next(scene, head, old, e),
        }
    }

    /// Asks for the new value, unless there is no old one or the change is refused in an item.
    fn ask(&mut self, scene: &Scene, defs: &Defs, used: &mut bool) -> Result<Move, Halt>
        ensures stepped { (stay : Prog) → Stepped (setting_of scene.now) (changes.change (names_in scene.now.names.now) self.old.symbol (next_of (names_in scene.now.names.now) self.old.row self.old.operand) (given_by self.old)) stay defs.now used.old result (left_renewal (names_in scene.now.names.now) self.new) defs.now used.new }
        ensures falls { Falls result 1 (λ answer. asked_once self.new) }
    {
        let shared = is_shared(scene, defs, self.symbol);
        if is_refused(scene, used, shared) {
            return Ok(Move::Done(name(scene.names, Builtin::Failed)));
        }
        let Some(old) = defs.own_of(self.symbol) else {
            return Ok(Move::Done(name(scene.names, Builtin::Failed)));
        };
        match self.next(scene, old) {
            Err(halt) => Err(halt),
            Ok(next) => {
                self.before = Some(old.copy(scene.alloc)?);
                Ok(Move::Ask(next, false))
            }
        }
    }

    /// Gives the symbol its new value.
    fn put(&self, scene: &Scene, defs: &mut Defs, old: Expr, value: Expr) -> Result<Expr, Halt>
        ensures { (used : Bool) (stay : Prog) (rest : Option Tree → Prog) → Stepped (setting_of scene.now) (put (names_in scene.now.names.now) self.now old value defs.old) stay defs.old used (done_with result) rest defs.new used }
    {
        if self.gives_old {
            defs.set_own(scene.alloc, scene.names, self.symbol, value)?;
            return Ok(old);
        }
        let kept = value.copy(scene.alloc)?;
        defs.set_own(scene.alloc, scene.names, self.symbol, kept)?;
        Ok(value)
    }

    /// Gives the symbol its new value, unless it is Protected.
    fn renew(&self, scene: &Scene, defs: &mut Defs, old: Expr, value: Expr) -> Result<Expr, Halt>
        ensures { (used : Bool) (stay : Prog) (rest : Option Tree → Prog) → Stepped (setting_of scene.now) (assigned (names_in scene.now.names.now) self.now old value defs.old) stay defs.old used (done_with result) rest defs.new used }
    {
        if defs.is_protected(scene.names, self.symbol) {
            return Ok(name(scene.names, Builtin::Failed));
        }
        self.put(scene, defs, old, value)
    }

    /// The new value is there.
    fn finish(
        &self,
        scene: &Scene,
        defs: &mut Defs,
        used: &mut bool,
        old: Expr,
        value: Expr,
    ) -> Result<Move, Halt>
        ensures stepped { (stay : Prog) (rest : Option Tree → Prog) → Stepped (setting_of scene.now) (renewed (names_in scene.now.names.now) self.now old (Some value)) stay defs.old used.old result rest defs.new used.new }
        ensures falls { Falls result 0 (λ answer. 0) }
    {
        let shared = is_shared(scene, defs, self.symbol);
        note_use(used, shared);
        done_with(self.renew(scene, defs, old, value))
    }

    pub(crate) fn step(
        &mut self,
        scene: &Scene,
        defs: &mut Defs,
        used: &mut bool,
        answer: Option<Expr>,
    ) -> Result<Move, Halt>
        ensures stepped { (stay : Prog) → Stepped (setting_of scene.now) (left_renewal (names_in scene.now.names.now) self.old answer) stay defs.old used.old result (left_renewal (names_in scene.now.names.now) self.new) defs.new used.new }
        ensures falls { Falls result (asked_once self.old) (λ answer. asked_once self.new) }
    {
        let Some(old) = self.before.take() else {
            return self.ask(scene, defs, used);
        };
        match answer {
            None => Ok(Move::Done(name(scene.names, Builtin::Null))),
            Some(value) => self.finish(scene, defs, used, old, value),
        }
    }
}

/// A machine that gives the new value.
fn renewing(symbol: Sym, row: Builtin, operand: Operand) -> Change
    ensures { result ≡ Change.Renewal (record { symbol = symbol; row = row; operand = operand; gives_old = false; before = None }) }
{
    Change::Renewal(Renewal {
        symbol,
        row,
        operand,
        gives_old: false,
        before: None,
    })
}

/// The machine of a row that adds a number.
pub(crate) fn of_integer(
    names: &Vocabulary,
    number: i128,
    gives_old: bool,
    items: &[Expr],
) -> Result<Option<Change>, AllocError>
    ensures { Starts (left (names_in names.now)) (λ stay. changes.step_by (names_in names.now) number (elim gives_old [ true ↦ changes.old_value | false ↦ changes.new_value ]) stay items.now) result }
{
    let [first] = items else {
        return Ok(None);
    };
    match symbol_in(first) {
        None => Ok(None),
        Some(symbol) => Ok(Some(Change::Renewal(Renewal {
            symbol,
            row: Builtin::Plus,
            operand: Operand::Given(Expr::int(number)),
            gives_old,
            before: None,
        }))),
    }
}

/// The machine of a row that combines the old value with another.
pub(crate) fn of_operand(
    alloc: Global,
    names: &Vocabulary,
    row: Builtin,
    items: &[Expr],
) -> Result<Option<Change>, AllocError>
    ensures { Starts (left (names_in names.now)) (λ stay. changes.change_with (names_in names.now) row stay items.now) result }
{
    let [first, second] = items else {
        return Ok(None);
    };
    match symbol_in(first) {
        None => Ok(None),
        Some(symbol) => {
            let operand = Operand::Given(second.copy(alloc)?);
            Ok(Some(renewing(symbol, row, operand)))
        }
    }
}

/// The machine of SubtractFrom.
pub(crate) fn of_negated(
    alloc: Global,
    names: &Vocabulary,
    items: &[Expr],
) -> Result<Option<Change>, AllocError>
    ensures { Starts (left (names_in names.now)) (λ stay. changes.subtract_from (names_in names.now) stay items.now) result }
{
    let [first, second] = items else {
        return Ok(None);
    };
    match symbol_in(first) {
        None => Ok(None),
        Some(symbol) => {
            let operand = Operand::Negated(second.copy(alloc)?);
            Ok(Some(renewing(symbol, Builtin::Plus, operand)))
        }
    }
}

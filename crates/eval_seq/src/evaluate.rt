//! Evaluating: a cycle of functions, of which each says that the evaluation went on from a program to its end.
ghost use Rattle.std.specs.Prelude.{◌≡◌, true, None, Some};
ghost use Rattle.expr_tree.specs.Shapes.{symbol_of};
ghost use Rattle.expr_tree.specs.Tree.{call};
ghost use Rattle.semantics.specs.Pass as p;
ghost use Rattle.semantics.specs.Assemble as a;
ghost use Rattle.semantics.specs.Program.{Section, Within};
ghost use Rattle.builtin_names.specs.Attributes.{attributes_in};
ghost use Rattle.builtin_names.specs.Named.{names_in};
ghost use Rattle.frames_scope.specs.Reading.{locals_in};
ghost use Rattle.evaluation_steps.specs.Words.{Evaluated, Settled, Ran};
ghost use Rattle.machine_steps.specs.Setup.{state_of};
ghost use Rattle.eval_seq.specs.Outward.{Faces, Guarded};
ghost use Rattle.eval_seq.specs.Setup.{names_under, setting_in};
ghost use Rattle.eval_seq.specs.Walks.{or_itself, Judged, PassOf, Stepped};
ghost use Rattle.eval_seq.specs.declared.machine.Start.{Start};
ghost use Rattle.eval_seq.specs.Driven.{driven, may_enter, Comes, Follows, MayFollow};
ghost use Rattle.eval_seq.specs.Sequence.{last_of, one_asked, evaluated, after_values, values_in, values_of, unless_held, Turned, IsWithin, IsSettled};

use crate::assemble::{Assembled, Spliced, assemble, listed};
use crate::effects::{check, check_call, count, outward};
use crate::machine::{Followed, Start};
use crate::outward::Upcall;
use crate::put_by::put_by;
use crate::room::Room;
use crate::sections::{caught, copied, is_held, is_left, thrown_by};
use crate::settled::is_settled;
use crate::steps::{head_row_start, head_start, up_start};
use crate::symbols::{accesses, attrs_under, own, send_access};
use crate::values::{Values, new_or_copies, new_or_copy, new_or_old, with_next};
use attr_steps::{holds_first, holds_rest, is_asked, spliced, threaded};
use builtin_names::name;
use evaluation_steps::Exit;
use expr_tree::{Attrs, Expr, Exprs, Node, Stop, Sym, Syms, symbol_of};
use frames_scope::Locals;
use machine_rows::Machine;
use machine_steps::{KernelState, Move, Want};
use semantics::Builtin;

/// Evaluates an expression, with `left` nested evaluations left. `None` is the expression itself.
#[cycle(evaluate)]
pub(crate) fn evaluate<U: Upcall>(
    room: Room,
    state: &mut KernelState,
    up: &mut U,
    e: &Expr,
) -> Result<Option<Expr>, Exit>
    requires { Faces U.ready U.names U.mode U.is_open (setting_in room) state.old.open_section up.old }
    ensures { Evaluated (Guarded U.step U.ready U.names U.mode U.is_open) (setting_in room.entry) room.entry.left e.now up.old (state_of state.old) (or_itself e.now result) (state_of state.new) up.new }
{
    if room.left == 0 {
        return Err(Exit::Stopped(Stop::Recursion));
    }
    let deeper = Room {
        scene: room.scene,
        left: room.left - 1,
    };
    settle(deeper, state, up, e)
}

/// Makes passes until one changes nothing.
#[cycle(evaluate)]
fn settle<U: Upcall>(
    room: Room,
    state: &mut KernelState,
    up: &mut U,
    e: &Expr,
) -> Result<Option<Expr>, Exit>
    requires { Faces U.ready U.names U.mode U.is_open (setting_in room) state.old.open_section up.old }
    ensures { Settled (Guarded U.step U.ready U.names U.mode U.is_open) (setting_in room.entry) room.entry.left (setting_in room.entry).limits.iteration e.now up.old (state_of state.old) (or_itself e.now result) (state_of state.new) up.new }
{
    let changes = room.scene.limits.iteration;
    let Some(value) = turn(room, state, up, changes, e)? else {
        return Ok(None);
    };
    let value = settle_rest(room, state, up, changes - 1, value)?;
    Ok(Some(value))
}

/// Makes further passes until one changes nothing, with so many changing ones left.
#[cycle(evaluate)]
fn settle_rest<U: Upcall>(
    room: Room,
    state: &mut KernelState,
    up: &mut U,
    changes: u32,
    e: Expr,
) -> Result<Expr, Exit>
    requires { Faces U.ready U.names U.mode U.is_open (setting_in room) state.old.open_section up.old }
    ensures { Settled (Guarded U.step U.ready U.names U.mode U.is_open) (setting_in room.entry) room.entry.left changes e up.old (state_of state.old) result (state_of state.new) up.new }
{
    let mut e = e;
    let mut changes = changes;
    'passes: loop {
        let Some(value) = turn(room, state, up, changes, &e)? else {
            return Ok(e);
        };
        changes -= 1;
        e = value;
    }
}

/// Makes one pass, and judges its value. `None` is the expression itself, which ends the evaluation.
#[cycle(evaluate)]
fn turn<U: Upcall>(
    room: Room,
    state: &mut KernelState,
    up: &mut U,
    changes: u32,
    e: &Expr,
) -> Result<Option<Expr>, Exit>
    requires { Faces U.ready U.names U.mode U.is_open (setting_in room) state.old.open_section up.old }
    ensures { Turned (Guarded U.step U.ready U.names U.mode U.is_open) (setting_in room.entry) room.entry.left changes e.now up.old (state_of state.old) result (state_of state.new) up.new }
{
    let Some(value) = pass_or_throw(room, state, up, changes, e)? else {
        check(&room.scene.limits, e)?;
        return Ok(None);
    };
    check(&room.scene.limits, &value)?;
    if value.equals(e) {
        return Ok(None);
    }
    if changes == 0 {
        return Err(Exit::Stopped(Stop::Iteration));
    }
    count(&room.scene.limits, true, state)?;
    Ok(Some(value))
}

/// Makes one pass, and judges what it throws itself as a change of the expression.
#[cycle(evaluate)]
fn pass_or_throw<U: Upcall>(
    room: Room,
    state: &mut KernelState,
    up: &mut U,
    changes: u32,
    e: &Expr,
) -> Result<Option<Expr>, Exit>
    requires { Faces U.ready U.names U.mode U.is_open (setting_in room) state.old.open_section up.old }
    ensures { Judged (Guarded U.step U.ready U.names U.mode U.is_open) (setting_in room.entry) room.entry.left changes e.now up.old (state_of state.old) (or_itself e.now result) (state_of state.new) up.new }
{
    match pass(room, state, up, e) {
        Ok(value) => Ok(value),
        Err(exit) => match thrown_by(exit) {
            Ok(thrown) => {
                if changes == 0 {
                    return Err(Exit::Stopped(Stop::Iteration));
                }
                count(&room.scene.limits, true, state)?;
                Err(Exit::Thrown(thrown))
            }
            Err(exit) => Err(exit),
        },
    }
}

/// Makes one pass.
#[cycle(evaluate)]
fn pass<U: Upcall>(
    room: Room,
    state: &mut KernelState,
    up: &mut U,
    e: &Expr,
) -> Result<Option<Expr>, Exit>
    requires { Faces U.ready U.names U.mode U.is_open (setting_in room) state.old.open_section up.old }
    ensures { PassOf (Guarded U.step U.ready U.names U.mode U.is_open) (setting_in room.entry) room.entry.left (p.pass (names_under room.entry) e.now) up.old (state_of state.old) (or_itself e.now result) (state_of state.new) up.new }
{
    match e.node() {
        Node::Int(_) => Ok(None),
        Node::Str(_) => Ok(None),
        Node::Symbol(symbol) => own(room.scene, state, up, *symbol),
        Node::Normal(head, items) => normal(room, state, up, e, head, items),
    }
}

/// Makes one pass over a normal expression.
#[cycle(evaluate)]
fn normal<U: Upcall>(
    room: Room,
    state: &mut KernelState,
    up: &mut U,
    whole: &Expr,
    head: &Expr,
    items: &Exprs,
) -> Result<Option<Expr>, Exit>
    requires faces { Faces U.ready U.names U.mode U.is_open (setting_in room) state.old.open_section up.old }
    requires whole { whole.now ≡ call head.now items.now }
    ensures { PassOf (Guarded U.step U.ready U.names U.mode U.is_open) (setting_in room.entry) room.entry.left (a.first_steps (names_under room.entry) head.now items.now (p.later_steps (names_under room.entry))) up.old (state_of state.old) (or_itself whole.now result) (state_of state.new) up.new }
{
    let slice = items.as_slice();
    let values = values(room, state, up, head, slice)?;
    if is_settled(room.scene.names, &values, head, slice) {
        return settled(room, state, up, &values.attrs, whole, head, items);
    }
    let value = changed(room, state, up, values, head, slice)?;
    Ok(Some(value))
}

/// Evaluates head and elements.
#[cycle(evaluate)]
fn values<U: Upcall>(
    room: Room,
    state: &mut KernelState,
    up: &mut U,
    head: &Expr,
    items: &[Expr],
) -> Result<Values, Exit>
    requires { Faces U.ready U.names U.mode U.is_open (setting_in room) state.old.open_section up.old }
    ensures { Ran (Guarded U.step U.ready U.names U.mode U.is_open) (setting_in room.entry) room.entry.left (evaluated (names_under room.entry) head.now items.now) up.old (state_of state.old) (values_of head.now items.now result) (state_of state.new) up.new }
{
    let new = evaluate(room, state, up, head)?;
    let attrs = attrs_under(room.scene.names, &state.defs, new_or_old(&new, head));
    let items = elements(room, state, up, &attrs, items)?;
    Ok(Values {
        head: new,
        attrs,
        items,
    })
}

/// The value of an expression.
#[cycle(evaluate)]
pub(crate) fn value_of<U: Upcall>(
    room: Room,
    state: &mut KernelState,
    up: &mut U,
    e: &Expr,
) -> Result<Expr, Exit>
    requires { Faces U.ready U.names U.mode U.is_open (setting_in room) state.old.open_section up.old }
    ensures { Evaluated (Guarded U.step U.ready U.names U.mode U.is_open) (setting_in room.entry) room.entry.left e.now up.old (state_of state.old) result (state_of state.new) up.new }
{
    match evaluate(room, state, up, e)? {
        Some(value) => Ok(value),
        None => Ok(e.copy(room.scene.alloc)?),
    }
}

/// Evaluates the elements that are not held. `None` is the elements themselves.
#[cycle(evaluate)]
fn elements<U: Upcall>(
    room: Room,
    state: &mut KernelState,
    up: &mut U,
    attrs: &Attrs,
    items: &[Expr],
) -> Result<Option<Exprs>, Exit>
    requires { Faces U.ready U.names U.mode U.is_open (setting_in room) state.old.open_section up.old }
    ensures { Ran (Guarded U.step U.ready U.names U.mode U.is_open) (setting_in room.entry) room.entry.left (a.ask_items (names_under room.entry) (attributes_in attrs.now) items.now) up.old (state_of state.old) (or_itself items.now result) (state_of state.new) up.new }
{
    let mut held = holds_first(attrs);
    let mut values: Option<Exprs> = None;
    for i in 0..items.len() {
        let item = &items[i];
        let value = element(room, state, up, attrs, held, item)?;
        values = with_next(room.scene.alloc, values, &items[..i], item, value)?;
        held = holds_rest(attrs);
    }
    Ok(values)
}

/// Evaluates an element, unless it is held. `None` is the element itself.
#[cycle(evaluate)]
fn element<U: Upcall>(
    room: Room,
    state: &mut KernelState,
    up: &mut U,
    attrs: &Attrs,
    held: bool,
    item: &Expr,
) -> Result<Option<Expr>, Exit>
    requires { Faces U.ready U.names U.mode U.is_open (setting_in room) state.old.open_section up.old }
    ensures { Ran (Guarded U.step U.ready U.names U.mode U.is_open) (setting_in room.entry) room.entry.left (one_asked (names_under room.entry) (attributes_in attrs.now) held item.now) up.old (state_of state.old) (or_itself item.now result) (state_of state.new) up.new }
{
    if !is_asked(room.scene.names, attrs, held, item) {
        return Ok(None);
    }
    evaluate(room, state, up, item)
}

/// What follows where head and elements are as they were, and no step that asks nothing changes them, threading aside. `None` is
/// the expression itself.
#[cycle(evaluate)]
fn settled<U: Upcall>(
    room: Room,
    state: &mut KernelState,
    up: &mut U,
    attrs: &Attrs,
    whole: &Expr,
    head: &Expr,
    items: &Exprs,
) -> Result<Option<Expr>, Exit>
    requires faces { Faces U.ready U.names U.mode U.is_open (setting_in room) state.old.open_section up.old }
    requires whole { whole.now ≡ call head.now items.now }
    requires settled { IsSettled (names_under room) head.now (attributes_in attrs.now) items.now }
    ensures { PassOf (Guarded U.step U.ready U.names U.mode U.is_open) (setting_in room.entry) room.entry.left (after_values (names_under room.entry) (head.now, attributes_in attrs.now, items.now)) up.old (state_of state.old) (or_itself whole.now result) (state_of state.new) up.new }
{
    check(&room.scene.limits, whole)?;
    match threaded(
        room.scene.alloc,
        room.scene.names,
        head,
        attrs,
        items.as_slice(),
    )? {
        Some(each) => match listed(room.scene.alloc, room.scene.names, &room.scene.limits, each) {
            Ok(value) => Ok(Some(value)),
            Err(halt) => Err(Exit::from(halt)),
        },
        None => call_steps(room, state, up, attrs, whole, head, items),
    }
}

/// What follows the values of head and elements: splicing, and the later steps.
#[cycle(evaluate)]
fn changed<U: Upcall>(
    room: Room,
    state: &mut KernelState,
    up: &mut U,
    values: Values,
    head: &Expr,
    items: &[Expr],
) -> Result<Expr, Exit>
    requires { Faces U.ready U.names U.mode U.is_open (setting_in room) state.old.open_section up.old }
    ensures { PassOf (Guarded U.step U.ready U.names U.mode U.is_open) (setting_in room.entry) room.entry.left (after_values (names_under room.entry) (values_in head.now items.now values)) up.old (state_of state.old) result (state_of state.new) up.new }
{
    let Values {
        head: new,
        attrs,
        items: new_items,
    } = values;
    let head = new_or_copy(room.scene.alloc, new, head)?;
    let items = new_or_copies(room.scene.alloc, new_items, items)?;
    let items = spliced(room.scene.alloc, room.scene.names, &attrs, items)?;
    check_call(&room.scene.limits, &head, items.as_slice())?;
    later(room, state, up, Spliced { head, attrs, items })
}

/// What follows splicing.
#[cycle(evaluate)]
fn later<U: Upcall>(
    room: Room,
    state: &mut KernelState,
    up: &mut U,
    first: Spliced,
) -> Result<Expr, Exit>
    requires faces { Faces U.ready U.names U.mode U.is_open (setting_in room) state.old.open_section up.old }
    requires within { IsWithin first.head first.items }
    ensures { PassOf (Guarded U.step U.ready U.names U.mode U.is_open) (setting_in room.entry) room.entry.left (p.later_steps (names_under room.entry) first.head (attributes_in first.attrs) first.items) up.old (state_of state.old) result (state_of state.new) up.new }
{
    let Spliced { head, attrs, items } = first;
    match assemble(room.scene.alloc, room.scene.names, head, &attrs, items)? {
        Assembled::Threaded(each) => match listed(
            room.scene.alloc,
            room.scene.names,
            &room.scene.limits,
            each,
        ) {
            Ok(value) => Ok(value),
            Err(halt) => Err(Exit::from(halt)),
        },
        Assembled::Call(whole, standing) => {
            match last_steps(room, state, up, &attrs, &whole)? {
                Some(value) => Ok(value),
                None => Ok(standing.unwrap_or(whole)),
            }
        }
    }
}

/// Tries the rules of an assembled expression, and its row.
#[cycle(evaluate)]
fn last_steps<U: Upcall>(
    room: Room,
    state: &mut KernelState,
    up: &mut U,
    attrs: &Attrs,
    whole: &Expr,
) -> Result<Option<Expr>, Exit>
    requires { Faces U.ready U.names U.mode U.is_open (setting_in room) state.old.open_section up.old }
    ensures { Stepped (Guarded U.step U.ready U.names U.mode U.is_open) (setting_in room.entry) room.entry.left (λ rest. last_of (names_under room.entry) (attributes_in attrs.now) whole.now rest) up.old (state_of state.old) result (state_of state.new) up.new }
{
    match whole.node() {
        Node::Normal(head, items) => { call_steps(room, state, up, attrs, whole, head, items) }
        Node::Int(_) => Ok(None),
        Node::Str(_) => Ok(None),
        Node::Symbol(_) => Ok(None),
    }
}

/// Tries the up rules of the elements, the down rules of the head, and its row.
#[cycle(evaluate)]
fn call_steps<U: Upcall>(
    room: Room,
    state: &mut KernelState,
    up: &mut U,
    attrs: &Attrs,
    whole: &Expr,
    head: &Expr,
    items: &Exprs,
) -> Result<Option<Expr>, Exit>
    requires faces { Faces U.ready U.names U.mode U.is_open (setting_in room) state.old.open_section up.old }
    requires whole { whole.now ≡ call head.now items.now }
    ensures { Stepped (Guarded U.step U.ready U.names U.mode U.is_open) (setting_in room.entry) room.entry.left (λ rest. p.last_steps (names_under room.entry) (attributes_in attrs.now) items.now whole.now rest head.now) up.old (state_of state.old) result (state_of state.new) up.new }
{
    if let Some(value) = up_steps(room, state, up, attrs, whole, items)? {
        return Ok(Some(value));
    }
    down_steps(room, state, up, whole, head, items)
}

/// Tries the up rules of the symbol of each element, unless all is held.
#[cycle(evaluate)]
fn up_steps<U: Upcall>(
    room: Room,
    state: &mut KernelState,
    up: &mut U,
    attrs: &Attrs,
    whole: &Expr,
    items: &Exprs,
) -> Result<Option<Expr>, Exit>
    requires { Faces U.ready U.names U.mode U.is_open (setting_in room) state.old.open_section up.old }
    ensures { Stepped (Guarded U.step U.ready U.names U.mode U.is_open) (setting_in room.entry) room.entry.left (λ rest. unless_held (names_under room.entry) (attributes_in attrs.now) items.now whole.now rest) up.old (state_of state.old) result (state_of state.new) up.new }
{
    if attrs.hold_all_complete {
        return Ok(None);
    }
    for item in items.as_slice() {
        if let Some(value) = element_rules(room, state, up, whole, item)? {
            return Ok(Some(value));
        }
    }
    Ok(None)
}

/// Tries the up rules of the symbol of an element, if it has one.
#[cycle(evaluate)]
fn element_rules<U: Upcall>(
    room: Room,
    state: &mut KernelState,
    up: &mut U,
    whole: &Expr,
    item: &Expr,
) -> Result<Option<Expr>, Exit>
    requires { Faces U.ready U.names U.mode U.is_open (setting_in room) state.old.open_section up.old }
    ensures { Stepped (Guarded U.step U.ready U.names U.mode U.is_open) (setting_in room.entry) room.entry.left (λ rest. p.symbol_rules (names_under room.entry) (symbol_of item.now) whole.now rest) up.old (state_of state.old) result (state_of state.new) up.new }
{
    match symbol_of(item) {
        Some(symbol) => symbol_rules(room, state, up, whole, symbol),
        None => Ok(None),
    }
}

/// Tries the up rules of a symbol.
#[cycle(evaluate)]
fn symbol_rules<U: Upcall>(
    room: Room,
    state: &mut KernelState,
    up: &mut U,
    whole: &Expr,
    symbol: Sym,
) -> Result<Option<Expr>, Exit>
    requires { Faces U.ready U.names U.mode U.is_open (setting_in room) state.old.open_section up.old }
    ensures { Stepped (Guarded U.step U.ready U.names U.mode U.is_open) (setting_in room.entry) room.entry.left (λ rest. p.symbol_rules (names_under room.entry) (Some symbol) whole.now rest) up.old (state_of state.old) result (state_of state.new) up.new }
{
    let rules = up_start(room.scene, state, up, symbol, whole)?;
    drive(room, state, up, rules)
}

/// Tries the down rules of a head, and its row.
#[cycle(evaluate)]
fn down_steps<U: Upcall>(
    room: Room,
    state: &mut KernelState,
    up: &mut U,
    whole: &Expr,
    head: &Expr,
    items: &Exprs,
) -> Result<Option<Expr>, Exit>
    requires faces { Faces U.ready U.names U.mode U.is_open (setting_in room) state.old.open_section up.old }
    requires whole { whole.now ≡ call head.now items.now }
    ensures { Stepped (Guarded U.step U.ready U.names U.mode U.is_open) (setting_in room.entry) room.entry.left (λ rest. p.down_rules (names_under room.entry) head.now items.now whole.now rest) up.old (state_of state.old) result (state_of state.new) up.new }
{
    if accesses(room.scene, state, head) {
        return send_access(room.scene, state, up, whole);
    }
    let rules = head_start(room.scene, state, up, whole, head, items.as_slice())?;
    if let Some(value) = drive(room, state, up, rules)? {
        return Ok(Some(value));
    }
    let row = head_row_start(room.scene, state, up, whole, head, items)?;
    drive(room, state, up, row)
}

/// Performs a step that has begun, to its result or none.
#[cycle(evaluate)]
fn drive<U: Upcall>(
    room: Room,
    state: &mut KernelState,
    up: &mut U,
    start: Start,
) -> Result<Option<Expr>, Exit>
    requires faces { Faces U.ready U.names U.mode U.is_open (setting_in room) state.old.open_section up.old }
    requires comes { Comes (setting_in room) room.left (driven (names_under room) start) (state_of state.old) }
    ensures { Stepped (Guarded U.step U.ready U.names U.mode U.is_open) (setting_in room.entry) room.entry.left (driven (names_under room.entry) start) up.old (state_of state.old) result (state_of state.new) up.new }
{
    match start {
        Start::Given(value) => Ok(value),
        Start::Machine(machine) => perform(room, state, up, machine),
    }
}

/// Performs a machine, to its result or none.
#[cycle(evaluate)]
fn perform<U: Upcall>(
    room: Room,
    state: &mut KernelState,
    up: &mut U,
    machine: Machine,
) -> Result<Option<Expr>, Exit>
    requires faces { Faces U.ready U.names U.mode U.is_open (setting_in room) state.old.open_section up.old }
    requires comes { Comes (setting_in room) room.left (driven (names_under room) (Start.Machine machine)) (state_of state.old) }
    ensures { Stepped (Guarded U.step U.ready U.names U.mode U.is_open) (setting_in room.entry) room.entry.left (driven (names_under room.entry) (Start.Machine machine)) up.old (state_of state.old) result (state_of state.new) up.new }
{
    let mut frame = machine;
    let mut answer = None;
    'steps: loop {
        let next = frame.step(room.scene, &mut state.defs, &mut state.used, answer)?;
        match follow(room, state, up, next)? {
            Followed::Ends(value) => return Ok(value),
            Followed::Goes(given) => answer = given,
        }
    }
}

/// Does what a machine asks for.
#[cycle(evaluate)]
fn follow<U: Upcall>(
    room: Room,
    state: &mut KernelState,
    up: &mut U,
    next: Move,
) -> Result<Followed, Exit>
    requires faces { Faces U.ready U.names U.mode U.is_open (setting_in room) state.old.open_section up.old }
    requires comes { MayFollow (setting_in room) state.old.open_section next }
    ensures { Follows (Guarded U.step U.ready U.names U.mode U.is_open) (setting_in room.entry) room.entry.left next up.old (state_of state.old) result (state_of state.new) up.new }
{
    match next {
        Move::Ask(e, turn) => {
            count(&room.scene.limits, turn, state)?;
            let value = value_of(room, state, up, &e)?;
            Ok(Followed::Goes(Some(value)))
        }
        Move::Within(locals, e, begins) => {
            count(&room.scene.limits, begins, state)?;
            let value = value_within(room, state, up, &locals, &e)?;
            Ok(Followed::Goes(Some(value)))
        }
        Move::Catch(e) => {
            let value = caught(value_of(room, state, up, &e))?;
            Ok(Followed::Goes(Some(value)))
        }
        Move::Section(locks, e) => {
            let value = value_locked(room, state, up, locks, &e)?;
            Ok(Followed::Goes(Some(value)))
        }
        Move::Call(request) => {
            let value = outward(state, up, Want::Sends(request))?;
            Ok(Followed::Goes(Some(value)))
        }
        Move::Turn => {
            count(&room.scene.limits, true, state)?;
            Ok(Followed::Goes(None))
        }
        Move::Done(e) => Ok(Followed::Ends(Some(e))),
        Move::Stays => Ok(Followed::Ends(None)),
        Move::Throw(e) => Err(Exit::Throwing(e)),
        Move::Quit => Err(Exit::Quit),
    }
}

/// The value of an expression with locals put by, which are put back however it ends.
#[cycle(evaluate)]
fn value_within<U: Upcall>(
    room: Room,
    state: &mut KernelState,
    up: &mut U,
    locals: &Locals,
    e: &Expr,
) -> Result<Expr, Exit>
    requires { Faces U.ready U.names U.mode U.is_open (setting_in room) state.old.open_section up.old }
    ensures { Ran (Guarded U.step U.ready U.names U.mode U.is_open) (setting_in room.entry) room.entry.left (Within (locals_in locals.now) e.now) up.old (state_of state.old) result (state_of state.new) up.new }
{
    let saved = put_by(room.scene, &mut state.defs, locals)?;
    let value = value_of(room, state, up, e);
    state.defs.put_back(room.scene.names, saved);
    value
}

/// The value of an expression inside a section. Inside another section it makes no call.
#[cycle(evaluate)]
fn value_locked<U: Upcall>(
    room: Room,
    state: &mut KernelState,
    up: &mut U,
    locks: Syms,
    e: &Expr,
) -> Result<Expr, Exit>
    requires faces { Faces U.ready U.names U.mode U.is_open (setting_in room) state.old.open_section up.old }
    requires comes { state.old.open_section ≡ None → may_enter (setting_in room) locks ≡ true }
    ensures { Ran (Guarded U.step U.ready U.names U.mode U.is_open) (setting_in room.entry) room.entry.left (Section locks e.now) up.old (state_of state.old) result (state_of state.new) up.new }
{
    let Some(held) = is_held(state, &locks) else {
        return value_inside(room, state, up, locks, e);
    };
    if held {
        return value_of(room, state, up, e);
    }
    Ok(name(room.scene.names, Builtin::Failed))
}

/// The value of an expression inside a section that is entered, and left after a value, a stop or a throw.
#[cycle(evaluate)]
fn value_inside<U: Upcall>(
    room: Room,
    state: &mut KernelState,
    up: &mut U,
    locks: Syms,
    e: &Expr,
) -> Result<Expr, Exit>
    requires faces { Faces U.ready U.names U.mode U.is_open (setting_in room) state.old.open_section up.old }
    requires none { state.old.open_section ≡ None }
    requires comes { may_enter (setting_in room) locks ≡ true }
    ensures { Ran (Guarded U.step U.ready U.names U.mode U.is_open) (setting_in room.entry) room.entry.left (Section locks e.now) up.old (state_of state.old) result (state_of state.new) up.new }
{
    let sent = copied(room.scene.alloc, locks.as_slice())?;
    outward(state, up, Want::Enter(sent))?;
    state.open_section = Some(locks);
    let value = value_of(room, state, up, e);
    if !is_left(&value) {
        return value;
    }
    outward(state, up, Want::Leave)?;
    state.open_section = None;
    value
}

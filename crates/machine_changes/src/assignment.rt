//! Assignments, and Unset, whose left side is evaluated as that of an assignment.
ghost use Rattle.std.specs.Prelude.{◌≡◌, ◌+◌, Option, Some, None, length};
ghost use Rattle.expr_tree.specs.Tree.{Tree};
ghost use Rattle.semantics.specs.Changes as changes;
ghost use Rattle.semantics.specs.Program.{Prog};
ghost use Rattle.builtin_names.specs.Attributes.{attributes_in};
ghost use Rattle.builtin_names.specs.Named.{names_in};
ghost use Rattle.machine_steps.specs.Setup.{setting_of};
ghost use Rattle.machine_steps.specs.Steps.{Falls, Starts, Stepped};
ghost use Rattle.machine_changes.specs.Larger.{Replaces};
ghost use Rattle.machine_changes.specs.ChangeLeft.{left};
ghost use Rattle.machine_changes.specs.declared.assignment.Phase.{Phase};
ghost use Rattle.machine_changes.specs.declared.change.Change.{Change};
ghost use Rattle.machine_changes.specs.Assigning.{asked_in, assembled, assigned, attributes_of_head, begun, form_row, headed_by, left_assignment, left_phase, of_form, of_tag, of_tagged, reached, tag_form};

use crate::assign::{asks_right, assign_or_fail};
use crate::change::{Change, done_with};
use crate::elements::Elements;
use crate::large::unset_large;
use crate::left_call::{LeftSide, evaluated};
use crate::shapes::symbol_in;
use crate::unset::unset;
use builtin_names::{Vocabulary, name, rows_are_names};
use evaluation_steps::Halt;
use expr_tree::{Attrs, Expr, Node, Sym};
use frames_control::Stack;
use item_list::Items;
use kernel_defs::{Defs, Form};
use machine_steps::{Move, Scene};
use semantics::Builtin;
use std::alloc::{AllocError, Global};
use std::mem;

/// What becomes of a left side: a right side is assigned to it, or what it holds is taken away.
#[derive(Drop)]
pub enum Goal {
    Assign(Form, Expr),
    Unset,
}

/// How far it is: the left side as it stands; its head is asked for, and its elements are left; an element is asked for; the right
/// side is asked for, and the left side is evaluated.
#[derive(Drop)]
pub enum Phase {
    Before(Expr),
    Head(Stack),
    Items(Elements),
    Right(Form, Expr),
    Over,
}

/// An assignment, or Unset.
#[derive(Drop)]
pub struct Assignment {
    pub(crate) goal: Goal,
    pub(crate) phase: Phase,
}

/// The attributes of a head: those of a symbol, else none.
fn attrs_of_head(scene: &Scene, defs: &Defs, head: &Expr) -> Attrs
    ensures { attributes_in result ≡ attributes_of_head (names_in scene.now.names.now) defs.now head.now }
{
    match head.node() {
        Node::Symbol(symbol) => defs.attrs_of(scene.names, *symbol),
        _ => Attrs::none(),
    }
}

impl Assignment {
    /// The left side as it stands: its head is asked for, if it has one.
    #[tactic(auto, using(expr_tree::proofs::Callers::tree_steps))]
    fn begin(
        &mut self,
        scene: &Scene,
        defs: &mut Defs,
        used: &mut bool,
        left: Expr,
    ) -> Result<Move, Halt>
        ensures stepped { (stay : Prog) → Stepped (setting_of scene.now) (left_phase (names_in scene.now.names.now) self.old.goal (Phase.Before left) None) stay defs.old used.old result (left_assignment (names_in scene.now.names.now) self.new) defs.new used.new }
        ensures falls { Falls result (asked_in (Phase.Before left)) (λ answer. asked_in self.new.phase) }
    {
        match left.node() {
            Node::Normal(head, items) => {
                self.phase = Phase::Head(Stack::of(scene.alloc, items.as_slice())?);
                Ok(Move::Ask(head.copy(scene.alloc)?, false))
            }
            Node::Int(_) | Node::Str(_) | Node::Symbol(_) => self.reach(scene, defs, used, left),
        }
    }

    /// The head has its value.
    fn with_head(
        &mut self,
        scene: &Scene,
        defs: &mut Defs,
        used: &mut bool,
        head: Expr,
        items: Stack,
    ) -> Result<Move, Halt>
        ensures stepped { (stay : Prog) → Stepped (setting_of scene.now) (headed_by (names_in scene.now.names.now) head items (reached (names_in scene.now.names.now) self.old.goal)) stay defs.old used.old result (left_assignment (names_in scene.now.names.now) self.new) defs.new used.new }
        ensures falls { Falls result (length items + 2) (λ answer. asked_in self.new.phase) }
    {
        let attrs = attrs_of_head(scene, defs, &head);
        let mut elements = Elements {
            head,
            attrs,
            rest: items,
            done: Items::new(scene.alloc),
        };
        match elements.first(scene.names)? {
            Some(item) => {
                self.phase = Phase::Items(elements);
                Ok(Move::Ask(item, false))
            }
            None => self.assemble(scene, defs, used, elements),
        }
    }

    /// The element that was asked for has its value.
    fn with_item(
        &mut self,
        scene: &Scene,
        defs: &mut Defs,
        used: &mut bool,
        mut elements: Elements,
        value: Expr,
    ) -> Result<Move, Halt>
        ensures stepped { (stay : Prog) → Stepped (setting_of scene.now) (left_phase (names_in scene.now.names.now) self.old.goal (Phase.Items elements) (Some value)) stay defs.old used.old result (left_assignment (names_in scene.now.names.now) self.new) defs.new used.new }
        ensures falls { Falls result (asked_in (Phase.Items elements)) (λ answer. asked_in self.new.phase) }
    {
        elements.done.push(value)?;
        match elements.next(scene.names)? {
            Some(item) => {
                self.phase = Phase::Items(elements);
                Ok(Move::Ask(item, false))
            }
            None => self.assemble(scene, defs, used, elements),
        }
    }

    /// The elements have their values.
    fn assemble(
        &mut self,
        scene: &Scene,
        defs: &mut Defs,
        used: &mut bool,
        elements: Elements,
    ) -> Result<Move, Halt>
        ensures stepped { (stay : Prog) → Stepped (setting_of scene.now) (assembled (names_in scene.now.names.now) elements.head (attributes_in elements.attrs) (reached (names_in scene.now.names.now) self.old.goal) elements.done) stay defs.old used.old result (left_assignment (names_in scene.now.names.now) self.new) defs.new used.new }
        ensures falls { Falls result 1 (λ answer. asked_in self.new.phase) }
    {
        match evaluated(scene, elements) {
            Err(halt) => Err(halt),
            Ok(LeftSide::Whole(left)) => self.reach(scene, defs, used, left),
            Ok(LeftSide::Large(list)) => self.reach_large(scene, defs, used, list),
        }
    }

    /// The left side is evaluated.
    fn reach(
        &mut self,
        scene: &Scene,
        defs: &mut Defs,
        used: &mut bool,
        left: Expr,
    ) -> Result<Move, Halt>
        ensures stepped { (stay : Prog) → Stepped (setting_of scene.now) (reached (names_in scene.now.names.now) self.old.goal left) stay defs.old used.old result (left_assignment (names_in scene.now.names.now) self.new) defs.new used.new }
        ensures falls { Falls result 1 (λ answer. asked_in self.new.phase) }
    {
        match &self.goal {
            Goal::Assign(form, right) => {
                let form = *form;
                let right = right.copy(scene.alloc)?;
                self.assign(scene, defs, used, form, left, right)
            }
            Goal::Unset => done_with(unset(scene, defs, used, &left)),
        }
    }

    /// The left side is evaluated, and is a List larger or deeper than any expression, in whose place this one stands.
    fn reach_large(
        &mut self,
        scene: &Scene,
        defs: &mut Defs,
        used: &mut bool,
        list: Expr,
    ) -> Result<Move, Halt>
        ensures stepped { (l : Tree) → Replaces (names_in scene.now.names.now) list l → (stay : Prog) → Stepped (setting_of scene.now) (reached (names_in scene.now.names.now) self.old.goal l) stay defs.old used.old result (left_assignment (names_in scene.now.names.now) self.new) defs.new used.new }
        ensures falls { Falls result 1 (λ answer. asked_in self.new.phase) }
    {
        rows_are_names(scene.names);
        match &self.goal {
            Goal::Assign(_, _) => self.reach(scene, defs, used, list),
            Goal::Unset => done_with(unset_large(scene, defs, used, &list)),
        }
    }

    /// The left side of an assignment is evaluated.
    fn assign(
        &mut self,
        scene: &Scene,
        defs: &mut Defs,
        used: &mut bool,
        form: Form,
        left: Expr,
        right: Expr,
    ) -> Result<Move, Halt>
        ensures stepped { (stay : Prog) → Stepped (setting_of scene.now) (begun (names_in scene.now.names.now) form right left) stay defs.old used.old result (left_assignment (names_in scene.now.names.now) self.new) defs.new used.new }
        ensures falls { Falls result 1 (λ answer. asked_in self.new.phase) }
    {
        if asks_right(form) {
            self.phase = Phase::Right(form, left);
            return Ok(Move::Ask(right, false));
        }
        done_with(assign_or_fail(scene, defs, used, form, &left, right))
    }

    pub(crate) fn step(
        &mut self,
        scene: &Scene,
        defs: &mut Defs,
        used: &mut bool,
        answer: Option<Expr>,
    ) -> Result<Move, Halt>
        ensures stepped { (stay : Prog) → Stepped (setting_of scene.now) (left_assignment (names_in scene.now.names.now) self.old answer) stay defs.old used.old result (left_assignment (names_in scene.now.names.now) self.new) defs.new used.new }
        ensures falls { Falls result (asked_in self.old.phase) (λ answer. asked_in self.new.phase) }
    {
        match mem::replace(&mut self.phase, Phase::Over) {
            Phase::Before(left) => self.begin(scene, defs, used, left),
            Phase::Head(items) => match answer {
                Some(head) => self.with_head(scene, defs, used, head, items),
                None => Ok(Move::Done(name(scene.names, Builtin::Null))),
            },
            Phase::Items(elements) => match answer {
                Some(value) => self.with_item(scene, defs, used, elements, value),
                None => Ok(Move::Done(name(scene.names, Builtin::Null))),
            },
            Phase::Right(form, left) => match answer {
                Some(value) => with_right(scene, defs, used, form, left, value),
                None => Ok(Move::Done(name(scene.names, Builtin::Null))),
            },
            Phase::Over => Ok(Move::Done(name(scene.names, Builtin::Null))),
        }
    }
}

/// The right side of an assignment has its value.
fn with_right(
    scene: &Scene,
    defs: &mut Defs,
    used: &mut bool,
    form: Form,
    left: Expr,
    value: Expr,
) -> Result<Move, Halt>
    ensures stepped { (stay : Prog) (rest : Option Tree → Prog) → Stepped (setting_of scene.now) (assigned (names_in scene.now.names.now) form value left) stay defs.old used.old result rest defs.new used.new }
    ensures falls { Falls result 0 (λ answer. 0) }
{
    done_with(assign_or_fail(scene, defs, used, form, &left, value))
}

fn begun_with(goal: Goal, left: Expr) -> Change
    ensures { result ≡ Change.Assignment (record { goal = goal; phase = Phase.Before left }) }
{
    Change::Assignment(Assignment {
        goal,
        phase: Phase::Before(left),
    })
}

/// The machine of an assignment with a left side and a right side.
fn of_sides(
    alloc: Global,
    names: &Vocabulary,
    form: Form,
    items: &[Expr],
) -> Result<Option<Change>, AllocError>
    ensures { Starts (left (names_in names.now)) (λ stay. of_form (names_in names.now) form stay items.now) result }
{
    let [first, second] = items else {
        return Ok(None);
    };
    let right = second.copy(alloc)?;
    Ok(Some(begun_with(Goal::Assign(form, right), first.copy(alloc)?)))
}

/// The form of an assignment with this tag.
fn tag_form(delayed: bool, tag: Sym) -> Form
    ensures { result ≡ tag_form delayed tag }
{
    if delayed {
        Form::TagSetDelayed(tag)
    } else {
        Form::TagSet(tag)
    }
}

/// The machine of an assignment with a tag, a left side and a right side.
fn of_tagged(
    alloc: Global,
    names: &Vocabulary,
    delayed: bool,
    items: &[Expr],
) -> Result<Option<Change>, AllocError>
    ensures { Starts (left (names_in names.now)) (λ stay. of_tagged (names_in names.now) delayed stay items.now) result }
{
    let [tag, first, second] = items else {
        return Ok(None);
    };
    match symbol_in(tag) {
        None => Ok(None),
        Some(symbol) => {
            let form = tag_form(delayed, symbol);
            let right = second.copy(alloc)?;
            Ok(Some(begun_with(Goal::Assign(form, right), first.copy(alloc)?)))
        }
    }
}

/// The machine of one of the forms without a tag.
pub(crate) fn of_form(
    alloc: Global,
    names: &Vocabulary,
    form: Form,
    items: &[Expr],
) -> Result<Option<Change>, AllocError>
    ensures { Starts (left (names_in names.now)) (λ stay. form_row (names_in names.now) form stay items.now) result }
{
    of_sides(alloc, names, form, items)
}

/// The machine of an assignment with a tag, delayed or not.
pub(crate) fn of_tag(
    alloc: Global,
    names: &Vocabulary,
    delayed: bool,
    items: &[Expr],
) -> Result<Option<Change>, AllocError>
    ensures { Starts (left (names_in names.now)) (λ stay. of_tag (names_in names.now) delayed stay items.now) result }
{
    of_tagged(alloc, names, delayed, items)
}

/// The machine of Unset.
pub(crate) fn of_unset(
    alloc: Global,
    names: &Vocabulary,
    items: &[Expr],
) -> Result<Option<Change>, AllocError>
    ensures { Starts (left (names_in names.now)) (λ stay. changes.unset (names_in names.now) stay items.now) result }
{
    let [only] = items else {
        return Ok(None);
    };
    Ok(Some(begun_with(Goal::Unset, only.copy(alloc)?)))
}

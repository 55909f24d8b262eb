//! The machine of Do, Table and Sum.
ghost use Rattle.std.specs.Prelude.{◌≡◌, ℕ, Bool, None, [], length, IfSome, is_some};
ghost use Rattle.semantics.specs.Definitions as d;
ghost use Rattle.semantics.specs.Program.{Prog};
ghost use Rattle.semantics.specs.Control.{iterated};
ghost use Rattle.semantics.specs.Table.{row as row_program};
ghost use Rattle.builtin_names.specs.Named.{names_in};
ghost use Rattle.machine_steps.specs.Setup.{setting_of};
ghost use Rattle.machine_steps.specs.Steps.{Stepped, Starts, Falls};
ghost use Rattle.row_kinds.specs.Kinds.{is_iteration};
ghost use Rattle.machine_iterators.specs.IterationForms.{row_of, finish};
ghost use Rattle.machine_iterators.specs.IterationLeft.{left, left_at, left_turns, questions, questions_at, values_in};
ghost use Rattle.machine_iterators.specs.IteratorShapes.{IsShape};

use crate::body::{Body, IterationForm, inner_form};
use crate::iterator_values::IteratorValues;
use crate::parts::{Found, Known, Parts};
use crate::turns::Turns;
use builtin_names::{Vocabulary, items_under};
use evaluation_steps::Halt;
use expr_tree::{Expr, Node, Sym};
use frames_control::Stack;
use kernel_defs::Defs;
use machine_steps::{Move, Scene};
use semantics::Builtin;
use std::alloc::{AllocError, Global};

/// Whether the parts of the iterator are asked for, or the body.
#[derive(Drop)]
pub enum State {
    Asking(Parts),
    Turns(Turns),
}

/// A form with an iterator that is being evaluated.
#[derive(Drop)]
pub struct Iteration {
    body: Body,
    state: State,
}

/// The parts of an iterator that are evaluated, behind its symbol.
#[derive(Clone, Copy)]
struct Shape<'a> {
    symbol: Option<Sym>,
    parts: &'a [Expr],
}

impl State {
    fn take_turns(
        &mut self,
        scene: &Scene,
        body: &Body,
        values: IteratorValues,
    ) -> Result<Move, Halt>
        ensures stepped { (stay : Prog) (d : d.Definitions) (used : Bool) → Stepped (setting_of scene.now) (left_turns (names_in scene.now.names.now) body.now (record { values = values; done = [] }) None) stay d used result (left_at (names_in scene.now.names.now) body.now self.new stay) d used }
        ensures falls { Falls result (length (values_in values)) (λ _. questions_at self.new) }
    {
        let mut turns = Turns {
            values,
            done: Stack::new(scene.alloc),
        };
        let next = turns.step(scene, body, None);
        *self = State::Turns(turns);
        next
    }

    fn step(
        &mut self,
        scene: &Scene,
        body: &Body,
        defs: &Defs,
        used: &mut bool,
        answer: Option<Expr>,
    ) -> Result<Move, Halt>
        ensures stepped { (stay : Prog) → Stepped (setting_of scene.now) (left_at (names_in scene.now.names.now) body.now self.old stay answer) stay defs.now used.old result (left_at (names_in scene.now.names.now) body.now self.new stay) defs.now used.new }
        ensures falls { Falls result (questions_at self.old) (λ _. questions_at self.new) }
    {
        match self {
            State::Turns(turns) => turns.step(scene, body, answer),
            State::Asking(parts) => match answer {
                None => Ok(parts.open(scene, body, defs, used)),
                Some(value) => match parts.take(scene, body, value)? {
                    Found::Moves(next) => Ok(next),
                    Found::Values(values) => self.take_turns(scene, body, values),
                },
            },
        }
    }
}

fn shape_of(items: &[Expr]) -> Option<Shape<'_>>
    ensures { IsShape items.now result }
{
    if items.len() == 1 {
        return Some(Shape {
            symbol: None,
            parts: items,
        });
    }
    if items.is_empty() || 4 < items.len() {
        return None;
    }
    match items[0].node() {
        Node::Symbol(symbol) => Some(Shape {
            symbol: Some(*symbol),
            parts: &items[1..],
        }),
        _ => None,
    }
}

impl Iteration {
    fn start(
        alloc: Global,
        names: &Vocabulary,
        form: IterationForm,
        items: &[Expr],
    ) -> Result<Option<Iteration>, AllocError>
        ensures { Starts (left (names_in names.now)) (λ stay. iterated (names_in names.now) (row_of form) (finish (names_in names.now) form) stay items.now) result }
    {
        let [body, iterator, more @ ..] = items else {
            return Ok(None);
        };
        let Some(list) = items_under(names, Builtin::List, iterator) else {
            return Ok(None);
        };
        let Some(shape) = shape_of(list.as_slice()) else {
            return Ok(None);
        };
        let rest = Stack::of(alloc, shape.parts)?;
        let expression = inner_form(alloc, names, form, body, more)?;
        Ok(Some(Iteration {
            body: Body {
                form,
                symbol: shape.symbol,
                expression,
            },
            state: State::Asking(Parts {
                known: Known::Nothing,
                rest,
            }),
        }))
    }

    /// The next question, or the result. The answer is that to the question before.
    pub fn step(
        &mut self,
        scene: &Scene,
        defs: &mut Defs,
        used: &mut bool,
        answer: Option<Expr>,
    ) -> Result<Move, Halt>
        ensures stepped { (stay : Prog) → Stepped (setting_of scene.now) (left (names_in scene.now.names.now) self.old stay answer) stay defs.old used.old result (left (names_in scene.now.names.now) self.new stay) defs.new used.new }
        ensures falls { Falls result (questions self.old) (λ _. questions self.new) }
    {
        self.state.step(scene, &self.body, defs, used, answer)
    }
}

/// The machine of a form with an iterator, or that it stays as it is. `None` for a row that is none of these.
#[tactic(auto, unfolding(semantics::specs::Table::row))]
pub fn start(
    alloc: Global,
    names: &Vocabulary,
    row: Builtin,
    items: &[Expr],
) -> Option<Result<Option<Iteration>, AllocError>>
    ensures known { is_some result ≡ is_iteration row }
    ensures starts { IfSome result (λ r. Starts (left (names_in names.now)) (λ stay. row_program (names_in names.now) row stay items.now) r) }
{
    match row {
        Builtin::Do => Some(Iteration::start(alloc, names, IterationForm::Do, items)),
        Builtin::Table => Some(Iteration::start(alloc, names, IterationForm::Table, items)),
        Builtin::Sum => Some(Iteration::start(alloc, names, IterationForm::Sum, items)),
        _ => None,
    }
}

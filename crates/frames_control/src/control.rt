//! The control forms as one machine.
ghost use Rattle.std.specs.Prelude.{◌<◌};
ghost use Rattle.semantics.specs.Program.{Prog};
ghost use Rattle.semantics.specs.Table as t;
ghost use Rattle.evaluation_steps.specs.Moves.{Moved};
ghost use Rattle.evaluation_steps.specs.Stopping.{AreBounded};
ghost use Rattle.builtin_names.specs.Named.{names_in};
ghost use Rattle.frames_control.specs.ControlMoves.{moving, IfAsks, Starts};
ghost use Rattle.frames_control.specs.ControlLeft.{left, questions, row_for};

use crate::choice::Chosen;
use crate::connected::{Connected, Connective};
use crate::fixed_point::FixedPoint;
use crate::fold::Fold;
use crate::fold_list::FoldList;
use crate::in_turn::InTurn;
use crate::moves::ControlMove;
use crate::nest::Nest;
use crate::nest_list::NestList;
use crate::select::Select;
use crate::which::Which;
use crate::while_loop::While;
use builtin_names::Vocabulary;
use evaluation_steps::Halt;
use expr_tree::{Expr, Limits};
use std::alloc::{AllocError, Global};

/// The control forms.
#[derive(Clone, Copy, Debug, PartialEq, Eq)]
pub enum ControlForm {
    CompoundExpression,
    If,
    Which,
    And,
    Or,
    While,
    Nest,
    NestList,
    Fold,
    FoldList,
    FixedPoint,
    Select,
}

/// A control form that is being evaluated.
#[derive(Drop)]
pub enum Control {
    InTurn(InTurn),
    Chosen(Chosen),
    Which(Which),
    Connected(Connected),
    While(While),
    Nest(Nest),
    NestList(NestList),
    Fold(Fold),
    FoldList(FoldList),
    FixedPoint(FixedPoint),
    Select(Select),
}

impl Control {
    /// The machine of a form, or `None` where the form stays as it is.
    pub fn start(
        alloc: Global,
        names: &Vocabulary,
        form: ControlForm,
        items: &[Expr],
    ) -> Result<Option<Control>, AllocError>
        ensures { (stay : Prog) → Starts (left (names_in names.now)) (t.row (names_in names.now) (row_for form) stay items.now) stay result }
    {
        match form {
            ControlForm::CompoundExpression => InTurn::start(alloc, names, items),
            ControlForm::If => Chosen::start(alloc, names, items),
            ControlForm::Which => Which::start(alloc, names, items),
            ControlForm::And => Connected::start(alloc, names, Connective::And, items),
            ControlForm::Or => Connected::start(alloc, names, Connective::Or, items),
            ControlForm::While => While::start(alloc, names, items),
            ControlForm::Nest => Nest::start(alloc, names, items),
            ControlForm::NestList => NestList::start(alloc, names, items),
            ControlForm::Fold => Fold::start(alloc, names, items),
            ControlForm::FoldList => FoldList::start(alloc, names, items),
            ControlForm::FixedPoint => FixedPoint::start(alloc, names, items),
            ControlForm::Select => Select::start(alloc, names, items),
        }
    }

    /// Goes on with the answer to its question, or from the start. The answer is given exactly after an `Ask` or a `Local`.
    pub fn step(
        &mut self,
        alloc: Global,
        names: &Vocabulary,
        limits: &Limits,
        answer: Option<Expr>,
    ) -> Result<ControlMove, Halt>
        requires bounded { AreBounded limits.now }
        ensures moved { Moved limits.now (left (names_in names.now) self.old answer) (moving result) (left (names_in names.now) self.new) }
        ensures falls { IfAsks result (questions self.new < questions self.old) }
    {
        match self {
            Control::InTurn(form) => form.step(names, limits, answer),
            Control::Chosen(form) => form.step(alloc, limits, answer),
            Control::Which(form) => form.step(alloc, names, limits, answer),
            Control::Connected(form) => form.step(alloc, names, limits, answer),
            Control::While(form) => form.step(alloc, names, limits, answer),
            Control::Nest(form) => form.step(alloc, limits, answer),
            Control::NestList(form) => form.step(alloc, names, limits, answer),
            Control::Fold(form) => form.step(alloc, limits, answer),
            Control::FoldList(form) => form.step(alloc, limits, answer),
            Control::FixedPoint(form) => form.step(alloc, limits, answer),
            Control::Select(form) => form.step(alloc, names, limits, answer),
        }
    }
}

//! All of these rows as one machine.
ghost use Rattle.std.specs.Prelude.{◌≡◌, IfSome, is_some};
ghost use Rattle.semantics.specs.Program.{Prog};
ghost use Rattle.semantics.specs.Table as t;
ghost use Rattle.builtin_names.specs.Named.{names_in};
ghost use Rattle.machine_steps.specs.Setup.{setting_of};
ghost use Rattle.machine_steps.specs.Steps.{Falls, Starts, Stepped};
ghost use Rattle.row_kinds.specs.Kinds.{is_change};
ghost use Rattle.machine_changes.specs.ChangeLeft.{left, questions};
ghost use Rattle.machine_changes.specs.Results.{done_with};

use crate::assignment::{Assignment, of_form, of_tag, of_unset};
use crate::renewal::{Renewal, of_integer, of_negated, of_operand};
use crate::single::{Deed, Single, of_attributes, of_symbol};
use builtin_names::Vocabulary;
use evaluation_steps::Halt;
use expr_tree::Expr;
use kernel_defs::{Defs, Form};
use machine_steps::{Move, Scene};
use semantics::Builtin;
use std::alloc::{AllocError, Global};

/// A row that changes definitions and is being evaluated.
#[derive(Drop)]
pub enum Change {
    Single(Single),
    Renewal(Renewal),
    Assignment(Assignment),
}

impl Change {
    /// The machine of a row, or `None` where the expression stays as it is; of a row that is none of these, nothing.
    #[tactic(auto, unfolding(semantics::specs::Table::row))]
    pub fn start(
        alloc: Global,
        names: &Vocabulary,
        row: Builtin,
        items: &[Expr],
    ) -> Option<Result<Option<Change>, AllocError>>
        ensures known { is_some result ≡ is_change row }
        ensures starts { IfSome result (λ r. Starts (left (names_in names.now)) (λ stay. t.row (names_in names.now) row stay items.now) r) }
    {
        match row {
            Builtin::Set => Some(of_form(alloc, names, Form::Set, items)),
            Builtin::SetDelayed => Some(of_form(alloc, names, Form::SetDelayed, items)),
            Builtin::UpSet => Some(of_form(alloc, names, Form::UpSet, items)),
            Builtin::UpSetDelayed => Some(of_form(alloc, names, Form::UpSetDelayed, items)),
            Builtin::TagSet => Some(of_tag(alloc, names, false, items)),
            Builtin::TagSetDelayed => Some(of_tag(alloc, names, true, items)),
            Builtin::Unset => Some(of_unset(alloc, names, items)),
            Builtin::Increment => Some(of_integer(names, 1, true, items)),
            Builtin::Decrement => Some(of_integer(names, -1, true, items)),
            Builtin::PreIncrement => Some(of_integer(names, 1, false, items)),
            Builtin::PreDecrement => Some(of_integer(names, -1, false, items)),
            Builtin::AddTo => Some(of_operand(alloc, names, Builtin::Plus, items)),
            Builtin::SubtractFrom => Some(of_negated(alloc, names, items)),
            Builtin::TimesBy => Some(of_operand(alloc, names, Builtin::Times, items)),
            Builtin::AppendTo => Some(of_operand(alloc, names, Builtin::Append, items)),
            Builtin::PrependTo => Some(of_operand(alloc, names, Builtin::Prepend, items)),
            Builtin::Clear => Some(of_symbol(names, Deed::Clear, items)),
            Builtin::ClearAll => Some(of_symbol(names, Deed::ClearAll, items)),
            Builtin::SetAttributes => Some(of_attributes(alloc, names, true, items)),
            Builtin::ClearAttributes => Some(of_attributes(alloc, names, false, items)),
            Builtin::Attributes => Some(of_symbol(names, Deed::Tell, items)),
            Builtin::Protect => Some(of_symbol(names, Deed::Protect, items)),
            Builtin::Unprotect => Some(of_symbol(names, Deed::Unprotect, items)),
            _ => None,
        }
    }

    /// Goes on with the answer to its question, or from the start.
    pub fn step(
        &mut self,
        scene: &Scene,
        defs: &mut Defs,
        used: &mut bool,
        answer: Option<Expr>,
    ) -> Result<Move, Halt>
        ensures stepped { (stay : Prog) → Stepped (setting_of scene.now) (left (names_in scene.now.names.now) self.old stay answer) stay defs.old used.old result (left (names_in scene.now.names.now) self.new stay) defs.new used.new }
        ensures falls { Falls result (questions (names_in scene.now.names.now) self.old answer) (questions (names_in scene.now.names.now) self.new) }
    {
        match self {
            Change::Single(row) => done_with(row.step(scene, defs, used)),
            Change::Renewal(row) => row.step(scene, defs, used, answer),
            Change::Assignment(row) => row.step(scene, defs, used, answer),
        }
    }
}

/// A value is the result.
pub(crate) fn done_with(ended: Result<Expr, Halt>) -> Result<Move, Halt>
    ensures moves { result ≡ done_with ended }
    ensures falls { Falls result 0 (λ answer. 0) }
{
    match ended {
        Ok(value) => Ok(Move::Done(value)),
        Err(halt) => Err(halt),
    }
}

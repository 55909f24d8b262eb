//! The machines as one.
ghost use Rattle.std.specs.Prelude.{◌≡◌, IfOk, IfSome, is_some, None};
ghost use Rattle.semantics.specs.Attempt.{try_rules};
ghost use Rattle.semantics.specs.Names as n;
ghost use Rattle.semantics.specs.Program.{Prog, Done};
ghost use Rattle.semantics.specs.Table as t;
ghost use Rattle.builtin_names.specs.Named.{names_in};
ghost use Rattle.machine_steps.specs.Setup.{setting_of};
ghost use Rattle.machine_steps.specs.Steps.{Falls, Starts, StartsWhere, Stepped};
ghost use Rattle.machine_outward.specs.Placing.{names_at};
ghost use Rattle.row_kinds.specs.Kinds.{has_form, has_machine, is_outward};
ghost use Rattle.machine_rows.specs.Machines.{left, questions};

use crate::block_row::BlockRow;
use crate::control_row::{start_control, step_control};
use crate::module_row::ModuleRow;
use crate::other_rows::{change_machine, iteration_machine, outward_machine, rule_machine};
use crate::rule_trial::step_rules;
use crate::with_row::{start_with, step_with};
use builtin_names::Vocabulary;
use evaluation_steps::Halt;
use expr_tree::Expr;
use frames_control::{Control, ControlForm};
use frames_scope::With;
use kernel_defs::Defs;
use machine_changes::Change;
use machine_iterators::Iteration;
use machine_outward::{Form, OutwardRow, Place};
use machine_rules::RuleRow;
use machine_steps::{Move, Scene};
use rule_frames::Attempt;
use rule_store::Rules;
use semantics::Builtin;
use std::alloc::{AllocError, Global};

/// A row of the built-in table that is being evaluated, or a list of rules that is tried on an expression.
#[derive(Drop)]
pub enum Machine {
    Control(Control),
    Module(ModuleRow),
    Block(BlockRow),
    With(With),
    Rules(Attempt),
    Iteration(Iteration),
    Change(Change),
    RuleRow(RuleRow),
    Outward(OutwardRow),
}

/// The machine of a control form or of a scoping form.
fn start_form(
    alloc: Global,
    names: &Vocabulary,
    row: Builtin,
    items: &[Expr],
) -> Option<Result<Option<Machine>, AllocError>>
    ensures known { is_some result ≡ has_form row }
    ensures starts { IfSome result (λ r. Starts (left (names_in names.now)) (λ stay. t.row (names_in names.now) row stay items.now) r) }
{
    match row {
        Builtin::CompoundExpression => {
            Some(start_control(alloc, names, ControlForm::CompoundExpression, items))
        }
        Builtin::If => Some(start_control(alloc, names, ControlForm::If, items)),
        Builtin::Which => Some(start_control(alloc, names, ControlForm::Which, items)),
        Builtin::And => Some(start_control(alloc, names, ControlForm::And, items)),
        Builtin::Or => Some(start_control(alloc, names, ControlForm::Or, items)),
        Builtin::While => Some(start_control(alloc, names, ControlForm::While, items)),
        Builtin::Nest => Some(start_control(alloc, names, ControlForm::Nest, items)),
        Builtin::NestList => Some(start_control(alloc, names, ControlForm::NestList, items)),
        Builtin::Fold => Some(start_control(alloc, names, ControlForm::Fold, items)),
        Builtin::FoldList => Some(start_control(alloc, names, ControlForm::FoldList, items)),
        Builtin::FixedPoint => Some(start_control(alloc, names, ControlForm::FixedPoint, items)),
        Builtin::Select => Some(start_control(alloc, names, ControlForm::Select, items)),
        Builtin::Module => Some(ModuleRow::start(alloc, names, items)),
        Builtin::Block => Some(BlockRow::start(alloc, names, items)),
        Builtin::With => Some(start_with(alloc, names, items)),
        _ => None,
    }
}

impl Machine {
    /// The machine of a row, or `None` inside where the expression stays as it is. `None` for a row that has no machine.
    pub fn start(
        alloc: Global,
        names: &Vocabulary,
        row: Builtin,
        items: &[Expr],
    ) -> Option<Result<Option<Machine>, AllocError>>
        ensures known { is_some result ≡ has_machine row }
        ensures starts { IfSome result (λ r. Starts (left (names_in names.now)) (λ stay. t.row (names_in names.now) row stay items.now) r) }
    {
        if let Some(started) = start_form(alloc, names, row, items) {
            return Some(started);
        }
        if let Some(started) = Change::start(alloc, names, row, items) {
            return Some(change_machine(started));
        }
        if let Some(started) = machine_iterators::start(alloc, names, row, items) {
            return Some(iteration_machine(started));
        }
        match machine_rules::start(alloc, names, row, items) {
            Some(started) => Some(rule_machine(started)),
            None => None,
        }
    }

    /// The machine of a row that throws, catches or is one of the mode table, where it is evaluated. `None` for any other row.
    pub fn start_at(
        place: &Place,
        used: &mut bool,
        row: Builtin,
        form: &Form,
    ) -> Option<Result<Option<Machine>, AllocError>>
        requires { form.now.whole.now ≡ n.make (names_at place.now) row form.now.items.now }
        ensures known { is_some result ≡ is_outward row }
        ensures starts { IfSome result (λ r. StartsWhere (setting_of place.now.scene.now) (left (names_at place.now)) (λ stay. t.row (names_at place.now) row stay form.now.items.now) place.now.is_open used.old r used.new) }
    {
        match machine_outward::start(place, used, row, form) {
            Some(started) => Some(outward_machine(started)),
            None => None,
        }
    }

    /// The trial of some rules on an expression, which stays where none applies. Rules that are added later are not seen.
    pub fn of_rules(alloc: Global, rules: &Rules, e: &Expr) -> Result<Machine, AllocError>
        ensures { IfOk result (λ f. (names : n.Names) (stay : Prog) → left names f stay None ≡ try_rules names rules.now e.now Done stay) }
    {
        Ok(Machine::Rules(Attempt::start(alloc, rules, e)?))
    }

    /// Goes on with the answer to its question, or from the start. The answer is given exactly after an `Ask` or a `Within`.
    pub fn step(
        &mut self,
        scene: &Scene,
        defs: &mut Defs,
        used: &mut bool,
        answer: Option<Expr>,
    ) -> Result<Move, Halt>
        ensures stepped { (stay : Prog) → Stepped (setting_of scene.now) (left (names_in scene.now.names.now) self.old stay answer) stay defs.old used.old result (left (names_in scene.now.names.now) self.new stay) defs.new used.new }
        ensures falls { Falls result (questions (names_in scene.now.names.now) self.old answer) (questions (names_in scene.now.names.now) self.new) }
    {
        match self {
            Machine::Control(form) => step_control(form, scene, defs, used, answer),
            Machine::Module(form) => form.step(scene, defs, answer),
            Machine::Block(form) => form.step(scene, defs, used, answer),
            Machine::With(form) => step_with(form, scene, defs, answer),
            Machine::Rules(attempt) => step_rules(attempt, scene, defs, answer),
            Machine::Iteration(form) => form.step(scene, defs, used, answer),
            Machine::Change(row) => row.step(scene, defs, used, answer),
            Machine::RuleRow(row) => row.step(scene, defs, used, answer),
            Machine::Outward(row) => row.step(scene, defs, used, answer),
        }
    }
}

//! Module over the definitions.
ghost use Rattle.std.specs.Prelude.{◌≡◌, Bool, IfOk, None};
ghost use Rattle.semantics.specs.Names as n;
ghost use Rattle.semantics.specs.Program.{Prog};
ghost use Rattle.semantics.specs.declared.builtin.Builtin as b;
ghost use Rattle.semantics.specs.Table as t;
ghost use Rattle.builtin_names.specs.Named.{names_in};
ghost use Rattle.machine_steps.specs.Setup.{setting_of};
ghost use Rattle.machine_steps.specs.Steps.{Falls, Starts, Stepped};
ghost use Rattle.frames_scope.specs.ScopingLeft as left;
ghost use Rattle.frames_scope.specs.Reading.{locals_in};
ghost use Rattle.machine_rows.specs.Machines as f;
ghost use Rattle.machine_rows.specs.RowsLeft.{left_module, numbered_form};
ghost use Rattle.machine_rows.specs.Asking.{asks};

use crate::machine::Machine;
use crate::scoped::scope_move;
use builtin_names::Vocabulary;
use evaluation_steps::Halt;
use expr_tree::{Expr, Stop};
use frames_scope::{Module, Scope, module_scope};
use item_list::Items;
use kernel_defs::Defs;
use machine_steps::{Move, Scene};
use std::alloc::{AllocError, Global};
use std::mem;

/// A Module that takes its number at the first step, or has taken it.
#[derive(Drop)]
pub enum ModuleRow {
    Unnumbered(Scope),
    Numbered(Module),
}

/// A Module with this number.
fn numbered(alloc: Global, scope: &mut Scope, number: u64) -> Result<Module, AllocError>
    ensures { (names : n.Names) → IfOk result (λ m. left.left_module names m None ≡ numbered_form names number (locals_in scope.old.locals) scope.old.body) }
{
    let locals = mem::replace(&mut scope.locals, Items::new(alloc));
    let body = scope.body.copy(alloc)?;
    Ok(Module::start(alloc, Scope { locals, body }, number))
}

fn step_module(
    form: &mut Module,
    scene: &Scene,
    defs: &mut Defs,
    answer: Option<Expr>,
) -> Result<Move, Halt>
    ensures stepped { (stay : Prog) (used : Bool) → Stepped (setting_of scene.now) (left.left_module (names_in scene.now.names.now) form.old answer) stay defs.old used result (left.left_module (names_in scene.now.names.now) form.new) defs.new used }
    ensures falls { Falls result (asks (left.left_module (names_in scene.now.names.now) form.old answer)) (λ v. asks (left.left_module (names_in scene.now.names.now) form.new v)) }
{
    let moved = form.step(scene.alloc, answer);
    scope_move(scene, defs, moved)
}

impl ModuleRow {
    /// A Module before its first step.
    pub(crate) fn start(
        alloc: Global,
        names: &Vocabulary,
        items: &[Expr],
    ) -> Result<Option<Machine>, AllocError>
        ensures { Starts (f.left (names_in names.now)) (λ stay. t.row (names_in names.now) b.Builtin.Module stay items.now) result }
    {
        let read = module_scope(alloc, names, items)?;
        match read {
            Some(scope) => Ok(Some(Machine::Module(ModuleRow::Unnumbered(scope)))),
            None => Ok(None),
        }
    }

    /// Takes the number, if it has none, and goes on with the values.
    pub(crate) fn step(
        &mut self,
        scene: &Scene,
        defs: &mut Defs,
        answer: Option<Expr>,
    ) -> Result<Move, Halt>
        ensures stepped { (stay : Prog) (used : Bool) → Stepped (setting_of scene.now) (left_module (names_in scene.now.names.now) self.old answer) stay defs.old used result (left_module (names_in scene.now.names.now) self.new) defs.new used }
        ensures falls { Falls result (asks (left_module (names_in scene.now.names.now) self.old answer)) (λ v. asks (left_module (names_in scene.now.names.now) self.new v)) }
    {
        match self {
            ModuleRow::Unnumbered(scope) => {
                let Some(number) = defs.next_module() else {
                    return Err(Halt::Stopped(Stop::Range));
                };
                let mut form = numbered(scene.alloc, scope, number)?;
                let result = step_module(&mut form, scene, defs, None);
                *self = ModuleRow::Numbered(form);
                result
            }
            ModuleRow::Numbered(form) => step_module(form, scene, defs, answer),
        }
    }
}

//! Block over the definitions.
ghost use Rattle.std.specs.Prelude.{◌≡◌, [], Bool, IfOk, None};
ghost use Rattle.semantics.specs.Names as n;
ghost use Rattle.semantics.specs.Program.{Prog, Done, Within};
ghost use Rattle.semantics.specs.Scoping.{ask_values, symbols_of};
ghost use Rattle.semantics.specs.Table as t;
ghost use Rattle.semantics.specs.declared.builtin.Builtin as b;
ghost use Rattle.builtin_names.specs.Named.{names_in};
ghost use Rattle.machine_steps.specs.Setup.{setting_of};
ghost use Rattle.machine_steps.specs.Steps.{Falls, Starts, Stepped};
ghost use Rattle.frames_scope.specs.ScopingLeft as left;
ghost use Rattle.frames_scope.specs.Reading.{locals_in};
ghost use Rattle.machine_rows.specs.Asking.{asks};
ghost use Rattle.machine_rows.specs.Machines as f;
ghost use Rattle.machine_rows.specs.StepResults.{any_shared};
ghost use Rattle.machine_rows.specs.RowsLeft.{left_block};

use crate::machine::Machine;
use crate::results::is_shared;
use crate::scoped::scope_move;
use builtin_names::{Vocabulary, name};
use evaluation_steps::Halt;
use expr_tree::Expr;
use frames_scope::{Block, Locals, Scope, block_scope};
use item_list::Items;
use kernel_defs::Defs;
use machine_steps::{Move, Scene};
use semantics::Builtin;
use shared_calls::Shared;
use std::alloc::{AllocError, Global};
use std::mem;

/// A Block that looks at the first step whether its symbols are shared, or has looked.
#[derive(Drop)]
pub enum BlockRow {
    Unseen(Scope),
    Seen(Block),
}

/// Whether a symbol of a Block is shared.
fn any_shared(shared: &Shared, locals: &Locals) -> bool
    ensures { result ≡ any_shared shared.now (symbols_of (locals_in locals.now)) }
{
    for local in locals.as_slice() {
        if is_shared(shared, local.symbol) {
            return true;
        }
    }
    false
}

/// A Block whose symbols are not shared.
fn seen_block(alloc: Global, scope: &mut Scope) -> Result<Block, AllocError>
    ensures { (names : n.Names) → IfOk result (λ b. left.left_block names b None ≡ ask_values (locals_in scope.old.locals) [] (λ ls. Within ls scope.old.body Done)) }
{
    let locals = mem::replace(&mut scope.locals, Items::new(alloc));
    let body = scope.body.copy(alloc)?;
    Ok(Block::start(alloc, Scope { locals, body }))
}

fn step_block(
    form: &mut Block,
    scene: &Scene,
    defs: &mut Defs,
    answer: Option<Expr>,
) -> Result<Move, Halt>
    ensures stepped { (stay : Prog) (used : Bool) → Stepped (setting_of scene.now) (left.left_block (names_in scene.now.names.now) form.old answer) stay defs.old used result (left.left_block (names_in scene.now.names.now) form.new) defs.new used }
    ensures falls { Falls result (asks (left.left_block (names_in scene.now.names.now) form.old answer)) (λ v. asks (left.left_block (names_in scene.now.names.now) form.new v)) }
{
    let moved = form.step(scene.alloc, scene.names, answer);
    scope_move(scene, defs, moved)
}

impl BlockRow {
    /// A Block before its first step.
    pub(crate) fn start(
        alloc: Global,
        names: &Vocabulary,
        items: &[Expr],
    ) -> Result<Option<Machine>, AllocError>
        ensures { Starts (f.left (names_in names.now)) (λ stay. t.row (names_in names.now) b.Builtin.Block stay items.now) result }
    {
        let read = block_scope(alloc, names, items)?;
        match read {
            Some(scope) => Ok(Some(Machine::Block(BlockRow::Unseen(scope)))),
            None => Ok(None),
        }
    }

    /// Looks at the symbols, if it has not, and goes on with the values and the body. A Block over a shared symbol fails.
    pub(crate) fn step(
        &mut self,
        scene: &Scene,
        defs: &mut Defs,
        used: &mut bool,
        answer: Option<Expr>,
    ) -> Result<Move, Halt>
        ensures stepped { (stay : Prog) → Stepped (setting_of scene.now) (left_block (names_in scene.now.names.now) self.old answer) stay defs.old used.old result (left_block (names_in scene.now.names.now) self.new) defs.new used.new }
        ensures falls { Falls result (asks (left_block (names_in scene.now.names.now) self.old answer)) (λ v. asks (left_block (names_in scene.now.names.now) self.new v)) }
    {
        match self {
            BlockRow::Unseen(scope) => {
                if any_shared(defs.shared(), &scope.locals) {
                    *used = true;
                    return Ok(Move::Done(name(scene.names, Builtin::Failed)));
                }
                let mut form = seen_block(scene.alloc, scope)?;
                let result = step_block(&mut form, scene, defs, None);
                *self = BlockRow::Seen(form);
                result
            }
            BlockRow::Seen(form) => step_block(form, scene, defs, answer),
        }
    }
}

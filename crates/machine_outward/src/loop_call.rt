//! ParallelTable, ParallelDo and ParallelSum as one call.
ghost use Rattle.std.specs.Prelude.{◌≡◌, ◌++◌, Some, option_to_list, IfOk};
ghost use Rattle.builtin_names.specs.Named.{names_in};
ghost use Rattle.machine_outward.specs.Loops.{further_with, inward_row, outward_row, sent_form};

use crate::options::MethodOption;
use builtin_names::name;
use expr_tree::{Expr, Exprs};
use item_list::Items;
use machine_steps::Scene;
use made_exprs::Formed;
use semantics::Builtin;
use std::alloc::{AllocError, Global};

/// The forms with an iterator.
#[derive(Clone, Copy, Debug, PartialEq, Eq)]
pub enum LoopForm {
    Table,
    Do,
    Sum,
}

impl LoopForm {
    /// The row whose form is sent.
    pub(crate) fn outward_row(self) -> Builtin
        ensures { result ≡ outward_row self }
    {
        match self {
            LoopForm::Table => Builtin::ParallelTable,
            LoopForm::Do => Builtin::ParallelDo,
            LoopForm::Sum => Builtin::ParallelSum,
        }
    }

    /// The row that it is where it is no call.
    pub(crate) fn inward_row(self) -> Builtin
        ensures { result ≡ inward_row self }
    {
        match self {
            LoopForm::Table => Builtin::Table,
            LoopForm::Do => Builtin::Do,
            LoopForm::Sum => Builtin::Sum,
        }
    }
}

/// A form, its body, what stands behind its first iterator, and its option.
#[derive(Drop)]
pub struct LoopCall {
    pub(crate) form: LoopForm,
    pub(crate) body: Expr,
    pub(crate) further: Exprs,
    pub(crate) option: Option<MethodOption>,
}

/// Expressions as they are, to be put together.
fn formed_copies(alloc: Global, es: &[Expr]) -> Result<Items<Formed>, AllocError>
    ensures { IfOk result (λ formed. formed ≡ es.now) }
{
    let mut formed = Items::new(alloc);
    for e in es {
        formed.push(Formed::of(e.copy(alloc)?))?;
    }
    Ok(formed)
}

impl LoopCall {
    /// The option with this right side.
    fn option_with(&self, alloc: Global, value: Expr) -> Result<Option<Formed>, AllocError>
        ensures { IfOk result (λ o. further_with self.now (Some value) ≡ self.now.further ++ option_to_list o) }
    {
        let Some(option) = &self.option else {
            return Ok(None);
        };
        let mut sides = Items::new(alloc);
        sides.push(Formed::of(option.name.copy(alloc)?))?;
        sides.push(Formed::of(value))?;
        let head = Formed::of(option.head.copy(alloc)?);
        Ok(Some(Formed::call(alloc, head, sides)?))
    }

    /// The form with the parts of its iterator, and with this right side of its option, if it has one.
    pub(crate) fn formed(
        &self,
        scene: &Scene,
        parts: Exprs,
        value: Option<Expr>,
    ) -> Result<Formed, AllocError>
        ensures { IfOk result (λ f. f ≡ sent_form (names_in scene.now.names.now) self.now parts (further_with self.now value)) }
    {
        let alloc = scene.alloc;
        let list = formed_copies(alloc, parts.as_slice())?;
        let list = Formed::call(alloc, Formed::of(name(scene.names, Builtin::List)), list)?;
        let mut items = Items::new(alloc);
        items.push(Formed::of(self.body.copy(alloc)?))?;
        items.push(list)?;
        items.append(formed_copies(alloc, self.further.as_slice())?)?;
        if let Some(value) = value {
            if let Some(option) = self.option_with(alloc, value)? {
                items.push(option)?;
            }
        }
        let head = Formed::of(name(scene.names, self.form.outward_row()));
        Formed::call(alloc, head, items)
    }
}

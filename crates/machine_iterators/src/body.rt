//! What is evaluated for each value.
ghost use Rattle.std.specs.Prelude.{◌≡◌, ◌∷◌, [], IfOk};
ghost use Rattle.semantics.specs.Control as c;
ghost use Rattle.builtin_names.specs.Named.{names_in};
ghost use Rattle.frames_scope.specs.Reading.{locals_in};
ghost use Rattle.machine_iterators.specs.IterationForms.{row_of};

use builtin_names::{Vocabulary, make};
use expr_tree::{Expr, Sym};
use frames_control::Stack;
use frames_scope::{Local, Locals};
use item_list::Items;
use semantics::Builtin;
use std::alloc::{AllocError, Global};

/// The forms that evaluate a body for each value of an iterator.
#[derive(Clone, Copy, Debug, PartialEq, Eq)]
pub enum IterationForm {
    Do,
    Table,
    Sum,
}

impl IterationForm {
    fn row(self) -> Builtin
        ensures { result ≡ row_of self }
    {
        match self {
            IterationForm::Do => Builtin::Do,
            IterationForm::Table => Builtin::Table,
            IterationForm::Sum => Builtin::Sum,
        }
    }
}

/// An expression that is evaluated for each value of a symbol, or as often, and the form that asks for it.
#[derive(Drop)]
pub struct Body {
    pub form: IterationForm,
    pub symbol: Option<Sym>,
    pub expression: Expr,
}

/// The symbol with its value, if there is one.
pub(crate) fn locals_of(
    alloc: Global,
    symbol: Option<Sym>,
    value: Expr,
) -> Result<Locals, AllocError>
    ensures { IfOk result (λ ls. locals_in ls ≡ c.locals symbol value) }
{
    let mut locals = Items::new(alloc);
    if let Some(symbol) = symbol {
        locals.push(Local {
            symbol,
            value: Some(value),
        })?;
    }
    Ok(locals)
}

/// The expression that is evaluated for each value: with further iterators, the form with these. It is smaller than the form, so that only
/// memory can be wanting.
pub(crate) fn inner_form(
    alloc: Global,
    names: &Vocabulary,
    form: IterationForm,
    body: &Expr,
    iterators: &[Expr],
) -> Result<Expr, AllocError>
    ensures { IfOk result (λ e. e ≡ c.inner_form (names_in names.now) (row_of form) body.now iterators.now) }
{
    if iterators.is_empty() {
        return body.copy(alloc);
    }
    let mut items = Stack::of(alloc, iterators)?;
    items.push(body.copy(alloc)?)?;
    match make(alloc, names, form.row(), items.take(alloc)) {
        Ok(e) => Ok(e),
        Err(_) => Err(AllocError),
    }
}

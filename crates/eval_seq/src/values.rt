//! What head and elements are evaluated to. Where nothing changes, nothing is copied.
ghost use Rattle.std.specs.Prelude.{◌≡◌, ◌++◌, ◌∷◌, [], true, None, IfOk, unwrap_or};

use expr_tree::{Attrs, Expr, Exprs};
use item_list::Items;
use std::alloc::{AllocError, Global};

/// The values of a head and of its elements, with the attributes of the head's. `None` is the head itself, or the elements themselves.
#[derive(Drop)]
pub(crate) struct Values {
    pub head: Option<Expr>,
    pub attrs: Attrs,
    pub items: Option<Exprs>,
}

impl Values {
    /// Whether they are the head and the elements themselves.
    pub(crate) fn are_same(&self) -> bool
        ensures { result ≡ true → (self.now.head ≡ None) × (self.now.items ≡ None) }
    {
        self.head.is_none() && self.items.is_none()
    }
}

/// The new expression, or the old one.
pub(crate) fn new_or_old<'a>(new: &'a Option<Expr>, old: &'a Expr) -> &'a Expr
    ensures { result.now ≡ unwrap_or new.now old.now }
{
    match new {
        Some(e) => e,
        None => old,
    }
}

/// The new expression, or a copy of the old one.
pub(crate) fn new_or_copy(alloc: Global, new: Option<Expr>, old: &Expr) -> Result<Expr, AllocError>
    ensures { IfOk result (λ e. e ≡ unwrap_or new old.now) }
{
    match new {
        Some(e) => Ok(e),
        None => old.copy(alloc),
    }
}

fn copies(alloc: Global, items: &[Expr]) -> Result<Exprs, AllocError>
    ensures { IfOk result (λ es. es ≡ items.now) }
{
    let mut made = Items::new(alloc);
    for item in items {
        made.push(item.copy(alloc)?)?;
    }
    Ok(made)
}

/// The new elements, or copies of the old ones.
pub(crate) fn new_or_copies(
    alloc: Global,
    new: Option<Exprs>,
    old: &[Expr],
) -> Result<Exprs, AllocError>
    ensures { IfOk result (λ es. es ≡ unwrap_or new old.now) }
{
    match new {
        Some(items) => Ok(items),
        None => copies(alloc, old),
    }
}

/// The values of elements and of the next one, `item`. They are `None` as long as each value is the element itself.
pub(crate) fn with_next(
    alloc: Global,
    values: Option<Exprs>,
    before: &[Expr],
    item: &Expr,
    value: Option<Expr>,
) -> Result<Option<Exprs>, AllocError>
    ensures { IfOk result (λ r. unwrap_or r (before.now ++ item.now ∷ []) ≡ unwrap_or values before.now ++ unwrap_or value item.now ∷ []) }
{
    if values.is_none() && value.is_none() {
        return Ok(None);
    }
    let mut values = new_or_copies(alloc, values, before)?;
    values.push(new_or_copy(alloc, value, item)?)?;
    Ok(Some(values))
}

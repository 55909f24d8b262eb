//! The locals of a form.
use expr_tree::{Expr, Sym};
use item_list::Items;

/// A symbol with its new value, or without one.
#[derive(Drop)]
pub struct Local {
    pub symbol: Sym,
    pub value: Option<Expr>,
}

/// Locals in the order of the form.
pub type Locals = Items<Local>;

/// The locals and the body of a form.
#[derive(Drop)]
pub struct Scope {
    pub locals: Locals,
    pub body: Expr,
}

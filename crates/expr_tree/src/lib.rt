//! Expressions: integers, strings, symbols, and heads with elements. specs/ holds the definitions: the tree with its size, depth and
//! limits, identity, the canonical order, and putting in place with scoping. The code has the types that the crates above share:
//! `Expr`, which is seen as its tree and keeps size and depth beside it, `Sym`, `Text` and `Attrs`, and the records `Limits`, `Stop`
//! and `Binders`, which definitions cite. It stands on `item_list`.
#![tactic(auto)]

mod attrs;
mod binders;
mod built;
mod expr;
mod limits;
mod lists;
mod shapes;
mod sym;
#[cfg(test)]
mod tests;
mod text;

pub use attrs::Attrs;
pub use binders::Binders;
pub use built::Built;
pub use expr::{Expr, Exprs, MAX_DEPTH, MAX_SIZE, Node, copy_items, equality_is_exact, may_cross};
pub use limits::{Limits, Stop};
pub use lists::{Ids, Syms, Texts};
pub use shapes::{elements_under, pair_of, pair_under, symbol_of};
pub use sym::Sym;
pub use text::Text;

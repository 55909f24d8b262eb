ghost use Rattle.std.specs.Prelude.{◌≡◌};
ghost use Rattle.std.specs.Option.{option_map};
ghost use Rattle.expr_tree.specs.Shapes.{pair_of, pair_under, elements_under, symbol_of};

use crate::expr::{Expr, Exprs, Node};
use crate::sym::Sym;

/// The items of a slice of two.
#[tactic(auto, using(crate::proofs::Pairs::pair_steps))]
pub fn pair_of<T>(items: &[T]) -> Option<(&T, &T)>
    ensures { option_map (λ p. (p.0.now, p.1.now)) result ≡ pair_of items.now }
{
    if items.len() == 2 {
        Some((&items[0], &items[1]))
    } else {
        None
    }
}

/// The two elements of `c[p, t]`.
#[tactic(auto, using(crate::proofs::Callers::tree_steps))]
pub fn pair_under<'a>(c: Sym, e: &'a Expr) -> Option<(&'a Expr, &'a Expr)>
    ensures { option_map (λ p. (p.0.now, p.1.now)) result ≡ pair_under c e.now }
{
    let Node::Normal(head, items) = e.node() else {
        return None;
    };
    match head.node() {
        Node::Symbol(s) if *s == c => pair_of(items.as_slice()),
        _ => None,
    }
}

/// The elements of `c[..]`.
#[tactic(auto, using(crate::proofs::Callers::tree_steps))]
pub fn elements_under(c: Sym, e: &Expr) -> Option<&Exprs>
    ensures { option_map (λ items. items.now) result ≡ elements_under c e.now }
{
    let Node::Normal(head, items) = e.node() else {
        return None;
    };
    match head.node() {
        Node::Symbol(s) if *s == c => Some(items),
        _ => None,
    }
}

/// The expression itself or its innermost leftmost head, where that is a symbol.
pub fn symbol_of(e: &Expr) -> Option<Sym>
    ensures { result ≡ symbol_of e.now }
{
    match e.node() {
        Node::Symbol(s) => Some(*s),
        Node::Normal(head, _) => symbol_of(head),
        _ => None,
    }
}

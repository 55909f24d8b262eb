ghost use Rattle.std.specs.Prelude.{◌≡◌, ◌+◌, ◌-◌, ◌<◌, ◌^◌, [], ◌∷◌, drop, length, MatchOption, OnSome};
ghost use Rattle.expr_tree.specs.Tree.{trees, nil, cons};
ghost use Rattle.semantics.specs.Match.{have_head, same_run};

use expr_tree::{Expr, Exprs, Node};

/// The item at a place.
#[tactic(auto, using(crate::proofs::Places::place_steps))]
pub(crate) fn first_of(items: &Exprs, at: usize) -> Option<&Expr>
    ensures value { MatchOption result (trees (drop at items.now) ≡ nil) (λ p. trees (drop at items.now) ≡ cons p.now (trees (drop (at + 1) items.now))) }
    ensures within { OnSome result (at < 2 ^ 64 - 1) }
{
    let _count = items.len();
    items.get(at)
}

/// Whether a run is this expression alone.
pub(crate) fn is_alone(e: &Expr, run: &Exprs) -> bool
    ensures { result ≡ same_run (e.now ∷ []) run.now }
{
    match run.as_slice() {
        [only] => e.equals(only),
        _ => false,
    }
}

fn has_head(asked: &Expr, e: &Expr) -> bool
    ensures { result ≡ have_head (asked.now ∷ []) (e.now ∷ []) }
{
    match e.node() {
        Node::Normal(head, _) => asked.equals(head),
        _ => false,
    }
}

#[tactic(auto, using(crate::proofs::Places::run_steps))]
/// Whether each element of a run has the head that is asked for.
pub(crate) fn have_head(asked: &Expr, run: &[Expr]) -> bool
    ensures { result ≡ have_head (asked.now ∷ []) run.now }
{
    for e in run {
        if !has_head(asked, e) {
            return false;
        }
    }
    true
}

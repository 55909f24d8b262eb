ghost use Rattle.std.specs.Prelude.{◌≡◌};
ghost use Rattle.expr_tree.specs.Tree.{normal, trees};
ghost use Rattle.semantics.specs.Assign as assign;
ghost use Rattle.builtin_names.specs.Named.{names_in};

use builtin_names::{Vocabulary, is_call, is_name};
use expr_tree::{Expr, Node};
use semantics::Builtin;

/// Whether a left side stands for its first item: `Condition[p, c]` and `HoldPattern[p]` do.
#[tactic(auto, using(crate::proofs::Wrappers::wrapper_steps))]
pub(crate) fn is_wrapper(names: &Vocabulary, head: &Expr, items: &[Expr]) -> bool
    ensures { result ≡ assign.is_wrapper (names_in names.now) head.now (trees items.now) }
{
    if items.len() == 1 {
        return is_name(names, Builtin::HoldPattern, head);
    }
    if items.len() == 2 {
        return is_name(names, Builtin::Condition, head);
    }
    false
}

/// The left side without `Condition` and `HoldPattern` round it.
#[tactic(auto, using(crate::proofs::Wrappers::wrapper_steps, expr_tree::proofs::Callers::tree_steps))]
pub fn inner<'a>(names: &Vocabulary, left: &'a Expr) -> &'a Expr
    ensures { result.now ≡ assign.inner (names_in names.now) left.now }
{
    let Node::Normal(head, items) = left.node() else {
        return left;
    };
    let items = items.as_slice();
    if !is_wrapper(names, head, items) {
        return left;
    }
    match items {
        [first, ..] => inner(names, first),
        [] => left,
    }
}

/// Whether a left side has `Condition` or `HoldPattern` round it.
pub(crate) fn has_wrapping(names: &Vocabulary, left: &Expr) -> bool
    ensures { result ≡ assign.has_wrapping (names_in names.now) left.now }
{
    match left.node() {
        Node::Normal(head, items) => is_wrapper(names, head, items.as_slice()),
        _ => false,
    }
}

pub(crate) fn is_normal(e: &Expr) -> bool
    ensures { result ≡ assign.is_normal e.now }
{
    matches!(e.node(), Node::Normal(_, _))
}

/// Whether an expression is `f[x][y]`, a `Part` or a `List`.
pub(crate) fn is_nested(names: &Vocabulary, e: &Expr) -> bool
    ensures { result ≡ assign.is_nested (names_in names.now) e.now }
{
    if let Node::Normal(head, _) = e.node() {
        if is_normal(head) {
            return true;
        }
    }
    is_call(names, Builtin::Part, e) || is_call(names, Builtin::List, e)
}

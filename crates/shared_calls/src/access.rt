ghost use Rattle.std.specs.Prelude.{◌≡◌, ◌∷◌, []};
ghost use Rattle.expr_tree.specs.Tree.{symbol, normal, nil};
ghost use Rattle.semantics.specs.Sections.{changes_rule, changes_value};
ghost use Rattle.builtin_names.specs.Named.{names_in};
ghost use Rattle.shared_calls.specs.Access.{access_in, changed};

use crate::shared::{ShareKind, Shared};
use builtin_names::{Vocabulary, is_known};
use expr_tree::{Expr, Node, Sym};
use semantics::Builtin;

/// Whether a row writes a rule or an own value: these are accesses of shared functions too.
fn changes_rule(names: &Vocabulary, row: Sym) -> bool
    ensures { result ≡ changes_rule (names_in names.now) (symbol row) }
{
    is_known(names, Builtin::Set, row)
        || is_known(names, Builtin::SetDelayed, row)
        || is_known(names, Builtin::Unset, row)
}

/// Whether a row changes an own value otherwise.
fn changes_value(names: &Vocabulary, row: Sym) -> bool
    ensures { result ≡ changes_value (names_in names.now) (symbol row) }
{
    is_known(names, Builtin::Increment, row)
        || is_known(names, Builtin::Decrement, row)
        || is_known(names, Builtin::PreIncrement, row)
        || is_known(names, Builtin::PreDecrement, row)
        || is_known(names, Builtin::AddTo, row)
        || is_known(names, Builtin::SubtractFrom, row)
        || is_known(names, Builtin::TimesBy, row)
        || is_known(names, Builtin::AppendTo, row)
        || is_known(names, Builtin::PrependTo, row)
        || is_known(names, Builtin::Clear, row)
}

/// The shared symbol that a row would change, as `s` of `s = v` or `f` of `f[x] = v`.
#[tactic(auto, using(crate::proofs::Changed::changed_steps))]
pub fn changed_symbol(shared: &Shared, names: &Vocabulary, row: Sym, items: &[Expr]) -> Option<Sym>
    ensures { result ≡ changed (names_in names.now) shared.now (symbol row) items.now }
{
    let [first, ..] = items else {
        return None;
    };
    match first.node() {
        Node::Symbol(s) => changed_variable(shared, names, row, *s),
        Node::Normal(head, _) => match head.node() {
            Node::Symbol(f) => changed_function(shared, names, row, *f),
            _ => None,
        },
        _ => None,
    }
}

fn changed_variable(shared: &Shared, names: &Vocabulary, row: Sym, s: Sym) -> Option<Sym>
    ensures { result ≡ changed (names_in names.now) shared.now (symbol row) (symbol s ∷ []) }
{
    if !shared.has(ShareKind::Variable, s) {
        return None;
    }
    if changes_rule(names, row) {
        return Some(s);
    }
    if changes_value(names, row) {
        return Some(s);
    }
    None
}

fn changed_function(shared: &Shared, names: &Vocabulary, row: Sym, f: Sym) -> Option<Sym>
    ensures { result ≡ changed (names_in names.now) shared.now (symbol row) (normal (symbol f) nil ∷ []) }
{
    if !shared.has(ShareKind::Function, f) {
        return None;
    }
    if changes_rule(names, row) {
        Some(f)
    } else {
        None
    }
}

/// The symbol that an expression accesses, if it is an access: a shared variable, `f[..]` with a shared function `f`, or a row that
/// changes one of them.
#[tactic(auto, using(expr_tree::proofs::Callers::tree_steps))]
pub fn access_of(shared: &Shared, names: &Vocabulary, e: &Expr) -> Option<Sym>
    ensures { result ≡ access_in (names_in names.now) shared.now e.now }
{
    match e.node() {
        Node::Symbol(s) if shared.has(ShareKind::Variable, *s) => Some(*s),
        Node::Normal(head, items) => match head.node() {
            Node::Symbol(f) if shared.has(ShareKind::Function, *f) => Some(*f),
            Node::Symbol(f) => changed_symbol(shared, names, *f, items.as_slice()),
            _ => None,
        },
        _ => None,
    }
}

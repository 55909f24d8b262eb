ghost use Rattle.std.specs.Prelude.{◌≡◌, ◌&&◌, [], not, map, false};
ghost use Rattle.std.specs.Option.{option_map};
ghost use Rattle.semantics.specs.Assign as assign;
ghost use Rattle.semantics.specs.Definitions.{is_empty};
ghost use Rattle.builtin_names.specs.Named.{names_in};
ghost use Rattle.kernel_defs.specs.Targets.{form_of, target_of, why_of};

use crate::left_side::{has_wrapping, inner, is_nested, is_normal};
use crate::targets::{Form, Targets};
use builtin_names::{Vocabulary, items_of};
use expr_tree::{Expr, Sym, symbol_of};

/// Why an assignment is refused.
#[derive(Clone, Copy, Debug, PartialEq, Eq)]
pub enum Why {
    /// This symbol is Protected.
    Protected(Sym),
    /// The left side has no symbol to attach to.
    NoSymbol,
    /// The left side is `f[x][y]`, a `Part` or a `List`.
    Nested,
    /// The tag does not occur.
    NoTag,
}

/// Whether something other than a normal expression stands inside `Condition` or `HoldPattern`.
fn wraps_an_atom(names: &Vocabulary, left: &Expr) -> bool
    ensures { result ≡ (assign.has_wrapping (names_in names.now) left.now && not (assign.is_normal (assign.inner (names_in names.now) left.now))) }
{
    has_wrapping(names, left) && !is_normal(inner(names, left))
}

fn has_no_target(targets: &Targets) -> bool
    ensures { result ≡ is_empty (map target_of targets.now) }
{
    match targets.as_slice() {
        [] => true,
        [_, ..] => false,
    }
}

#[tactic(auto, using(crate::proofs::Symbols::symbol_steps))]
fn have_no_symbol(items: &[Expr]) -> bool
    ensures { result ≡ is_empty (assign.item_symbols items.now []) }
{
    for item in items {
        if symbol_of(item).is_some() {
            return false;
        }
    }
    true
}

/// Whether neither the head of a left side nor an element of it has a symbol.
#[tactic(auto, using(crate::proofs::Symbols::symbol_steps))]
fn has_no_symbol_at(left: &Expr) -> bool
    ensures { result ≡ is_empty (assign.symbols_at left.now) }
{
    if symbol_of(left).is_some() {
        return false;
    }
    have_no_symbol(items_of(left))
}

#[tactic(auto, using(crate::proofs::Shapes::shape_steps))]
fn has_no_symbol(names: &Vocabulary, form: Form, left: &Expr, targets: &Targets) -> bool
    requires targets { map target_of targets.now ≡ assign.places (names_in names.now) (form_of form) left.now }
    ensures { result ≡ assign.has_no_symbol (names_in names.now) (form_of form) left.now }
{
    if wraps_an_atom(names, left) {
        return true;
    }
    match form {
        Form::Set | Form::SetDelayed | Form::UpSet | Form::UpSetDelayed => has_no_target(targets),
        Form::TagSet(_) | Form::TagSetDelayed(_) => has_no_symbol_at(inner(names, left)),
    }
}

/// The first cause for which an assignment with these targets is refused, where none of the symbols asked is Protected.
#[tactic(auto, using(crate::proofs::Shapes::shape_steps))]
pub fn refusal_by_shape(
    names: &Vocabulary,
    form: Form,
    left: &Expr,
    targets: &Targets,
) -> Option<Why>
    requires targets { map target_of targets.now ≡ assign.places (names_in names.now) (form_of form) left.now }
    ensures { option_map why_of result ≡ assign.refusal (names_in names.now) (λ s. false) (form_of form) left.now }
{
    if has_no_symbol(names, form, left, targets) {
        return Some(Why::NoSymbol);
    }
    if is_nested(names, inner(names, left)) {
        return Some(Why::Nested);
    }
    if has_no_target(targets) {
        return Some(Why::NoTag);
    }
    None
}

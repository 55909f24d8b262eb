//! Which elements are evaluated.
ghost use Rattle.std.specs.Prelude.{◌≡◌};
ghost use Rattle.semantics.specs.Assemble as a;
ghost use Rattle.builtin_names.specs.Attributes.{attributes_in};
ghost use Rattle.builtin_names.specs.Named.{names_in};

use builtin_names::{Vocabulary, is_call, items_of};
use expr_tree::{Attrs, Expr};
use semantics::Builtin;

/// Whether the first element is held.
#[tactic(auto, using(builtin_names::proofs::Flags::flag_steps))]
pub fn holds_first(attrs: &Attrs) -> bool
    ensures { result ≡ a.holds_first (attributes_in attrs.now) }
{
    attrs.hold_first || attrs.hold_all || attrs.hold_all_complete
}

/// Whether the elements after the first are held.
#[tactic(auto, using(builtin_names::proofs::Flags::flag_steps))]
pub fn holds_rest(attrs: &Attrs) -> bool
    ensures { result ≡ a.holds_rest (attributes_in attrs.now) }
{
    attrs.hold_rest || attrs.hold_all || attrs.hold_all_complete
}

fn is_evaluate(names: &Vocabulary, e: &Expr) -> bool
    ensures { result ≡ a.is_evaluate (names_in names.now) e.now }
{
    is_call(names, Builtin::Evaluate, e) && items_of(e).len() == 1
}

/// Whether an element is evaluated, of which `held` says that it stands where elements are held.
#[tactic(auto, using(builtin_names::proofs::Flags::flag_steps))]
pub fn is_asked(names: &Vocabulary, attrs: &Attrs, held: bool, e: &Expr) -> bool
    ensures { result ≡ a.is_asked (names_in names.now) (attributes_in attrs.now) held e.now }
{
    !held || (is_evaluate(names, e) && !attrs.hold_all_complete)
}

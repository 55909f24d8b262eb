ghost use Rattle.std.specs.Prelude.{◌≡◌};
ghost use Rattle.std.specs.Option.{option_copied};
ghost use Rattle.expr_tree.specs.Substitution.{value_of, among, without};

use crate::Bindings;
use expr_tree::{Exprs, Sym, Syms};

fn is_among(symbol: Sym, symbols: &Syms) -> bool
    ensures { result ≡ among symbol symbols.now }
{
    for other in symbols.as_slice() {
        if symbol == *other {
            return true;
        }
    }
    false
}

fn first_run(bindings: &Bindings, symbol: Sym) -> Option<&Exprs>
    ensures { option_copied result ≡ value_of bindings.now symbol }
{
    for (bound, run) in bindings.as_slice() {
        if *bound == symbol {
            return Some(run);
        }
    }
    None
}

/// The run of a symbol, where it is bound and not hidden.
#[tactic(auto, using(crate::proofs::Scopes::scope_steps))]
pub(crate) fn run_for<'a>(bindings: &'a Bindings, hidden: &Syms, symbol: Sym) -> Option<&'a Exprs>
    ensures { option_copied result ≡ value_of (without hidden.now bindings.now) symbol }
{
    if is_among(symbol, hidden) {
        return None;
    }
    first_run(bindings, symbol)
}

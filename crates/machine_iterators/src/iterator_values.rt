//! The values of an iterator.
ghost use Rattle.std.specs.Prelude.{◌≡◌, ◌∷◌, [], MatchOption};
ghost use Rattle.machine_iterators.specs.IterationLeft.{values_in};

use expr_tree::Expr;
use frames_control::Stack;
use int_ops::Progression;

/// The values that are left of an iterator.
#[derive(Drop)]
pub enum IteratorValues {
    Numbers(Progression),
    Elements(Stack),
}

impl IteratorValues {
    /// Takes the next one.
    pub(crate) fn next(&mut self) -> Option<Expr>
        ensures { MatchOption result (values_in self.old ≡ []) (λ e. values_in self.old ≡ e ∷ values_in self.new) }
    {
        match self {
            IteratorValues::Numbers(numbers) => Some(Expr::int(numbers.next()?)),
            IteratorValues::Elements(items) => items.pop(),
        }
    }
}

ghost use Rattle.std.specs.Cmp.{on_total, on_equiv, eq_by_cmp_equiv, partial_equiv_from_equiv, partial_order_from_agreeing_total};
ghost use Rattle.std.specs.Ordering.{on, eq_by_cmp, as_partial_cmp};
ghost use Rattle.std.specs.Prelude.{refl};
ghost use Rattle.expr_tree.specs.Order.{tree_cmp};
ghost use Rattle.canon_order.specs.Total.{tree_cmp_total};

use crate::compare;
use expr_tree::Expr;
use std::cmp::Ordering;

/// An expression that compares in the canonical order.
#[derive(Drop)]
pub struct Ordered(pub Expr);

impl PartialEq for Ordered {
    ghost eq = { on (λ o. o.0) (eq_by_cmp tree_cmp) };

    ghost laws = { partial_equiv_from_equiv (on_equiv (λ o. o.0) (eq_by_cmp_equiv tree_cmp_total)) };

    fn eq(&self, other: &Ordered) -> bool {
        compare(&self.0, &other.0).is_eq()
    }
}

impl Eq for Ordered {
    ghost laws = { on_equiv (λ o. o.0) (eq_by_cmp_equiv tree_cmp_total) };
}

impl PartialOrd for Ordered {
    ghost partial_cmp = { as_partial_cmp (on (λ o. o.0) tree_cmp) };

    ghost laws = { partial_order_from_agreeing_total (on (λ o. o.0) tree_cmp) (on_total (λ o. o.0) tree_cmp_total) (λ x y. refl) (λ x y. refl) };

    fn partial_cmp(&self, other: &Ordered) -> Option<Ordering> {
        Some(self.cmp(other))
    }
}

impl Ord for Ordered {
    ghost cmp = { on (λ o. o.0) tree_cmp };

    ghost total = { on_total (λ o. o.0) tree_cmp_total };

    ghost matches_partial_cmp = { λ x y. refl };

    ghost matches_eq = { λ x y. refl };

    fn cmp(&self, other: &Ordered) -> Ordering {
        compare(&self.0, &other.0)
    }
}

//! What two evaluations of related expressions have in common, function by function and row by row: the lemmas in proofs/ are what
//! the laws of shifted names and of bases are proved by. One of them is a law of its own. It stands on `semantics` and
//! `laws_language`.
#![tactic(auto)]

ghost use Rattle.laws_relations.specs.Order.{ShiftKeepsOrder};

/// Shifting the numbers of symbols from a bound on keeps their order.
pub fn a_shift_keeps_order()
    ensures law { ShiftKeepsOrder }
{}

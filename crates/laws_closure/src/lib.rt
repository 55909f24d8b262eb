//! The law of evaluation on a closed set of symbols: the definitions of the set alone matter. Its proof goes through every row of
//! `semantics` once, with both sides on one expression; closed sets are those of `journal`. The function here has no code: its
//! contract is the law.
#![tactic(auto)]

ghost use Rattle.laws_closure.specs.Frame.{Frame};

/// From definitions that agree on a closed set, an expression of that set is evaluated alike, where `used` is false from one of them.
pub fn evaluation_needs_a_closed_set()
    ensures law { Frame }
{}

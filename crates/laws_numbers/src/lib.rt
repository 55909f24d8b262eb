//! Laws of steps and module numbers: how many an evaluation takes. They stand on the definitions of `semantics` and on what `laws_closure`
//! knows of its programs, and speak of evaluations that made no call and did not ask for the mode. Each function here has no code: its
//! contract is a law.
#![tactic(auto)]

ghost use Rattle.laws_numbers.specs.Bound.{NumbersBounded, NumbersPaid, StepsBounded};

/// An evaluation takes no more steps than its limits allow.
pub fn steps_are_bounded()
    ensures law { StepsBounded }
{}

/// An evaluation that ends with a value takes at most so many module numbers for each of its steps as evaluations may be nested; one that ends
/// otherwise takes that many more.
pub fn module_numbers_are_bounded()
    ensures law { NumbersBounded }
{}

/// Where neither Throw nor Catch, nor Attributes, stands in what is evaluated, each step pays for one module number alone.
pub fn module_numbers_are_paid_with_steps()
    ensures law { NumbersPaid }
{}

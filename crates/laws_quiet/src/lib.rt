//! Laws of quiet applications: one gives the same value from its bundle, on any kernel, as from the master's definitions. They join
//! the closed sets of `laws_closure` with the attempts of `journal`. No name of the built-in table is shared. Each function here
//! has no code: its contract is a law.
#![tactic(auto)]

ghost use Rattle.laws_quiet.specs.Quiet.{AttemptDelivers, BatchAnywhere, QuietAnywhere};

/// A quiet application gives one value from its bundle, on any kernel and whatever earlier items left there, and from the master's definitions.
pub fn quiet_applications_are_the_same_anywhere()
    ensures law { QuietAnywhere }
{}

/// So does a list of quiet applications, evaluated in turn from the bundle of the list.
pub fn quiet_batches_are_the_same_anywhere()
    ensures law { BatchAnywhere }
{}

/// A kernel's attempt at a quiet application, or at a list of them, makes no call and delivers these values.
pub fn attempts_at_quiet_items_deliver()
    ensures law { AttemptDelivers }
{}

//! Laws of applications that make generated names and give none: they give their value anywhere. They join `laws_quiet` and
//! `laws_shift`, and the bound on the numbers taken is that of `laws_numbers`. No name of the built-in table is
//! shared. Each function here has no code: its contract is a law.
#![tactic(auto)]

ghost use Rattle.laws_named.specs.Named.{GivenAnywhere, NamedAnywhere, QuietGivesNone, QuietNumbersPaid, ReachedNumbersPaid};

/// An application whose value and closure have no name that a Module may still make gives its value on any kernel and from the master's definitions,
/// whatever module number stands there.
pub fn applications_without_names_give_their_value_anywhere()
    ensures law { GivenAnywhere }
{}

/// One that is quiet but for generated names is such an application, with the same value.
pub fn quiet_but_for_names_gives_none()
    ensures law { QuietGivesNone }
{}

/// Where neither Throw nor Catch, nor Attributes, can be reached from an application, each step pays for one module number alone, from all definitions
/// that agree on its closure.
pub fn reached_numbers_are_paid_with_steps()
    ensures law { ReachedNumbersPaid }
{}

/// One that is quiet but for generated names takes at most one module number for each of its steps.
pub fn quiet_but_for_names_pays_with_steps()
    ensures law { QuietNumbersPaid }
{}

/// So an application that is quiet but for generated names gives its value anywhere.
pub fn named_applications_give_their_value_anywhere()
    ensures law { NamedAnywhere }
{}

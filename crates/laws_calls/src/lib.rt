//! Laws over the definitions of the language in `semantics`: which calls an evaluation makes in a mode, and where a section is open, and
//! what it ends with. Each function here has no code: its contract is a law.
#![tactic(auto)]

ghost use Rattle.laws_calls.specs.Calls.{CallsFit};
ghost use Rattle.laws_calls.specs.Ends.{EndsFit, NeverThrowing};

/// Each call of an evaluation may come in its mode and where a section is open or not, whatever was replied before; at its end none is open.
pub fn calls_fit_mode_and_section()
    ensures law { CallsFit }
{}

/// Quit ends an evaluation in an item alone, and Closed and Starved one that was replied so; no evaluation ends as a pass that throws does.
pub fn ends_fit_mode_and_replies()
    ensures law { EndsFit }
    ensures throws { NeverThrowing }
{}

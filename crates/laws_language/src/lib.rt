//! Laws over the definitions of the language in `semantics`: looser limits, the mode, and what a changed definition leaves as it was.
//! Each function here has no code: its contract is a law.
#![tactic(auto)]

ghost use Rattle.laws_language.specs.Laws.{LooserKeeps, ModeIndependent, OthersStay, PutLaw};

/// Looser limits change no evaluation that ended with a value or at Quit.
pub fn looser_limits_keep()
    ensures law { LooserKeeps }
{}

/// Where `used` is false at the end, mode and kernel number do not matter.
pub fn mode_does_not_matter()
    ensures law { ModeIndependent }
{}

/// Another definition of one symbol is stored for it, and changes that of no other.
pub fn a_put_is_read()
    ensures law { PutLaw }
{}

/// What a program sees of another symbol than the one that it writes stays: definition, attributes, and how it is shared.
pub fn other_symbols_stay()
    ensures law { OthersStay }
{}

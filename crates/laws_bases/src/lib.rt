//! The laws of the bases of symbols: an evaluation makes no new base, whatever it sends and is replied. They are proved by the lemmas of
//! `laws_relations`, and let a script have one table of names. Each function here has no code: its contract is a law.
#![tactic(auto)]

ghost use Rattle.laws_bases.specs.Calls.{EvaluationsKeep, PlaysKeep};
ghost use Rattle.laws_bases.specs.Kept.{BasesStay};

/// Where `used` is false, what an evaluation gives and leaves has the bases of what it began with and of the table alone, and it makes no call.
pub fn evaluation_adds_no_base()
    ensures law { BasesStay }
{}

/// Along calls whose replies add no base, what an evaluation sends, gives and leaves has no other bases either.
pub fn bases_are_kept_along_calls()
    ensures law { EvaluationsKeep }
    ensures plays { PlaysKeep }
{}

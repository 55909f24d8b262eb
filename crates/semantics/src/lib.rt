//! The definition of the language: what an evaluation of an expression is, for each setting and all definitions. specs/Lib.antt names
//! its files from below. One pass of the sequence, a row and a trial of a rule are programs over few effects (Program); Play gives a
//! program its meaning as a tree of calls and replies, and Eval follows that tree along a list of them. It stands on expressions and
//! texts, and has no code but the names of the built-in table and a law.
#![tactic(auto)]

ghost use Rattle.semantics.specs.Opened.{SectionsInOrder};

mod builtin;

pub use builtin::Builtin;

/// Each evaluation enters a section only where none is open, and leaves one only where one is.
pub fn sections_are_in_order()
    ensures law { SectionsInOrder }
{}

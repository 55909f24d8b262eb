ghost use Rattle.std.specs.Prelude.{◌≡◌, ◌↔◌, IsTrue};
ghost use Rattle.builtin_names.specs.Named.{names_in};
ghost use Rattle.rule_store.specs.Marks.{marks_of};

use builtin_names::{Vocabulary, symbol_for};
use semantics::Builtin;

/// The bases of the names that a key counts.
#[derive(Clone, Copy, Debug)]
pub(crate) struct Marks {
    null_sequence: u32,
    sequence: u32,
    blank: u32,
    condition: u32,
    test: u32,
}

impl Marks {
    pub(crate) fn of(names: &Vocabulary) -> Marks
        ensures { result ≡ marks_of (names_in names.now) }
    {
        Marks {
            null_sequence: symbol_for(names, Builtin::BlankNullSequence).base,
            sequence: symbol_for(names, Builtin::BlankSequence).base,
            blank: symbol_for(names, Builtin::Blank).base,
            condition: symbol_for(names, Builtin::Condition).base,
            test: symbol_for(names, Builtin::PatternTest).base,
        }
    }

    /// Whether the bases are the same.
    pub(crate) fn are(&self, other: &Marks) -> bool
        ensures { IsTrue result ↔ (self.now ≡ other.now) }
    {
        self.null_sequence == other.null_sequence
            && self.sequence == other.sequence
            && self.blank == other.blank
            && self.condition == other.condition
            && self.test == other.test
    }
}

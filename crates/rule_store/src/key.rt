ghost use Rattle.std.specs.Prelude.{◌≡◌, ◌≤◌, ◌||◌, List, ℕ};
ghost use Rattle.expr_tree.specs.Order.{text_cmp};
ghost use Rattle.expr_tree.specs.Tree.{trees, sizes};
ghost use Rattle.semantics.specs.Names.{is_name};
ghost use Rattle.semantics.specs.Rule as language;
ghost use Rattle.semantics.specs.declared.builtin.Builtin.{Builtin};
ghost use Rattle.builtin_names.specs.Named.{names_in};
ghost use Rattle.rule_store.specs.Keys.{numbers_of, is_counted};

use crate::rule::condition_of;
use builtin_names::{Vocabulary, is_name};
use expr_tree::{Expr, Node};
use semantics::Builtin;
use std::cmp::Ordering;

/// The numbers by which rules stand in order: the smaller key first, number by number.
#[derive(Clone, Copy, Debug, PartialEq, Eq)]
pub struct Key {
    /// How many `___` stand in the left side, and likewise below: constructs in another shape do not count.
    pub null_sequences: u64,
    /// How many `__`.
    pub sequences: u64,
    /// How many `_` of any head.
    pub untyped: u64,
    /// How many `_` of a given head.
    pub typed: u64,
    /// 1000 less the number of conditions and tests, the condition of the right side included, and at least 0.
    pub unguarded: u64,
}

/// Which subexpressions a number of the key counts.
#[derive(Clone, Copy)]
enum Counted {
    NullSequences,
    Sequences,
    Untyped,
    Typed,
    Guards,
}

impl Key {
    /// The key of the rule with these sides.
    pub(crate) fn of(names: &Vocabulary, left: &Expr, right: &Expr) -> Key
        ensures { numbers_of result ≡ language.key_of (names_in names.now) (record { left = left.now; right = right.now }) }
    {
        let in_left = occurrences(Counted::Guards, names, left);
        let in_right = u64::from(condition_of(names, right).is_some());
        Key {
            null_sequences: occurrences(Counted::NullSequences, names, left),
            sequences: occurrences(Counted::Sequences, names, left),
            untyped: occurrences(Counted::Untyped, names, left),
            typed: occurrences(Counted::Typed, names, left),
            unguarded: 1000u64.saturating_sub(in_left + in_right),
        }
    }

    /// Which of two keys comes first.
    pub(crate) fn compare(&self, other: &Key) -> Ordering
        ensures { result ≡ text_cmp (numbers_of self.now) (numbers_of other.now) }
    {
        self.null_sequences
            .cmp(&other.null_sequences)
            .then(self.sequences.cmp(&other.sequences))
            .then(self.untyped.cmp(&other.untyped))
            .then(self.typed.cmp(&other.typed))
            .then(self.unguarded.cmp(&other.unguarded))
    }
}

/// Whether a head is that of a condition or a test.
fn is_guard(names: &Vocabulary, head: &Expr) -> bool
    ensures { result ≡ (is_name (names_in names.now) Builtin.Condition head.now || is_name (names_in names.now) Builtin.PatternTest head.now) }
{
    is_name(names, Builtin::Condition, head) || is_name(names, Builtin::PatternTest, head)
}

#[tactic(auto, using(expr_tree::proofs::Callers::tree_steps))]
fn is_counted(what: Counted, names: &Vocabulary, head: &Expr, items: &[Expr]) -> bool
    ensures { result ≡ is_counted what (names_in names.now) head.now (trees items.now) }
{
    let count = items.len();
    match what {
        Counted::NullSequences => is_name(names, Builtin::BlankNullSequence, head) && count <= 1,
        Counted::Sequences => is_name(names, Builtin::BlankSequence, head) && count <= 1,
        Counted::Untyped => is_name(names, Builtin::Blank, head) && count == 0,
        Counted::Typed => is_name(names, Builtin::Blank, head) && count == 1,
        Counted::Guards => is_guard(names, head) && count == 2,
    }
}

/// How many subexpressions are counted.
#[cycle(occurrences)]
#[tactic(auto, using(crate::proofs::Counts::count_steps))]
fn occurrences(what: Counted, names: &Vocabulary, e: &Expr) -> u64
    ensures value { result ≡ language.occurrences (is_counted what (names_in names.now)) e.now }
    ensures within { result ≤ 4000000 }
{
    let _within = e.size();
    let Node::Normal(head, items) = e.node() else {
        return 0;
    };
    let inside = occurrences(what, names, head) + occurrences_in(what, names, items.as_slice());
    if is_counted(what, names, head, items.as_slice()) {
        1 + inside
    } else {
        inside
    }
}

#[cycle(occurrences)]
#[tactic(auto, using(crate::proofs::Counts::count_steps))]
fn occurrences_in(what: Counted, names: &Vocabulary, items: &[Expr]) -> u64
    requires small { sizes (trees items.now) ≤ 4000000 }
    ensures value { result ≡ language.occurrences_in (is_counted what (names_in names.now)) (trees items.now) }
    ensures within { result ≤ 4000000 }
{
    let mut total = 0;
    for item in items {
        total += occurrences(what, names, item);
    }
    total
}

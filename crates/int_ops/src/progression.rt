//! Integers from a start by a step up to an end.
ghost use Rattle.std.specs.Prelude.{◌≡◌, ◌≤◌, ◌^◌, ◌∷◌, [], length, IsTrue, MatchOption};
ghost use Rattle.expr_tree.specs.Tree.{integer};
ghost use Rattle.semantics.specs.Control.{steps_to};
ghost use Rattle.semantics.specs.Lists.{count_up};
ghost use Rattle.int_ops.specs.Progressions.{reaches};

use std::marker::Model;

/// Integers that are taken one after another. There may be more of them than 128 bits count, so they are not counted.
#[derive(Debug, Drop)]
pub struct Progression {
    next: Option<i128>,
    last: i128,
    by: i128,
}

impl Model for Progression {
    ghost use Rattle.std.specs.Prelude.{List};
    ghost use Rattle.expr_tree.specs.Tree.{Tree};

    ghost Value = { List Tree };

    ghost use Rattle.std.specs.Coded.{coded_list};
    ghost use Rattle.expr_tree.specs.Code.{coded_tree};

    ghost coded = { coded_list coded_tree };

    ghost use Rattle.int_ops.specs.Progressions.{walk};

    ghost view = { λ p. walk p.next p.last p.by };
}

/// Whether an integer does not pass the end.
fn reaches(next: i128, last: i128, by: i128) -> bool
    ensures { result ≡ reaches next last by }
{
    (by > 0 && next <= last) || (by < 0 && last <= next)
}

impl Progression {
    /// From a start by a step, as far as an end is not passed. A step of 0 gives none.
    pub fn new(from: i128, to: i128, by: i128) -> Progression
        ensures numbers { result ≡ count_up from by (steps_to from to by) }
        ensures bounded { length result ≤ 2 ^ 128 }
    {
        Progression {
            next: Some(from),
            last: to,
            by,
        }
    }

    /// Takes the next one.
    pub fn next(&mut self) -> Option<i128>
        ensures { MatchOption result ((self.old ≡ []) × (self.new ≡ [])) (λ n. self.old ≡ integer n ∷ self.new) }
    {
        let next = self.next?;
        if !reaches(next, self.last, self.by) {
            return None;
        }
        self.next = next.checked_add(self.by);
        Some(next)
    }
}

// How many elements patterns can take.
ghost use Rattle.std.specs.Prelude.{◌≡◌, ◌+◌, ◌-◌, drop, if◌then◌else◌};
ghost use Rattle.expr_tree.specs.Tree.{trees};
ghost use Rattle.match_seq.specs.Goals.{matching_of};
ghost use Rattle.match_seq.specs.Search.{exactly_one, any_number, both, extent, all_extent, wraps, is_bounded, least_of, fewest, all_bounded, least_size, greatest_size};

use crate::constructs::{Constructs, Form};
use crate::setting::How;
use expr_tree::{Expr, Node};

/// What is known of the runs that a pattern can take.
#[derive(Clone, Copy)]
pub(crate) struct Extent {
    /// None of them is empty.
    pub(crate) fills: bool,
    /// None of them has two elements or more.
    pub(crate) short: bool,
}

/// A least and a greatest number of elements.
#[derive(Clone, Copy)]
pub(crate) struct Window {
    pub(crate) least: usize,
    pub(crate) greatest: usize,
}

impl Extent {
    fn exactly_one() -> Extent
        ensures { result ≡ exactly_one }
    {
        Extent {
            fills: true,
            short: true,
        }
    }

    fn any_number() -> Extent
        ensures { result ≡ any_number }
    {
        Extent {
            fills: false,
            short: false,
        }
    }

    /// What holds of both.
    fn both(self, other: Extent) -> Extent
        ensures { result ≡ both self other }
    {
        Extent {
            fills: self.fills && other.fills,
            short: self.short && other.short,
        }
    }
}

/// What is too much for the other patterns, where each takes one element at most.
fn least_left(bounded: bool, count: usize, others: usize) -> usize
    ensures { result ≡ if bounded then count - others else 0 }
{
    if bounded {
        count.saturating_sub(others)
    } else {
        0
    }
}

impl Constructs {
    /// What a pattern can take, as its outermost forms tell.
    #[cycle(extent)]
    #[tactic(auto, using(crate::proofs::Places::item_steps))]
    fn extent(&self, pattern: &Expr) -> Extent
        ensures { result ≡ extent self.now pattern.now }
    {
        let Node::Normal(head, items) = pattern.node() else {
            return Extent::exactly_one();
        };
        match self.form(head, items.len()) {
            Form::One | Form::OneOf | Form::Verbatim | Form::Ordinary => Extent::exactly_one(),
            Form::Some | Form::SomeOf => Extent {
                fills: true,
                short: false,
            },
            Form::Any | Form::AnyOf => Extent::any_number(),
            Form::Named => match items.as_slice() {
                [_, second, ..] => self.extent(second),
                _ => Extent::any_number(),
            },
            Form::Tested | Form::Conditioned | Form::Held => match items.as_slice() {
                [first, ..] => self.extent(first),
                [] => Extent::any_number(),
            },
            Form::Alternatives => self.extent_of_each(items.as_slice()),
        }
    }

    /// What holds of each of some patterns.
    #[cycle(extent)]
    #[tactic(auto, using(crate::proofs::Extents::extent_steps))]
    fn extent_of_each(&self, patterns: &[Expr]) -> Extent
        ensures { result ≡ all_extent self.now (trees patterns.now) }
    {
        let mut all = Extent::exactly_one();
        for pattern in patterns {
            all = all.both(self.extent(pattern));
        }
        all
    }

    /// Whether a single blank takes runs that are wrapped.
    pub(crate) fn wraps(&self, how: How, pattern: &Expr) -> bool
        ensures { result ≡ wraps self.now (matching_of how) pattern.now }
    {
        how.flat && self.is_single(pattern)
    }

    /// Whether an element pattern takes one element at most.
    fn is_bounded(&self, how: How, pattern: &Expr) -> bool
        ensures { result ≡ is_bounded self.now (matching_of how) pattern.now }
    {
        if self.wraps(how, pattern) {
            return false;
        }
        self.extent(pattern).short
    }

    /// The greatest number of some elements that an element pattern takes.
    fn most(&self, how: How, pattern: &Expr, count: usize) -> usize
        ensures { result ≡ if is_bounded self.now (matching_of how) pattern.now then 1 else count }
    {
        if self.is_bounded(how, pattern) {
            1
        } else {
            count
        }
    }

    /// The number of elements that a pattern needs.
    fn least_of(&self, pattern: &Expr) -> usize
        ensures { result ≡ least_of (extent self.now pattern.now) }
    {
        if self.extent(pattern).fills { 1 } else { 0 }
    }

    /// The number of elements that the patterns from a place on need together.
    #[tactic(auto, using(crate::proofs::Extents::extent_steps))]
    fn fewest(&self, patterns: &[Expr], from: usize) -> usize
        ensures { result ≡ fewest self.now (trees (drop from patterns.now)) }
    {
        let mut count = 0;
        for at in from..patterns.len() {
            count += self.least_of(&patterns[at]);
        }
        count
    }

    /// Whether each pattern from a place on takes one element at most.
    #[tactic(auto, using(crate::proofs::Extents::extent_steps))]
    fn all_bounded(&self, how: How, patterns: &[Expr], from: usize) -> bool
        ensures { result ≡ all_bounded self.now (matching_of how) (trees (drop from patterns.now)) }
    {
        for at in from..patterns.len() {
            if !self.is_bounded(how, &patterns[at]) {
                return false;
            }
        }
        true
    }

    /// How many of some elements the first pattern can take, so that those from a place on can take what is left.
    #[tactic(auto, using(crate::proofs::Extents::window_steps))]
    pub(crate) fn window(
        &self,
        how: How,
        first: &Expr,
        patterns: &[Expr],
        from: usize,
        count: usize,
    ) -> Window
        ensures least { result.least ≡ least_size self.now (matching_of how) first.now (trees (drop from patterns.now)) count }
        ensures greatest { result.greatest ≡ greatest_size self.now (matching_of how) first.now (trees (drop from patterns.now)) count }
    {
        let others = patterns.len().saturating_sub(from);
        let bounded = self.all_bounded(how, patterns, from);
        let needed = self.least_of(first);
        let left = least_left(bounded, count, others);
        let most = self.most(how, first, count);
        let free = count.saturating_sub(self.fewest(patterns, from));
        Window {
            least: needed.max(left),
            greatest: most.min(free),
        }
    }
}

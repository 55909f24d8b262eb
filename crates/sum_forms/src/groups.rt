//! Equal rests, whose numbers are added.
ghost use Rattle.std.specs.Prelude.{◌≡◌, ◌<◌, ◌++◌, ◌+ℤ◌, [], ◌∷◌, length, get_or, set, ℤ, IfOk, OnOk, MatchOption};
ghost use Rattle.semantics.specs.Numbers as Numbers;
ghost use Rattle.semantics.specs.Numbers.{numbers_of};
ghost use Rattle.semantics.specs.Worked.{all_in_range};
ghost use Rattle.int_ops.specs.Exact.{Exactly};
ghost use Rattle.sum_forms.specs.Gathering.{Alike, add_last, gathered, merged_onto};

use canon_order::compare;
use expr_tree::Expr;
use int_ops::{OutOfRange, total};
use std::alloc::{AllocError, Global};
use std::marker::Model;

/// A number, and the rest that it belongs to.
#[derive(Debug, Drop)]
pub(crate) struct Part {
    pub number: i128,
    pub rest: Expr,
}

impl Model for Part {
    ghost use Rattle.semantics.specs.Numbers as Numbers;
    ghost use Rattle.expr_tree.specs.Code.{coded_tree};
    ghost use Rattle.std.specs.Coded.{codes};

    ghost Value = { Numbers.Part };

    ghost coded = { Prim.hlevel (codes, coded_tree) };

    ghost view = { λ p. record { number = p.number; rest = p.rest } };
}

/// A rest, and the numbers that belong to it, whose sum is judged as a whole.
#[derive(Debug, Drop)]
pub(crate) struct Group {
    numbers: Vec<i128>,
    rest: Expr,
}

impl Model for Group {
    ghost use Rattle.semantics.specs.Numbers.{Part};
    ghost use Rattle.int_ops.specs.Totals.{total};
    ghost use Rattle.expr_tree.specs.Code.{coded_tree};
    ghost use Rattle.std.specs.Coded.{codes};

    ghost Value = { Part };

    ghost coded = { Prim.hlevel (codes, coded_tree) };

    ghost view = { λ g. record { number = total g.numbers.items; rest = g.rest } };
}

impl Group {
    #[tactic(auto, using(crate::proofs::Rests::group_steps))]
    fn of(alloc: Global, number: i128, rest: Expr) -> Result<Group, AllocError>
        ensures { IfOk result (λ g. g ≡ record { number = number; rest = rest }) }
    {
        let mut numbers = Vec::new(alloc);
        numbers.push(number)?;
        Ok(Group { numbers, rest })
    }

    #[tactic(auto, using(crate::proofs::Rests::group_steps))]
    fn add(&mut self, number: i128) -> Result<(), AllocError>
        ensures { OnOk result (self.new ≡ record { number = self.old.number +ℤ number; rest = self.old.rest }) }
    {
        self.numbers.push(number)?;
        Ok(())
    }

    /// The sum of the numbers.
    pub fn number(&self) -> Result<i128, OutOfRange>
        ensures { Exactly self.now.number result }
    {
        total(self.numbers.as_slice())
    }

    pub fn rest(&self) -> &Expr
        ensures { result.now ≡ self.now.rest }
    {
        &self.rest
    }
}

/// The place of a rest, if it is the last.
#[tactic(auto, using(crate::proofs::Rests::place_steps))]
fn place_of(groups: &[Group], rest: &Expr) -> Option<usize>
    ensures { MatchOption result
        ((n : ℤ) → add_last (record { number = n; rest = rest.now }) groups.now ≡ groups.now ++ record { number = n; rest = rest.now } ∷ [])
        (λ at. (at < length groups.now) × ((n : ℤ) (q : Numbers.Part) → q ≡ get_or groups.now at q → add_last (record { number = n; rest = rest.now }) groups.now ≡ set groups.now at (record { number = q.number +ℤ n; rest = q.rest }))) }
{
    let last = groups.len().checked_sub(1)?;
    let group = &groups[last];
    if rest.equals(&group.rest) {
        return Some(last);
    }
    None
}

/// Adds a part to the last group, if that has its rest, or begins a group.
#[tactic(auto, using(crate::proofs::Rests::place_steps))]
fn add_to(alloc: Global, groups: &mut Vec<Group>, part: &Part) -> Result<(), AllocError>
    ensures { OnOk result (groups.new.items ≡ add_last part.now groups.old.items) }
{
    match place_of(groups.as_slice(), &part.rest) {
        Some(at) => groups[at].add(part.number),
        None => {
            let rest = part.rest.copy(alloc)?;
            groups.push(Group::of(alloc, part.number, rest)?)?;
            Ok(())
        }
    }
}

/// Groups of parts with equal rests side by side.
#[tactic(auto, using(crate::proofs::Rests::place_steps))]
fn merged(alloc: Global, parts: &[Part]) -> Result<Vec<Group>, AllocError>
    ensures { IfOk result (λ groups. groups.items ≡ merged_onto parts.now []) }
{
    let mut groups = Vec::new(alloc);
    for part in parts {
        add_to(alloc, &mut groups, part)?;
    }
    Ok(groups)
}

/// The groups of parts, in the canonical order of the rests.
pub(crate) fn gathered(alloc: Global, parts: Vec<Part>) -> Result<Vec<Group>, AllocError>
    ensures { IfOk result (λ groups. Alike groups.items (gathered parts.items)) }
{
    let mut parts = parts;
    parts.sort_by(|a, b| compare(&a.rest, &b.rest))?;
    merged(alloc, parts.as_slice())
}

/// Whether each sum is in range.
pub(crate) fn are_in_range(groups: &[Group]) -> bool
    ensures { result ≡ all_in_range (numbers_of groups.now) }
{
    for group in groups {
        if group.number().is_err() {
            return false;
        }
    }
    true
}

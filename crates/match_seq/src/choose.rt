// Sub-lists of elements, by size and then by positions.
ghost use Rattle.std.specs.Prelude.{◌≡◌, ◌<◌, ◌-◌, ◌∷◌, [], ◌++◌, length, drop, IfOk};
ghost use Rattle.match_seq.specs.Search.{find_choices, step, fork};
ghost use Rattle.match_seq.specs.Goals.{found_of, use_level, reach, rest, branch, after};
ghost use Rattle.match_seq.specs.declared.goal.Goal.TheVariants as goal;

use crate::fill::back;
use crate::goal::{Branch, Choice, Goal, Level, Turn};
use crate::setting::Setting;
use expr_tree::{Exprs, copy_items};
use std::alloc::{AllocError, Global};

impl Setting {
    /// The branch that goes on choosing, of copies.
    fn copied_choose(
        &self,
        alloc: Global,
        level: &Level,
        size: usize,
        choice: Choice,
        onward: &Branch,
    ) -> Result<Branch, AllocError>
        ensures { IfOk result (λ b. branch self.now b ≡ find_choices (use_level self.now level.now (rest self.now onward.now) (found_of onward.now.found)) size choice.taken choice.left (drop choice.at choice.elements)) }
    {
        let onward = onward.copy(alloc)?;
        let made = self.before(Goal::Choose(level.copy(alloc)?, size, choice), onward)?;
        Ok(made)
    }

    /// The branch that takes a sub-list of a size, of copies.
    fn of_elements(
        &self,
        alloc: Global,
        level: &Level,
        size: usize,
        elements: &Exprs,
        onward: &Branch,
    ) -> Result<Branch, AllocError>
        ensures { IfOk result (λ b. branch self.now b ≡ find_choices (use_level self.now level.now (rest self.now onward.now) (found_of onward.now.found)) size [] [] elements.now) }
    {
        let choice = Choice::of(alloc, copy_items(alloc, elements)?);
        let made = self.copied_choose(alloc, level, size, choice, onward)?;
        Ok(made)
    }

    #[tactic(auto, using(crate::proofs::Ways::way_steps))]
    pub(crate) fn sizes(
        &self,
        alloc: Global,
        level: Level,
        size: usize,
        end: usize,
        elements: Exprs,
        onward: Branch,
    ) -> Result<Turn, AllocError>
        ensures { IfOk result (λ t. after self.now t ≡ reach self.now (goal.Sizes level size end elements) (rest self.now onward) (found_of onward.found)) }
    {
        if size < end {
            let first = self.of_elements(alloc, &level, size, &elements, &onward)?;
            let later = self.before(Goal::Sizes(level, size + 1, end, elements), onward)?;
            return Ok(Turn::Two(Some(first), later));
        }
        let last = self.of_elements(alloc, &level, size, &elements, &onward)?;
        Ok(Turn::One(Some(last)))
    }

    #[tactic(auto, using(crate::proofs::Ways::way_steps))]
    fn chosen(
        &self,
        alloc: Global,
        level: &Level,
        choice: Choice,
        onward: Branch,
    ) -> Result<Turn, AllocError>
        ensures { IfOk result (λ t. after self.now t ≡ step (use_level self.now level.now (rest self.now onward) (found_of onward.found) choice.taken (choice.left ++ drop choice.at choice.elements))) }
    {
        let Choice {
            taken,
            mut left,
            elements,
            at,
        } = choice;
        left.append(back(alloc, &elements, at)?)?;
        let made = self.used(alloc, level, taken, left, onward)?;
        Ok(Turn::One(made))
    }

    /// All elements that come next are taken.
    #[tactic(auto, using(crate::proofs::Ways::way_steps))]
    fn all_taken(
        &self,
        alloc: Global,
        level: &Level,
        choice: Choice,
        onward: Branch,
    ) -> Result<Turn, AllocError>
        ensures { IfOk result (λ t. after self.now t ≡ step (use_level self.now level.now (rest self.now onward) (found_of onward.found) (choice.taken ++ drop choice.at choice.elements) choice.left)) }
    {
        let Choice {
            mut taken,
            left,
            elements,
            at,
        } = choice;
        taken.append(back(alloc, &elements, at)?)?;
        let made = self.used(alloc, level, taken, left, onward)?;
        Ok(Turn::One(made))
    }

    /// The branch that takes one element more, and the one that leaves it.
    fn forked(
        &self,
        alloc: Global,
        level: Level,
        size: usize,
        with: Choice,
        without: Choice,
        onward: Branch,
    ) -> Result<Turn, AllocError>
        requires { 0 < size }
        ensures { IfOk result (λ t. after self.now t ≡ fork (find_choices (use_level self.now level (rest self.now onward) (found_of onward.found)) (size - 1) with.taken with.left (drop with.at with.elements)) (find_choices (use_level self.now level (rest self.now onward) (found_of onward.found)) size without.taken without.left (drop without.at without.elements))) }
    {
        let first = self.copied_choose(alloc, &level, size - 1, with, &onward)?;
        let later = self.before(Goal::Choose(level, size, without), onward)?;
        Ok(Turn::Two(Some(first), later))
    }

    #[tactic(auto, using(crate::proofs::Ways::choose_steps))]
    pub(crate) fn choose(
        &self,
        alloc: Global,
        level: Level,
        size: usize,
        choice: Choice,
        onward: Branch,
    ) -> Result<Turn, AllocError>
        ensures { IfOk result (λ t. after self.now t ≡ reach self.now (goal.Choose level size choice) (rest self.now onward) (found_of onward.found)) }
    {
        if size == 0 {
            return self.chosen(alloc, &level, choice, onward);
        }
        let there = choice.elements.len().saturating_sub(choice.at);
        if there < size {
            return Ok(Turn::One(None));
        }
        if there == size {
            return self.all_taken(alloc, &level, choice, onward);
        }
        let Some(next) = choice.elements.get(choice.at) else {
            return Ok(Turn::One(None));
        };
        let with = choice.taking(alloc, next)?;
        let left = next.copy(alloc)?;
        let without = choice.leaving(left)?;
        self.forked(alloc, level, size, with, without, onward)
    }
}

// One step of a search.
ghost use Rattle.std.specs.Prelude.{◌≡◌, IfOk};
ghost use Rattle.match_seq.specs.Goals.{found_of, reach, rest, after};
ghost use Rattle.match_seq.specs.declared.goal.Goal.TheVariants as goal;

use crate::found::Guards;
use crate::goal::{Branch, Goal, Level, Turn};
use crate::setting::Setting;
use expr_tree::{Exprs, copy_items};
use std::alloc::{AllocError, Global};

impl Setting {
    #[tactic(auto, using(crate::proofs::Ways::fill_steps))]
    fn one_of(
        &self,
        alloc: Global,
        level: Level,
        run: Exprs,
        onward: Branch,
    ) -> Result<Turn, AllocError>
        ensures { IfOk result (λ t. after self.now t ≡ reach self.now (goal.OneOf level run) (rest self.now onward) (found_of onward.found)) }
    {
        let Some(first) = level.first() else {
            return Ok(Turn::One(None));
        };
        let first = Goal::Take(first.copy(alloc)?, copy_items(alloc, &run)?);
        let first = self.before(first, onward.copy(alloc)?)?;
        let others = Level {
            pattern: level.pattern.copy(alloc)?,
            at: level.at + 1,
        };
        let later = self.before(Goal::OneOf(others, run), onward)?;
        Ok(Turn::Two(Some(first), later))
    }

    #[tactic(auto, using(crate::proofs::Steps::form_steps))]
    fn guarded(&self, guards: Guards, onward: Branch) -> Result<Turn, AllocError>
        ensures { IfOk result (λ t. after self.now t ≡ reach self.now (goal.Guarded guards) (rest self.now onward) (found_of onward.found)) }
    {
        let Branch { goals, found } = onward;
        let found = found.guarded(guards)?;
        Ok(Turn::One(Some(Branch { goals, found })))
    }

    /// Where a goal leads in one step.
    pub(crate) fn turn(&self, alloc: Global, goal: Goal, onward: Branch) -> Result<Turn, AllocError>
        ensures { IfOk result (λ t. after self.now t ≡ reach self.now goal (rest self.now onward) (found_of onward.found)) }
    {
        match goal {
            Goal::Take(pattern, run) => self.take(alloc, &pattern, run, onward),
            Goal::Fill(level, elements) => self.fill(level, elements, onward),
            Goal::Runs(level, size, end, elements) => {
                self.runs(alloc, level, size, end, elements, onward)
            }
            Goal::Sizes(level, size, end, elements) => {
                self.sizes(alloc, level, size, end, elements, onward)
            }
            Goal::Choose(level, size, choice) => self.choose(alloc, level, size, choice, onward),
            Goal::OneOf(level, run) => self.one_of(alloc, level, run, onward),
            Goal::Guarded(guards) => self.guarded(guards, onward),
        }
    }
}

// Element patterns are filled with elements.
ghost use Rattle.std.specs.Prelude.{◌≡◌, ◌∷◌, [], take, drop, IfOk};
ghost use Rattle.match_seq.specs.Search.{wrapped, step, find_end, find_within};
ghost use Rattle.match_seq.specs.Goals.{found_of, how_in, use_level, reach, rest, branch_or_dead, after};
ghost use Rattle.match_seq.specs.declared.goal.Goal.TheVariants as goal;

use crate::extent::Window;
use crate::goal::{Branch, Goal, Level, Turn};
use crate::setting::{Setting, head_in};
use crate::shapes::first_of;
use expr_tree::{Expr, Exprs, Node, copy_items};
use item_list::Items;
use std::alloc::{AllocError, Global};

fn copies(alloc: Global, items: &[Expr]) -> Result<Exprs, AllocError>
    ensures { IfOk result (λ copies. copies ≡ items.now) }
{
    let mut copies = Items::new(alloc);
    for item in items {
        copies.push(item.copy(alloc)?)?;
    }
    Ok(copies)
}

/// The first elements.
#[tactic(auto, using(crate::proofs::Ways::part_steps))]
fn front(alloc: Global, elements: &Exprs, count: usize) -> Result<Exprs, AllocError>
    ensures { IfOk result (λ es. es ≡ take count elements.now) }
{
    if elements.len() <= count {
        return copy_items(alloc, elements);
    }
    copies(alloc, &elements.as_slice()[..count])
}

/// The elements from a place on.
#[tactic(auto, using(crate::proofs::Ways::part_steps))]
pub(crate) fn back(alloc: Global, elements: &Exprs, from: usize) -> Result<Exprs, AllocError>
    ensures { IfOk result (λ es. es ≡ drop from elements.now) }
{
    if elements.len() <= from {
        return Ok(Items::new(alloc));
    }
    copies(alloc, &elements.as_slice()[from..])
}

/// A run of several elements as one expression, where it is to be wrapped.
fn wrapped(alloc: Global, wraps: bool, head: &Expr, run: Exprs) -> Result<Exprs, AllocError>
    ensures { IfOk result (λ es. es ≡ wrapped wraps head.now run) }
{
    if wraps && 1 < run.len() {
        let Ok(whole) = Expr::normal(alloc, head.copy(alloc)?, run) else {
            return Err(AllocError);
        };
        let mut only = Items::new(alloc);
        only.push(whole)?;
        return Ok(only);
    }
    Ok(run)
}

impl Setting {
    /// The first element pattern takes a run, and the others what is left.
    #[tactic(auto, using(crate::proofs::Ways::fill_steps))]
    pub(crate) fn used(
        &self,
        alloc: Global,
        level: &Level,
        run: Exprs,
        left: Exprs,
        onward: Branch,
    ) -> Result<Option<Branch>, AllocError>
        ensures { IfOk result (λ b. branch_or_dead self.now b ≡ use_level self.now level.now (rest self.now onward) (found_of onward.found) run left) }
    {
        let Some(first) = level.first() else {
            return Ok(None);
        };
        let wraps = self.constructs.wraps(self.how_in(&level.pattern), first);
        let run = wrapped(alloc, wraps, head_in(&level.pattern), run)?;
        let others = Level {
            pattern: level.pattern.copy(alloc)?,
            at: level.at + 1,
        };
        let onward = self.before(Goal::Fill(others, left), onward)?;
        Ok(Some(self.before(Goal::Take(first.copy(alloc)?, run), onward)?))
    }

    /// There are no element patterns left.
    #[tactic(auto, using(crate::proofs::Ways::fill_steps))]
    fn emptied(&self, elements: &Exprs, onward: Branch) -> Turn
        ensures { after self.now result ≡ find_end elements.now (rest self.now onward) (found_of onward.found) }
    {
        if elements.is_empty() {
            Turn::One(Some(onward))
        } else {
            Turn::One(None)
        }
    }

    /// The first element pattern takes a number of elements within a window.
    #[tactic(auto, using(crate::proofs::Ways::fill_steps))]
    fn within(
        &self,
        level: Level,
        window: Window,
        elements: Exprs,
        onward: Branch,
    ) -> Result<Turn, AllocError>
        ensures { IfOk result (λ t. after self.now t ≡ step (find_within (how_in self.now level.pattern).orderless window.least window.greatest (use_level self.now level (rest self.now onward) (found_of onward.found)) elements)) }
    {
        let Window { least, greatest } = window;
        if greatest < least {
            return Ok(Turn::One(None));
        }
        if self.how_in(&level.pattern).orderless {
            self.one(Goal::Sizes(level, least, greatest, elements), onward)
        } else {
            self.one(Goal::Runs(level, least, greatest, elements), onward)
        }
    }

    /// The element patterns of a level are filled with elements.
    #[tactic(auto, using(crate::proofs::Ways::fill_steps))]
    pub(crate) fn fill(
        &self,
        level: Level,
        elements: Exprs,
        onward: Branch,
    ) -> Result<Turn, AllocError>
        ensures { IfOk result (λ t. after self.now t ≡ reach self.now (goal.Fill level elements) (rest self.now onward) (found_of onward.found)) }
    {
        let Node::Normal(_, patterns) = level.pattern.node() else {
            return Ok(self.emptied(&elements, onward));
        };
        let Some(first) = first_of(patterns, level.at) else {
            return Ok(self.emptied(&elements, onward));
        };
        let how = self.how_in(&level.pattern);
        let patterns = patterns.as_slice();
        let window = self
            .constructs
            .window(how, first, patterns, level.at + 1, elements.len());
        self.within(level, window, elements, onward)
    }

    /// The first element pattern takes this many elements from the front.
    fn of_size(
        &self,
        alloc: Global,
        level: &Level,
        size: usize,
        elements: &Exprs,
        onward: Branch,
    ) -> Result<Option<Branch>, AllocError>
        ensures { IfOk result (λ b. branch_or_dead self.now b ≡ use_level self.now level.now (rest self.now onward) (found_of onward.found) (take size elements.now) (drop size elements.now)) }
    {
        let taken = front(alloc, elements, size)?;
        let left = back(alloc, elements, size)?;
        let made = self.used(alloc, level, taken, left, onward)?;
        Ok(made)
    }

    fn copied_of_size(
        &self,
        alloc: Global,
        level: &Level,
        size: usize,
        elements: &Exprs,
        onward: &Branch,
    ) -> Result<Option<Branch>, AllocError>
        ensures { IfOk result (λ b. branch_or_dead self.now b ≡ use_level self.now level.now (rest self.now onward.now) (found_of onward.now.found) (take size elements.now) (drop size elements.now)) }
    {
        let onward = onward.copy(alloc)?;
        let made = self.of_size(alloc, level, size, elements, onward)?;
        Ok(made)
    }

    #[tactic(auto, using(crate::proofs::Ways::run_steps))]
    pub(crate) fn runs(
        &self,
        alloc: Global,
        level: Level,
        size: usize,
        end: usize,
        elements: Exprs,
        onward: Branch,
    ) -> Result<Turn, AllocError>
        ensures { IfOk result (λ t. after self.now t ≡ reach self.now (goal.Runs level size end elements) (rest self.now onward) (found_of onward.found)) }
    {
        if size < end && size < elements.len() {
            let first = self.copied_of_size(alloc, &level, size, &elements, &onward)?;
            let later = self.before(Goal::Runs(level, size + 1, end, elements), onward)?;
            return Ok(Turn::Two(first, later));
        }
        let last = self.of_size(alloc, &level, size, &elements, onward)?;
        Ok(Turn::One(last))
    }
}

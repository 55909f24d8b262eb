ghost use Rattle.std.specs.Prelude.{◌≡◌, [], ◌∷◌, ◌++◌, ◌+◌, ◌-◌, ◌^◌, ◌<◌, drop, length, IfOk, MatchOption, OnSome};
ghost use Rattle.expr_tree.specs.Tree.{trees, nil, cons};
ghost use Rattle.semantics.specs.Names.{items_of};
ghost use Rattle.match_seq.specs.Goals.{head_in};

use crate::found::{Found, Guards, copy_guards};
use crate::shapes::first_of;
use expr_tree::{Expr, Exprs, Node, copy_items};
use item_list::Items;
use std::alloc::{AllocError, Global};

/// The element patterns of a normal pattern, from a place on.
#[derive(Drop)]
pub(crate) struct Level {
    pub(crate) pattern: Expr,
    pub(crate) at: usize,
}

/// A sub-list that is being chosen: what was taken, what was left, and the elements that come next.
#[derive(Drop)]
pub(crate) struct Choice {
    pub(crate) taken: Exprs,
    pub(crate) left: Exprs,
    pub(crate) elements: Exprs,
    pub(crate) at: usize,
}

/// What is to be matched.
#[derive(Drop)]
pub(crate) enum Goal {
    /// A pattern takes a run.
    Take(Expr, Exprs),
    /// Element patterns are filled with elements.
    Fill(Level, Exprs),
    /// The first element pattern takes a number of elements from the front, or more up to another number.
    Runs(Level, usize, usize, Exprs),
    /// The first element pattern takes a sub-list of a size, or of one up to another size.
    Sizes(Level, usize, usize, Exprs),
    /// The first element pattern takes what was taken, and this many elements more.
    Choose(Level, usize, Choice),
    /// The first alternative takes a run, or one of the others.
    OneOf(Level, Exprs),
    /// Guards are added.
    Guarded(Guards),
}

/// Goals, the next one last, and what was found on the way to them.
#[derive(Drop)]
pub(crate) struct Branch {
    pub(crate) goals: Items<Goal>,
    pub(crate) found: Found,
}

/// Where one step of a search leads, in order.
#[derive(Drop)]
pub(crate) enum Turn {
    One(Option<Branch>),
    Two(Option<Branch>, Branch),
}

impl Level {
    pub(crate) fn copy(&self, alloc: Global) -> Result<Level, AllocError>
        ensures { IfOk result (λ level. level ≡ self.now) }
    {
        Ok(Level {
            pattern: self.pattern.copy(alloc)?,
            at: self.at,
        })
    }

    /// The first of the element patterns.
    #[tactic(auto, using(expr_tree::proofs::Callers::tree_steps))]
    pub(crate) fn first(&self) -> Option<&Expr>
        ensures value { MatchOption result (trees (drop self.now.at (items_of self.now.pattern)) ≡ nil) (λ p. trees (drop self.now.at (items_of self.now.pattern)) ≡ cons p.now (trees (drop (self.now.at + 1) (items_of self.now.pattern)))) }
        ensures within { OnSome result (self.now.at < 2 ^ 64 - 1) }
    {
        match self.pattern.node() {
            Node::Normal(_, items) => first_of(items, self.at),
            _ => None,
        }
    }
}

impl Choice {
    /// Nothing of the elements is taken or left yet.
    pub(crate) fn of(alloc: Global, elements: Exprs) -> Choice
        ensures { result ≡ record { taken = []; left = []; elements = elements; at = 0 } }
    {
        Choice {
            taken: Items::new(alloc),
            left: Items::new(alloc),
            elements,
            at: 0,
        }
    }

    pub(crate) fn copy(&self, alloc: Global) -> Result<Choice, AllocError>
        ensures { IfOk result (λ choice. choice ≡ self.now) }
    {
        Ok(Choice {
            taken: copy_items(alloc, &self.taken)?,
            left: copy_items(alloc, &self.left)?,
            elements: copy_items(alloc, &self.elements)?,
            at: self.at,
        })
    }
}

impl Choice {
    /// A copy in which the next element is taken.
    pub(crate) fn taking(&self, alloc: Global, next: &Expr) -> Result<Choice, AllocError>
        requires { self.now.at < length self.now.elements }
        ensures { IfOk result (λ choice. choice ≡ record { taken = self.now.taken ++ next.now ∷ []; left = self.now.left; elements = self.now.elements; at = self.now.at + 1 }) }
    {
        let mut taken = copy_items(alloc, &self.taken)?;
        taken.push(next.copy(alloc)?)?;
        let _count = self.elements.len();
        Ok(Choice {
            taken,
            left: copy_items(alloc, &self.left)?,
            elements: copy_items(alloc, &self.elements)?,
            at: self.at + 1,
        })
    }

    /// The next element is left.
    pub(crate) fn leaving(self, next: Expr) -> Result<Choice, AllocError>
        requires { self.at < length self.elements }
        ensures { IfOk result (λ choice. choice ≡ record { taken = self.taken; left = self.left ++ next ∷ []; elements = self.elements; at = self.at + 1 }) }
    {
        let Choice {
            taken,
            mut left,
            elements,
            at,
        } = self;
        left.push(next)?;
        let _count = elements.len();
        Ok(Choice {
            taken,
            left,
            elements,
            at: at + 1,
        })
    }
}

impl Goal {
    fn copy(&self, alloc: Global) -> Result<Goal, AllocError>
        ensures { IfOk result (λ goal. goal ≡ self.now) }
    {
        Ok(match self {
            Goal::Take(pattern, run) => Goal::Take(pattern.copy(alloc)?, copy_items(alloc, run)?),
            Goal::Fill(level, elements) => {
                Goal::Fill(level.copy(alloc)?, copy_items(alloc, elements)?)
            }
            Goal::Runs(level, size, end, elements) => {
                Goal::Runs(
                    level.copy(alloc)?,
                    *size,
                    *end,
                    copy_items(alloc, elements)?,
                )
            }
            Goal::Sizes(level, size, end, elements) => {
                Goal::Sizes(
                    level.copy(alloc)?,
                    *size,
                    *end,
                    copy_items(alloc, elements)?,
                )
            }
            Goal::Choose(level, size, choice) => {
                Goal::Choose(level.copy(alloc)?, *size, choice.copy(alloc)?)
            }
            Goal::OneOf(level, run) => Goal::OneOf(level.copy(alloc)?, copy_items(alloc, run)?),
            Goal::Guarded(guards) => Goal::Guarded(copy_guards(alloc, guards)?),
        })
    }
}

fn copy_goals(alloc: Global, goals: &Items<Goal>) -> Result<Items<Goal>, AllocError>
    ensures { IfOk result (λ copies. copies ≡ goals.now) }
{
    let mut copies = Items::new(alloc);
    for goal in goals.as_slice() {
        copies.push(goal.copy(alloc)?)?;
    }
    Ok(copies)
}

impl Branch {
    pub(crate) fn copy(&self, alloc: Global) -> Result<Branch, AllocError>
        ensures { IfOk result (λ branch. branch ≡ self.now) }
    {
        Ok(Branch {
            goals: copy_goals(alloc, &self.goals)?,
            found: self.found.copy(alloc)?,
        })
    }
}

ghost use Rattle.std.specs.Prelude.{◌≡◌, ◌∷◌, ◌++◌, [], ◌+◌, ◌<◌, IfOk, OnOk, MatchOption};
ghost use Rattle.semantics.specs.Match.{nothing_found, matches};
ghost use Rattle.semantics.specs.Names as n;
ghost use Rattle.match_seq.specs.Heads.{matching, heads, told_of};
ghost use Rattle.match_seq.specs.Origin.{constructs_of};
ghost use Rattle.builtin_names.specs.Named.{names_in};
ghost use Rattle.match_seq.specs.Search.{answer, answers, steps};
ghost use Rattle.match_seq.specs.Goals.{found_of, find_pattern, branch, branch_or_dead, after, left, work};

use crate::constructs::Constructs;
use crate::found::Found;
use crate::goal::{Branch, Goal, Turn};
use crate::setting::Setting;
use crate::source::{AttrSource, add_heads};
use builtin_names::Vocabulary;
use expr_tree::Expr;
use item_list::Items;
use std::alloc::{AllocError, Global};
use std::marker::Model;

/// The bindings by which a pattern matches an expression, as far as they are still to come, in their order.
#[derive(Drop)]
pub struct Matcher {
    setting: Setting,
    stack: Items<Branch>,
}

impl Model for Matcher {
    ghost use Rattle.std.specs.Prelude.{List};
    ghost use Rattle.semantics.specs.Match.{Found};
    ghost use Rattle.match_seq.specs.Goals.{left};
    ghost use Rattle.std.specs.Coded.{coded_list};
    ghost use Rattle.match_seq.specs.Code.{coded_found};

    ghost Value = { List Found };

    ghost coded = { coded_list coded_found };

    ghost view = { λ m. left m.setting m.stack };
}

#[tactic(auto, using(crate::proofs::Stacks::stack_steps))]
fn put_some(
    _setting: &Setting,
    stack: &mut Items<Branch>,
    next: Option<Branch>,
) -> Result<(), AllocError>
    ensures left { OnOk result (left _setting.now stack.new ≡ answers (branch_or_dead _setting.now next) ++ left _setting.now stack.old) }
    ensures work { OnOk result (work _setting.now stack.new ≡ steps (branch_or_dead _setting.now next) + work _setting.now stack.old) }
{
    match next {
        None => Ok(()),
        Some(branch) => stack.push(branch),
    }
}

/// The stack with where a step leads in the place of the branch that was taken off.
#[tactic(auto, using(crate::proofs::Stacks::stack_steps))]
fn put_turn(_setting: &Setting, stack: &mut Items<Branch>, turn: Turn) -> Result<(), AllocError>
    ensures left { OnOk result (left _setting.now stack.new ≡ answers (after _setting.now turn) ++ left _setting.now stack.old) }
    ensures work { OnOk result (work _setting.now stack.new < steps (after _setting.now turn) + work _setting.now stack.old) }
{
    match turn {
        Turn::One(next) => put_some(_setting, stack, next),
        Turn::Two(first, later) => {
            stack.push(later)?;
            put_some(_setting, stack, first)
        }
    }
}

impl Setting {
    /// What a search for a pattern reads patterns by.
    fn of<A: AttrSource>(
        alloc: Global,
        constructs: Constructs,
        pattern: &Expr,
        attrs: &A,
    ) -> Result<Setting, AllocError>
        ensures constructs { IfOk result (λ s. s.constructs ≡ constructs) }
        ensures hows { IfOk result (λ s. s.hows ≡ told_of (λ s. matching (A.told attrs.now s)) (heads pattern.now)) }
    {
        let mut hows = Items::new(alloc);
        add_heads(attrs, pattern, &mut hows)?;
        Ok(Setting { constructs, hows })
    }

    /// The stack before the first step.
    #[tactic(auto, using(crate::proofs::Stacks::stack_steps))]
    fn start(
        &self,
        alloc: Global,
        pattern: &Expr,
        subject: &Expr,
    ) -> Result<Items<Branch>, AllocError>
        ensures { IfOk result (λ bs. left self.now bs ≡ answers (find_pattern self.now pattern.now (subject.now ∷ []) answer nothing_found)) }
    {
        let mut run = Items::new(alloc);
        run.push(subject.copy(alloc)?)?;
        let found = Found {
            bindings: Items::new(alloc),
            guards: Items::new(alloc),
        };
        let goals = Items::new(alloc);
        let goal = Goal::Take(pattern.copy(alloc)?, run);
        let first = self.before(goal, Branch { goals, found })?;
        let mut stack = Items::new(alloc);
        stack.push(first)?;
        Ok(stack)
    }
}

impl Matcher {
    /// The bindings by which a pattern matches an expression. A source tells what is Flat and what is Orderless.
    pub fn new<A: AttrSource>(
        alloc: Global,
        pattern: &Expr,
        subject: &Expr,
        attrs: &A,
        names: &Vocabulary,
    ) -> Result<Matcher, AllocError>
        ensures { IfOk result (λ m. m ≡ matches (names_in names.now) (λ s. matching (A.told attrs.now s)) pattern.now subject.now) }
    {
        let made = Matcher::by(alloc, Constructs::of(names), pattern, subject, attrs)?;
        Ok(made)
    }

    /// The same by the symbols of the constructs.
    pub(crate) fn by<A: AttrSource>(
        alloc: Global,
        constructs: Constructs,
        pattern: &Expr,
        subject: &Expr,
        attrs: &A,
    ) -> Result<Matcher, AllocError>
        ensures { IfOk result (λ m. (names : n.Names) → constructs ≡ constructs_of names → m ≡ matches names (λ s. matching (A.told attrs.now s)) pattern.now subject.now) }
    {
        let setting = Setting::of(alloc, constructs, pattern, attrs)?;
        let stack = setting.start(alloc, pattern, subject)?;
        Ok(Matcher { setting, stack })
    }

    /// The next binding, or `None` after the last. It looks no further than that binding.
    #[tactic(auto, using(crate::proofs::Stacks::stack_steps))]
    pub fn next(&mut self, alloc: Global) -> Result<Option<Found>, AllocError>
        ensures { IfOk result (λ found. MatchOption found ((self.old ≡ []) × (self.new ≡ [])) (λ f. self.old ≡ found_of f ∷ self.new)) }
    {
        while let Some(branch) = self.stack.pop() {
            let Branch { mut goals, found } = branch;
            let Some(goal) = goals.pop() else {
                return Ok(Some(found));
            };
            let turn = self.setting.turn(alloc, goal, Branch { goals, found })?;
            put_turn(&self.setting, &mut self.stack, turn)?;
        }
        Ok(None)
    }
}

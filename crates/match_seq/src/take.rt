// A pattern takes a run.
ghost use Rattle.std.specs.Prelude.{◌≡◌, ◌∷◌, [], ◌==◌, ◌&&◌, ltb, length, map, IfOk, OnOk};
ghost use Rattle.expr_tree.specs.Tree.{normal, trees};
ghost use Rattle.semantics.specs.Match as defined;
ghost use Rattle.semantics.specs.Match.{how_of, have_head};
ghost use Rattle.match_seq.specs.declared.constructs.Form.TheVariants as form;
ghost use Rattle.match_seq.specs.Search.{step, dead, go_on, go_with, by_first, by_two, adding, find_literal, find_bound, find_named, find_normal, find_form, find_any, find_items, parts, find};
ghost use Rattle.match_seq.specs.Forms.{form_of};
ghost use Rattle.match_seq.specs.Goals.{found_of, guard_of, told, find_pattern, reach, rest, branch, branch_or_dead, after};

use crate::constructs::Form;
use crate::found::{Guard, Guards, tests_of};
use crate::goal::{Branch, Goal, Level, Turn};
use crate::setting::Setting;
use crate::shapes::{first_of, have_head, is_alone};
use expr_tree::{Expr, Exprs, Node, Sym, copy_items};
use item_list::Items;
use std::alloc::{AllocError, Global};

impl Setting {
    /// Goes on where a test holds.
    pub(crate) fn go_on(&self, holds: bool, onward: Branch) -> Turn
        ensures { after self.now result ≡ step (go_on holds (rest self.now onward) (found_of onward.found)) }
    {
        if holds {
            Turn::One(Some(onward))
        } else {
            Turn::One(None)
        }
    }

    /// The branch with a goal before the others.
    #[tactic(auto, using(crate::proofs::Steps::goal_steps))]
    pub(crate) fn before(&self, goal: Goal, onward: Branch) -> Result<Branch, AllocError>
        ensures rest { IfOk result (λ b. rest self.now b ≡ reach self.now goal (rest self.now onward)) }
        ensures found { IfOk result (λ b. b.found ≡ onward.found) }
        ensures branch { IfOk result (λ b. branch self.now b ≡ reach self.now goal (rest self.now onward) (found_of onward.found)) }
    {
        let Branch { mut goals, found } = onward;
        goals.push(goal)?;
        Ok(Branch { goals, found })
    }

    /// Goes on with one goal more.
    pub(crate) fn one(&self, goal: Goal, onward: Branch) -> Result<Turn, AllocError>
        ensures { IfOk result (λ t. after self.now t ≡ step (reach self.now goal (rest self.now onward) (found_of onward.found))) }
    {
        Ok(Turn::One(Some(self.before(goal, onward)?)))
    }
}

impl Setting {
    /// Goes on where a test holds and the elements of a run have the first item as their head.
    #[tactic(auto, using(crate::proofs::Steps::form_steps))]
    fn headed(&self, holds: bool, items: &Exprs, run: &Exprs, onward: Branch) -> Turn
        ensures { after self.now result ≡ by_first (λ h run next found. step (go_on (holds && have_head (h.tree ∷ []) run) next found)) (parts self.now.constructs (told self.now.hows) (trees items.now)) run.now (rest self.now onward) (found_of onward.found) }
    {
        match first_of(items, 0) {
            None => Turn::One(None),
            Some(asked) => {
                let holds = holds && have_head(asked, run.as_slice());
                self.go_on(holds, onward)
            }
        }
    }

    /// A pattern takes a run, and then guards are added.
    #[tactic(auto, using(crate::proofs::Steps::form_steps))]
    fn tested(
        &self,
        alloc: Global,
        pattern: &Expr,
        guards: Guards,
        run: Exprs,
        onward: Branch,
    ) -> Result<Turn, AllocError>
        ensures { IfOk result (λ t. after self.now t ≡ step (find_pattern self.now pattern.now run (adding (λ _. map guard_of guards) run (rest self.now onward)) (found_of onward.found))) }
    {
        let onward = self.before(Goal::Guarded(guards), onward)?;
        self.one(Goal::Take(pattern.copy(alloc)?, run), onward)
    }

    #[tactic(auto, using(crate::proofs::Steps::form_steps))]
    fn asked(
        &self,
        alloc: Global,
        items: &Exprs,
        run: Exprs,
        onward: Branch,
    ) -> Result<Turn, AllocError>
        ensures { IfOk result (λ t. after self.now t ≡ by_two (λ p t run next found. step (p.finder run (adding (map (defined.Test t.tree)) run next) found)) (parts self.now.constructs (told self.now.hows) (trees items.now)) run (rest self.now onward) (found_of onward.found)) }
    {
        let (Some(pattern), Some(test)) = (first_of(items, 0), first_of(items, 1)) else {
            return Ok(Turn::One(None));
        };
        let guards = tests_of(alloc, test, &run)?;
        self.tested(alloc, pattern, guards, run, onward)
    }

    #[tactic(auto, using(crate::proofs::Steps::form_steps))]
    fn conditioned(
        &self,
        alloc: Global,
        items: &Exprs,
        run: Exprs,
        onward: Branch,
    ) -> Result<Turn, AllocError>
        ensures { IfOk result (λ t. after self.now t ≡ by_two (λ p c run next found. step (p.finder run (adding (λ _. defined.Cond c.tree ∷ []) run next) found)) (parts self.now.constructs (told self.now.hows) (trees items.now)) run (rest self.now onward) (found_of onward.found)) }
    {
        let (Some(pattern), Some(condition)) = (first_of(items, 0), first_of(items, 1)) else {
            return Ok(Turn::One(None));
        };
        let mut guards = Items::new(alloc);
        guards.push(Guard::Cond(condition.copy(alloc)?))?;
        self.tested(alloc, pattern, guards, run, onward)
    }

    #[tactic(auto, using(crate::proofs::Steps::form_steps))]
    fn held(
        &self,
        alloc: Global,
        items: &Exprs,
        run: Exprs,
        onward: Branch,
    ) -> Result<Turn, AllocError>
        ensures { IfOk result (λ t. after self.now t ≡ by_first (λ p run next found. step (p.finder run next found)) (parts self.now.constructs (told self.now.hows) (trees items.now)) run (rest self.now onward) (found_of onward.found)) }
    {
        match first_of(items, 0) {
            None => Ok(Turn::One(None)),
            Some(pattern) => self.one(Goal::Take(pattern.copy(alloc)?, run), onward),
        }
    }

    #[tactic(auto, using(crate::proofs::Steps::form_steps))]
    fn verbatim(&self, items: &Exprs, run: &Exprs, onward: Branch) -> Turn
        ensures { after self.now result ≡ by_first (λ p. find_literal p.tree) (parts self.now.constructs (told self.now.hows) (trees items.now)) run.now (rest self.now onward) (found_of onward.found) }
    {
        match first_of(items, 0) {
            None => Turn::One(None),
            Some(pattern) => self.go_on(is_alone(pattern, run), onward),
        }
    }

    /// A name is bound to a run, which a pattern then takes.
    #[tactic(auto, using(crate::proofs::Steps::form_steps))]
    fn bound(
        &self,
        alloc: Global,
        symbol: Sym,
        pattern: &Expr,
        run: Exprs,
        onward: Branch,
    ) -> Result<Turn, AllocError>
        ensures { IfOk result (λ t. after self.now t ≡ step (find_bound symbol run (find_pattern self.now pattern.now run (rest self.now onward)) (found_of onward.found))) }
    {
        let Branch { goals, found } = onward;
        match found.bind(alloc, symbol, &run)? {
            None => Ok(Turn::One(None)),
            Some(found) => {
                self.one(
                    Goal::Take(pattern.copy(alloc)?, run),
                    Branch { goals, found },
                )
            }
        }
    }
}

impl Setting {
    /// The element patterns of a whole level are filled with elements.
    pub(crate) fn filled(
        &self,
        alloc: Global,
        pattern: &Expr,
        _head: &Expr,
        _items: &Exprs,
        elements: &Exprs,
        onward: Branch,
    ) -> Result<Branch, AllocError>
        requires { pattern.now ≡ normal _head.now (trees _items.now) }
        ensures rest { IfOk result (λ b. rest self.now b ≡ find_items self.now.constructs (how_of (told self.now.hows) _head.now) _head.now (parts self.now.constructs (told self.now.hows) (trees _items.now)) elements.now (rest self.now onward)) }
        ensures found { IfOk result (λ b. b.found ≡ onward.found) }
    {
        let level = Level {
            pattern: pattern.copy(alloc)?,
            at: 0,
        };
        let made = self.before(Goal::Fill(level, copy_items(alloc, elements)?), onward)?;
        Ok(made)
    }

    #[tactic(auto, using(crate::proofs::Steps::form_steps))]
    fn alternatives(
        &self,
        alloc: Global,
        pattern: &Expr,
        _head: &Expr,
        _items: &Exprs,
        run: Exprs,
        onward: Branch,
    ) -> Result<Turn, AllocError>
        requires { pattern.now ≡ normal _head.now (trees _items.now) }
        ensures { IfOk result (λ t. after self.now t ≡ step (find_any (parts self.now.constructs (told self.now.hows) (trees _items.now)) run (rest self.now onward) (found_of onward.found))) }
    {
        let level = Level {
            pattern: pattern.copy(alloc)?,
            at: 0,
        };
        self.one(Goal::OneOf(level, run), onward)
    }

    /// A pattern that is no construct takes one normal expression.
    #[tactic(auto, using(crate::proofs::Steps::form_steps))]
    fn ordinary(
        &self,
        alloc: Global,
        pattern: &Expr,
        head: &Expr,
        items: &Exprs,
        run: &Exprs,
        onward: Branch,
    ) -> Result<Turn, AllocError>
        requires { pattern.now ≡ normal head.now (trees items.now) }
        ensures { IfOk result (λ t. after self.now t ≡ find_normal self.now.constructs (how_of (told self.now.hows) head.now) head.now (find_pattern self.now head.now) (parts self.now.constructs (told self.now.hows) (trees items.now)) run.now (rest self.now onward) (found_of onward.found)) }
    {
        let [only] = run.as_slice() else {
            return Ok(Turn::One(None));
        };
        let Node::Normal(subject_head, elements) = only.node() else {
            return Ok(Turn::One(None));
        };
        let onward = self.filled(alloc, pattern, head, items, elements, onward)?;
        let mut heads = Items::new(alloc);
        heads.push(subject_head.copy(alloc)?)?;
        self.one(Goal::Take(head.copy(alloc)?, heads), onward)
    }

    #[tactic(auto, using(crate::proofs::Steps::form_steps))]
    fn named(
        &self,
        alloc: Global,
        pattern: &Expr,
        head: &Expr,
        items: &Exprs,
        run: Exprs,
        onward: Branch,
    ) -> Result<Turn, AllocError>
        requires { pattern.now ≡ normal head.now (trees items.now) }
        ensures { IfOk result (λ t. after self.now t ≡ by_two (λ x p. find_named x.tree p.finder (find_normal self.now.constructs (how_of (told self.now.hows) head.now) head.now (find_pattern self.now head.now) (parts self.now.constructs (told self.now.hows) (trees items.now)))) (parts self.now.constructs (told self.now.hows) (trees items.now)) run (rest self.now onward) (found_of onward.found)) }
    {
        let (Some(name), Some(inner)) = (first_of(items, 0), first_of(items, 1)) else {
            return Ok(Turn::One(None));
        };
        match name.node() {
            Node::Symbol(symbol) => self.bound(alloc, *symbol, inner, run, onward),
            _ => self.ordinary(alloc, pattern, head, items, &run, onward),
        }
    }

    #[tactic(auto, using(crate::proofs::Steps::form_steps))]
    fn take_normal(
        &self,
        alloc: Global,
        pattern: &Expr,
        head: &Expr,
        items: &Exprs,
        run: Exprs,
        onward: Branch,
    ) -> Result<Turn, AllocError>
        requires { pattern.now ≡ normal head.now (trees items.now) }
        ensures { IfOk result (λ t. after self.now t ≡ find_form (form_of self.now.constructs head.now (length items.now)) (parts self.now.constructs (told self.now.hows) (trees items.now)) (find_normal self.now.constructs (how_of (told self.now.hows) head.now) head.now (find_pattern self.now head.now) (parts self.now.constructs (told self.now.hows) (trees items.now))) run (rest self.now onward) (found_of onward.found)) }
    {
        match self.constructs.form(head, items.len()) {
            Form::One => Ok(self.go_on(run.len() == 1, onward)),
            Form::OneOf => Ok(self.headed(run.len() == 1, items, &run, onward)),
            Form::Some => Ok(self.go_on(0 < run.len(), onward)),
            Form::SomeOf => Ok(self.headed(0 < run.len(), items, &run, onward)),
            Form::Any => Ok(self.go_on(true, onward)),
            Form::AnyOf => Ok(self.headed(true, items, &run, onward)),
            Form::Named => self.named(alloc, pattern, head, items, run, onward),
            Form::Tested => self.asked(alloc, items, run, onward),
            Form::Conditioned => self.conditioned(alloc, items, run, onward),
            Form::Alternatives => self.alternatives(alloc, pattern, head, items, run, onward),
            Form::Held => self.held(alloc, items, run, onward),
            Form::Verbatim => Ok(self.verbatim(items, &run, onward)),
            Form::Ordinary => self.ordinary(alloc, pattern, head, items, &run, onward),
        }
    }

    /// A pattern takes a run.
    #[tactic(auto, using(crate::proofs::Steps::form_steps))]
    pub(crate) fn take(
        &self,
        alloc: Global,
        pattern: &Expr,
        run: Exprs,
        onward: Branch,
    ) -> Result<Turn, AllocError>
        ensures { IfOk result (λ t. after self.now t ≡ find_pattern self.now pattern.now run (rest self.now onward) (found_of onward.found)) }
    {
        match pattern.node() {
            Node::Normal(head, items) => {
                self.take_normal(alloc, pattern, head, items, run, onward)
            }
            _ => Ok(self.go_on(is_alone(pattern, &run), onward)),
        }
    }
}

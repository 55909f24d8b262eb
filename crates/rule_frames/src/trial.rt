//! The trial of one rule.
ghost use Rattle.std.specs.Prelude.{◌≡◌, ◌++◌, [], IfOk, OnOk, map, None};
ghost use Rattle.semantics.specs.Attempt.{told};
ghost use Rattle.semantics.specs.Definitions.{Definitions, definition_of};
ghost use Rattle.semantics.specs.Match as match;
ghost use Rattle.semantics.specs.Rule.{condition_of};
ghost use Rattle.evaluation_steps.specs.Stopping.{AreBounded};
ghost use Rattle.builtin_names.specs.Named.{names_in};
ghost use Rattle.match_seq.specs.Goals.{guard_of};
ghost use Rattle.rule_frames.specs.Reading.{Tells, Tried};
ghost use Rattle.rule_frames.specs.Rules.{holds};
ghost use Rattle.rule_frames.specs.Trials.{asked_trial, bindings_left, left_trial, trying};

use crate::guards::question;
use crate::heads::Told;
use crate::tries::Try;
use builtin_names::{Vocabulary, is_name};
use evaluation_steps::Halt;
use expr_tree::{Expr, Limits};
use item_list::Items;
use match_seq::{AttrSource, Found, Guard, Guards, Matcher};
use rule_store::{Rule, condition_of, result_of};
use semantics::Builtin;
use std::alloc::{AllocError, Global};
use std::mem;
use substitution::Bindings;

/// The right side of a rule, the bindings that are still to come, the present one, and its guards, of which the first ones were asked for.
#[derive(Drop)]
pub(crate) struct Trial {
    pub(crate) right: Expr,
    pub(crate) matcher: Matcher,
    pub(crate) binding: Bindings,
    pub(crate) guards: Guards,
    pub(crate) at: usize,
}

/// Whether the answer to a guard is True.
fn holds(names: &Vocabulary, answer: &Option<Expr>) -> bool
    ensures { result ≡ holds (names_in names.now) answer.now }
{
    match answer {
        Some(value) => is_name(names, Builtin::True, value),
        None => false,
    }
}

impl Trial {
    /// The trial of a rule before its first binding.
    pub(crate) fn start<A: AttrSource>(
        alloc: Global,
        names: &Vocabulary,
        rule: &Rule,
        subject: &Expr,
        attrs: &A,
    ) -> Result<Trial, AllocError>
        ensures right { IfOk result (λ t. t.right ≡ rule.now.right) }
        ensures matcher { IfOk result (λ t. (d : Definitions) → Tells (names_in names.now) d (A.told attrs.now) → t.matcher ≡ match.matches (names_in names.now) (told (map (λ s. (s, definition_of (names_in names.now) d s)) (match.heads (names_in names.now) rule.now.left))) rule.now.left subject.now) }
    {
        let told = Told::of(alloc, names, rule.left(), attrs)?;
        Ok(Trial {
            right: rule.right().copy(alloc)?,
            matcher: Matcher::new(alloc, rule.left(), subject, &told, names)?,
            binding: Items::new(alloc),
            guards: Items::new(alloc),
            at: 0,
        })
    }

    /// Asks for the next guard of the present binding; where none is left, the binding is found.
    fn ask(
        &mut self,
        alloc: Global,
        names: &Vocabulary,
        limits: &Limits,
        turn: bool,
    ) -> Result<Try, Halt>
        requires bounded { AreBounded limits.now }
        ensures { (d : Definitions) → Tried (names_in names.now) d limits.now (asked_trial (names_in names.now) turn self.old) (trying (names_in names.now) result) (left_trial (names_in names.now) self.new) }
    {
        if self.at < self.guards.len() {
            let guard = &self.guards.as_slice()[self.at];
            match question(alloc, names, limits, &self.binding, guard) {
                Ok(asked) => {
                    self.at += 1;
                    return Ok(Try::Guard(asked, turn));
                }
                Err(halt) => return Err(halt),
            }
        }
        let value = result_of(names, &self.right).copy(alloc)?;
        let binding = mem::replace(&mut self.binding, Items::new(alloc));
        Ok(Try::Found(binding, value))
    }

    /// Takes a binding, with the right side's condition as its last guard.
    fn take(&mut self, alloc: Global, names: &Vocabulary, found: Found) -> Result<(), AllocError>
        ensures binding { OnOk result (self.new.binding ≡ found.bindings) }
        ensures guards { OnOk result (map guard_of self.new.guards ≡ map guard_of found.guards ++ map match.Cond (condition_of (names_in names.now) self.old.right)) }
        ensures same { OnOk result ((self.new.at ≡ 0) × (self.new.right ≡ self.old.right) × (self.new.matcher ≡ self.old.matcher)) }
    {
        let Found {
            bindings,
            mut guards,
        } = found;
        if let Some(condition) = condition_of(names, &self.right) {
            guards.push(Guard::Cond(condition.copy(alloc)?))?;
        }
        self.binding = bindings;
        self.guards = guards;
        self.at = 0;
        Ok(())
    }

    /// Goes on with the next binding.
    pub(crate) fn next(
        &mut self,
        alloc: Global,
        names: &Vocabulary,
        limits: &Limits,
    ) -> Result<Try, Halt>
        requires bounded { AreBounded limits.now }
        ensures { (d : Definitions) → Tried (names_in names.now) d limits.now (bindings_left (names_in names.now) self.old) (trying (names_in names.now) result) (left_trial (names_in names.now) self.new) }
    {
        let found = self.matcher.next(alloc)?;
        match found {
            None => Ok(Try::Fails),
            Some(found) => {
                self.take(alloc, names, found)?;
                self.ask(alloc, names, limits, true)
            }
        }
    }

    /// Goes on with the answer to its question.
    pub(crate) fn step(
        &mut self,
        alloc: Global,
        names: &Vocabulary,
        limits: &Limits,
        answer: &Option<Expr>,
    ) -> Result<Try, Halt>
        requires bounded { AreBounded limits.now }
        ensures { (d : Definitions) → Tried (names_in names.now) d limits.now (left_trial (names_in names.now) self.old answer.now) (trying (names_in names.now) result) (left_trial (names_in names.now) self.new) }
    {
        if holds(names, answer) {
            return self.ask(alloc, names, limits, false);
        }
        self.next(alloc, names, limits)
    }
}

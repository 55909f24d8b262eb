//! The rules of a list, tried in their order.
ghost use Rattle.std.specs.Prelude.{◌≡◌, ◌<◌, ◌-◌, IfOk, Option, Some, None, drop, length};
ghost use Rattle.expr_tree.specs.Tree.{Tree};
ghost use Rattle.semantics.specs.Attempt.{try_rules};
ghost use Rattle.semantics.specs.Definitions.{Definitions};
ghost use Rattle.semantics.specs.Names as n;
ghost use Rattle.semantics.specs.Program.{Prog};
ghost use Rattle.evaluation_steps.specs.Stopping.{AreBounded};
ghost use Rattle.builtin_names.specs.Named.{names_in};
ghost use Rattle.rule_frames.specs.Reading.{Tells, Goes, Tried};
ghost use Rattle.rule_frames.specs.Trials.{is_settled, left, left_rules, trying};

use crate::heads::Told;
use crate::trial::Trial;
use crate::tries::Try;
use builtin_names::Vocabulary;
use evaluation_steps::Halt;
use expr_tree::{Expr, Limits};
use match_seq::{AttrSource, Matcher};
use rule_store::Rules;
use std::alloc::{AllocError, Global};

/// An expression, rules with the place of the next one, and the trial of the one before it.
#[derive(Drop)]
pub struct Attempt {
    subject: Expr,
    rules: Rules,
    next: usize,
    trial: Option<Trial>,
}

/// Whether a part of a trial asks or ends it, so that no further rule is tried.
fn is_settled(tried: &Result<Try, Halt>) -> bool
    ensures { result ≡ is_settled tried.now }
{
    match tried {
        Ok(Try::Guard(_, _)) => true,
        Ok(Try::Found(_, _)) => true,
        Ok(Try::Fails) => false,
        Err(_) => true,
    }
}

impl Attempt {
    /// The trial of some rules on an expression. The rules are shared; those that are added later are not seen.
    pub fn start(alloc: Global, rules: &Rules, subject: &Expr) -> Result<Attempt, AllocError>
        ensures { (names : n.Names) (k : Option Tree → Prog) → IfOk result (λ a. left names a None k ≡ try_rules names rules.now subject.now (λ v. k (Some v)) (k None)) }
    {
        Ok(Attempt {
            subject: subject.copy(alloc)?,
            rules: rules.copy(alloc)?,
            next: 0,
            trial: None,
        })
    }

    /// Goes on with the trial, if there is one.
    fn go_on(
        &mut self,
        alloc: Global,
        names: &Vocabulary,
        limits: &Limits,
        answer: &Option<Expr>,
    ) -> Result<Try, Halt>
        requires bounded { AreBounded limits.now }
        ensures goes { (d : Definitions) → Goes (names_in names.now) d limits.now (left (names_in names.now) self.old answer.now) (trying (names_in names.now) result) (left (names_in names.now) self.new) (left_rules (names_in names.now) self.new) }
    {
        match &mut self.trial {
            None => Ok(Try::Fails),
            Some(trial) => trial.step(alloc, names, limits, answer),
        }
    }

    /// Goes on with the next rule.
    fn next_rule<A: AttrSource>(
        &mut self,
        alloc: Global,
        names: &Vocabulary,
        limits: &Limits,
        attrs: &A,
    ) -> Result<Try, Halt>
        requires bounded { AreBounded limits.now }
        requires more { self.old.next < length self.old.rules }
        ensures goes { (d : Definitions) → Tells (names_in names.now) d (A.told attrs.now) → Goes (names_in names.now) d limits.now (left_rules (names_in names.now) self.old) (trying (names_in names.now) result) (left (names_in names.now) self.new) (left_rules (names_in names.now) self.new) }
        ensures falls { length self.new.rules - self.new.next < length self.old.rules - self.old.next }
    {
        let at = self.next;
        let rule = &self.rules.as_slice()[at];
        self.next = at + 1;
        let mut trial = Trial::start(alloc, names, rule, &self.subject, attrs)?;
        let tried = trial.next(alloc, names, limits);
        self.trial = Some(trial);
        tried
    }

    /// Goes on with the rules that are left.
    fn try_rest<A: AttrSource>(
        &mut self,
        alloc: Global,
        names: &Vocabulary,
        limits: &Limits,
        attrs: &A,
    ) -> Result<Try, Halt>
        requires bounded { AreBounded limits.now }
        ensures tried { (d : Definitions) → Tells (names_in names.now) d (A.told attrs.now) → Tried (names_in names.now) d limits.now (left_rules (names_in names.now) self.old) (trying (names_in names.now) result) (left (names_in names.now) self.new) }
    {
        while self.next < self.rules.len() {
            let tried = self.next_rule(alloc, names, limits, attrs);
            if is_settled(&tried) {
                return tried;
            }
        }
        Ok(Try::Fails)
    }

    /// Goes on with the answer to its question, or from the start. The source tells the attributes that symbols have at this time.
    pub fn step<A: AttrSource>(
        &mut self,
        alloc: Global,
        names: &Vocabulary,
        limits: &Limits,
        attrs: &A,
        answer: Option<Expr>,
    ) -> Result<Try, Halt>
        requires bounded { AreBounded limits.now }
        ensures moved { (d : Definitions) → Tells (names_in names.now) d (A.told attrs.now) → Tried (names_in names.now) d limits.now (left (names_in names.now) self.old answer) (trying (names_in names.now) result) (left (names_in names.now) self.new) }
    {
        let tried = self.go_on(alloc, names, limits, &answer);
        if is_settled(&tried) {
            return tried;
        }
        self.try_rest(alloc, names, limits, attrs)
    }
}

ghost use Rattle.std.specs.Prelude.{◌≡◌, [], ◌<◌, ◌≤◌, ◌↔◌, length, slice_get, false, IfOk, IsTrue, MatchOption, OnOk, OnErr, OnSome};
ghost use Rattle.std.specs.List.{insert};
ghost use Rattle.std.specs.Option.{option_copied};
ghost use Rattle.semantics.specs.Rule as language;
ghost use Rattle.builtin_names.specs.Named.{names_in};
ghost use Rattle.rule_store.specs.Held.{rules_in};
ghost use Rattle.rule_store.specs.Places.{ReplacesAt};

use crate::rule::Rule;
use builtin_names::Vocabulary;
use expr_tree::Expr;
use item_list::Items;
use std::alloc::{AllocError, Global};
use std::marker::Model;
use std::mem;
use std::sync::Arc;

/// Rules in the order in which they are tried. A copy shares them, and what is written to one of the two is not seen in the other.
#[derive(Debug, Drop)]
pub struct Rules {
    held: Held,
}

/// Rules behind a count of owners, or own ones where there are none or memory was short.
#[derive(Debug, Drop)]
enum Held {
    Own(Vec<Rule>),
    Shared(Arc<Vec<Rule>>),
}

impl Model for Rules {
    ghost use Rattle.std.specs.Prelude.{List};
    ghost use Rattle.std.specs.Coded.{coded_list};
    ghost use Rattle.semantics.specs.Rule as language;
    ghost use Rattle.rule_store.specs.Code.{coded_rule};

    ghost Value = { List language.Rule };

    ghost coded = { coded_list coded_rule };

    ghost use Rattle.rule_store.specs.Held.{rules_in};

    ghost view = { λ r. rules_in r.held };
}

impl Held {
    /// Rules that are ready to be shared, or own ones where memory is short.
    fn of(alloc: Global, rules: Vec<Rule>) -> Held
        ensures { rules_in result ≡ rules.items }
    {
        match Arc::new(alloc, rules) {
            Ok(shared) => Held::Shared(shared),
            Err(failed) => Held::Own(failed.value),
        }
    }
}

/// The same rules in a list of their own.
fn copies_of(alloc: Global, rules: &[Rule]) -> Result<Vec<Rule>, AllocError>
    ensures { IfOk result (λ copies. copies.items ≡ rules.now) }
{
    let mut copies = Vec::with_capacity(alloc, rules.len())?;
    for rule in rules {
        copies.push(rule.copy(alloc)?)?;
    }
    Ok(copies)
}

impl Rules {
    /// No rules. They take no memory before the first `insert`.
    pub fn new(alloc: Global) -> Rules
        ensures { result ≡ [] }
    {
        Rules {
            held: Held::Own(Vec::new(alloc)),
        }
    }

    /// Rules that are tried in this order. A copy of them shares them.
    pub fn of(alloc: Global, rules: Items<Rule>) -> Rules
        ensures { result ≡ rules }
    {
        Rules {
            held: Held::of(alloc, rules.into_vec()),
        }
    }

    /// The same rules. They are shared, so this takes the same time whatever their number, unless memory was short when they were
    /// written.
    pub fn copy(&self, alloc: Global) -> Result<Rules, AllocError>
        ensures { IfOk result (λ rules. rules ≡ self.now) }
    {
        let held = match &self.held {
            Held::Own(rules) => Held::Own(copies_of(alloc, rules.as_slice())?),
            Held::Shared(rules) => Held::Shared(Arc::try_clone(rules)?),
        };
        Ok(Rules { held })
    }

    pub fn len(&self) -> usize
        ensures { result ≡ length self.now }
    {
        self.as_slice().len()
    }

    pub fn is_empty(&self) -> bool
        ensures { IsTrue result ↔ (self.now ≡ []) }
    {
        self.as_slice().is_empty()
    }

    /// The rule at a place, which is counted from 0.
    pub fn get(&self, at: usize) -> Option<&Rule>
        ensures value { option_copied result ≡ slice_get self.now at }
        ensures within { OnSome result (at < length self.now) }
    {
        self.as_slice().get(at)
    }

    /// The rules, to go over.
    pub fn as_slice(&self) -> &[Rule]
        ensures { result.now ≡ self.now }
    {
        match &self.held {
            Held::Own(rules) => rules.as_slice(),
            Held::Shared(rules) => rules.as_slice(),
        }
    }

    /// The rules, taken out to be changed. Where they have other owners they are copied. An `Err` leaves them unchanged.
    fn take(&mut self, alloc: Global) -> Result<Vec<Rule>, AllocError>
        ensures ok { IfOk result (λ rules. rules.items ≡ self.old) }
        ensures err { OnErr result (self.new ≡ self.old) }
    {
        match mem::replace(&mut self.held, Held::Own(Vec::new(alloc))) {
            Held::Own(rules) => Ok(rules),
            Held::Shared(shared) => match Arc::try_unwrap(shared) {
                Ok(rules) => Ok(rules),
                Err(shared) => {
                    let copies = copies_of(alloc, shared.as_slice());
                    self.held = Held::Shared(shared);
                    copies
                }
            },
        }
    }

    /// Puts a rule in the place of one with the same left side and condition, or before the first with a greater key. An `Err` drops
    /// it, and leaves the rules unchanged.
    pub fn insert(
        &mut self,
        alloc: Global,
        names: &Vocabulary,
        left: Expr,
        right: Expr,
    ) -> Result<(), AllocError>
        ensures ok { OnOk result (self.new ≡ language.insert (names_in names.now) (record { left = left; right = right }) self.old) }
        ensures err { OnErr result (self.new ≡ self.old) }
    {
        let rule = Rule::of(names, left, right);
        let mut rules = self.take(alloc)?;
        let inserted = insert_in(names, rule, &mut rules);
        self.held = Held::of(alloc, rules);
        inserted
    }

    /// The rules but those with a left side.
    pub fn without(&self, alloc: Global, left: &Expr) -> Result<Rules, AllocError>
        ensures { IfOk result (λ rules. rules ≡ language.remove left.now self.now) }
    {
        let rules = self.as_slice();
        let mut kept = Vec::new(alloc);
        for rule in rules {
            if !rule.left().equals(left) {
                kept.push(rule.copy(alloc)?)?;
            }
        }
        Ok(Rules {
            held: Held::of(alloc, kept),
        })
    }
}

/// Puts a rule among others. An `Err` leaves these unchanged.
#[tactic(auto, using(crate::proofs::Places::place_steps))]
fn insert_in(names: &Vocabulary, rule: Rule, rules: &mut Vec<Rule>) -> Result<(), AllocError>
    ensures ok { OnOk result (rules.new.items ≡ language.insert (names_in names.now) rule rules.old.items) }
    ensures err { OnErr result (rules.new.items ≡ rules.old.items) }
{
    if let Some(place) = replaced_place(names, &rule, rules.as_slice()) {
        rules[place] = rule;
        return Ok(());
    }
    let place = new_place(names, &rule, rules.as_slice());
    rules.insert(place, rule)?;
    Ok(())
}

/// Where the rule stands that a new one replaces.
#[tactic(auto, using(crate::proofs::Places::place_steps))]
fn replaced_place(names: &Vocabulary, new: &Rule, rules: &[Rule]) -> Option<usize>
    ensures { MatchOption result (language.is_replaced (names_in names.now) new.now rules.now ≡ false) (λ at. ReplacesAt (names_in names.now) new.now rules.now at) }
{
    for (at, old) in rules.iter().enumerate() {
        if new.replaces(names, old) {
            return Some(at);
        }
    }
    None
}

/// Where a new rule goes: before the first with a greater key.
#[tactic(auto, using(crate::proofs::Places::place_steps))]
fn new_place(names: &Vocabulary, new: &Rule, rules: &[Rule]) -> usize
    ensures within { result ≤ length rules.now }
    ensures place { insert rules.now result new.now ≡ language.insert_in (names_in names.now) new.now rules.now }
{
    let key = new.key(names);
    for (at, old) in rules.iter().enumerate() {
        if old.key(names).compare(&key).is_gt() {
            return at;
        }
    }
    rules.len()
}

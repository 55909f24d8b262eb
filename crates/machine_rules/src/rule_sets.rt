//! Rules that are read from expressions, and patterns as rules.
ghost use Rattle.std.specs.Prelude.{◌≡◌, ◌||◌, ◌∷◌, [], IfOk};
ghost use Rattle.semantics.specs.Names as n;
ghost use Rattle.semantics.specs.Replace as replace;
ghost use Rattle.semantics.specs.declared.builtin.Builtin as b;
ghost use Rattle.builtin_names.specs.Named.{names_in};

use builtin_names::{Vocabulary, is_call, items_of, truth};
use expr_tree::{Expr, pair_of};
use item_list::Items;
use rule_store::Rule;
use semantics::Builtin;
use std::alloc::{AllocError, Global};

/// A list of one rule.
pub(crate) fn one(alloc: Global, rule: Rule) -> Result<Items<Rule>, AllocError>
    ensures { IfOk result (λ rules. rules ≡ rule ∷ []) }
{
    let mut rules = Items::new(alloc);
    rules.push(rule)?;
    Ok(rules)
}

/// A pattern as a rule, whose result says nothing.
pub(crate) fn asks(
    alloc: Global,
    names: &Vocabulary,
    pattern: &Expr,
) -> Result<Items<Rule>, AllocError>
    ensures { IfOk result (λ rules. rules ≡ replace.asks (names_in names.now) pattern.now) }
{
    let left = pattern.copy(alloc)?;
    one(alloc, Rule::of(names, left, truth(names, true)))
}

/// Whether an expression is a Rule or a RuleDelayed.
fn is_rule(names: &Vocabulary, e: &Expr) -> bool
    ensures { result ≡ (n.is_call (names_in names.now) b.Builtin.Rule e.now || n.is_call (names_in names.now) b.Builtin.RuleDelayed e.now) }
{
    is_call(names, Builtin::Rule, e) || is_call(names, Builtin::RuleDelayed, e)
}

/// The rule that an expression is: `Rule` or `RuleDelayed` of two elements.
#[tactic(auto, using(expr_tree::proofs::Pairs::pair_steps, crate::proofs::RuleSets::rule_steps))]
pub(crate) fn rule_of(
    alloc: Global,
    names: &Vocabulary,
    e: &Expr,
) -> Result<Option<Rule>, AllocError>
    ensures { IfOk result (λ o. o ≡ replace.rule_of (names_in names.now) e.now) }
{
    if !is_rule(names, e) {
        return Ok(None);
    }
    let Some((left, right)) = pair_of(items_of(e)) else {
        return Ok(None);
    };
    let left = left.copy(alloc)?;
    let right = right.copy(alloc)?;
    Ok(Some(Rule::of(names, left, right)))
}

#[tactic(auto, using(crate::proofs::RuleSets::rule_steps))]
fn rules_in(
    alloc: Global,
    names: &Vocabulary,
    items: &[Expr],
) -> Result<Option<Items<Rule>>, AllocError>
    ensures { IfOk result (λ o. o ≡ replace.rules_in (names_in names.now) items.now) }
{
    let mut rules = Items::new(alloc);
    for item in items {
        let Some(rule) = rule_of(alloc, names, item)? else {
            return Ok(None);
        };
        rules.push(rule)?;
    }
    Ok(Some(rules))
}

/// One rule or a List of rules.
#[tactic(auto, using(crate::proofs::RuleSets::rule_steps))]
pub(crate) fn rule_set(
    alloc: Global,
    names: &Vocabulary,
    e: &Expr,
) -> Result<Option<Items<Rule>>, AllocError>
    ensures { IfOk result (λ o. o ≡ replace.rule_set (names_in names.now) e.now) }
{
    if is_call(names, Builtin::List, e) {
        return rules_in(alloc, names, items_of(e));
    }
    let alone = [e.copy(alloc)?];
    rules_in(alloc, names, alone.as_slice())
}

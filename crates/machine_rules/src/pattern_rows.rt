//! Rows that try a pattern on expressions in turn.
ghost use Rattle.std.specs.Prelude.{◌≡◌, Some, IfOk};
ghost use Rattle.semantics.specs.Replace as replace;
ghost use Rattle.builtin_names.specs.Named.{names_in};
ghost use Rattle.machine_steps.specs.Steps.{Starts};
ghost use Rattle.machine_rules.specs.RowLeft.{left, scanning};
ghost use Rattle.machine_rules.specs.Picks.{Picks};

use crate::parts::parts_of;
use crate::rule_row::RuleRow;
use crate::rule_sets::{asks, one, rule_of};
use crate::scan::Scan;
use crate::tally::{Pick, Tally};
use builtin_names::Vocabulary;
use expr_tree::{Expr, Node, pair_of};
use frames_control::Stack;
use item_list::Items;
use rule_store::{Rule, Rules};
use std::alloc::{AllocError, Global};

/// The machine that tries rules on expressions in turn.
fn scan(
    alloc: Global,
    rules: Items<Rule>,
    tally: Tally,
    subjects: &[Expr],
) -> Result<Option<RuleRow>, AllocError>
    ensures { IfOk result (λ m. m ≡ Some (scanning rules tally subjects.now)) }
{
    Ok(Some(RuleRow::Scan(Scan {
        rules: Rules::of(alloc, rules),
        tally,
        rest: Stack::of(alloc, subjects)?,
        present: None,
    })))
}

/// MatchQ: whether a pattern matches.
#[tactic(auto, using(expr_tree::proofs::Pairs::pair_steps))]
pub(crate) fn match_q(
    alloc: Global,
    names: &Vocabulary,
    items: &[Expr],
) -> Result<Option<RuleRow>, AllocError>
    ensures { Starts (left (names_in names.now)) (λ stay. replace.match_q (names_in names.now) stay items.now) result }
{
    let Some((subject, pattern)) = pair_of(items) else {
        return Ok(None);
    };
    let rules = asks(alloc, names, pattern)?;
    let subjects = [subject.copy(alloc)?];
    scan(alloc, rules, Tally::Decides(true), subjects.as_slice())
}

/// MemberQ: whether an element matches.
#[tactic(auto, using(expr_tree::proofs::Callers::tree_steps, expr_tree::proofs::Pairs::pair_steps))]
pub(crate) fn member_q(
    alloc: Global,
    names: &Vocabulary,
    items: &[Expr],
) -> Result<Option<RuleRow>, AllocError>
    ensures { Starts (left (names_in names.now)) (λ stay. replace.member_q (names_in names.now) stay items.now) result }
{
    let Some((list, pattern)) = pair_of(items) else {
        return Ok(None);
    };
    let Node::Normal(_, elements) = list.node() else {
        return Ok(None);
    };
    let rules = asks(alloc, names, pattern)?;
    scan(alloc, rules, Tally::Decides(true), elements.as_slice())
}

/// FreeQ: whether no part matches.
#[tactic(auto, using(expr_tree::proofs::Pairs::pair_steps))]
pub(crate) fn free_q(
    alloc: Global,
    names: &Vocabulary,
    items: &[Expr],
) -> Result<Option<RuleRow>, AllocError>
    ensures { Starts (left (names_in names.now)) (λ stay. replace.free_q (names_in names.now) stay items.now) result }
{
    let Some((subject, pattern)) = pair_of(items) else {
        return Ok(None);
    };
    let rules = asks(alloc, names, pattern)?;
    let parts = parts_of(alloc, subject)?;
    scan(alloc, rules, Tally::Decides(false), parts.as_slice())
}

/// Count: how many elements match.
#[tactic(auto, using(expr_tree::proofs::Callers::tree_steps, expr_tree::proofs::Pairs::pair_steps))]
pub(crate) fn count(
    alloc: Global,
    names: &Vocabulary,
    items: &[Expr],
) -> Result<Option<RuleRow>, AllocError>
    ensures { Starts (left (names_in names.now)) (λ stay. replace.count_row (names_in names.now) stay items.now) result }
{
    let Some((list, pattern)) = pair_of(items) else {
        return Ok(None);
    };
    let Node::Normal(_, elements) = list.node() else {
        return Ok(None);
    };
    let rules = asks(alloc, names, pattern)?;
    scan(alloc, rules, Tally::Counts(0), elements.as_slice())
}

/// The rules that Cases tries, and what it gathers.
fn cases_by(
    alloc: Global,
    names: &Vocabulary,
    pattern: &Expr,
) -> Result<(Items<Rule>, Pick), AllocError>
    ensures { IfOk result (λ r. Picks (names_in names.now) pattern.now r.0 r.1) }
{
    match rule_of(alloc, names, pattern)? {
        Some(rule) => Ok((one(alloc, rule)?, Pick::Result)),
        None => Ok((asks(alloc, names, pattern)?, Pick::Subject)),
    }
}

/// Cases: the elements that match, or the results of a rule, under the head of the list.
#[tactic(auto, using(expr_tree::proofs::Callers::tree_steps, expr_tree::proofs::Pairs::pair_steps))]
pub(crate) fn cases(
    alloc: Global,
    names: &Vocabulary,
    items: &[Expr],
) -> Result<Option<RuleRow>, AllocError>
    ensures { Starts (left (names_in names.now)) (λ stay. replace.cases (names_in names.now) stay items.now) result }
{
    let Some((list, pattern)) = pair_of(items) else {
        return Ok(None);
    };
    let Node::Normal(head, elements) = list.node() else {
        return Ok(None);
    };
    let (rules, pick) = cases_by(alloc, names, pattern)?;
    let tally = Tally::Gathers(pick, head.copy(alloc)?, Items::new(alloc));
    scan(alloc, rules, tally, elements.as_slice())
}

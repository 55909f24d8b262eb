ghost use Rattle.std.specs.Prelude.{◌≡◌, IfOk};
ghost use Rattle.std.specs.Option.{option_copied, option_to_list};
ghost use Rattle.semantics.specs.Rule as language;
ghost use Rattle.builtin_names.specs.Named.{names_in};
ghost use Rattle.rule_store.specs.Keys.{numbers_of};

use crate::key::Key;
use crate::marks::Marks;
use builtin_names::{Vocabulary, items_under};
use expr_tree::{Expr, pair_of};
use semantics::Builtin;
use std::alloc::{AllocError, Global};
use std::marker::Model;

/// A rule. Contracts see its left and its right side. Its key lies beside them, so that it is not counted again for the same names.
#[derive(Debug, Drop)]
pub struct Rule {
    left: Expr,
    right: Expr,
    key: Key,
    marks: Marks,
}

impl Model for Rule {
    ghost use Rattle.semantics.specs.Rule as language;
    ghost use Rattle.rule_store.specs.Code.{coded_rule};

    ghost Value = { language.Rule };

    ghost coded = { coded_rule };

    ghost use Rattle.rule_store.specs.Keys.{IsKeyed};

    ghost view = { λ r. record { left = r.left; right = r.right } };

    ghost invariant = { λ r. IsKeyed (record { left = r.left; right = r.right }) r.key r.marks };
}

impl Rule {
    /// The rule with these sides.
    pub fn of(names: &Vocabulary, left: Expr, right: Expr) -> Rule
        ensures { result ≡ record { left = left; right = right } }
    {
        let key = Key::of(names, &left, &right);
        let marks = Marks::of(names);
        Rule {
            left,
            right,
            key,
            marks,
        }
    }

    /// The left side.
    pub fn left(&self) -> &Expr
        ensures { result.now ≡ self.now.left }
    {
        &self.left
    }

    /// The right side.
    pub fn right(&self) -> &Expr
        ensures { result.now ≡ self.now.right }
    {
        &self.right
    }

    /// The key. Nothing is counted for the names that the rule was made with.
    pub fn key(&self, names: &Vocabulary) -> Key
        ensures { numbers_of result ≡ language.key_of (names_in names.now) self.now }
    {
        if self.marks.are(&Marks::of(names)) {
            self.key
        } else {
            Key::of(names, &self.left, &self.right)
        }
    }

    /// The same rule, whose sides are shared.
    pub fn copy(&self, alloc: Global) -> Result<Rule, AllocError>
        ensures { IfOk result (λ rule. rule ≡ self.now) }
    {
        Ok(Rule {
            left: self.left.copy(alloc)?,
            right: self.right.copy(alloc)?,
            key: self.key,
            marks: self.marks,
        })
    }

    /// Whether a rule takes the place of an old one: left sides and conditions are the same.
    pub(crate) fn replaces(&self, names: &Vocabulary, old: &Rule) -> bool
        ensures { result ≡ language.replaces (names_in names.now) self.now old.now }
    {
        self.left.equals(&old.left)
            && same_condition(
                condition_of(names, &self.right),
                condition_of(names, &old.right),
            )
    }
}

fn same_condition(a: Option<&Expr>, b: Option<&Expr>) -> bool
    ensures { result ≡ language.same_condition (option_to_list (option_copied a.entry)) (option_to_list (option_copied b.entry)) }
{
    match (a, b) {
        (None, None) => true,
        (Some(a), Some(b)) => a.equals(b),
        _ => false,
    }
}

/// The condition in a right side `r /; c`.
#[tactic(auto, using(expr_tree::proofs::Callers::tree_steps, expr_tree::proofs::Pairs::pair_steps))]
pub fn condition_of<'a>(names: &Vocabulary, right: &'a Expr) -> Option<&'a Expr>
    ensures { option_to_list (option_copied result) ≡ language.condition_of (names_in names.now) right.now }
{
    let items = items_under(names, Builtin::Condition, right)?;
    let (_, condition) = pair_of(items.as_slice())?;
    Some(condition)
}

/// What a right side gives: `r` of `r /; c`, and else all of it.
#[tactic(auto, using(expr_tree::proofs::Callers::tree_steps, expr_tree::proofs::Pairs::pair_steps))]
pub fn result_of<'a>(names: &Vocabulary, right: &'a Expr) -> &'a Expr
    ensures { result.now ≡ language.result_of (names_in names.now) right.now }
{
    let Some(items) = items_under(names, Builtin::Condition, right) else {
        return right;
    };
    match pair_of(items.as_slice()) {
        Some((value, _)) => value,
        None => right,
    }
}

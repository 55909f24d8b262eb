//! What a row makes of the expressions to which its rules apply.
ghost use Rattle.std.specs.Prelude.{◌≡◌, IfOk};
ghost use Rattle.semantics.specs.InPlace.{put_in_place};
ghost use Rattle.builtin_names.specs.Named.{names_in};
ghost use Rattle.machine_rules.specs.Scans.{Finishes, Takes, ending, picked};

use builtin_names::{Vocabulary, truth};
use evaluation_steps::Halt;
use expr_tree::Expr;
use item_list::Items;
use machine_steps::Scene;
use made_exprs::Formed;
use std::alloc::{AllocError, Global};
use substitution::Bindings;

/// What is gathered where a rule applies to an expression.
#[derive(Clone, Copy, Debug, PartialEq, Eq)]
pub enum Pick {
    /// The expression.
    Subject,
    /// The result of the rule.
    Result,
}

/// What a row makes of the expressions to which its rules apply.
#[derive(Drop)]
pub enum Tally {
    /// The first one decides: the result is this truth value, and the other one where there is none.
    Decides(bool),
    /// How many there are.
    Counts(usize),
    /// What is picked of each, under a head.
    Gathers(Pick, Expr, Items<Formed>),
}

impl Pick {
    fn pick(
        self,
        alloc: Global,
        names: &Vocabulary,
        subject: Expr,
        bindings: Bindings,
        right: Expr,
    ) -> Result<Formed, AllocError>
        ensures { IfOk result (λ f. f ≡ picked self subject (put_in_place (names_in names.now) bindings right)) }
    {
        match self {
            Pick::Subject => Ok(Formed::of(subject)),
            Pick::Result => Formed::placed(alloc, names, bindings, right),
        }
    }
}

impl Tally {
    /// A rule applies to an expression, and gives `right` with runs put in place. Where this decides, the answer is the result of the row.
    pub(crate) fn take(
        &mut self,
        alloc: Global,
        names: &Vocabulary,
        subject: Expr,
        bindings: Bindings,
        right: Expr,
    ) -> Result<Option<Expr>, AllocError>
        ensures { Takes (names_in names.now) self.old subject (put_in_place (names_in names.now) bindings right) result self.new }
    {
        match self {
            Tally::Decides(value) => Ok(Some(truth(names, *value))),
            Tally::Counts(found) => {
                // more than memory holds
                let Some(more) = found.checked_add(1) else {
                    return Err(AllocError);
                };
                *found = more;
                Ok(None)
            }
            Tally::Gathers(pick, _, found) => {
                found.push(pick.pick(alloc, names, subject, bindings, right)?)?;
                Ok(None)
            }
        }
    }

    /// The result where no expression is left.
    pub(crate) fn finish(self, scene: &Scene) -> Result<Expr, Halt>
        ensures { Finishes scene.now.limits (ending (names_in scene.now.names.now) self) result }
    {
        match self {
            Tally::Decides(value) => Ok(truth(scene.names, !value)),
            Tally::Counts(found) => Ok(Expr::int(found as i128)),
            Tally::Gathers(_, head, found) => {
                let whole = Formed::call(scene.alloc, Formed::of(head), found)?;
                match whole.made(&scene.limits) {
                    Ok(made) => Ok(made),
                    Err(stop) => Err(Halt::Stopped(stop)),
                }
            }
        }
    }
}

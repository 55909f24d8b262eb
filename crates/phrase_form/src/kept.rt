//! What is kept of phrases: an expression that is beyond the limits is left out.
ghost use Rattle.std.specs.Prelude.{◌≡◌, IfOk, Some};
ghost use Rattle.expr_tree.specs.Tree.{call};
ghost use Rattle.laws_reading.specs.Kept.{cut, keep, whole};
ghost use Rattle.phrase_form.specs.Held.{held_tree, kept_in};
ghost use Rattle.phrase_form.specs.Words.{phrase_in};

use crate::terminal::{Phrase, PhraseKind};
use expr_tree::{Built, Expr, Exprs};
use std::alloc::{AllocError, Global};

/// What is kept of a phrase.
#[derive(Drop)]
pub struct Kept {
    pub(crate) held: Held,
    pub(crate) kind: PhraseKind,
}

/// What is kept of an expression.
#[derive(Drop)]
pub(crate) enum Held {
    /// Something in it is beyond the limits.
    LeftOut,
    Whole(Expr),
    /// A head and elements, to which further ones may be added before the expression is made.
    Chain(Expr, Exprs),
}

/// The expression of a head and elements, where it is within the limits.
#[tactic(auto, using(laws_reading::proofs::Cuts::cut_steps))]
pub(crate) fn assembled(alloc: Global, head: Expr, items: Exprs) -> Result<Option<Expr>, AllocError>
    ensures { IfOk result (λ e. e ≡ cut (call head items)) }
{
    match Expr::normal(alloc, head, items) {
        Ok(expr) => Ok(Some(expr)),
        Err(Built::TooLarge) => Ok(None),
        Err(Built::TooDeep(_)) => Ok(None),
        Err(Built::NoMemory) => Err(AllocError),
    }
}

/// Nothing is cut off an expression of the program.
#[tactic(auto, using(laws_reading::proofs::Cuts::cut_steps))]
pub(crate) fn is_uncut(expr: &Expr)
    ensures { cut expr.now ≡ Some expr.now }
{
    let _size = expr.size();
    let _depth = expr.depth();
}

impl Held {
    /// The expression.
    pub(crate) fn into_expr(self, alloc: Global) -> Result<Option<Expr>, AllocError>
        ensures { IfOk result (λ e. e ≡ held_tree self) }
    {
        match self {
            Held::LeftOut => Ok(None),
            Held::Whole(expr) => Ok(Some(expr)),
            Held::Chain(head, items) => assembled(alloc, head, items),
        }
    }

    /// An expression, or none.
    pub(crate) fn of(expr: Option<Expr>) -> Held
        ensures { held_tree result ≡ expr }
    {
        match expr {
            Some(expr) => Held::Whole(expr),
            None => Held::LeftOut,
        }
    }
}

impl Kept {
    /// The phrase of an operand by itself.
    pub(crate) fn leaf(phrase: Phrase) -> Kept
        ensures { kept_in result ≡ keep (phrase_in phrase) }
    {
        is_uncut(&phrase.expr);
        Kept {
            held: Held::Whole(phrase.expr),
            kind: phrase.kind,
        }
    }

    /// A phrase to which nothing is added.
    pub(crate) fn closed(expr: Option<Expr>) -> Kept
        ensures { kept_in result ≡ whole expr }
    {
        Kept {
            held: Held::of(expr),
            kind: PhraseKind::Closed,
        }
    }

    /// The phrase in brackets.
    pub(crate) fn grouped(self) -> Kept
        ensures { kept_in result ≡ whole (kept_in self).expr }
    {
        Kept {
            held: self.held,
            kind: PhraseKind::Closed,
        }
    }

    /// The expression of the phrase, where nothing in it is beyond the limits.
    pub fn into_expr(self, alloc: Global) -> Result<Option<Expr>, AllocError>
        ensures { IfOk result (λ e. e ≡ (kept_in self).expr) }
    {
        self.held.into_expr(alloc)
    }
}

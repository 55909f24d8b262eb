//! Phrases behind a minus sign.
ghost use Rattle.std.specs.Prelude.{◌≡◌, IfOk};
ghost use Rattle.semantics.specs.Names as n;
ghost use Rattle.syntax.specs.Phrases.{negative, negated_elements, negated_product, negated_number, negated_by, negated_kind};
ghost use Rattle.builtin_names.specs.Named.{names_in};
ghost use Rattle.laws_reading.specs.Kept.{cut, negated_one, kept_negated};
ghost use Rattle.phrase_form.specs.Held.{kept_in, natural_negated, first_negated};
ghost use Rattle.phrase_form.specs.Words.{kind_in};

use crate::chain::is_same;
use crate::elements::{made, one_item, two_items};
use crate::kept::{Held, Kept, assembled, is_uncut};
use crate::terminal::PhraseKind;
use builtin_names::Vocabulary;
use expr_tree::{Expr, Exprs, Node};
use semantics::Builtin;
use std::alloc::{AllocError, Global};

/// The product with -1.
fn negative(alloc: Global, names: &Vocabulary, expr: Expr) -> Result<Option<Expr>, AllocError>
    ensures { IfOk result (λ e. e ≡ cut (negative (names_in names.now) expr)) }
{
    let items = two_items(alloc, Expr::int(-1), expr)?;
    made(alloc, names, Builtin::Times, items)
}

/// The negative of an integer that is not negative itself.
#[tactic(auto, using(crate::proofs::Negations::negation_steps))]
fn negated_natural(expr: &Expr) -> Option<Expr>
    ensures { result ≡ natural_negated expr.now }
{
    match expr.node() {
        Node::Int(value) if *value >= 0 => Some(Expr::int(-*value)),
        _ => None,
    }
}

/// A number token behind a minus sign.
#[tactic(auto, using(crate::proofs::Negations::negation_steps))]
fn negated_number(alloc: Global, names: &Vocabulary, expr: Expr) -> Result<Option<Expr>, AllocError>
    ensures { IfOk result (λ e. e ≡ cut (negated_number (names_in names.now) expr)) }
{
    match negated_natural(&expr) {
        Some(negated) => {
            is_uncut(&negated);
            Ok(Some(negated))
        }
        None => negative(alloc, names, expr),
    }
}

/// The negative of a first integer that is not negative itself.
fn negated_first(items: &[Expr]) -> Option<Expr>
    ensures { result ≡ first_negated items.now }
{
    match items {
        [first, ..] => negated_natural(first),
        [] => None,
    }
}

/// The elements of a product behind a minus sign.
#[tactic(auto, using(crate::proofs::Negations::negation_steps))]
fn negated_factors(alloc: Global, items: Exprs) -> Result<Exprs, AllocError>
    ensures { IfOk result (λ es. (names : n.Names) → es ≡ negated_elements names items) }
{
    let mut items = items;
    match negated_first(items.as_slice()) {
        Some(negated) => {
            items.set(0, negated);
            Ok(items)
        }
        None => {
            let mut all = one_item(alloc, Expr::int(-1))?;
            all.append(items)?;
            Ok(all)
        }
    }
}

/// A product behind a minus sign.
#[tactic(auto, using(expr_tree::proofs::Callers::tree_steps))]
fn negated_product(
    alloc: Global,
    names: &Vocabulary,
    expr: Expr,
) -> Result<Option<Expr>, AllocError>
    ensures { IfOk result (λ e. e ≡ cut (negated_product (names_in names.now) expr)) }
{
    match expr.into_node(alloc)? {
        Node::Normal(head, items) => {
            let items = negated_factors(alloc, items)?;
            assembled(alloc, Box::into_inner(head), items)
        }
        Node::Int(value) => negative(alloc, names, Expr::int(value)),
        Node::Str(text) => negative(alloc, names, Expr::text(text)),
        Node::Symbol(symbol) => negative(alloc, names, Expr::symbol(symbol)),
    }
}

/// An expression behind a minus sign.
fn negated_expr(
    alloc: Global,
    names: &Vocabulary,
    kind: PhraseKind,
    expr: Expr,
) -> Result<Option<Expr>, AllocError>
    ensures { IfOk result (λ e. e ≡ cut (negated_by (names_in names.now) (kind_in kind) expr)) }
{
    match kind {
        PhraseKind::NumberToken => negated_number(alloc, names, expr),
        PhraseKind::Open(row) => {
            if is_same(row, Builtin::Times) {
                negated_product(alloc, names, expr)
            } else {
                negative(alloc, names, expr)
            }
        }
        PhraseKind::Closed | PhraseKind::NameToken => negative(alloc, names, expr),
    }
}

/// What is kept of an expression behind a minus sign.
fn negated_one(
    alloc: Global,
    names: &Vocabulary,
    kind: PhraseKind,
    expr: Option<Expr>,
) -> Result<Option<Expr>, AllocError>
    ensures { IfOk result (λ e. e ≡ negated_one (names_in names.now) expr (kind_in kind)) }
{
    match expr {
        Some(expr) => negated_expr(alloc, names, kind, expr),
        None => Ok(None),
    }
}

/// What a later operator has to know of a phrase behind a minus sign.
fn negated_kind(kind: PhraseKind) -> PhraseKind
    ensures { (names : n.Names) → kind_in result ≡ negated_kind names (kind_in kind) }
{
    match kind {
        PhraseKind::NumberToken => PhraseKind::Closed,
        PhraseKind::Open(_) | PhraseKind::Closed | PhraseKind::NameToken => {
            PhraseKind::Open(Builtin::Times)
        }
    }
}

/// A phrase behind a minus sign.
pub(crate) fn negated(alloc: Global, names: &Vocabulary, x: Kept) -> Result<Kept, AllocError>
    ensures { IfOk result (λ k. kept_in k ≡ kept_negated (names_in names.now) (kept_in x)) }
{
    let kind = x.kind;
    let expr = x.held.into_expr(alloc)?;
    let negated = negated_one(alloc, names, kind, expr)?;
    Ok(Kept {
        held: Held::of(negated),
        kind: negated_kind(kind),
    })
}

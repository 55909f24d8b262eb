//! Chains of one operator.
ghost use Rattle.std.specs.Prelude.{◌≡◌, ◌∷◌, [], IfOk, Some};
ghost use Rattle.semantics.specs.Builtin.{row_number};
ghost use Rattle.semantics.specs.Names as n;
ghost use Rattle.syntax.specs.Phrases.{same_row, is_open_in, appended};
ghost use Rattle.builtin_names.specs.Named.{names_in};
ghost use Rattle.laws_reading.specs.Kept.{cut, chained_one, kept_chained};
ghost use Rattle.phrase_form.specs.Held.{held_tree, kept_in, appended_kept};
ghost use Rattle.phrase_form.specs.Words.{kind_in};

use crate::elements::two_items;
use crate::kept::{Held, Kept};
use crate::terminal::PhraseKind;
use builtin_names::{Vocabulary, name};
use expr_tree::{Expr, Node};
use semantics::Builtin;
use std::alloc::{AllocError, Global};

/// The place of a row in the table.
fn place_of(row: Builtin) -> usize
    ensures { result ≡ row_number row }
{
    row as usize
}

/// Whether two rows are the same.
pub(crate) fn is_same(a: Builtin, b: Builtin) -> bool
    ensures { result ≡ same_row a b }
{
    place_of(a) == place_of(b)
}

/// Whether a later operand may be appended to the elements under the row.
fn is_open_in(row: Builtin, kind: PhraseKind) -> bool
    ensures { result ≡ is_open_in row (kind_in kind) }
{
    match kind {
        PhraseKind::Open(other) => is_same(other, row),
        PhraseKind::Closed | PhraseKind::NameToken | PhraseKind::NumberToken => false,
    }
}

/// The first two operands of a chain.
fn started(
    alloc: Global,
    names: &Vocabulary,
    row: Builtin,
    a: Expr,
    b: Expr,
) -> Result<Held, AllocError>
    ensures { IfOk result (λ h. held_tree h ≡ cut (n.make (names_in names.now) row (a ∷ b ∷ []))) }
{
    Ok(Held::Chain(name(names, row), two_items(alloc, a, b)?))
}

/// One more operand of a chain that was made an expression.
#[tactic(auto, using(expr_tree::proofs::Callers::tree_steps))]
fn reopened(
    alloc: Global,
    names: &Vocabulary,
    row: Builtin,
    expr: Expr,
    item: Expr,
) -> Result<Held, AllocError>
    ensures { IfOk result (λ h. held_tree h ≡ cut (appended (names_in names.now) row expr item)) }
{
    match expr.into_node(alloc)? {
        Node::Normal(head, items) => {
            let mut items = items;
            items.push(item)?;
            Ok(Held::Chain(Box::into_inner(head), items))
        }
        Node::Int(value) => started(alloc, names, row, Expr::int(value), item),
        Node::Str(text) => started(alloc, names, row, Expr::text(text), item),
        Node::Symbol(symbol) => started(alloc, names, row, Expr::symbol(symbol), item),
    }
}

/// One more operand of a chain.
fn continued(
    alloc: Global,
    names: &Vocabulary,
    row: Builtin,
    held: Held,
    item: Expr,
) -> Result<Held, AllocError>
    ensures { IfOk result (λ h. held_tree h ≡ appended_kept (names_in names.now) row (held_tree held) item) }
{
    match held {
        Held::LeftOut => Ok(Held::LeftOut),
        Held::Whole(expr) => reopened(alloc, names, row, expr, item),
        Held::Chain(head, items) => {
            let mut items = items;
            items.push(item)?;
            Ok(Held::Chain(head, items))
        }
    }
}

/// What a chain holds of its operands.
fn linked(
    alloc: Global,
    names: &Vocabulary,
    row: Builtin,
    x: Kept,
    y: Expr,
) -> Result<Held, AllocError>
    ensures { IfOk result (λ h. held_tree h ≡ chained_one (names_in names.now) row (kind_in x.kind) (Some y) (held_tree x.held)) }
{
    if is_open_in(row, x.kind) {
        return continued(alloc, names, row, x.held, y);
    }
    match x.held.into_expr(alloc)? {
        Some(x) => started(alloc, names, row, x, y),
        None => Ok(Held::LeftOut),
    }
}

/// The phrase of an operator whose operands stand in one row.
pub(crate) fn chained(
    alloc: Global,
    names: &Vocabulary,
    row: Builtin,
    x: Kept,
    y: Option<Expr>,
) -> Result<Kept, AllocError>
    ensures { IfOk result (λ k. kept_in k ≡ kept_chained (names_in names.now) row (kept_in x) y) }
{
    let held = match y {
        Some(y) => linked(alloc, names, row, x, y)?,
        None => Held::LeftOut,
    };
    Ok(Kept {
        held,
        kind: PhraseKind::Open(row),
    })
}

//! Whether elements are identical.
ghost use Rattle.std.specs.Prelude.{◌≡◌, true, false};
ghost use Rattle.semantics.specs.Tests as t;
ghost use Rattle.semantics.specs.Worked.{Gives};
ghost use Rattle.builtin_names.specs.Named.{names_in};
ghost use Rattle.builtin_names.specs.Results.{Works};
ghost use Rattle.semantics.specs.Names.{truth};
ghost use Rattle.rows_tests.specs.Differ.{differ};

use builtin_names::{Fault, Vocabulary, truth};
use expr_tree::{Expr, Exprs, Node};

/// Whether each element is the one before it.
#[tactic(auto, using(crate::proofs::Neighbours::same_steps))]
fn all_same(items: &[Expr]) -> bool
    ensures { result ≡ t.all_same items.now }
{
    let pairs = items.len().saturating_sub(1);
    for i in 0..pairs {
        if !items[i].equals(&items[i + 1]) {
            return false;
        }
    }
    true
}

#[tactic(auto, using(crate::proofs::Neighbours::member_steps))]
fn stands_in(e: &Expr, items: &[Expr]) -> bool
    ensures { result ≡ t.stands_in e.now items.now }
{
    for item in items {
        if e.equals(item) {
            return true;
        }
    }
    false
}

/// Whether some two elements are identical.
#[tactic(auto, using(crate::proofs::Neighbours::some_steps))]
fn some_same(items: &[Expr]) -> bool
    ensures { result ≡ t.some_same items.now }
{
    for (i, item) in items.iter().enumerate() {
        if stands_in(item, &items[i + 1..]) {
            return true;
        }
    }
    false
}

/// Whether an element is an integer or a string.
fn is_datum(e: &Expr) -> bool
    ensures { result ≡ t.is_datum e.now }
{
    matches!(e.node(), Node::Int(_) | Node::Str(_))
}

#[tactic(auto, using(crate::proofs::Neighbours::data_steps))]
fn all_data(items: &[Expr]) -> bool
    ensures { result ≡ t.all_data items.now }
{
    for item in items {
        if !is_datum(item) {
            return false;
        }
    }
    true
}

/// Whether two expressions are integers or strings and differ.
fn differ(a: &Expr, b: &Expr) -> bool
    ensures { result ≡ differ a.now b.now }
{
    is_datum(a) && is_datum(b) && !a.equals(b)
}

#[tactic(auto, using(crate::proofs::Neighbours::differ_steps))]
fn neighbours_differ(items: &[Expr]) -> bool
    ensures { result ≡ t.neighbours_differ items.now }
{
    let pairs = items.len().saturating_sub(1);
    for i in 0..pairs {
        if differ(&items[i], &items[i + 1]) {
            return true;
        }
    }
    false
}

/// `Equal`.
pub fn row_equal(names: &Vocabulary, items: &Exprs) -> Result<Option<Expr>, Fault>
    ensures { Works (t.equal (names_in names.now) items.now) result }
{
    if all_same(items.as_slice()) {
        return Ok(Some(truth(names, true)));
    }
    if neighbours_differ(items.as_slice()) {
        return Ok(Some(truth(names, false)));
    }
    Ok(None)
}

/// `Unequal`.
pub fn row_unequal(names: &Vocabulary, items: &Exprs) -> Result<Option<Expr>, Fault>
    ensures { Works (t.unequal (names_in names.now) items.now) result }
{
    if some_same(items.as_slice()) {
        return Ok(Some(truth(names, false)));
    }
    if all_data(items.as_slice()) {
        return Ok(Some(truth(names, true)));
    }
    Ok(None)
}

/// `SameQ`.
pub fn row_same_q(names: &Vocabulary, items: &Exprs) -> Result<Option<Expr>, Fault>
    ensures { Works (Gives (truth (names_in names.now) (t.all_same items.now))) result }
{
    Ok(Some(truth(names, all_same(items.as_slice()))))
}

/// `UnsameQ`.
pub fn row_unsame_q(names: &Vocabulary, items: &Exprs) -> Result<Option<Expr>, Fault>
    ensures { Works (Gives (truth (names_in names.now) (elim (t.some_same items.now) [ true ↦ false | false ↦ true ]))) result }
{
    Ok(Some(truth(names, !some_same(items.as_slice()))))
}

//! Rows of one integer or of two.
ghost use Rattle.std.specs.Prelude.{◌≡◌, true, false, [], ◌∷◌};
ghost use Rattle.expr_tree.specs.Tree.{integer};
ghost use Rattle.semantics.specs.Numbers as n;
ghost use Rattle.builtin_names.specs.Named.{names_in};
ghost use Rattle.builtin_names.specs.Results.{Works};

use crate::answers::judged;
use builtin_names::{Fault, Vocabulary, truth};
use expr_tree::{Expr, Exprs, Node};

#[tactic(auto, using(crate::proofs::Judged::zero_steps))]
fn quotient_of(left: i128, right: i128) -> Result<Option<Expr>, Fault>
    ensures { Works (n.quotient (integer left ∷ integer right ∷ [])) result }
{
    if right == 0 {
        return Ok(None);
    }
    judged(int_ops::quotient(left, right))
}

/// `Quotient`.
pub fn row_quotient(items: &Exprs) -> Result<Option<Expr>, Fault>
    ensures { Works (n.quotient items.now) result }
{
    let [left, right] = items.as_slice() else {
        return Ok(None);
    };
    match (left.node(), right.node()) {
        (Node::Int(left), Node::Int(right)) => quotient_of(*left, *right),
        _ => Ok(None),
    }
}

#[tactic(auto, using(crate::proofs::Judged::zero_steps))]
fn modulo_of(left: i128, right: i128) -> Result<Option<Expr>, Fault>
    ensures { Works (n.modulo (integer left ∷ integer right ∷ [])) result }
{
    if right == 0 {
        return Ok(None);
    }
    judged(int_ops::modulo(left, right))
}

/// `Mod`, with the sign of the divisor.
pub fn row_mod(items: &Exprs) -> Result<Option<Expr>, Fault>
    ensures { Works (n.modulo items.now) result }
{
    let [left, right] = items.as_slice() else {
        return Ok(None);
    };
    match (left.node(), right.node()) {
        (Node::Int(left), Node::Int(right)) => modulo_of(*left, *right),
        _ => Ok(None),
    }
}

/// `EvenQ` and `OddQ`: whether the element is an integer that is even, or is not.
fn parity(names: &Vocabulary, even: bool, items: &Exprs) -> Result<Option<Expr>, Fault>
    ensures { Works (n.parity (names_in names.now) even items.now) result }
{
    let [e] = items.as_slice() else {
        return Ok(None);
    };
    match e.node() {
        Node::Int(number) => Ok(Some(truth(names, int_ops::is_even(*number) == even))),
        _ => Ok(Some(truth(names, false))),
    }
}

/// `EvenQ`.
pub fn row_even_q(names: &Vocabulary, items: &Exprs) -> Result<Option<Expr>, Fault>
    ensures { Works (n.parity (names_in names.now) true items.now) result }
{
    parity(names, true, items)
}

/// `OddQ`.
pub fn row_odd_q(names: &Vocabulary, items: &Exprs) -> Result<Option<Expr>, Fault>
    ensures { Works (n.parity (names_in names.now) false items.now) result }
{
    parity(names, false, items)
}

/// `Abs`.
pub fn row_abs(items: &Exprs) -> Result<Option<Expr>, Fault>
    ensures { Works (n.absolute items.now) result }
{
    let [e] = items.as_slice() else {
        return Ok(None);
    };
    match e.node() {
        Node::Int(number) => judged(int_ops::absolute(*number)),
        _ => Ok(None),
    }
}

/// `Sign`.
pub fn row_sign(items: &Exprs) -> Result<Option<Expr>, Fault>
    ensures { Works (n.sign items.now) result }
{
    let [e] = items.as_slice() else {
        return Ok(None);
    };
    match e.node() {
        Node::Int(number) => Ok(Some(Expr::int(int_ops::sign(*number)))),
        _ => Ok(None),
    }
}

fn factorial_of(number: i128) -> Result<Option<Expr>, Fault>
    ensures { Works (n.factorial (integer number ∷ [])) result }
{
    if number < 0 {
        return Ok(None);
    }
    judged(int_ops::factorial(number))
}

/// `Factorial`. That of a negative integer stays.
pub fn row_factorial(items: &Exprs) -> Result<Option<Expr>, Fault>
    ensures { Works (n.factorial items.now) result }
{
    let [e] = items.as_slice() else {
        return Ok(None);
    };
    match e.node() {
        Node::Int(number) => factorial_of(*number),
        _ => Ok(None),
    }
}

ghost use Rattle.std.specs.Prelude.{◌≡◌};
ghost use Rattle.expr_tree.specs.Tree.{trees};
ghost use Rattle.syntax.specs.Input.{form_of, symbol_at_most, slot_number, is_integer, product_form, is_blank, named_form, unless_brackets, is_symbol, is_minus_one, is_slot_number};
ghost use Rattle.input_form.specs.Rows.{shapes};
ghost use Rattle.input_form.specs.Shapes.{as_form};

use crate::row_shape::shape_at;
use crate::shape::{Form, Mark, Pair, Shape};
use expr_tree::{Expr, Node};
use name_table::Names;

/// The form of head[items].
#[tactic(auto, using(crate::proofs::Items::item_steps))]
pub(crate) fn form_of(head: &Expr, items: &[Expr], names: &Names) -> Form
    ensures { as_form result ≡ form_of (shapes names.now.texts) head.now (trees items.now) }
{
    let count = items.len();
    match shape_at(head, names) {
        Shape::List => Form::Braces,
        Shape::Named => named_form(items, names),
        Shape::Times => unless_brackets(2 <= count, product_form(items)),
        Shape::Plus => unless_brackets(2 <= count, Form::Sum),
        Shape::Not => unless_brackets(count == 1, Form::Negation),
        Shape::Function => unless_brackets(count == 1, Form::Ampersand),
        Shape::Other => Form::Brackets,
        Shape::Blank(mark) => unless_brackets(symbol_at_most(items), Form::Marked(mark)),
        Shape::Slot(mark) => unless_brackets(slot_number(items), Form::Marked(mark)),
        Shape::Pairs(pair) => unless_brackets(count == 2, Form::Paired(pair)),
        Shape::Chains(chain) => unless_brackets(2 <= count, Form::Chained(chain)),
    }
}

fn unless_brackets(fits: bool, form: Form) -> Form
    ensures { as_form result ≡ unless_brackets fits (as_form form) }
{
    if fits { form } else { Form::Brackets }
}

/// The form of Pattern[items].
#[tactic(auto, using(crate::proofs::Items::item_steps))]
fn named_form(items: &[Expr], names: &Names) -> Form
    ensures { as_form result ≡ named_form (shapes names.now.texts) (trees items.now) }
{
    match items {
        [x, p] => {
            if !is_symbol(x) {
                Form::Brackets
            } else if is_blank(p, names) {
                Form::Marked(Mark::Nothing)
            } else {
                Form::Paired(Pair::Naming)
            }
        }
        _ => Form::Brackets,
    }
}

/// Whether a blank is printed as a sign.
#[tactic(auto, using(crate::proofs::Items::item_steps))]
fn is_blank(e: &Expr, names: &Names) -> bool
    ensures { result ≡ is_blank (shapes names.now.texts) e.now }
{
    match e.node() {
        Node::Normal(head, items) => match shape_at(head, names) {
            Shape::Blank(_) => symbol_at_most(items.as_slice()),
            _ => false,
        },
        _ => false,
    }
}

/// Negative, where the items begin with -1 and one that is no integer.
#[tactic(auto, using(crate::proofs::Items::item_steps))]
fn product_form(items: &[Expr]) -> Form
    ensures { as_form result ≡ product_form (trees items.now) }
{
    match items {
        [a, b, ..] => {
            if is_minus_one(a) && !is_integer(b) {
                Form::Negative
            } else {
                Form::Product
            }
        }
        _ => Form::Product,
    }
}

/// Whether there is no item or one symbol.
#[tactic(auto, using(crate::proofs::Items::item_steps))]
fn symbol_at_most(items: &[Expr]) -> bool
    ensures { result ≡ symbol_at_most (trees items.now) }
{
    match items {
        [] => true,
        [e] => is_symbol(e),
        _ => false,
    }
}

/// Whether there is one item, the number of a slot.
#[tactic(auto, using(crate::proofs::Items::item_steps))]
fn slot_number(items: &[Expr]) -> bool
    ensures { result ≡ slot_number (trees items.now) }
{
    match items {
        [e] => is_slot_number(e),
        _ => false,
    }
}

fn is_symbol(e: &Expr) -> bool
    ensures { result ≡ is_symbol e.now }
{
    matches!(e.node(), Node::Symbol(_))
}

fn is_integer(e: &Expr) -> bool
    ensures { result ≡ is_integer e.now }
{
    matches!(e.node(), Node::Int(_))
}

fn is_minus_one(e: &Expr) -> bool
    ensures { result ≡ is_minus_one e.now }
{
    matches!(e.node(), Node::Int(-1))
}

fn is_slot_number(e: &Expr) -> bool
    ensures { result ≡ is_slot_number e.now }
{
    matches!(e.node(), Node::Int(1..=999_999_999))
}

ghost use Rattle.std.specs.Prelude.{◌≡◌, ◌++◌, IfOk, OnOk};
ghost use Rattle.expr_tree.specs.Tree.{trees};
ghost use Rattle.script_text.specs.Spelling.{by_texts};
ghost use Rattle.semantics.specs.Texts.{names_of};
ghost use Rattle.syntax.specs.Shapes.{shape_in};
ghost use Rattle.syntax.specs.Input.{input, together, form_text, pair_text, sum_text, negative_text, term_after};
ghost use Rattle.input_form.specs.Parts.{shown_by, all_shown_by, text_by, front, level_at, term_at, factor_at};
ghost use Rattle.input_form.specs.Rows.{shapes};
ghost use Rattle.input_form.specs.Shapes.{as_form, as_pair};

use crate::form::form_of;
use crate::shape::{
    Form, Pair, chain_part, chain_sign, form_level, mark_sign, pair_left, pair_right, pair_sign,
};
use expr_tree::{Expr, Node, Text};
use name_table::Names;
use show_form::full;
use std::alloc::{AllocError, Global};

/// The input form of an expression.
#[tactic(auto, using(crate::proofs::Rows::shapes_are))]
pub fn input(alloc: Global, e: &Expr, names: &Names) -> Result<Text, AllocError>
    ensures { IfOk result (λ text. text ≡ input (by_texts names.now.texts) (shape_in (names_of names.now.texts)) e.now) }
{
    let mut buffer = Text::new(alloc);
    put_text(alloc, &mut buffer, 2, e, names)?;
    Ok(buffer)
}

/// The level of an expression.
fn level_of(e: &Expr, names: &Names) -> u32
    ensures { result ≡ level_at (shapes names.now.texts) e.now }
{
    match e.node() {
        Node::Int(value) => { if *value < 0 { 20 } else { 27 } }
        Node::Str(_) | Node::Symbol(_) => 27,
        Node::Normal(head, items) => form_level(form_of(head, items.as_slice(), names)),
    }
}

/// Appends the text where an operand of a level is asked for.
#[cycle(input)]
#[tactic(auto, using(expr_tree::proofs::Callers::tree_steps, crate::proofs::Shown::shown_steps))]
fn put_text(
    alloc: Global,
    buffer: &mut Text,
    level: u32,
    e: &Expr,
    names: &Names,
) -> Result<(), AllocError>
    ensures { OnOk result (buffer.new ≡ buffer.old ++ text_by names.now.texts level e.now) }
{
    if level_of(e, names) < level {
        buffer.append("(")?;
        put_open(alloc, buffer, e, names)?;
        buffer.append(")")
    } else {
        put_open(alloc, buffer, e, names)
    }
}

/// Appends the text without parentheses.
#[cycle(input)]
#[tactic(auto, using(expr_tree::proofs::Callers::tree_steps, crate::proofs::Shown::shown_steps))]
fn put_open(alloc: Global, buffer: &mut Text, e: &Expr, names: &Names) -> Result<(), AllocError>
    ensures { OnOk result (buffer.new ≡ buffer.old ++ (shown_by names.now.texts e.now).text) }
{
    match e.node() {
        Node::Int(_) | Node::Str(_) | Node::Symbol(_) => {
            let text = full(alloc, e, names)?;
            buffer.append(text.as_str())
        }
        Node::Normal(head, items) => {
            let form = form_of(head, items.as_slice(), names);
            put_form(alloc, buffer, form, head, items.as_slice(), names)
        }
    }
}

/// Appends the text of a form.
#[cycle(input)]
#[tactic(auto, using(expr_tree::proofs::Callers::tree_steps, crate::proofs::Shown::shown_steps))]
fn put_form(
    alloc: Global,
    buffer: &mut Text,
    form: Form,
    head: &Expr,
    items: &[Expr],
    names: &Names,
) -> Result<(), AllocError>
    ensures { OnOk result (buffer.new ≡ buffer.old ++ form_text (as_form form) (shown_by names.now.texts head.now) (all_shown_by names.now.texts (trees items.now))) }
{
    match form {
        Form::Braces => {
            buffer.append("{")?;
            put_joined(alloc, buffer, ", ", 2, items, names)?;
            buffer.append("}")
        }
        Form::Product => put_joined(alloc, buffer, "*", 19, items, names),
        Form::Negative => put_negative(alloc, buffer, items, names),
        Form::Sum => put_sum(alloc, buffer, items, names),
        Form::Negation => {
            buffer.append("!")?;
            put_joined(alloc, buffer, "", 14, items, names)
        }
        Form::Ampersand => {
            put_joined(alloc, buffer, "", 6, items, names)?;
            buffer.append(" &")
        }
        Form::Brackets => {
            put_text(alloc, buffer, 25, head, names)?;
            buffer.append("[")?;
            put_joined(alloc, buffer, ", ", 2, items, names)?;
            buffer.append("]")
        }
        Form::Marked(mark) => {
            buffer.append(mark_sign(mark))?;
            put_joined(alloc, buffer, "", 27, items, names)
        }
        Form::Paired(pair) => put_pair(alloc, buffer, pair, items, names),
        Form::Chained(chain) => {
            let (sign, level) = (chain_sign(chain), chain_part(chain));
            put_joined(alloc, buffer, sign, level, items, names)
        }
    }
}

/// Appends what stands in front of the item at a place.
fn put_front(buffer: &mut Text, between: &str, i: usize) -> Result<(), AllocError>
    ensures { OnOk result (buffer.new ≡ buffer.old ++ front between.now i) }
{
    if i == 0 {
        Ok(())
    } else {
        buffer.append(between)
    }
}

/// Appends the texts of items at one level, with another text between them.
#[cycle(input)]
#[tactic(auto, using(expr_tree::proofs::Callers::tree_steps, crate::proofs::Shown::shown_steps))]
fn put_joined(
    alloc: Global,
    buffer: &mut Text,
    between: &str,
    level: u32,
    items: &[Expr],
    names: &Names,
) -> Result<(), AllocError>
    ensures { OnOk result (buffer.new ≡ buffer.old ++ together between.now level (all_shown_by names.now.texts (trees items.now))) }
{
    for (i, item) in items.iter().enumerate() {
        put_front(buffer, between, i)?;
        put_text(alloc, buffer, level, item, names)?;
    }
    Ok(())
}

/// Appends two operands and the operator between them.
#[cycle(input)]
#[tactic(auto, using(expr_tree::proofs::Callers::tree_steps, crate::proofs::Shown::shown_steps))]
fn put_pair(
    alloc: Global,
    buffer: &mut Text,
    pair: Pair,
    items: &[Expr],
    names: &Names,
) -> Result<(), AllocError>
    ensures { OnOk result (buffer.new ≡ buffer.old ++ pair_text (as_pair pair) (all_shown_by names.now.texts (trees items.now))) }
{
    match items {
        [left, right] => {
            put_text(alloc, buffer, pair_left(pair), left, names)?;
            buffer.append(pair_sign(pair))?;
            put_text(alloc, buffer, pair_right(pair), right, names)
        }
        _ => Ok(()),
    }
}

/// Appends the terms of a sum.
#[cycle(input)]
#[tactic(auto, using(expr_tree::proofs::Callers::tree_steps, crate::proofs::Shown::shown_steps))]
fn put_sum(
    alloc: Global,
    buffer: &mut Text,
    items: &[Expr],
    names: &Names,
) -> Result<(), AllocError>
    ensures { OnOk result (buffer.new ≡ buffer.old ++ sum_text (all_shown_by names.now.texts (trees items.now))) }
{
    for (i, item) in items.iter().enumerate() {
        put_term(alloc, buffer, i, item, names)?;
    }
    Ok(())
}

/// Appends the term at a place of a sum.
#[cycle(input)]
#[tactic(auto, using(expr_tree::proofs::Callers::tree_steps, crate::proofs::Shown::shown_steps))]
fn put_term(
    alloc: Global,
    buffer: &mut Text,
    i: usize,
    item: &Expr,
    names: &Names,
) -> Result<(), AllocError>
    ensures { OnOk result (buffer.new ≡ buffer.old ++ term_at i (text_by names.now.texts 18 item.now)) }
{
    if i == 0 {
        put_text(alloc, buffer, 18, item, names)
    } else {
        let mut term = Text::new(alloc);
        put_text(alloc, &mut term, 18, item, names)?;
        put_signed(buffer, term.as_str())
    }
}

/// Appends a term with its sign in front.
fn put_signed(buffer: &mut Text, term: &str) -> Result<(), AllocError>
    ensures { OnOk result (buffer.new ≡ buffer.old ++ term_after term.now) }
{
    match term.strip_prefix("-") {
        Some(rest) => {
            buffer.append(" - ")?;
            buffer.append(rest)
        }
        None => {
            buffer.append(" + ")?;
            buffer.append(term)
        }
    }
}

/// Appends a product whose first factor is -1, shown as a sign.
#[cycle(input)]
#[tactic(auto, using(expr_tree::proofs::Callers::tree_steps, crate::proofs::Shown::shown_steps))]
fn put_negative(
    alloc: Global,
    buffer: &mut Text,
    items: &[Expr],
    names: &Names,
) -> Result<(), AllocError>
    ensures { OnOk result (buffer.new ≡ buffer.old ++ negative_text (all_shown_by names.now.texts (trees items.now))) }
{
    for (i, item) in items.iter().enumerate() {
        put_factor(alloc, buffer, i, item, names)?;
    }
    Ok(())
}

/// Appends the factor at a place.
#[cycle(input)]
#[tactic(auto, using(expr_tree::proofs::Callers::tree_steps, crate::proofs::Shown::shown_steps))]
fn put_factor(
    alloc: Global,
    buffer: &mut Text,
    i: usize,
    item: &Expr,
    names: &Names,
) -> Result<(), AllocError>
    ensures { OnOk result (buffer.new ≡ buffer.old ++ factor_at i (text_by names.now.texts 20 item.now) (text_by names.now.texts 19 item.now)) }
{
    if i == 0 {
        Ok(())
    } else if i == 1 {
        buffer.append("-")?;
        put_text(alloc, buffer, 20, item, names)
    } else {
        buffer.append("*")?;
        put_text(alloc, buffer, 19, item, names)
    }
}

ghost use Rattle.std.specs.Prelude.{◌≡◌, IfOk};
ghost use Rattle.expr_tree.specs.Tree.{trees};
ghost use Rattle.script_text.specs.Spelling.{by_texts};
ghost use Rattle.semantics.specs.Texts.{names_of};
ghost use Rattle.syntax.specs.Lines.{value_text};
ghost use Rattle.input_form.specs.Rows.{asked, named_asked, value_as};

use crate::input_form::input;
use expr_tree::{Expr, Node, Sym, Text};
use name_table::Names;
use show_form::full;
use std::alloc::{AllocError, Global};

/// The form that a call of this row asks to be shown in.
#[derive(Clone, Copy)]
enum Asked {
    FullForm,
    InputForm,
    Neither,
}

/// What is shown of a value: of `FullForm[e]` the full form of e, of `InputForm[e]` the input form of e, and of any other value its
/// input form.
#[tactic(auto, using(expr_tree::proofs::Callers::tree_steps, crate::proofs::Values::called))]
pub fn value_text(alloc: Global, value: &Expr, names: &Names) -> Result<Text, AllocError>
    ensures { IfOk result (λ text. text ≡ value_text (by_texts names.now.texts) (names_of names.now.texts) value.now) }
{
    match value.node() {
        Node::Normal(head, items) => match head.node() {
            Node::Symbol(symbol) => {
                let asked = form_asked(*symbol, names);
                text_asked(alloc, asked, value, items.as_slice(), names)
            }
            _ => input(alloc, value, names),
        },
        _ => input(alloc, value, names),
    }
}

/// What is shown of a call, by what its head asks for.
#[tactic(auto, using(expr_tree::proofs::Callers::tree_steps, crate::proofs::Values::value_steps))]
fn text_asked(
    alloc: Global,
    asked: Asked,
    value: &Expr,
    items: &[Expr],
    names: &Names,
) -> Result<Text, AllocError>
    ensures { IfOk result (λ text. text ≡ value_as names.now.texts asked value.now (trees items.now)) }
{
    match items {
        [item] => match asked {
            Asked::FullForm => full(alloc, item, names),
            Asked::InputForm => input(alloc, item, names),
            Asked::Neither => input(alloc, value, names),
        },
        _ => input(alloc, value, names),
    }
}

/// What a symbol asks for.
#[tactic(auto, using(crate::proofs::Rows::row_steps))]
fn form_asked(symbol: Sym, names: &Names) -> Asked
    ensures { result ≡ asked names.now.texts symbol }
{
    if symbol.number == 0 {
        form_asked_by_name(names.base_text(symbol.base))
    } else {
        Asked::Neither
    }
}

/// What the row with this name asks for.
#[tactic(auto, using(crate::proofs::Values::name_steps))]
fn form_asked_by_name(name: &str) -> Asked
    ensures { result ≡ named_asked name.now }
{
    match name {
        "FullForm" => Asked::FullForm,
        "InputForm" => Asked::InputForm,
        _ => Asked::Neither,
    }
}

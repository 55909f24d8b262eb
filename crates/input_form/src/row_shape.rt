ghost use Rattle.std.specs.Prelude.{◌≡◌};
ghost use Rattle.syntax.specs.Input.{shape_at};
ghost use Rattle.input_form.specs.Rows.{named_shape, shapes};
ghost use Rattle.input_form.specs.Shapes.{as_shape};

use crate::shape::{Chain, Mark, Pair, Shape};
use expr_tree::{Expr, Node, Sym};
use name_table::Names;

/// The shape of a head.
pub(crate) fn shape_at(head: &Expr, names: &Names) -> Shape
    ensures { as_shape result ≡ shape_at (shapes names.now.texts) head.now }
{
    match head.node() {
        Node::Symbol(symbol) => shape_of(*symbol, names),
        _ => Shape::Other,
    }
}

/// The shape of a symbol. A generated symbol has no row.
#[tactic(auto, using(crate::proofs::Rows::row_steps))]
fn shape_of(symbol: Sym, names: &Names) -> Shape
    ensures { as_shape result ≡ shapes names.now.texts symbol }
{
    if symbol.number == 0 {
        shape_named(names.base_text(symbol.base))
    } else {
        Shape::Other
    }
}

/// The shape of the row with this name.
fn shape_named(name: &str) -> Shape
    ensures { as_shape result ≡ named_shape name.now }
{
    match name {
        "List" => Shape::List,
        "Blank" => Shape::Blank(Mark::One),
        "BlankSequence" => Shape::Blank(Mark::Two),
        "BlankNullSequence" => Shape::Blank(Mark::Three),
        "Pattern" => Shape::Named,
        "Slot" => Shape::Slot(Mark::Hash),
        "SlotSequence" => Shape::Slot(Mark::Hashes),
        "Times" => Shape::Times,
        "Plus" => Shape::Plus,
        "Not" => Shape::Not,
        "Function" => Shape::Function,
        "PatternTest" => Shape::Pairs(Pair::PatternTest),
        "Power" => Shape::Pairs(Pair::Power),
        "Condition" => Shape::Pairs(Pair::Condition),
        "Rule" => Shape::Pairs(Pair::Rule),
        "RuleDelayed" => Shape::Pairs(Pair::RuleDelayed),
        "ReplaceAll" => Shape::Pairs(Pair::ReplaceAll),
        "ReplaceRepeated" => Shape::Pairs(Pair::ReplaceRepeated),
        "Set" => Shape::Pairs(Pair::Set),
        "SetDelayed" => Shape::Pairs(Pair::SetDelayed),
        "Equal" => Shape::Chains(Chain::Equal),
        "Unequal" => Shape::Chains(Chain::Unequal),
        "Less" => Shape::Chains(Chain::Less),
        "LessEqual" => Shape::Chains(Chain::LessEqual),
        "Greater" => Shape::Chains(Chain::Greater),
        "GreaterEqual" => Shape::Chains(Chain::GreaterEqual),
        "SameQ" => Shape::Chains(Chain::SameQ),
        "UnsameQ" => Shape::Chains(Chain::UnsameQ),
        "And" => Shape::Chains(Chain::And),
        "Or" => Shape::Chains(Chain::Or),
        "Alternatives" => Shape::Chains(Chain::Alternatives),
        "CompoundExpression" => Shape::Chains(Chain::CompoundExpression),
        _ => Shape::Other,
    }
}

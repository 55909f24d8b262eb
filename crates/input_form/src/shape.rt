ghost use Rattle.std.specs.Prelude.{◌≡◌};
ghost use Rattle.input_form.specs.Shapes.{as_pair, as_chain, as_mark, as_form};
ghost use Rattle.operator_levels.specs.Words.{operator_in};
ghost use Rattle.operator_levels.specs.Shown.{shape_shown};
ghost use Rattle.syntax.specs.Shapes.{Pairs, Chains, pair_sign, pair_left, pair_right, pair_level, chain_sign, chain_part, chain_level, mark_sign};
ghost use Rattle.syntax.specs.Input.{form_level};

use operator_levels::{Operator, shown_left, shown_level, shown_right, sign};

/// An operator between two operands.
#[derive(Clone, Copy, Debug)]
pub(crate) enum Pair {
    PatternTest,
    Power,
    Condition,
    Rule,
    RuleDelayed,
    ReplaceAll,
    ReplaceRepeated,
    Set,
    SetDelayed,
    Naming,
}

/// An operator between two operands or more.
#[derive(Clone, Copy, Debug)]
pub(crate) enum Chain {
    Equal,
    Unequal,
    Less,
    LessEqual,
    Greater,
    GreaterEqual,
    SameQ,
    UnsameQ,
    And,
    Or,
    Alternatives,
    CompoundExpression,
}

/// A sign in front.
#[derive(Clone, Copy, Debug)]
pub(crate) enum Mark {
    One,
    Two,
    Three,
    Hash,
    Hashes,
    Nothing,
}

/// The form that a row has where its items fit.
#[derive(Clone, Copy, Debug)]
pub(crate) enum Shape {
    List,
    Named,
    Times,
    Plus,
    Not,
    Function,
    Other,
    Blank(Mark),
    Slot(Mark),
    Pairs(Pair),
    Chains(Chain),
}

/// The form that an expression has.
#[derive(Clone, Copy, Debug)]
pub(crate) enum Form {
    Braces,
    Product,
    Negative,
    Sum,
    Negation,
    Ampersand,
    Brackets,
    Marked(Mark),
    Paired(Pair),
    Chained(Chain),
}

/// The operator that is shown.
#[tactic(auto, unfolding(syntax::specs::Operators::gives_of, syntax::specs::Operators::infix_row))]
fn operator_of(pair: Pair) -> Operator
    ensures { shape_shown (operator_in result) ≡ Pairs (as_pair pair) }
{
    match pair {
        Pair::PatternTest => Operator::PatternTest,
        Pair::Power => Operator::Power,
        Pair::Condition => Operator::Condition,
        Pair::Rule => Operator::Rule,
        Pair::RuleDelayed => Operator::RuleDelayed,
        Pair::ReplaceAll => Operator::ReplaceAll,
        Pair::ReplaceRepeated => Operator::ReplaceRepeated,
        Pair::Set => Operator::Set,
        Pair::SetDelayed => Operator::SetDelayed,
        Pair::Naming => Operator::Pattern,
    }
}

/// The operator that stands between the operands of a chain.
#[tactic(auto, unfolding(syntax::specs::Operators::gives_of, syntax::specs::Operators::infix_row))]
fn operator_between(chain: Chain) -> Operator
    ensures { shape_shown (operator_in result) ≡ Chains (as_chain chain) }
{
    match chain {
        Chain::Equal => Operator::Equal,
        Chain::Unequal => Operator::Unequal,
        Chain::Less => Operator::Less,
        Chain::LessEqual => Operator::LessEqual,
        Chain::Greater => Operator::Greater,
        Chain::GreaterEqual => Operator::GreaterEqual,
        Chain::SameQ => Operator::SameQ,
        Chain::UnsameQ => Operator::UnsameQ,
        Chain::And => Operator::And,
        Chain::Or => Operator::Or,
        Chain::Alternatives => Operator::Alternatives,
        Chain::CompoundExpression => Operator::CompoundExpression,
    }
}

/// The sign of an operator.
pub(crate) fn pair_sign(pair: Pair) -> &'static str
    ensures { result.now ≡ pair_sign (as_pair pair) }
{
    sign(operator_of(pair))
}

/// The level asked of the left operand.
pub(crate) fn pair_left(pair: Pair) -> u32
    ensures { result ≡ pair_left (as_pair pair) }
{
    shown_left(operator_of(pair))
}

/// The level asked of the right operand.
pub(crate) fn pair_right(pair: Pair) -> u32
    ensures { result ≡ pair_right (as_pair pair) }
{
    shown_right(operator_of(pair))
}

/// The level of the whole.
pub(crate) fn pair_level(pair: Pair) -> u32
    ensures { result ≡ pair_level (as_pair pair) }
{
    shown_level(operator_of(pair))
}

/// The sign of an operator.
pub(crate) fn chain_sign(chain: Chain) -> &'static str
    ensures { result.now ≡ chain_sign (as_chain chain) }
{
    sign(operator_between(chain))
}

/// The level asked of each operand.
pub(crate) fn chain_part(chain: Chain) -> u32
    ensures { result ≡ chain_part (as_chain chain) }
{
    shown_left(operator_between(chain))
}

/// The level of the whole.
pub(crate) fn chain_level(chain: Chain) -> u32
    ensures { result ≡ chain_level (as_chain chain) }
{
    shown_level(operator_between(chain))
}

/// The sign in front.
pub(crate) fn mark_sign(mark: Mark) -> &'static str
    ensures { result.now ≡ mark_sign (as_mark mark) }
{
    match mark {
        Mark::One => "_",
        Mark::Two => "__",
        Mark::Three => "___",
        Mark::Hash => "#",
        Mark::Hashes => "##",
        Mark::Nothing => "",
    }
}

/// The level of a form.
pub(crate) fn form_level(form: Form) -> u32
    ensures { result ≡ form_level (as_form form) }
{
    match form {
        Form::Braces => 27,
        Form::Product => 18,
        Form::Negative => 18,
        Form::Sum => 17,
        Form::Negation => 14,
        Form::Ampersand => 5,
        Form::Brackets => 25,
        Form::Marked(_) => 27,
        Form::Paired(pair) => pair_level(pair),
        Form::Chained(chain) => chain_level(chain),
    }
}

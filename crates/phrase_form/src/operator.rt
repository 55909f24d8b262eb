//! Prefix and postfix operators, and what stands behind `t /: l`.
ghost use Rattle.std.specs.Prelude.{◌≡◌};
ghost use Rattle.syntax.specs.Operators.{leads_at, trails_at, tags_of};
ghost use Rattle.operator_levels.specs.Words.{operator_in};
ghost use Rattle.phrase_form.specs.Words.{prefix_in, postfix_in};

use operator_levels::Operator;
use semantics::Builtin;

/// A prefix operator.
#[derive(Clone, Copy)]
pub(crate) enum Prefix {
    PreIncrement,
    PreDecrement,
    Negate,
    Not,
}

/// A postfix operator.
#[derive(Clone, Copy)]
pub(crate) enum Postfix {
    Increment,
    Decrement,
    Function,
    Unset,
}

/// The row that `t /: l op r` gives.
#[tactic(auto, unfolding(syntax::specs::Operators::tags_of))]
pub(crate) fn tag_row(operator: Operator) -> Option<Builtin>
    ensures { result ≡ tags_of (operator_in operator) }
{
    match operator {
        Operator::Set => Some(Builtin::TagSet),
        Operator::SetDelayed => Some(Builtin::TagSetDelayed),
        _ => None,
    }
}

/// How tight a prefix operator binds.
#[tactic(auto, unfolding(syntax::specs::Operators::leads_at))]
pub(crate) fn lead_level(operator: Prefix) -> u8
    ensures { result ≡ leads_at (prefix_in operator) }
{
    match operator {
        Prefix::PreIncrement | Prefix::PreDecrement => 24,
        Prefix::Negate => 20,
        Prefix::Not => 14,
    }
}

/// How tight a postfix operator binds.
#[tactic(auto, unfolding(syntax::specs::Operators::trails_at))]
pub(crate) fn trail_level(operator: Postfix) -> u8
    ensures { result ≡ trails_at (postfix_in operator) }
{
    match operator {
        Postfix::Increment | Postfix::Decrement => 24,
        Postfix::Function => 5,
        Postfix::Unset => 3,
    }
}

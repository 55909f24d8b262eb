//! Infix operators.
use semantics::Builtin;

/// An infix operator.
#[derive(Clone, Copy, Debug, PartialEq, Eq)]
pub enum Operator {
    PatternTest,
    Calls,
    Map,
    Apply,
    Power,
    Divide,
    Times,
    Plus,
    Minus,
    Equal,
    Unequal,
    Less,
    LessEqual,
    Greater,
    GreaterEqual,
    SameQ,
    UnsameQ,
    And,
    Or,
    Alternatives,
    Pattern,
    Condition,
    Rule,
    RuleDelayed,
    ReplaceAll,
    ReplaceRepeated,
    AddTo,
    SubtractFrom,
    TimesBy,
    Into,
    Set,
    SetDelayed,
    UpSet,
    UpSetDelayed,
    CompoundExpression,
}

/// What an infix operator makes of its operands `a` and `b`.
#[derive(Clone, Copy, Debug, PartialEq, Eq)]
pub enum Gives {
    /// `row[a, b]`.
    Pair(Builtin),
    /// `row[a, b]`, to which further operands are appended.
    Chain(Builtin),
    Quotient,
    Difference,
    CallOfLeft,
    CallOfRight,
    Naming,
}

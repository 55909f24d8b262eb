//! The table of infix operators.
ghost use Rattle.std.specs.Prelude.{◌≡◌};
ghost use Rattle.syntax.specs.Operators.{level_of, right_of, gives_of};
ghost use Rattle.operator_levels.specs.Words.{operator_in, gives_in};
ghost use Rattle.operator_levels.specs.Shown.{sign_of, left_of, shown_right_of, whole_of};

use crate::operator::{Gives, Operator};
use semantics::Builtin;

// Each infix operator: its level and that of its right operand where it is read, and what it gives; then how it is shown, with the
// levels asked of its left and right operands and that of the whole. One that is not shown as an operator has no sign.
macro_rules! each_operator {
    ($make:ident $($argument:tt)*) => {
        $make! {
            $($argument)*
            (PatternTest 26 27 [Pair(Builtin::PatternTest)] "?" 26 27 26)
            (Calls 23 23 [CallOfLeft] "" 0 0 0)
            (Map 22 22 [Pair(Builtin::Map)] "" 0 0 0)
            (Apply 22 22 [Pair(Builtin::Apply)] "" 0 0 0)
            (Power 21 21 [Pair(Builtin::Power)] "^" 22 21 21)
            (Divide 19 20 [Quotient] "" 0 0 0)
            (Times 18 19 [Chain(Builtin::Times)] "" 0 0 0)
            (Plus 17 18 [Chain(Builtin::Plus)] "" 0 0 0)
            (Minus 17 18 [Difference] "" 0 0 0)
            (Equal 16 17 [Chain(Builtin::Equal)] " == " 17 17 16)
            (Unequal 16 17 [Chain(Builtin::Unequal)] " != " 17 17 16)
            (Less 16 17 [Chain(Builtin::Less)] " < " 17 17 16)
            (LessEqual 16 17 [Chain(Builtin::LessEqual)] " <= " 17 17 16)
            (Greater 16 17 [Chain(Builtin::Greater)] " > " 17 17 16)
            (GreaterEqual 16 17 [Chain(Builtin::GreaterEqual)] " >= " 17 17 16)
            (SameQ 15 16 [Chain(Builtin::SameQ)] " === " 16 16 15)
            (UnsameQ 15 16 [Chain(Builtin::UnsameQ)] " =!= " 16 16 15)
            (And 13 14 [Chain(Builtin::And)] " && " 14 14 13)
            (Or 12 13 [Chain(Builtin::Or)] " || " 13 13 12)
            (Alternatives 11 12 [Chain(Builtin::Alternatives)] " | " 12 12 11)
            (Pattern 10 11 [Naming] ":" 27 11 10)
            (Condition 9 10 [Pair(Builtin::Condition)] " /; " 9 10 9)
            (Rule 8 8 [Pair(Builtin::Rule)] " -> " 9 8 8)
            (RuleDelayed 8 8 [Pair(Builtin::RuleDelayed)] " :> " 9 8 8)
            (ReplaceAll 7 8 [Pair(Builtin::ReplaceAll)] " /. " 7 8 7)
            (ReplaceRepeated 7 8 [Pair(Builtin::ReplaceRepeated)] " //. " 7 8 7)
            (AddTo 6 6 [Pair(Builtin::AddTo)] "" 0 0 0)
            (SubtractFrom 6 6 [Pair(Builtin::SubtractFrom)] "" 0 0 0)
            (TimesBy 6 6 [Pair(Builtin::TimesBy)] "" 0 0 0)
            (Into 4 5 [CallOfRight] "" 0 0 0)
            (Set 3 3 [Pair(Builtin::Set)] " = " 4 3 3)
            (SetDelayed 3 3 [Pair(Builtin::SetDelayed)] " := " 4 3 3)
            (UpSet 3 3 [Pair(Builtin::UpSet)] "" 0 0 0)
            (UpSetDelayed 3 3 [Pair(Builtin::UpSetDelayed)] "" 0 0 0)
            (CompoundExpression 2 3 [Chain(Builtin::CompoundExpression)] "; " 3 3 2)
        }
    };
}

macro_rules! levels {
    ($chosen:tt $(($operator:ident $level:literal $right:literal [$($gives:tt)*] $sign:literal $shown_left:literal $shown_right:literal $shown_level:literal))*) => {
        match $chosen {
            $(Operator::$operator => $level,)*
        }
    };
}

macro_rules! right_levels {
    ($chosen:tt $(($operator:ident $level:literal $right:literal [$($gives:tt)*] $sign:literal $shown_left:literal $shown_right:literal $shown_level:literal))*) => {
        match $chosen {
            $(Operator::$operator => $right,)*
        }
    };
}

macro_rules! results {
    ($chosen:tt $(($operator:ident $level:literal $right:literal [$($gives:tt)*] $sign:literal $shown_left:literal $shown_right:literal $shown_level:literal))*) => {
        match $chosen {
            $(Operator::$operator => Gives::$($gives)*,)*
        }
    };
}

macro_rules! signs {
    ($chosen:tt $(($operator:ident $level:literal $right:literal [$($gives:tt)*] $sign:literal $shown_left:literal $shown_right:literal $shown_level:literal))*) => {
        match $chosen {
            $(Operator::$operator => $sign,)*
        }
    };
}

macro_rules! left_parts {
    ($chosen:tt $(($operator:ident $level:literal $right:literal [$($gives:tt)*] $sign:literal $shown_left:literal $shown_right:literal $shown_level:literal))*) => {
        match $chosen {
            $(Operator::$operator => $shown_left,)*
        }
    };
}

macro_rules! right_parts {
    ($chosen:tt $(($operator:ident $level:literal $right:literal [$($gives:tt)*] $sign:literal $shown_left:literal $shown_right:literal $shown_level:literal))*) => {
        match $chosen {
            $(Operator::$operator => $shown_right,)*
        }
    };
}

macro_rules! whole_levels {
    ($chosen:tt $(($operator:ident $level:literal $right:literal [$($gives:tt)*] $sign:literal $shown_left:literal $shown_right:literal $shown_level:literal))*) => {
        match $chosen {
            $(Operator::$operator => $shown_level,)*
        }
    };
}

/// How tight an infix operator binds.
#[tactic(auto, unfolding(syntax::specs::Operators::level_of, syntax::specs::Operators::infix_row))]
pub fn level(operator: Operator) -> u8
    ensures { result ≡ level_of (operator_in operator) }
{
    each_operator!(levels operator)
}

/// How tight the right operand of an infix operator has to bind.
#[tactic(auto, unfolding(syntax::specs::Operators::right_of, syntax::specs::Operators::infix_row))]
pub fn right_level(operator: Operator) -> u8
    ensures { result ≡ right_of (operator_in operator) }
{
    each_operator!(right_levels operator)
}

/// What an infix operator gives.
#[tactic(auto, unfolding(syntax::specs::Operators::gives_of, syntax::specs::Operators::infix_row))]
pub fn result_of(operator: Operator) -> Gives
    ensures { gives_in result ≡ gives_of (operator_in operator) }
{
    each_operator!(results operator)
}

/// How an infix operator is shown between its operands.
#[tactic(auto, unfolding(syntax::specs::Operators::gives_of, syntax::specs::Operators::infix_row))]
pub fn sign(operator: Operator) -> &'static str
    ensures { result.now ≡ sign_of (operator_in operator) }
{
    each_operator!(signs operator)
}

/// The level asked of the left operand where it is shown, and of each operand of a chain.
#[tactic(auto, unfolding(syntax::specs::Operators::gives_of, syntax::specs::Operators::infix_row))]
pub fn shown_left(operator: Operator) -> u32
    ensures { result ≡ left_of (operator_in operator) }
{
    each_operator!(left_parts operator)
}

/// The level asked of the right operand where it is shown.
#[tactic(auto, unfolding(syntax::specs::Operators::gives_of, syntax::specs::Operators::infix_row))]
pub fn shown_right(operator: Operator) -> u32
    ensures { result ≡ shown_right_of (operator_in operator) }
{
    each_operator!(right_parts operator)
}

/// The level of the whole where it is shown.
#[tactic(auto, unfolding(syntax::specs::Operators::gives_of, syntax::specs::Operators::infix_row))]
pub fn shown_level(operator: Operator) -> u32
    ensures { result ≡ whole_of (operator_in operator) }
{
    each_operator!(whole_levels operator)
}

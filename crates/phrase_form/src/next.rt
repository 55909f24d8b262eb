ghost use Rattle.std.specs.Prelude.{◌≡◌};
ghost use Rattle.syntax.specs.Terminals.{sign_next, next_of};
ghost use Rattle.case_table.specs.Entries.{language_sign};
ghost use Rattle.phrase_form.specs.Words.{next_in, terminal_in};

use crate::operator::Postfix;
use crate::terminal::{Terminal, Word};
use case_table::Sign;
use operator_levels::Operator;

/// A kind of brackets.
#[derive(Clone, Copy)]
pub(crate) enum Bracket {
    Round,
    Square,
    Curly,
}

/// What a terminal is behind a phrase.
#[derive(Clone, Copy)]
pub(crate) enum Next {
    Joins(Operator),
    Trails(Postfix),
    Semicolon,
    Tags,
    /// It begins the second factor of a product without a sign.
    Beside,
    /// It opens the elements of a call.
    Elements,
    Comma,
    Nothing,
    Closes(Bracket),
}

/// What an operator or a bracket is behind a phrase.
#[tactic(auto, unfolding(syntax::specs::Terminals::sign_next))]
fn next_of_sign(sign: Sign) -> Next
    ensures { next_in result ≡ sign_next (language_sign sign) }
{
    match sign {
        Sign::Query => Next::Joins(Operator::PatternTest),
        Sign::At => Next::Joins(Operator::Calls),
        Sign::SlashAt => Next::Joins(Operator::Map),
        Sign::AtAt => Next::Joins(Operator::Apply),
        Sign::Caret => Next::Joins(Operator::Power),
        Sign::Slash => Next::Joins(Operator::Divide),
        Sign::Star => Next::Joins(Operator::Times),
        Sign::Plus => Next::Joins(Operator::Plus),
        Sign::Minus => Next::Joins(Operator::Minus),
        Sign::EqualEqual => Next::Joins(Operator::Equal),
        Sign::BangEqual => Next::Joins(Operator::Unequal),
        Sign::Less => Next::Joins(Operator::Less),
        Sign::LessEqual => Next::Joins(Operator::LessEqual),
        Sign::Greater => Next::Joins(Operator::Greater),
        Sign::GreaterEqual => Next::Joins(Operator::GreaterEqual),
        Sign::SameSign => Next::Joins(Operator::SameQ),
        Sign::UnsameSign => Next::Joins(Operator::UnsameQ),
        Sign::Bang => Next::Nothing,
        Sign::AndAnd => Next::Joins(Operator::And),
        Sign::BarBar => Next::Joins(Operator::Or),
        Sign::Bar => Next::Joins(Operator::Alternatives),
        Sign::Colon => Next::Joins(Operator::Pattern),
        Sign::SlashSemicolon => Next::Joins(Operator::Condition),
        Sign::Arrow => Next::Joins(Operator::Rule),
        Sign::ColonGreater => Next::Joins(Operator::RuleDelayed),
        Sign::SlashDot => Next::Joins(Operator::ReplaceAll),
        Sign::SlashSlashDot => Next::Joins(Operator::ReplaceRepeated),
        Sign::PlusEqual => Next::Joins(Operator::AddTo),
        Sign::MinusEqual => Next::Joins(Operator::SubtractFrom),
        Sign::StarEqual => Next::Joins(Operator::TimesBy),
        Sign::Ampersand => Next::Trails(Postfix::Function),
        Sign::SlashSlash => Next::Joins(Operator::Into),
        Sign::Assign => Next::Joins(Operator::Set),
        Sign::ColonEqual => Next::Joins(Operator::SetDelayed),
        Sign::CaretEqual => Next::Joins(Operator::UpSet),
        Sign::CaretColonEqual => Next::Joins(Operator::UpSetDelayed),
        Sign::AssignDot => Next::Trails(Postfix::Unset),
        Sign::SlashColon => Next::Tags,
        Sign::Semicolon => Next::Semicolon,
        Sign::PlusPlus => Next::Trails(Postfix::Increment),
        Sign::MinusMinus => Next::Trails(Postfix::Decrement),
        Sign::OpenParen => Next::Beside,
        Sign::CloseParen => Next::Closes(Bracket::Round),
        Sign::OpenBracket => Next::Elements,
        Sign::CloseBracket => Next::Closes(Bracket::Square),
        Sign::OpenBrace => Next::Beside,
        Sign::CloseBrace => Next::Closes(Bracket::Curly),
        Sign::Comma => Next::Comma,
    }
}

/// What a terminal is behind a phrase. An operand at the beginning of a line is no second factor.
#[tactic(auto, unfolding(syntax::specs::Terminals::word_next, syntax::specs::Terminals::on_line))]
pub(crate) fn next_of(terminal: &Terminal) -> Next
    ensures { next_in result ≡ next_of (terminal_in terminal.now) }
{
    let next = match &terminal.word {
        Word::Value(_) => Next::Beside,
        Word::Mark(sign) => next_of_sign(*sign),
    };
    match next {
        Next::Beside if terminal.after_line => Next::Nothing,
        next => next,
    }
}

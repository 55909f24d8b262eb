ghost use Rattle.std.specs.Prelude.{◌≡◌};
ghost use Rattle.syntax.specs.Terminals.{sign_start, start_of};
ghost use Rattle.case_table.specs.Entries.{language_sign};
ghost use Rattle.phrase_form.specs.Words.{start_in, terminal_in};

use crate::operator::Prefix;
use crate::terminal::{Phrase, Terminal, Word};
use case_table::Sign;

/// A bracket that opens a phrase.
#[derive(Clone, Copy)]
pub(crate) enum Opening {
    Group,
    Braces,
}

/// What a terminal is where a phrase begins.
#[derive(Drop)]
pub(crate) enum Start {
    Operand(Phrase),
    Leads(Prefix),
    Opens(Opening),
    Nothing,
}

/// What an operator or a bracket is where a phrase begins.
#[tactic(auto, unfolding(syntax::specs::Terminals::sign_start))]
fn start_of_sign(sign: Sign) -> Start
    ensures { start_in result ≡ sign_start (language_sign sign) }
{
    match sign {
        Sign::Minus => Start::Leads(Prefix::Negate),
        Sign::PlusPlus => Start::Leads(Prefix::PreIncrement),
        Sign::MinusMinus => Start::Leads(Prefix::PreDecrement),
        Sign::Bang => Start::Leads(Prefix::Not),
        Sign::OpenParen => Start::Opens(Opening::Group),
        Sign::OpenBrace => Start::Opens(Opening::Braces),
        _ => Start::Nothing,
    }
}

/// What a terminal is where a phrase begins.
#[tactic(auto, unfolding(syntax::specs::Terminals::word_start))]
pub(crate) fn start_of(terminal: Terminal) -> Start
    ensures { start_in result ≡ start_of (terminal_in terminal) }
{
    match terminal.word {
        Word::Value(phrase) => Start::Operand(phrase),
        Word::Mark(sign) => start_of_sign(sign),
    }
}

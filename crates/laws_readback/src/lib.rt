//! Laws of input form: what it shows is read again as the same expression, and tells expressions apart. They stand on the grammar and
//! the input form of `syntax`. Each function here has no code: its contract is a law.
#![tactic(auto)]

ghost use Rattle.laws_readback.specs.Laws.{FullFormIsReadAgain, InputIsOneCell, InputIsReadAgain, InputTellsApart};

/// What input form shows is read as the same expression again.
pub fn input_form_is_read_again()
    ensures law { InputIsReadAgain }
{}

/// Two expressions with one input form are one expression.
pub fn input_forms_tell_expressions_apart()
    ensures law { InputTellsApart }
{}

/// An input form is one line with something on it, so a script of it alone has one cell.
pub fn an_input_form_is_one_cell()
    ensures law { InputIsOneCell }
{}

/// A full form is read as its expression also in a cell, where no head is a negative integer.
pub fn a_full_form_is_read_again_in_a_cell()
    ensures law { FullFormIsReadAgain }
{}

//! Definitions of texts, and laws over them: kinds of bytes, the cells of a script, how names are spelled and in which order they
//! stand, and the full form with the machine that reads it byte by byte. The definitions speak of the trees of `expr_tree`. Each
//! function here has no code: its contract is a law.
#![tactic(auto)]

ghost use Rattle.script_text.specs.Laws.{Accepts, FullFormIsLong, GoesOnRightly, OneExpression, ReadAgain, SpelledBack, StopsAlike, StopsAtFirstBad, StopsRightly, TextsCanBeNumbered};

/// A text is the full form of one expression at most.
pub fn a_full_form_has_one_expression()
    ensures law { OneExpression }
{}

/// What is a full form is read as its expression, one byte at a time.
pub fn a_full_form_is_read_again()
    ensures law { ReadAgain }
{}

/// Every full form is read to its end, whatever the names are.
pub fn a_full_form_is_accepted()
    ensures law { Accepts }
{}

/// Where the reader stops, no full form goes on.
pub fn what_is_refused_begins_no_full_form()
    ensures law { StopsRightly }
{}

/// Each text is the text of the base and number that it is read as.
pub fn a_name_is_its_symbols_text()
    ensures law { SpelledBack }
{}

/// Where the reader goes on, some full form does.
pub fn what_is_read_begins_a_full_form()
    ensures law { GoesOnRightly }
{}

/// There are a numbering of texts and its inverse.
pub fn texts_can_be_numbered()
    ensures law { TextsCanBeNumbered }
{}

/// What the reader refuses is refused whatever the names are.
pub fn stopping_does_not_depend_on_names()
    ensures law { StopsAlike }
{}

/// In a text that is no full form, the byte at which the reader stops is the first that no full form continues.
pub fn the_reader_stops_at_the_first_bad_byte()
    ensures law { StopsAtFirstBad }
{}

/// An expression has no more atoms and no more levels than its full form has bytes.
pub fn a_full_form_is_as_long_as_its_expression()
    ensures law { FullFormIsLong }
{}

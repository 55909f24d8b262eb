//! The definitions of reading and printing, and laws over them: tokens, the grammar with the syntax offset of a cell that has no
//! reading, input form, and the lines of a transcript. The names of operators and rows are those of `semantics`, the bytes those of
//! `script_text`. Each function here has no code: its contract is a law.
#![tactic(auto)]

ghost use Rattle.syntax.specs.Laws.{OneOffset, OneReading, ReadOrOffset};

/// A cell has at most one reading.
pub fn a_cell_has_one_reading()
    ensures law { OneReading }
{}

/// A cell that has no reading has a syntax offset.
pub fn a_cell_is_read_or_has_an_offset()
    ensures law { ReadOrOffset }
{}

/// A cell has at most one syntax offset.
pub fn a_cell_has_one_offset()
    ensures law { OneOffset }
{}

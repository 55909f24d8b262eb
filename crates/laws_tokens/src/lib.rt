//! Laws of the tokens of a text. Each function here has no code: its contract is a law.
#![tactic(auto)]

ghost use Rattle.laws_tokens.specs.Laws.{CellsAreTexts, CellsHaveFullLines, FullLinesAreOneCell, LexemesAreTokens, OffsetsAreOfTexts, TokensAreLongest, TokensAreSpelled, TokensAreThese};

/// The tokens of a text are, at each place, the longest text that is a token, up to the first fault.
pub fn tokens_are_longest()
    ensures law { TokensAreLongest }
{}

/// No other tokens of the text are.
pub fn tokens_are_these_alone()
    ensures law { TokensAreThese }
{}

/// What a token of a cell stands for is the text of a token of its kind.
pub fn lexemes_are_tokens()
    ensures law { LexemesAreTokens }
{}

/// Any tokens, put together with white space between them, are the tokens of the text that this gives.
pub fn tokens_are_spelled()
    ensures law { TokensAreSpelled }
{}

/// The tokens up to one of a cell begin what is read exactly where some cell text that is read begins with them.
pub fn what_begins_a_cell_begins_a_text()
    ensures law { CellsAreTexts }
{}

/// The syntax offset is where the first token begins such that no cell text that is read begins with the tokens up to it.
pub fn syntax_offsets_are_of_texts()
    ensures law { OffsetsAreOfTexts }
{}

/// A text without a blank line is one cell.
pub fn a_text_without_a_blank_line_is_one_cell()
    ensures law { FullLinesAreOneCell }
{}

/// The cells of a script have no blank line.
pub fn cells_have_no_blank_line()
    ensures law { CellsHaveFullLines }
{}

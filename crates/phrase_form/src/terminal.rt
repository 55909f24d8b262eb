use case_table::Sign;
use expr_tree::Expr;
use semantics::Builtin;

/// What a later operator has to know of a phrase.
#[derive(Clone, Copy, Debug, PartialEq, Eq)]
pub enum PhraseKind {
    Closed,
    NameToken,
    NumberToken,
    /// A later operand may be appended to the elements under the row.
    Open(Builtin),
}

/// An operand by itself.
#[derive(Debug, Drop)]
pub struct Phrase {
    pub expr: Expr,
    pub kind: PhraseKind,
}

/// A token by itself.
#[derive(Debug, Drop)]
pub enum Word {
    Value(Phrase),
    Mark(Sign),
}

/// A token, and whether it begins a line.
#[derive(Debug, Drop)]
pub struct Terminal {
    pub word: Word,
    pub after_line: bool,
}

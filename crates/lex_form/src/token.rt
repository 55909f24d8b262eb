use crate::fault::LexFault;
use item_list::Items;

/// A kind of token.
#[derive(Clone, Copy, Debug, PartialEq, Eq)]
pub enum Kind {
    Number,
    Name,
    Blank,
    Str,
    Slot,
    Operator,
}

/// A token: the bytes from `from` up to `to`.
#[derive(Clone, Copy, Debug, PartialEq, Eq)]
pub struct Token {
    pub kind: Kind,
    pub from: usize,
    pub to: usize,
}

/// Tokens in the order of their places.
pub type Tokens = Items<Token>;

/// The tokens before the first fault.
#[derive(Debug, Drop)]
pub struct Lexed {
    pub tokens: Tokens,
    pub fault: Option<LexFault>,
}

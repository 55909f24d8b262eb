use crate::digits::Digits;
use crate::frame::Kept;
use expr_tree::Text;

/// What was read last.
#[derive(Drop)]
pub(crate) enum Mode {
    /// An expression begins here; behind a `[` the bracket may also close.
    Starts(bool),
    /// Behind a comma.
    Gap,
    /// Behind a `-`.
    Minus,
    Number(Digits),
    Name(Text),
    /// Within a string, and whether behind a backslash.
    InString(bool, Text),
    /// Behind a whole expression.
    Have(Kept),
}

/// Why no token stands somewhere, and where.
#[derive(Clone, Copy, Debug, PartialEq, Eq)]
pub enum LexFault {
    BadByte(usize),
    OpenString(usize),
    OpenComment(usize),
    WideNumber(usize),
}

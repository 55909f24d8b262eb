/// A result that 128 bits do not hold.
#[derive(Clone, Copy, Debug, PartialEq, Eq)]
pub struct OutOfRange;

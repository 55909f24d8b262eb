/// What a loss does to the item that the kernel runs.
#[derive(Clone, Copy, Debug, PartialEq, Eq)]
pub enum Recover {
    /// It waits again.
    Retry,
    /// It is done, with `$Failed`.
    Abandon,
}

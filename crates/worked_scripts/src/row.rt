//! What the tables hold.

/// A script, and what the program writes for it under these words.
#[derive(Clone, Copy, Debug)]
pub(crate) struct Row {
    pub(crate) name: &'static str,
    /// The words of the command line, parted by spaces.
    pub(crate) words: &'static str,
    pub(crate) script: &'static str,
    pub(crate) transcript: &'static str,
}

/// Rows under the same words: a name, the cells, and the lines of the transcript.
macro_rules! rows {
    ($words:literal: $($name:literal: [$($cell:literal),*] => [$($line:literal),*],)*) => {
        &[$(Row {
            name: $name,
            words: $words,
            script: concat!($($cell, "\n\n"),*),
            transcript: concat!($($line, "\n"),*),
        }),*]
    };
}

/// Rows of one cell without kernels that are named by it: the cell, and the value that it prints.
macro_rules! values {
    ($($cell:literal => $value:literal,)*) => {
        &[$(Row {
            name: $cell,
            words: "--kernels 0",
            script: $cell,
            transcript: concat!("Out[1]= ", $value, "\n"),
        }),*]
    };
}

pub(crate) use rows;
pub(crate) use values;

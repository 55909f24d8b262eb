/// What one evaluation may use. Each number may be reached and not passed.
#[derive(Clone, Copy, Debug, PartialEq, Eq)]
pub struct Limits {
    /// Evaluations nested in one another, the whole expression being the first: at most 256.
    pub recursion: u32,
    /// Passes over one expression that change it: at most 4096.
    pub iteration: u32,
    /// Changing passes, turns of loops and guarded bindings: at most 100,000,000.
    pub steps: u64,
    /// Atoms of a result: at most 4,000,000.
    pub size: u64,
    /// Depth of a result: at most 512.
    pub depth: u32,
}

/// The limit that the next thing to be done would pass. `Range` is that of 128-bit integers.
#[derive(Clone, Copy, Debug, PartialEq, Eq)]
pub enum Stop {
    Recursion,
    Iteration,
    Steps,
    Size,
    Depth,
    Range,
}

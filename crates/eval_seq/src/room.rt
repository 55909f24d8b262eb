//! What a part of an evaluation may use.
use machine_steps::Scene;

/// Where a part of an evaluation runs, and how many nested evaluations it has left.
#[derive(Clone, Copy)]
pub(crate) struct Room<'a> {
    pub scene: &'a Scene<'a>,
    pub left: u32,
}

//! Where an evaluation runs.
ghost use Rattle.evaluation_steps.specs.Stopping.{AreBounded};

use builtin_names::Vocabulary;
use expr_tree::Limits;
use std::alloc::Global;

/// Where an evaluation runs: a cell of a script, an item of the queue, or the service of an access.
#[derive(Clone, Copy, Debug, PartialEq, Eq)]
pub enum Mode {
    Cell,
    Item,
    Service,
}

/// What does not change during an evaluation.
#[derive(Drop)]
pub struct Scene<'a> {
    pub alloc: Global,
    pub names: &'a Vocabulary,
    pub limits: Limits,
    pub mode: Mode,
    pub kernel: u32,
    pub ghost bounded: { AreBounded limits },
}

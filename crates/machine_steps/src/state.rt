//! What changes during an evaluation.
ghost use Rattle.std.specs.Prelude.{◌≡◌};
ghost use Rattle.semantics.specs.Play.{begun};
ghost use Rattle.machine_steps.specs.Setup.{state_of};

use expr_tree::Syms;
use kernel_defs::Defs;

/// What changes during an evaluation.
#[derive(Drop)]
pub struct KernelState {
    pub defs: Defs,
    pub steps: u64,
    /// Whether mode and kernel have mattered.
    pub used: bool,
    /// The locks of the open section.
    pub open_section: Option<Syms>,
}

impl KernelState {
    /// The state in which an evaluation begins with these definitions.
    pub fn new(defs: Defs) -> KernelState
        ensures { state_of result ≡ begun defs }
    {
        KernelState {
            defs,
            steps: 0,
            used: false,
            open_section: None,
        }
    }

    /// Begins an evaluation.
    pub fn begin(&mut self)
        ensures { state_of self.new ≡ begun self.old.defs }
    {
        self.steps = 0;
        self.used = false;
        self.open_section = None;
    }
}

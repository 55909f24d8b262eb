//! Where a form is evaluated.
ghost use Rattle.std.specs.Prelude.{◌≡◌, true};
ghost use Rattle.machine_steps.specs.Setup.{mode_of};
ghost use Rattle.machine_outward.specs.Placing.{is_outside};

use expr_tree::Expr;
use machine_steps::{Mode, Scene};

/// Where a row is evaluated, and whether a section is open there.
#[derive(Clone, Copy)]
pub struct Place<'a> {
    pub scene: &'a Scene<'a>,
    pub is_open: bool,
}

/// A form as it stands, and its elements.
#[derive(Clone, Copy)]
pub struct Form<'a> {
    pub whole: &'a Expr,
    pub items: &'a [Expr],
}

impl<'a> Place<'a> {
    /// Whether a form may be one call. Mode and kernel matter from here on.
    pub(crate) fn is_outside(&self, used: &mut bool) -> bool
        ensures used { used.new ≡ true }
        ensures outside { result ≡ is_outside (mode_of self.now.scene.now.mode) self.now.is_open }
    {
        *used = true;
        match self.scene.mode {
            Mode::Cell => !self.is_open,
            Mode::Item => false,
            Mode::Service => false,
        }
    }
}

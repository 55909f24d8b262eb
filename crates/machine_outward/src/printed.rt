//! What Print shows.
ghost use Rattle.std.specs.Prelude.{◌≡◌, ◌++◌, IfOk, OnOk};
ghost use Rattle.semantics.specs.Sections as s;
ghost use Rattle.machine_steps.specs.Setup.{setting_of};
ghost use Rattle.machine_outward.specs.Printing.{printed_one};

use expr_tree::{Expr, Node, Text};
use input_form::value_text;
use machine_steps::Scene;
use std::alloc::AllocError;

/// Adds a text as its own bytes, any other value as an Out line shows it.
#[tactic(auto, using(crate::proofs::Printing::printed_steps), unfolding(machine_steps::specs::Setup::shown_by))]
fn add_value(scene: &Scene, shown: &mut Text, value: &Expr) -> Result<(), AllocError>
    ensures { OnOk result (shown.new ≡ shown.old ++ printed_one (setting_of scene.now).shown value.now) }
{
    if let Node::Str(text) = value.node() {
        return shown.append(text.as_str());
    }
    let text = value_text(scene.alloc, value, scene.names.names())?;
    shown.append(text.as_str())
}

/// The text of some values, one after the other.
#[tactic(auto, using(crate::proofs::Printing::printed_steps))]
pub(crate) fn printed(scene: &Scene, values: &[Expr]) -> Result<Text, AllocError>
    ensures { IfOk result (λ text. text ≡ s.printed (setting_of scene.now).shown values.now) }
{
    let mut shown = Text::new(scene.alloc);
    for value in values {
        add_value(scene, &mut shown, value)?;
    }
    Ok(shown)
}

//! A left side that is threaded to a List larger or deeper than any expression.
ghost use Rattle.std.specs.Prelude.{◌≡◌, [], Option, false};
ghost use Rattle.expr_tree.specs.Tree.{Tree};
ghost use Rattle.semantics.specs.Changes as changes;
ghost use Rattle.semantics.specs.Program.{Prog};
ghost use Rattle.semantics.specs.Rule.{has_left};
ghost use Rattle.builtin_names.specs.Named.{names_in};
ghost use Rattle.machine_steps.specs.Setup.{setting_of};
ghost use Rattle.machine_steps.specs.Steps.{Stepped};
ghost use Rattle.kernel_defs.proofs.Runs.{seen_all};
ghost use Rattle.machine_changes.specs.Larger.{IsLarge, Replaces};
ghost use Rattle.machine_changes.specs.Results.{done_with};
ghost use Rattle.machine_changes.specs.Unsetting.{unset_at};

use crate::effects::{any_shared, note_use};
use crate::unset::holders;
use builtin_names::{name, rows_are_names};
use evaluation_steps::Halt;
use expr_tree::{Expr, Syms};
use kernel_defs::Defs;
use machine_steps::Scene;
use rule_store::{Rule, Rules};
use semantics::Builtin;

/// No rule has a left side that is larger or deeper than any expression, since it is one.
fn all_small(rules: &[Rule])
    ensures { (l : Tree) → IsLarge l → has_left l rules.now ≡ false }
{
    for rule in rules {
        let _nodes = rule.left().size();
        let _levels = rule.left().depth();
    }
}

fn are_small(rules: &Rules)
    ensures { (l : Tree) → IsLarge l → has_left l rules.now ≡ false }
{
    all_small(rules.as_slice());
}

/// No symbol holds something with a left side that is larger or deeper than any expression.
fn hold_none(scene: &Scene, defs: &Defs, symbols: &Syms)
    ensures { (l : Tree) → IsLarge l → changes.holding l (seen_all (names_in scene.now.names.now) defs.now symbols.now) ≡ [] }
{
    let _names = scene.names;
    for symbol in symbols.as_slice() {
        are_small(defs.downs_of(*symbol));
        are_small(defs.ups_of(*symbol));
    }
}

/// All of Unset, where the left side is a List larger or deeper than any expression, in whose place this one stands.
pub(crate) fn unset_large(
    scene: &Scene,
    defs: &Defs,
    used: &mut bool,
    list: &Expr,
) -> Result<Expr, Halt>
    ensures { (l : Tree) → Replaces (names_in scene.now.names.now) list.now l → (stay : Prog) (rest : Option Tree → Prog) → Stepped (setting_of scene.now) (unset_at (names_in scene.now.names.now) l) stay defs.now used.old (done_with result) rest defs.now used.new }
{
    rows_are_names(scene.names);
    let symbols = holders(scene.alloc, scene.names, list)?;
    hold_none(scene, defs, &symbols);
    let shared = any_shared(scene, defs, &symbols);
    note_use(used, shared);
    Ok(name(scene.names, Builtin::Failed))
}

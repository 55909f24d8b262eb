//! The rows of this crate as one machine.
ghost use Rattle.std.specs.Prelude.{◌≡◌, ◌||◌, IfSome, is_some};
ghost use Rattle.semantics.specs.Program.{Prog};
ghost use Rattle.semantics.specs.Replace as replace;
ghost use Rattle.semantics.specs.Table as t;
ghost use Rattle.builtin_names.specs.Named.{names_in};
ghost use Rattle.machine_steps.specs.Setup.{setting_of};
ghost use Rattle.machine_steps.specs.Steps.{Starts, Stepped, Falls};
ghost use Rattle.row_kinds.specs.Kinds.{is_matching, is_replacing};
ghost use Rattle.machine_rules.specs.RowLeft.{asked_all, asked_scan, left, left_all, left_machine, questions};
ghost use Rattle.machine_rules.specs.Scans.{left_scan};
ghost use Rattle.machine_rules.specs.Stepping.{Goes};

use crate::pattern_rows::{cases, count, free_q, match_q, member_q};
use crate::repeated::Repeated;
use crate::rule_sets::rule_set;
use crate::scan::Scan;
use crate::walk::{Walk, Walked};
use builtin_names::Vocabulary;
use evaluation_steps::Halt;
use expr_tree::{Expr, pair_of};
use kernel_defs::Defs;
use machine_steps::{Move, Scene};
use semantics::Builtin;
use std::alloc::{AllocError, Global};

/// A row of this crate that is being evaluated.
#[derive(Drop)]
pub enum RuleRow {
    /// MatchQ, MemberQ, FreeQ, Cases and Count.
    Scan(Scan),
    /// ReplaceAll.
    All(Walk),
    /// ReplaceRepeated.
    Repeated(Repeated),
}

/// ReplaceAll: the rules at each place.
#[tactic(auto, using(expr_tree::proofs::Pairs::pair_steps))]
fn replace_all(
    alloc: Global,
    names: &Vocabulary,
    items: &[Expr],
) -> Result<Option<RuleRow>, AllocError>
    ensures { Starts (left (names_in names.now)) (λ stay. replace.replace_all (names_in names.now) stay items.now) result }
{
    let Some((subject, set)) = pair_of(items) else {
        return Ok(None);
    };
    let Some(rules) = rule_set(alloc, names, set)? else {
        return Ok(None);
    };
    let place = subject.copy(alloc)?;
    Ok(Some(RuleRow::All(Walk::start(alloc, rules, place))))
}

/// ReplaceRepeated: the same again and again.
#[tactic(auto, using(expr_tree::proofs::Pairs::pair_steps))]
fn replace_repeated(
    alloc: Global,
    names: &Vocabulary,
    items: &[Expr],
) -> Result<Option<RuleRow>, AllocError>
    ensures { Starts (left (names_in names.now)) (λ stay. replace.replace_repeated (names_in names.now) stay items.now) result }
{
    let Some((subject, set)) = pair_of(items) else {
        return Ok(None);
    };
    let Some(rules) = rule_set(alloc, names, set)? else {
        return Ok(None);
    };
    let repeated = Repeated::start(alloc, rules, subject)?;
    Ok(Some(RuleRow::Repeated(repeated)))
}

/// The machine of a row, or `None` where its expression stays as it is. `None` in place of both for a row that is none of this crate.
#[tactic(auto, unfolding(semantics::specs::Table::row))]
pub fn start(
    alloc: Global,
    names: &Vocabulary,
    row: Builtin,
    items: &[Expr],
) -> Option<Result<Option<RuleRow>, AllocError>>
    ensures known { is_some result ≡ (is_matching row || is_replacing row) }
    ensures started { IfSome result (λ r. Starts (left (names_in names.now)) (λ stay. t.row (names_in names.now) row stay items.now) r) }
{
    match row {
        Builtin::MatchQ => Some(match_q(alloc, names, items)),
        Builtin::MemberQ => Some(member_q(alloc, names, items)),
        Builtin::FreeQ => Some(free_q(alloc, names, items)),
        Builtin::Count => Some(count(alloc, names, items)),
        Builtin::Cases => Some(cases(alloc, names, items)),
        Builtin::ReplaceAll => Some(replace_all(alloc, names, items)),
        Builtin::ReplaceRepeated => Some(replace_repeated(alloc, names, items)),
        _ => None,
    }
}

/// A step of a row that tries rules on expressions in turn.
fn step_scan(
    scan: &mut Scan,
    scene: &Scene,
    defs: &Defs,
    answer: Option<Expr>,
) -> Result<Move, Halt>
    ensures goes { Goes (names_in scene.now.names.now) defs.now scene.now.limits (left_scan (names_in scene.now.names.now) scan.old answer) result (left_scan (names_in scene.now.names.now) scan.new) }
    ensures falls { Falls result (asked_scan (names_in scene.now.names.now) scan.old answer) (asked_scan (names_in scene.now.names.now) scan.new) }
{
    scan.step(scene, defs, answer)
}

/// What a step of ReplaceAll comes to.
fn go_all(walk: &mut Walk, scene: &Scene, defs: &Defs, answer: Option<Expr>) -> Result<Move, Halt>
    ensures { Goes (names_in scene.now.names.now) defs.now scene.now.limits (left_all (names_in scene.now.names.now) walk.old answer) result (left_all (names_in scene.now.names.now) walk.new) }
{
    match walk.step(scene, defs, answer) {
        Ok(Walked::Ask(question, turn)) => Ok(Move::Ask(question, turn)),
        Ok(Walked::Whole(whole)) => match whole.made(&scene.limits) {
            Ok(result) => Ok(Move::Done(result)),
            Err(stop) => Err(Halt::Stopped(stop)),
        },
        Err(halt) => Err(halt),
    }
}

/// A step of ReplaceAll.
fn step_all(walk: &mut Walk, scene: &Scene, defs: &Defs, answer: Option<Expr>) -> Result<Move, Halt>
    ensures goes { Goes (names_in scene.now.names.now) defs.now scene.now.limits (left_all (names_in scene.now.names.now) walk.old answer) result (left_all (names_in scene.now.names.now) walk.new) }
    ensures falls { Falls result (asked_all (names_in scene.now.names.now) walk.old answer) (asked_all (names_in scene.now.names.now) walk.new) }
{
    go_all(walk, scene, defs, answer)
}

impl RuleRow {
    fn go(&mut self, scene: &Scene, defs: &Defs, answer: Option<Expr>) -> Result<Move, Halt>
        ensures goes { Goes (names_in scene.now.names.now) defs.now scene.now.limits (left_machine (names_in scene.now.names.now) self.old answer) result (left_machine (names_in scene.now.names.now) self.new) }
        ensures falls { Falls result (questions (names_in scene.now.names.now) self.old answer) (questions (names_in scene.now.names.now) self.new) }
    {
        match self {
            RuleRow::Scan(scan) => step_scan(scan, scene, defs, answer),
            RuleRow::All(walk) => step_all(walk, scene, defs, answer),
            RuleRow::Repeated(repeated) => repeated.step(scene, defs, answer),
        }
    }

    /// Goes on with the answer to its question, or from the start. It changes neither definitions nor `used`.
    pub fn step(
        &mut self,
        scene: &Scene,
        defs: &mut Defs,
        used: &mut bool,
        answer: Option<Expr>,
    ) -> Result<Move, Halt>
        ensures stepped { (stay : Prog) → Stepped (setting_of scene.now) (left (names_in scene.now.names.now) self.old stay answer) stay defs.old used.old result (left (names_in scene.now.names.now) self.new stay) defs.new used.new }
        ensures falls { Falls result (questions (names_in scene.now.names.now) self.old answer) (questions (names_in scene.now.names.now) self.new) }
    {
        self.go(scene, defs, answer)
    }
}

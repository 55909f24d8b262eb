//! A whole assignment.
ghost use Rattle.std.specs.Prelude.{◌≡◌, IfOk, OnErr, OnOk, map};
ghost use Rattle.semantics.specs.Assign as assign;
ghost use Rattle.builtin_names.specs.Named.{names_in};
ghost use Rattle.kernel_defs.specs.Assigned.{Assigns, attached_all, protected_in};
ghost use Rattle.kernel_defs.specs.Targets.{form_of, target_of};

use crate::defs::Defs;
use crate::refusal::{Why, refusal_by_shape};
use crate::targets::{Form, Target, asked_symbols, targets_of};
use builtin_names::Vocabulary;
use expr_tree::{Expr, Sym};
use std::alloc::{AllocError, Global};

/// What became of an assignment.
#[derive(Clone, Copy, Debug, PartialEq, Eq)]
pub enum Assigned {
    Done,
    Refused(Why),
}

impl Defs {
    fn first_protected(&self, names: &Vocabulary, symbols: &[Sym]) -> Option<Sym>
        ensures { result ≡ assign.first_protected (protected_in (names_in names.now) self.now) symbols.now }
    {
        for symbol in symbols {
            if self.is_protected(names, *symbol) {
                return Some(*symbol);
            }
        }
        None
    }

    fn attach_all(
        &mut self,
        alloc: Global,
        names: &Vocabulary,
        targets: &[Target],
        left: &Expr,
        right: &Expr,
    ) -> Result<(), AllocError>
        ensures { OnOk result (self.new ≡ attached_all (names_in names.now) (map target_of targets.now) left.now right.now self.old) }
    {
        for target in targets {
            self.attach(alloc, names, *target, left.copy(alloc)?, right.copy(alloc)?)?;
        }
        Ok(())
    }

    /// Attaches a value or a rule to all of some targets. More than one are attached to a copy first, which then takes the place of the
    /// definitions. An `Err` leaves these unchanged.
    fn attach_to_all(
        &mut self,
        alloc: Global,
        names: &Vocabulary,
        targets: &[Target],
        left: &Expr,
        right: &Expr,
    ) -> Result<(), AllocError>
        ensures ok { OnOk result (self.new ≡ attached_all (names_in names.now) (map target_of targets.now) left.now right.now self.old) }
        ensures err { OnErr result (self.new ≡ self.old) }
    {
        if let [target] = targets {
            return self.attach(alloc, names, *target, left.copy(alloc)?, right.copy(alloc)?);
        }
        let mut draft = self.copy(alloc)?;
        draft.attach_all(alloc, names, targets, left, right)?;
        *self = draft;
        Ok(())
    }

    /// Attaches a value or a rule to all the symbols of a left side, or says why not. An `Err` leaves the definitions unchanged.
    #[tactic(auto, using(crate::proofs::Refused::refused_steps))]
    pub fn assign(
        &mut self,
        alloc: Global,
        names: &Vocabulary,
        form: Form,
        left: &Expr,
        right: &Expr,
    ) -> Result<Assigned, AllocError>
        ensures ok { IfOk result (λ x. Assigns (names_in names.now) (form_of form) left.now right.now self.old x self.new) }
        ensures err { OnErr result (self.new ≡ self.old) }
    {
        let targets = targets_of(alloc, names, form, left)?;
        let asked = asked_symbols(alloc, form, &targets)?;
        if let Some(symbol) = self.first_protected(names, asked.as_slice()) {
            return Ok(Assigned::Refused(Why::Protected(symbol)));
        }
        if let Some(why) = refusal_by_shape(names, form, left, &targets) {
            return Ok(Assigned::Refused(why));
        }
        self.attach_to_all(alloc, names, targets.as_slice(), left, right)?;
        Ok(Assigned::Done)
    }
}

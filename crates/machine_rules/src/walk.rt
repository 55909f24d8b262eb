//! Rules tried at the places of an expression, from the outside inwards.
ghost use Rattle.std.specs.Prelude.{◌≡◌, IfOk};
ghost use Rattle.builtin_names.specs.Named.{names_in};
ghost use Rattle.machine_rules.specs.Stepping.{Passes, Walks};
ghost use Rattle.machine_rules.specs.Walks.{left_walk, place_left, trial_left, walk_over, whole_of};
ghost use Rattle.machine_rules.specs.Rising.{Rises, Enters};
ghost use Rattle.machine_rules.specs.Weights.{IsLighter, weight_of};

use crate::level::Level;
use evaluation_steps::Halt;
use expr_tree::{Expr, Node};
use frames_control::Stack;
use item_list::Items;
use kernel_defs::Defs;
use machine_steps::{DefAttrs, Scene};
use made_exprs::Formed;
use rule_frames::{Attempt, Try};
use rule_store::{Rule, Rules};
use std::alloc::{AllocError, Global};

/// Rules, the place where they are tried, the expressions of which it is a part, and the trial.
#[derive(Drop)]
pub struct Walk {
    pub(crate) rules: Rules,
    /// The innermost is the last.
    pub(crate) levels: Items<Level>,
    pub(crate) place: Expr,
    pub(crate) present: Option<Attempt>,
}

/// What a walk comes to.
#[derive(Drop)]
pub enum Walked {
    /// It asks for the value of a guard. The truth value says that this begins a turn.
    Ask(Expr, bool),
    /// All is replaced.
    Whole(Formed),
}

fn walked_whole(part: Option<Formed>) -> Option<Walked>
    ensures { result ≡ whole_of part }
{
    match part {
        Some(part) => Some(Walked::Whole(part)),
        None => None,
    }
}

impl Walk {
    /// A walk over an expression.
    pub(crate) fn start(alloc: Global, rules: Items<Rule>, subject: Expr) -> Walk
        ensures { result ≡ walk_over rules subject }
    {
        Walk {
            rules: Rules::of(alloc, rules),
            levels: Items::new(alloc),
            place: subject,
            present: None,
        }
    }

    /// A walk over another expression.
    pub(crate) fn restart(&mut self, alloc: Global, subject: Expr)
        ensures { self.new ≡ walk_over self.old.rules subject }
    {
        self.levels = Items::new(alloc);
        self.place = subject;
        self.present = None;
    }

    /// A part is done. Where it is the whole, this is the answer; else the walk stands at the next place.
    fn rise(&mut self, alloc: Global, part: Formed) -> Result<Option<Formed>, AllocError>
        ensures { IfOk result (λ o. Rises self.old part o self.new) }
    {
        let mut done = part;
        while let Some(level) = self.levels.pop() {
            let mut elements = level.with_part(alloc, done)?;
            if let Some(place) = elements.rest.pop() {
                self.place = place;
                self.levels.push(Level::Element(elements))?;
                return Ok(None);
            }
            done = Formed::call(alloc, elements.head, elements.done)?;
        }
        Ok(Some(done))
    }

    /// No rule applies at the place.
    fn enter(&mut self, alloc: Global) -> Result<Option<Formed>, AllocError>
        ensures { IfOk result (λ o. Enters self.old o self.new) }
    {
        match self.place.node() {
            Node::Normal(head, items) => {
                let head = head.copy(alloc)?;
                let rest = Stack::of(alloc, items.as_slice())?;
                self.levels.push(Level::Head(rest))?;
                self.place = head;
                Ok(None)
            }
            Node::Int(_) | Node::Str(_) | Node::Symbol(_) => {
                let atom = self.place.copy(alloc)?;
                self.rise(alloc, Formed::of(atom))
            }
        }
    }

    /// Goes on with a trial.
    fn pursue(
        &mut self,
        scene: &Scene,
        defs: &Defs,
        mut present: Attempt,
        answer: Option<Expr>,
    ) -> Result<Option<Walked>, Halt>
        ensures goes { Passes (names_in scene.now.names.now) defs.now scene.now.limits (trial_left (names_in scene.now.names.now) self.old present answer) result (left_walk (names_in scene.now.names.now) self.new) (place_left (names_in scene.now.names.now) self.new) }
        ensures falls { IsLighter result (weight_of self.new) (weight_of self.old) }
        ensures rules { IfOk result (λ o. self.new.rules ≡ self.old.rules) }
    {
        let attrs = DefAttrs {
            defs,
            names: scene.names,
        };
        match present.step(scene.alloc, scene.names, &scene.limits, &attrs, answer) {
            Ok(Try::Guard(question, turn)) => {
                self.present = Some(present);
                Ok(Some(Walked::Ask(question, turn)))
            }
            Ok(Try::Found(bindings, e)) => {
                let part = Formed::placed(scene.alloc, scene.names, bindings, e)?;
                Ok(walked_whole(self.rise(scene.alloc, part)?))
            }
            Ok(Try::Fails) => Ok(walked_whole(self.enter(scene.alloc)?)),
            Err(halt) => Err(halt),
        }
    }

    /// Goes on with the trial, if there is one.
    fn go_on(
        &mut self,
        scene: &Scene,
        defs: &Defs,
        answer: Option<Expr>,
    ) -> Result<Option<Walked>, Halt>
        ensures goes { Passes (names_in scene.now.names.now) defs.now scene.now.limits (left_walk (names_in scene.now.names.now) self.old answer) result (left_walk (names_in scene.now.names.now) self.new) (place_left (names_in scene.now.names.now) self.new) }
        ensures rules { IfOk result (λ o. self.new.rules ≡ self.old.rules) }
    {
        match self.present.take() {
            Some(present) => self.pursue(scene, defs, present, answer),
            None => Ok(None),
        }
    }

    /// Begins with the rules at the place.
    fn begin(&mut self, scene: &Scene, defs: &Defs) -> Result<Option<Walked>, Halt>
        ensures goes { Passes (names_in scene.now.names.now) defs.now scene.now.limits (place_left (names_in scene.now.names.now) self.old) result (left_walk (names_in scene.now.names.now) self.new) (place_left (names_in scene.now.names.now) self.new) }
        ensures falls { IsLighter result (weight_of self.new) (weight_of self.old) }
        ensures rules { IfOk result (λ o. self.new.rules ≡ self.old.rules) }
    {
        let attempt = Attempt::start(scene.alloc, &self.rules, &self.place)?;
        self.pursue(scene, defs, attempt, None)
    }

    /// Goes on from the place.
    fn go_over(&mut self, scene: &Scene, defs: &Defs) -> Result<Walked, Halt>
        ensures goes { Walks (names_in scene.now.names.now) defs.now scene.now.limits (place_left (names_in scene.now.names.now) self.old) result (left_walk (names_in scene.now.names.now) self.new) }
        ensures rules { IfOk result (λ o. self.new.rules ≡ self.old.rules) }
    {
        loop {
            match self.begin(scene, defs) {
                Ok(Some(walked)) => return Ok(walked),
                Ok(None) => {}
                Err(halt) => return Err(halt),
            }
        }
    }

    /// Goes on with the answer to its question, or from the start.
    pub(crate) fn step(
        &mut self,
        scene: &Scene,
        defs: &Defs,
        answer: Option<Expr>,
    ) -> Result<Walked, Halt>
        ensures goes { Walks (names_in scene.now.names.now) defs.now scene.now.limits (left_walk (names_in scene.now.names.now) self.old answer) result (left_walk (names_in scene.now.names.now) self.new) }
        ensures rules { IfOk result (λ o. self.new.rules ≡ self.old.rules) }
    {
        match self.go_on(scene, defs, answer) {
            Ok(Some(walked)) => Ok(walked),
            Ok(None) => self.go_over(scene, defs),
            Err(halt) => Err(halt),
        }
    }
}

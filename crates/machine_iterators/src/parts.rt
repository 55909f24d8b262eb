//! The parts of an iterator, from left to right.
ghost use Rattle.std.specs.Prelude.{◌≡◌, ℕ, ℤ, pos, ◌≤◌, ◌^◌, Bool, Option, None, Some, Ok, IfOk, is_some};
ghost use Rattle.expr_tree.specs.declared.sym.Sym.{Sym as Symbol};
ghost use Rattle.expr_tree.specs.Tree.{Tree, integer};
ghost use Rattle.semantics.specs.Definitions as d;
ghost use Rattle.semantics.specs.Names as n;
ghost use Rattle.semantics.specs.Program.{Prog};
ghost use Rattle.semantics.specs.Control.{bound_or_list};
ghost use Rattle.builtin_names.specs.Named.{names_in};
ghost use Rattle.machine_steps.specs.Setup.{setting_of};
ghost use Rattle.machine_steps.specs.Steps.{Stepped, Falls, headed};
ghost use Rattle.machine_iterators.specs.PartsAsked.{and_then, asks, answered, is_shared, last_part};
ghost use Rattle.machine_iterators.specs.IterationLeft.{goes, left_asking, parts_left};
ghost use Rattle.machine_iterators.specs.Found.{Finds, Fewer};
ghost use Rattle.machine_iterators.specs.declared.body.Body.{Body as B};

use crate::body::Body;
use crate::iterator_values::IteratorValues;
use builtin_names::{Vocabulary, items_under, name};
use expr_tree::{Expr, Exprs, Node, Sym};
use frames_control::Stack;
use int_ops::Progression;
use kernel_defs::Defs;
use machine_steps::{Move, Scene};
use semantics::Builtin;
use std::alloc::{AllocError, Global};

/// The numbers before the part that is asked for: the first value, and how far the values go.
#[derive(Clone, Copy, Debug, PartialEq, Eq)]
pub enum Known {
    Nothing,
    Start(i128),
    Span(i128, i128),
}

impl Known {
    fn and_then(self, number: i128) -> Known
        ensures { result ≡ and_then self number }
    {
        match self {
            Known::Nothing => Known::Start(number),
            Known::Start(from) => Known::Span(from, number),
            Known::Span(from, to) => Known::Span(from, to),
        }
    }
}

/// What is known of an iterator, and the parts that were not asked for.
#[derive(Drop)]
pub struct Parts {
    pub(crate) known: Known,
    pub(crate) rest: Stack,
}

/// What follows from the value of a part.
#[derive(Drop)]
pub(crate) enum Found {
    Moves(Move),
    Values(IteratorValues),
}

fn is_shared(symbol: Option<Sym>, defs: &Defs) -> bool
    ensures { result ≡ is_shared symbol defs.now }
{
    match symbol {
        Some(symbol) => defs.shared().kind_of(symbol).is_some(),
        None => false,
    }
}

/// The values of an iterator whose last part is a number.
fn number_values(known: Known, last: i128) -> Found
    ensures found { (names : n.Names) (b : B) (stay : Prog) (rest : Option Tree → Prog) → Finds names b (last_part names b.symbol known (integer last) (goes names b) stay) stay result rest }
    ensures few { (m : ℕ) (after : Option Tree → ℕ) → Fewer result m after }
{
    match known {
        Known::Nothing => Found::Values(IteratorValues::Numbers(Progression::new(1, last, 1))),
        Known::Start(from) => Found::Values(IteratorValues::Numbers(Progression::new(
            from, last, 1,
        ))),
        Known::Span(from, to) => {
            if last == 0 {
                Found::Moves(Move::Stays)
            } else {
                Found::Values(IteratorValues::Numbers(Progression::new(from, to, last)))
            }
        }
    }
}

/// The values of a list under a symbol.
fn element_values(alloc: Global, names: &Vocabulary, last: &Expr) -> Result<Found, AllocError>
    requires other { (z : ℤ) → last.now ≡ integer z → ⊥ }
    ensures found { (b : B) (stay : Prog) (rest : Option Tree → Prog) → IfOk result (λ f. Finds (names_in names.now) b (bound_or_list (names_in names.now) last.now (goes (names_in names.now) b) stay) stay f rest) }
    ensures few { (m : ℕ) (after : Option Tree → ℕ) → IfOk result (λ f. Fewer f m after) }
{
    match items_under(names, Builtin::List, last) {
        Some(items) => {
            let items = Stack::of(alloc, items.as_slice())?;
            Ok(Found::Values(IteratorValues::Elements(items)))
        }
        None => Ok(Found::Moves(Move::Stays)),
    }
}

/// The values of an iterator by the value of its last part.
fn last_values(
    alloc: Global,
    names: &Vocabulary,
    symbol: Option<Sym>,
    known: Known,
    last: &Expr,
) -> Result<Found, AllocError>
    ensures found { (b : B) (stay : Prog) (rest : Option Tree → Prog) → b.symbol ≡ symbol → IfOk result (λ f. Finds (names_in names.now) b (last_part (names_in names.now) symbol known last.now (goes (names_in names.now) b) stay) stay f rest) }
    ensures few { (m : ℕ) (after : Option Tree → ℕ) → IfOk result (λ f. Fewer f m after) }
{
    if let Node::Int(number) = last.node() {
        return Ok(number_values(known, *number));
    }
    match (symbol, known) {
        (Some(_), Known::Nothing) => element_values(alloc, names, last),
        _ => Ok(Found::Moves(Move::Stays)),
    }
}

impl Parts {
    /// Asks for the next part.
    fn ask(&mut self) -> Move
        ensures asks { (names : n.Names) (b : B) (stay : Prog) → asks names b.symbol self.old.known self.old.rest (goes names b) stay ≡ headed result stay (left_asking names b self.new stay) }
        ensures falls { Falls (Ok result) (parts_left self.old) (λ _. parts_left self.new) }
    {
        match self.rest.pop() {
            Some(part) => Move::Ask(part, false),
            None => Move::Stays,
        }
    }

    /// Asks for the first part, unless the symbol is shared.
    pub(crate) fn open(&mut self, scene: &Scene, body: &Body, defs: &Defs, used: &mut bool) -> Move
        ensures stepped { (stay : Prog) → Stepped (setting_of scene.now) (left_asking (names_in scene.now.names.now) body.now self.old stay None) stay defs.now used.old (Ok result) (left_asking (names_in scene.now.names.now) body.now self.new stay) defs.now used.new }
        ensures falls { Falls (Ok result) (parts_left self.old) (λ _. parts_left self.new) }
    {
        if is_shared(body.symbol, defs) {
            *used = true;
            return Move::Done(name(scene.names, Builtin::Failed));
        }
        self.ask()
    }

    /// Goes on with the value of the part that was asked for.
    pub(crate) fn take(
        &mut self,
        scene: &Scene,
        body: &Body,
        value: Expr,
    ) -> Result<Found, AllocError>
        ensures found { (stay : Prog) → IfOk result (λ f. Finds (names_in scene.now.names.now) body.now (left_asking (names_in scene.now.names.now) body.now self.old stay (Some value)) stay f (left_asking (names_in scene.now.names.now) body.now self.new stay)) }
        ensures fewer { IfOk result (λ f. Fewer f (parts_left self.old) (λ _. parts_left self.new)) }
    {
        if self.rest.is_empty() {
            return last_values(scene.alloc, scene.names, body.symbol, self.known, &value);
        }
        match value.node() {
            Node::Int(number) => {
                self.known = self.known.and_then(*number);
                Ok(Found::Moves(self.ask()))
            }
            _ => Ok(Found::Moves(Move::Stays)),
        }
    }
}

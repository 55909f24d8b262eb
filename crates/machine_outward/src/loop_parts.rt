//! The parts of the iterator of a form that is sent.
ghost use Rattle.std.specs.Prelude.{◌≡◌, ℕ, ◌+◌, Option, None, Some, Ok, IfOk, length};
ghost use Rattle.expr_tree.specs.Tree.{Tree};
ghost use Rattle.semantics.specs.Names as n;
ghost use Rattle.semantics.specs.Program.{Prog};
ghost use Rattle.builtin_names.specs.Named.{names_in};
ghost use Rattle.machine_steps.specs.Setup.{setting_of};
ghost use Rattle.machine_steps.specs.Steps.{Falls, headed, Stepped};
ghost use Rattle.machine_outward.specs.Loops.{after_parts, asks, is_last_part, is_shared, left_parts, parts_by, symbol_part};
ghost use Rattle.machine_outward.specs.LoopShapes.{Fewer, Finds, IsShape};
ghost use Rattle.machine_outward.specs.declared.loop_call.LoopCall.{LoopCall as C};

use builtin_names::{Vocabulary, is_call, name};
use expr_tree::{Expr, Exprs, Node, Sym};
use frames_control::Stack;
use item_list::Items;
use kernel_defs::Defs;
use machine_steps::{Move, Scene};
use semantics::Builtin;
use std::alloc::{AllocError, Global};
use std::mem;

/// The symbol of an iterator, the parts that are known, and those that were not asked for.
#[derive(Drop)]
pub struct LoopParts {
    pub(crate) symbol: Option<Sym>,
    pub(crate) known: Exprs,
    pub(crate) rest: Stack,
}

/// What follows from the value of a part.
#[derive(Drop)]
pub(crate) enum Found {
    Moves(Move),
    Parts(Exprs),
}

/// The parts of an iterator that are evaluated, behind its symbol.
#[derive(Clone, Copy)]
pub(crate) struct Shape<'a> {
    pub symbol: Option<Sym>,
    pub parts: &'a [Expr],
}

/// The shape of an iterator with these elements.
pub(crate) fn shape_of(items: &[Expr]) -> Option<Shape<'_>>
    ensures { IsShape items.now result }
{
    if items.len() == 1 {
        return Some(Shape {
            symbol: None,
            parts: items,
        });
    }
    if items.is_empty() || 4 < items.len() {
        return None;
    }
    match items[0].node() {
        Node::Symbol(symbol) => Some(Shape {
            symbol: Some(*symbol),
            parts: &items[1..],
        }),
        _ => None,
    }
}

fn is_shared(symbol: Option<Sym>, defs: &Defs) -> bool
    ensures { result ≡ is_shared symbol defs.now }
{
    match symbol {
        Some(symbol) => defs.shared().kind_of(symbol).is_some(),
        None => false,
    }
}

fn symbol_part(alloc: Global, symbol: Option<Sym>) -> Result<Exprs, AllocError>
    ensures { IfOk result (λ part. part ≡ symbol_part symbol) }
{
    let mut part = Items::new(alloc);
    if let Some(symbol) = symbol {
        part.push(Expr::symbol(symbol))?;
    }
    Ok(part)
}

impl LoopParts {
    /// Asks for the next part.
    fn ask(&mut self) -> Move
        ensures asks { (names : n.Names) (call : C) (stay : Prog) → asks names self.old.symbol self.old.known self.old.rest (after_parts names call) stay ≡ headed result stay (left_parts names call self.new stay) }
        ensures falls { Falls (Ok result) (length self.old.rest + 3) (λ _. length self.new.rest + 3) }
    {
        match self.rest.pop() {
            Some(part) => Move::Ask(part, false),
            None => Move::Stays,
        }
    }

    /// Asks for the first part, unless the symbol is shared.
    pub(crate) fn open(&mut self, scene: &Scene, defs: &Defs, used: &mut bool) -> Move
        ensures stepped { (call : C) (stay : Prog) → Stepped (setting_of scene.now) (left_parts (names_in scene.now.names.now) call self.old stay None) stay defs.now used.old (Ok result) (left_parts (names_in scene.now.names.now) call self.new stay) defs.now used.new }
        ensures falls { Falls (Ok result) (length self.old.rest + 3) (λ _. length self.new.rest + 3) }
    {
        if is_shared(self.symbol, defs) {
            *used = true;
            return Move::Done(name(scene.names, Builtin::Failed));
        }
        self.ask()
    }

    /// Whether the value of the last part gives an iterator: a step is not 0, and a list of values is the only part.
    fn is_last(&self, names: &Vocabulary, value: &Expr) -> bool
        ensures { result ≡ is_last_part (names_in names.now) self.now.symbol self.now.known value.now }
    {
        match value.node() {
            Node::Int(number) => !(self.known.len() == 2 && *number == 0),
            Node::Str(_) => false,
            Node::Symbol(_) => false,
            Node::Normal(_, _) => {
                self.symbol.is_some()
                    && self.known.is_empty()
                    && is_call(names, Builtin::List, value)
            }
        }
    }

    /// The parts, by the value of the last.
    fn last(&mut self, scene: &Scene, value: Expr) -> Result<Option<Exprs>, AllocError>
        ensures parts { IfOk result (λ o. o ≡ parts_by (names_in scene.now.names.now) self.old.symbol self.old.known value) }
        ensures rest { self.new.rest ≡ self.old.rest }
    {
        if !self.is_last(scene.names, &value) {
            return Ok(None);
        }
        let mut parts = symbol_part(scene.alloc, self.symbol)?;
        parts.append(mem::replace(&mut self.known, Items::new(scene.alloc)))?;
        parts.push(value)?;
        Ok(Some(parts))
    }

    /// Goes on with the value of the part that was asked for.
    pub(crate) fn take(&mut self, scene: &Scene, value: Expr) -> Result<Found, AllocError>
        ensures found { (call : C) (stay : Prog) → IfOk result (λ f. Finds (names_in scene.now.names.now) call (left_parts (names_in scene.now.names.now) call self.old stay (Some value)) stay f (left_parts (names_in scene.now.names.now) call self.new stay)) }
        ensures fewer { IfOk result (λ f. Fewer f (length self.old.rest + 3) (λ _. length self.new.rest + 3)) }
    {
        if self.rest.is_empty() {
            return match self.last(scene, value)? {
                Some(parts) => Ok(Found::Parts(parts)),
                None => Ok(Found::Moves(Move::Stays)),
            };
        }
        let Node::Int(_) = value.node() else {
            return Ok(Found::Moves(Move::Stays));
        };
        self.known.push(value)?;
        Ok(Found::Moves(self.ask()))
    }
}

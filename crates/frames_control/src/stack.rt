//! Expressions of which the first is taken off and put on.
ghost use Rattle.std.specs.Prelude.{◌≡◌, ◌∷◌, ◌↔◌, [], reverse, IsTrue, IfOk, OnOk, MatchOption};

use expr_tree::{Expr, Exprs};
use item_list::Items;
use std::alloc::{AllocError, Global};
use std::marker::Model;
use std::mem;

/// Expressions, which lie in memory from the last to the first.
#[derive(Drop)]
pub struct Stack {
    reversed: Exprs,
}

impl Model for Stack {
    ghost use Rattle.std.specs.Prelude.{List, reverse};
    ghost use Rattle.expr_tree.specs.Tree.{Tree};

    ghost Value = { List Tree };

    ghost use Rattle.std.specs.Coded.{coded_list};
    ghost use Rattle.expr_tree.specs.Code.{coded_tree};

    ghost coded = { coded_list coded_tree };

    ghost view = { λ s. reverse s.reversed };
}

impl Stack {
    pub fn new(alloc: Global) -> Stack
        ensures { result ≡ [] }
    {
        Stack {
            reversed: Items::new(alloc),
        }
    }

    /// The expressions of a slice, each of them shared.
    pub fn of(alloc: Global, items: &[Expr]) -> Result<Stack, AllocError>
        ensures { IfOk result (λ s. s ≡ items.now) }
    {
        let mut copies = Vec::new(alloc);
        for item in items {
            copies.push(item.copy(alloc)?)?;
        }
        copies.reverse();
        Ok(Stack {
            reversed: Items::from_vec(copies),
        })
    }

    pub fn is_empty(&self) -> bool
        ensures { IsTrue result ↔ (self.now ≡ []) }
    {
        self.reversed.is_empty()
    }

    /// Takes the first off.
    #[tactic(auto, using(crate::proofs::Stacks::stack_steps))]
    pub fn pop(&mut self) -> Option<Expr>
        ensures { MatchOption result ((self.old ≡ []) × (self.new ≡ [])) (λ first. self.old ≡ first ∷ self.new) }
    {
        self.reversed.pop()
    }

    /// Puts an expression before the others. An `Err` drops it.
    #[tactic(auto, using(crate::proofs::Stacks::stack_steps))]
    pub fn push(&mut self, first: Expr) -> Result<(), AllocError>
        ensures { OnOk result (self.new ≡ first ∷ self.old) }
    {
        self.reversed.push(first)
    }

    /// Takes all off, the last first.
    #[tactic(auto, using(crate::proofs::Stacks::stack_steps))]
    pub fn take_reversed(&mut self, alloc: Global) -> Exprs
        ensures { result ≡ reverse self.old }
    {
        mem::replace(&mut self.reversed, Items::new(alloc))
    }

    /// Takes all off, the first first.
    pub fn take(&mut self, alloc: Global) -> Exprs
        ensures { result ≡ self.old }
    {
        let mut items = mem::replace(&mut self.reversed, Items::new(alloc)).into_vec();
        items.reverse();
        Items::from_vec(items)
    }
}

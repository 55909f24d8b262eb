//! The elements of a left side, of which those that are not held are evaluated.
ghost use Rattle.std.specs.Prelude.{◌≡◌, ◌∷◌, ◌++◌, [], ◌<◌, List, IfOk, MatchOption, length};
ghost use Rattle.expr_tree.specs.Tree.{Tree};
ghost use Rattle.semantics.specs.Program.{Prog, Ask};
ghost use Rattle.semantics.specs.Assemble.{ask_items, ask_rest};
ghost use Rattle.builtin_names.specs.Attributes.{attributes_in};
ghost use Rattle.builtin_names.specs.Named.{names_in};

use attr_steps::{holds_first, holds_rest, is_asked};
use builtin_names::Vocabulary;
use expr_tree::{Attrs, Expr, Exprs};
use frames_control::Stack;
use item_list::Items;
use std::alloc::{AllocError, Global};

/// The head with its attributes, the elements that are left, and those before them, evaluated or held. After a question the answer is
/// the next of these.
#[derive(Drop)]
pub struct Elements {
    pub(crate) head: Expr,
    pub(crate) attrs: Attrs,
    pub(crate) rest: Stack,
    pub(crate) done: Exprs,
}

impl Elements {
    /// Goes on to the next element that is evaluated, if there is one.
    pub(crate) fn next(&mut self, names: &Vocabulary) -> Result<Option<Expr>, AllocError>
        ensures head { self.new.head ≡ self.old.head }
        ensures attrs { self.new.attrs ≡ self.old.attrs }
        ensures asked { IfOk result (λ o. (k : List Tree → Prog) → MatchOption o
            (ask_rest (names_in names.now) (attributes_in self.old.attrs) self.old.rest self.old.done k ≡ k self.new.done)
            (λ e. ask_rest (names_in names.now) (attributes_in self.old.attrs) self.old.rest self.old.done k ≡ Ask e (λ v. ask_rest (names_in names.now) (attributes_in self.old.attrs) self.new.rest (self.new.done ++ v ∷ []) k))) }
        ensures falls { IfOk result (λ o. MatchOption o (Unit {0}) (λ e. length self.new.rest < length self.old.rest)) }
    {
        let held = holds_rest(&self.attrs);
        while let Some(item) = self.rest.pop() {
            if is_asked(names, &self.attrs, held, &item) {
                return Ok(Some(item));
            }
            self.done.push(item)?;
        }
        Ok(None)
    }

    /// The same from the first element on, before which nothing stands.
    pub(crate) fn first(&mut self, names: &Vocabulary) -> Result<Option<Expr>, AllocError>
        requires first { self.old.done ≡ [] }
        ensures head { self.new.head ≡ self.old.head }
        ensures attrs { self.new.attrs ≡ self.old.attrs }
        ensures asked { IfOk result (λ o. (k : List Tree → Prog) → MatchOption o
            (ask_items (names_in names.now) (attributes_in self.old.attrs) self.old.rest k ≡ k self.new.done)
            (λ e. ask_items (names_in names.now) (attributes_in self.old.attrs) self.old.rest k ≡ Ask e (λ v. ask_rest (names_in names.now) (attributes_in self.old.attrs) self.new.rest (self.new.done ++ v ∷ []) k))) }
        ensures falls { IfOk result (λ o. MatchOption o (Unit {0}) (λ e. length self.new.rest < length self.old.rest)) }
    {
        let Some(item) = self.rest.pop() else {
            return Ok(None);
        };
        if is_asked(names, &self.attrs, holds_first(&self.attrs), &item) {
            return Ok(Some(item));
        }
        self.done.push(item)?;
        self.next(names)
    }
}

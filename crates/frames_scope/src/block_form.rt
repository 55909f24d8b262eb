//! Block: its locals have their values while its body is evaluated.
ghost use Rattle.std.specs.Prelude.{◌≡◌, ◌<◌, [], None};
ghost use Rattle.expr_tree.specs.declared.limits.Limits.{Limits};
ghost use Rattle.semantics.specs.Program.{Done, Within};
ghost use Rattle.semantics.specs.Scoping.{ask_values};
ghost use Rattle.evaluation_steps.specs.Moves.{Moved};
ghost use Rattle.semantics.specs.Names as n;
ghost use Rattle.builtin_names.specs.Named.{names_in};
ghost use Rattle.frames_scope.specs.Asked.{block_left};
ghost use Rattle.frames_scope.specs.ScopingLeft.{left_block};
ghost use Rattle.frames_scope.specs.ScopeMoves.{moving, IfAsks};
ghost use Rattle.frames_scope.specs.Reading.{locals_in};

use crate::asking::Asking;
use crate::locals::Scope;
use crate::moves::ScopeMove;
use builtin_names::{Vocabulary, name};
use expr_tree::Expr;
use semantics::Builtin;
use std::alloc::{AllocError, Global};
use std::mem;

/// A Block whose symbols are not shared: the values of its locals are asked for, and then that of its body.
#[derive(Drop)]
pub enum Block {
    Values(Asking, Expr),
    Body,
}

impl Block {
    /// A Block before its first question.
    pub fn start(alloc: Global, scope: Scope) -> Block
        ensures { (names : n.Names) → left_block names result None ≡ ask_values (locals_in scope.locals) [] (λ ls. Within ls scope.body Done) }
    {
        Block::Values(Asking::new(alloc, scope.locals), scope.body)
    }

    /// The next question, or the result.
    pub fn step(
        &mut self,
        alloc: Global,
        names: &Vocabulary,
        answer: Option<Expr>,
    ) -> Result<ScopeMove, AllocError>
        ensures moved { (limits : Limits) → Moved limits (left_block (names_in names.now) self.old answer) (moving (names_in names.now) result) (left_block (names_in names.now) self.new) }
        ensures falls { IfAsks result (block_left self.new < block_left self.old) }
    {
        match mem::replace(self, Block::Body) {
            Block::Values(mut asking, body) => match asking.next(alloc, answer)? {
                Some(question) => {
                    *self = Block::Values(asking, body);
                    Ok(ScopeMove::Ask(question))
                }
                None => Ok(ScopeMove::Within(asking.finish(alloc), body)),
            },
            Block::Body => match answer {
                Some(value) => Ok(ScopeMove::Done(value)),
                None => Ok(ScopeMove::Done(name(names, Builtin::Null))),
            },
        }
    }
}

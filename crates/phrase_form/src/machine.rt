ghost use Rattle.std.specs.Prelude.{◌≡◌, IfOk};
ghost use Rattle.std.specs.Option.{option_map};
ghost use Rattle.semantics.specs.Names as n;
ghost use Rattle.builtin_names.specs.Named.{names_in};
ghost use Rattle.phrase_form.specs.Words.{terminal_in};
ghost use Rattle.phrase_form.specs.Held.{kept_in};
ghost use Rattle.phrase_form.specs.Machine.{start_at, step_at, finished_at, state_in, steps_to};

use crate::finish::finish;
use crate::follow::follow;
use crate::frame::Mode;
use crate::kept::Kept;
use crate::stack::Stack;
use crate::terminal::Terminal;
use builtin_names::Vocabulary;
use std::alloc::{AllocError, Global};
use std::mem;

/// What stands open, and what was read last.
#[derive(Drop)]
pub struct Machine {
    stack: Stack,
    mode: Mode,
}

/// Whether some cell goes on with a terminal.
#[derive(Clone, Copy, Debug, PartialEq, Eq)]
pub enum Step {
    Goes,
    Stops,
}

impl Machine {
    /// The machine before the first terminal.
    pub fn new(alloc: Global) -> Machine
        ensures { (names : n.Names) → state_in names result ≡ start_at names }
    {
        Machine {
            stack: Stack::new(alloc),
            mode: Mode::Want,
        }
    }

    /// One terminal more. An `Err`, and `Stops`, leave a machine of which nothing is known.
    pub fn step(
        &mut self,
        alloc: Global,
        names: &Vocabulary,
        terminal: Terminal,
    ) -> Result<Step, AllocError>
        ensures { IfOk result (λ s. steps_to (names_in names.now) s self.new ≡ step_at (names_in names.now) (terminal_in terminal) (state_in (names_in names.now) self.old)) }
    {
        let mode = mem::replace(&mut self.mode, Mode::Want);
        match follow(alloc, names, &mut self.stack, mode, terminal)? {
            Some(mode) => {
                self.mode = mode;
                Ok(Step::Goes)
            }
            None => Ok(Step::Stops),
        }
    }

    /// The phrase that the terminals are.
    pub fn finish(self, alloc: Global, names: &Vocabulary) -> Result<Option<Kept>, AllocError>
        ensures { IfOk result (λ k. option_map kept_in k ≡ finished_at (names_in names.now) (state_in (names_in names.now) self)) }
    {
        let Machine { mut stack, mode } = self;
        finish(alloc, names, &mut stack, mode)
    }
}

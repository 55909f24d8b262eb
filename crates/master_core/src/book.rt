ghost use Rattle.std.specs.Prelude.{◌≡◌, ◌≤◌, ◌==◌, suc, [], true, false, None, Some, length, IfOk, IfErr, OnOk, OnErr};
ghost use Rattle.semantics.specs.Definitions as d;
ghost use Rattle.journal.specs.declared.event.Event.TheVariants as event;
ghost use Rattle.journal.specs.Places.{is_some};
ghost use Rattle.journal.specs.Entry.{Nothing, Given, Lent};
ghost use Rattle.journal.specs.Core as core;
ghost use Rattle.journal.specs.Members.{setup_of};
ghost use Rattle.master_core.specs.Posting.{posting};
ghost use Rattle.master_core.specs.Joined.{item_of, bundle_of};
ghost use Rattle.master_core.specs.Book.{IsEntered, IsReplayed, opening_with, is_shut, first_take, MayPost, IsInside, TakeRefused, Refused, EnterRefused, WaitRefused};

use crate::answers::{EnterNo, No, TakeNo, Taken, WaitNo};
use crate::ledger::Journal;
use crate::losing::Terms;
use crate::state::State;
use builtin_names::{Vocabulary, symbol_for};
use dist_bundle::Bundle;
use expr_tree::{Expr, Exprs, Limits, Syms, Text, Texts};
use journal::{Entry, Event, Handed, Item, Loss, Posted, Recover, Wait};
use kernel_defs::{Defs, symbols_of};
use laws_journal::items_that_run_are_run;
use semantics::Builtin;
use std::alloc::{AllocError, Global};
use std::marker::Model;
use std::mem::swap;
use std::snapshot::Snapshot;

/// What was posted, with the core that it makes. Behind the desk of turns it is the one thing that all kernels share.
#[derive(Drop)]
pub struct Book {
    kernels: u32,
    limits: Limits,
    names: Snapshot<Vocabulary>,
    terms: Terms,
    state: State,
    defs: Defs,
    journal: Journal,
    starved: bool,
}

impl Model for Book {
    ghost use Rattle.expr_tree.specs.Code.{coded_tree};
    ghost use Rattle.std.specs.Coded.{codes};
    ghost use Rattle.master_core.specs.Book.{Contents, opening_with, IsBook};

    ghost Value = { Contents };

    ghost coded = { Prim.hlevel (codes, coded_tree) };

    ghost view = { λ b. record { opening = opening_with b.kernels b.limits b.names.value.texts b.terms.recovery; posted = b.journal.posted; core = b.state; definitions = b.defs; starved = b.starved } };

    ghost invariant = { λ b. IsBook (opening_with b.kernels b.limits b.names.value.texts b.terms.recovery) b.journal.posted b.state b.defs b.terms };
}

impl Book {
    /// A book in which nothing was posted, with so many kernels, which all live.
    pub fn new(
        alloc: Global,
        kernels: u32,
        limits: Limits,
        recovery: Recover,
        names: &Vocabulary,
    ) -> Result<Book, AllocError>
        ensures opening { IfOk result (λ book. book.opening ≡ opening_with kernels limits names.now.texts recovery) }
        ensures empty { IfOk result (λ book. (book.posted ≡ []) × (book.definitions ≡ d.empty) × (book.starved ≡ false)) }
    {
        let defs = Defs::new(alloc)?;
        let state = State::new(alloc, kernels, &defs)?;
        Ok(Book {
            kernels,
            limits,
            names: Snapshot::of(names),
            terms: Terms {
                recovery,
                failed: symbol_for(names, Builtin::Failed),
                list: symbol_for(names, Builtin::List),
            },
            state,
            defs,
            journal: Journal::new(alloc),
            starved: false,
        })
    }

    /// The core is the replay of what was posted, and an open wait has the definitions that lie in the book.
    pub fn is_replay(&self)
        ensures { IsReplayed self.now }
    {
        let _ = &self.state;
    }

    /// Whether a kernel may post nothing any more.
    fn is_shut(&self, kernel: u32) -> bool
        ensures { result ≡ is_shut self.now.core kernel }
    {
        self.state.is_closed() || (kernel != 0 && !self.state.lives(kernel))
    }

    fn may_take(&self, kernel: u32) -> bool
        requires { is_some self.now.core.wait ≡ true }
        ensures { result ≡ core.may_take (setup_of self.now.opening) self.now.core kernel }
    {
        if kernel == 0 {
            self.state.count() == 0 && self.state.unmet(self.terms.failed).is_some()
        } else {
            self.state.lives(kernel)
        }
    }

    /// The item that a kernel may take.
    fn first_take(&self, kernel: u32) -> Option<u64>
        ensures { result ≡ first_take (setup_of self.now.opening) self.now.core kernel }
    {
        if !self.state.waits() {
            return None;
        }
        if !self.may_take(kernel) {
            return None;
        }
        self.state.first_for(kernel)
    }

    /// Submits an item, which takes a bundle with it, and gives its id.
    pub fn submit(&mut self, item: Item, bundle: Bundle) -> Result<u64, AllocError>
        requires open { self.old.core.closed ≡ false }
        requires no_wait { core.no_wait self.old.core ≡ true }
        requires lives { core.may_submit self.old.core (Given item bundle) ≡ true }
        ensures id { IfOk result (λ id. id ≡ suc (length self.old.core.items)) }
        ensures ok { IfOk result (λ id. IsEntered (posting 0 (event.Submit id) (Given item bundle)) self.old self.new) }
        ensures err { OnErr result (self.new ≡ self.old) }
    {
        self.journal.reserve()?;
        let handed = Handed::Given(Snapshot::of(&item), Snapshot::of(&bundle));
        let id = self.state.submit(item, bundle)?;
        let event = Event::Submit(id);
        self.journal.add(Posted {
            entry: Entry { kernel: 0, event },
            handed,
        });
        Ok(id)
    }

    /// The master begins to wait, and lends the definitions that lie in the book.
    pub fn begin_wait(&mut self, alloc: Global, wait: Wait) -> Result<(), AllocError>
        requires open { self.old.core.closed ≡ false }
        requires no_wait { core.no_wait self.old.core ≡ true }
        requires sound { core.may_yield self.old.core wait ≡ true }
        ensures ok { OnOk result (IsEntered (posting 0 (event.Yield wait) (Lent self.old.definitions)) self.old self.new) }
        ensures err { OnErr result (self.new ≡ self.old) }
    {
        self.journal.reserve()?;
        let event = Event::Yield(wait.copy(alloc)?);
        let handed = Handed::Lent(Snapshot::of(&self.defs));
        self.state.begin_wait(wait, &self.defs);
        self.journal.add(Posted {
            entry: Entry { kernel: 0, event },
            handed,
        });
        Ok(())
    }

    /// Ends the standing wait, whose condition holds, and gives what it waited for.
    pub fn end_wait(&mut self, alloc: Global) -> Result<Exprs, WaitNo>
        requires waits { is_some self.old.core.wait ≡ true }
        requires idle { core.attempt_of self.old.core 0 ≡ None }
        ensures ok { OnOk result (IsEntered (posting 0 event.Resume Nothing) self.old self.new) }
        ensures reply { IfOk result (λ reply. reply ≡ core.wait_reply (setup_of self.old.opening).names self.old.core) }
        ensures no { IfErr result (WaitRefused (setup_of self.old.opening).names self.old.core) }
        ensures err { OnErr result (self.new ≡ self.old) }
    {
        self.journal.reserve()?;
        if let Some(unmet) = self.state.unmet(self.terms.failed) {
            return Err(WaitNo::NotYet(unmet));
        }
        let reply = self.state.reply(alloc, self.terms.failed)?;
        self.state.end_wait();
        let event = Event::Resume;
        self.journal.add(Posted {
            entry: Entry { kernel: 0, event },
            handed: Handed::Nothing,
        });
        Ok(reply)
    }

    /// The run ends.
    pub fn close(&mut self) -> Result<(), AllocError>
        requires open { self.old.core.closed ≡ false }
        requires no_wait { core.no_wait self.old.core ≡ true }
        ensures ok { OnOk result (IsEntered (posting 0 event.Close Nothing) self.old self.new) }
        ensures err { OnErr result (self.new ≡ self.old) }
    {
        self.journal.reserve()?;
        self.state.close();
        let event = Event::Close;
        self.journal.add(Posted {
            entry: Entry { kernel: 0, event },
            handed: Handed::Nothing,
        });
        Ok(())
    }

    /// A kernel, or with 0 the stand-in, takes the least item that it may take.
    pub fn take(&mut self, alloc: Global, kernel: u32) -> Result<Taken, TakeNo>
        requires within { kernel ≤ self.old.opening.kernels }
        requires idle { core.attempt_of self.old.core kernel ≡ None }
        ensures ok { IfOk result (λ taken. IsEntered (posting kernel (event.Take taken.id) Nothing) self.old self.new) }
        ensures item { IfOk result (λ taken. item_of self.old.core taken.id ≡ Some taken.item) }
        ensures bundle { IfOk result (λ taken. bundle_of self.old.core taken.id ≡ Some taken.bundle) }
        ensures no { IfErr result (TakeRefused (setup_of self.old.opening) self.old.core kernel) }
        ensures err { OnErr result (self.new ≡ self.old) }
    {
        if self.is_shut(kernel) {
            return Err(TakeNo::Closed);
        }
        self.journal.reserve()?;
        let Some(id) = self.first_take(kernel) else {
            return Err(TakeNo::Idle);
        };
        let taken = self.state.taken(alloc, id)?;
        self.state.take(kernel, id);
        let event = Event::Take(id);
        self.journal.add(Posted {
            entry: Entry { kernel, event },
            handed: Handed::Nothing,
        });
        Ok(taken)
    }

    /// A kernel delivers the value of the item that it runs.
    pub fn deliver(&mut self, alloc: Global, kernel: u32, id: u64, value: Expr) -> Result<(), No>
        requires turn { is_shut self.old.core kernel ≡ false → core.may_post self.old.core ≡ true }
        requires runs { is_shut self.old.core kernel ≡ false → core.runs self.old.core kernel id ≡ true }
        requires outside { is_shut self.old.core kernel ≡ false → core.holds_nothing self.old.core kernel ≡ true }
        ensures ok { OnOk result (IsEntered (posting kernel (event.Deliver id value) Nothing) self.old self.new) }
        ensures no { IfErr result (Refused self.old.core kernel) }
        ensures err { OnErr result (self.new ≡ self.old) }
    {
        if self.is_shut(kernel) {
            return Err(No::Closed);
        }
        self.journal.reserve()?;
        let event = Event::Deliver(id, value.copy(alloc)?);
        self.state.deliver(kernel, id, value)?;
        self.journal.add(Posted {
            entry: Entry { kernel, event },
            handed: Handed::Nothing,
        });
        Ok(())
    }
}

impl Book {
    /// A kernel, which is not the master, is lost. Its section ends, the item that it runs waits again or is abandoned, and items for it
    /// alone fail.
    pub fn lose(&mut self, alloc: Global, kernel: u32, cause: Loss) -> Result<(), No>
        requires other { (kernel == 0) ≡ false }
        requires turn { is_shut self.old.core kernel ≡ false → core.may_post self.old.core ≡ true }
        ensures ok { OnOk result (IsEntered (posting kernel (event.Lose cause) Nothing) self.old self.new) }
        ensures no { IfErr result (Refused self.old.core kernel) }
        ensures err { OnErr result (self.new ≡ self.old) }
    {
        if self.is_shut(kernel) {
            return Err(No::Closed);
        }
        self.journal.reserve()?;
        items_that_run_are_run();
        self.state.lose(alloc, kernel, self.terms)?;
        let event = Event::Lose(cause);
        self.journal.add(Posted {
            entry: Entry { kernel, event },
            handed: Handed::Nothing,
        });
        Ok(())
    }

    /// A kernel, in an attempt or with 0 the master outside a wait, prints a line.
    pub fn print(&mut self, alloc: Global, kernel: u32, text: Text) -> Result<(), No>
        requires turn { MayPost self.old.core kernel }
        requires inside { IsInside self.old.core kernel }
        ensures ok { OnOk result (IsEntered (posting kernel (event.Print text) Nothing) self.old self.new) }
        ensures no { IfErr result (Refused self.old.core kernel) }
        ensures err { OnErr result (self.new ≡ self.old) }
    {
        if self.is_shut(kernel) {
            return Err(No::Closed);
        }
        self.journal.reserve()?;
        let event = Event::Print(text.copy(alloc)?);
        self.state.print(kernel, text)?;
        self.journal.add(Posted {
            entry: Entry { kernel, event },
            handed: Handed::Nothing,
        });
        Ok(())
    }

    /// How many kernels live.
    pub fn ask(&mut self, kernel: u32) -> Result<u32, No>
        requires turn { MayPost self.old.core kernel }
        requires inside { IsInside self.old.core kernel }
        ensures count { IfOk result (λ n. n ≡ core.count self.old.core) }
        ensures ok { IfOk result (λ n. IsEntered (posting kernel (event.Ask n) Nothing) self.old self.new) }
        ensures no { IfErr result (Refused self.old.core kernel) }
        ensures err { OnErr result (self.new ≡ self.old) }
    {
        if self.is_shut(kernel) {
            return Err(No::Closed);
        }
        self.journal.reserve()?;
        let count = self.state.count();
        self.state.ask(kernel);
        let event = Event::Ask(count);
        self.journal.add(Posted {
            entry: Entry { kernel, event },
            handed: Handed::Nothing,
        });
        Ok(count)
    }

    /// A kernel, in an attempt or with 0 the master outside a wait, enters a section of some locks, all of them or none.
    pub fn enter(&mut self, alloc: Global, kernel: u32, locks: &Syms) -> Result<(), EnterNo>
        requires within { kernel ≤ self.old.opening.kernels }
        requires turn { MayPost self.old.core kernel }
        requires inside { IsInside self.old.core kernel }
        requires outside { is_shut self.old.core kernel ≡ false → core.holds_nothing self.old.core kernel ≡ true }
        requires some { d.is_empty locks.now ≡ false }
        ensures ok { OnOk result (IsEntered (posting kernel (event.Enter locks.now) Nothing) self.old self.new) }
        ensures no { IfErr result (EnterRefused self.old.core kernel locks.now) }
        ensures err { OnErr result (self.new ≡ self.old) }
    {
        if self.is_shut(kernel) {
            return Err(EnterNo::Closed);
        }
        self.journal.reserve()?;
        let event = Event::Enter(symbols_of(alloc, locks.as_slice())?);
        self.state.enter(kernel, locks)?;
        self.journal.add(Posted {
            entry: Entry { kernel, event },
            handed: Handed::Nothing,
        });
        Ok(())
    }

    /// A kernel leaves its section.
    pub fn leave(&mut self, kernel: u32) -> Result<(), No>
        requires turn { MayPost self.old.core kernel }
        requires inside { IsInside self.old.core kernel }
        requires section { is_shut self.old.core kernel ≡ false → core.holds_nothing self.old.core kernel ≡ false }
        ensures ok { OnOk result (IsEntered (posting kernel event.Leave Nothing) self.old self.new) }
        ensures no { IfErr result (Refused self.old.core kernel) }
        ensures err { OnErr result (self.new ≡ self.old) }
    {
        if self.is_shut(kernel) {
            return Err(No::Closed);
        }
        self.journal.reserve()?;
        self.state.leave(kernel);
        let event = Event::Leave;
        self.journal.add(Posted {
            entry: Entry { kernel, event },
            handed: Handed::Nothing,
        });
        Ok(())
    }

    /// Gives the definitions that lie in the book, and takes others. No wait stands.
    pub fn swap_defs(&mut self, defs: &mut Defs)
        requires { core.no_wait self.old.core ≡ true }
        ensures book { self.new ≡ record self.old { definitions = defs.old } }
        ensures defs { defs.new ≡ self.old.definitions }
    {
        swap(&mut self.defs, defs);
    }

    /// Says that a kernel found no memory. This is no entry.
    pub fn starve(&mut self)
        ensures { self.new ≡ record self.old { starved = true } }
    {
        self.starved = true;
    }

    pub fn starved(&self) -> bool
        ensures { result ≡ self.now.starved }
    {
        self.starved
    }

    /// What was posted.
    pub fn journal(&self) -> &Journal
        ensures { result.now.posted ≡ self.now.posted }
    {
        &self.journal
    }

    /// Whether a kernel may post.
    pub fn may_post(&self) -> bool
        ensures { result ≡ core.may_post self.now.core }
    {
        self.state.waits() || !self.state.is_begun()
    }

    pub fn lives(&self, kernel: u32) -> bool
        ensures { result ≡ core.lives self.now.core kernel }
    {
        self.state.lives(kernel)
    }

    /// Whether an id was submitted and not dropped.
    pub fn names_item(&self, id: u64) -> bool
        ensures { result ≡ core.names_item self.now.core id }
    {
        self.state.names_item(id)
    }

    /// The lines that were printed.
    pub fn lines(&self) -> &Texts
        ensures { result.now ≡ self.now.core.lines }
    {
        self.state.lines()
    }
}

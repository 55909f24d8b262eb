ghost use Rattle.std.specs.Prelude.{◌≡◌, suc, ◌++◌, ◌∷◌, [], length, map, ◌<◌, OnOk};
ghost use Rattle.std.specs.Option.{option_copied, option_map};
ghost use Rattle.journal.specs.Places.{nth};
ghost use Rattle.journal.specs.Beside.{posted_in};

use dist_bundle::Bundle;
use journal::{Entry, Posted};
use kernel_defs::Defs;
use std::alloc::{AllocError, Global};
use std::marker::Model;

/// The entries that were posted, in their order. Contracts see beside each what was handed in, and for how many there is room.
#[derive(Drop)]
pub struct Journal {
    entries: Vec<Posted<Bundle, Defs>>,
}

impl Model for Journal {
    ghost use Rattle.std.specs.Prelude.{map, vec_capacity};
    ghost use Rattle.journal.specs.Beside.{posted_in};
    ghost use Rattle.expr_tree.specs.Code.{coded_tree};
    ghost use Rattle.std.specs.Coded.{codes};
    ghost use Rattle.master_core.specs.Postings.{Postings};

    ghost Value = { Postings };

    ghost coded = { Prim.hlevel (codes, coded_tree) };

    ghost view = { λ j. record { posted = map posted_in j.entries.items; room = vec_capacity j.entries } };
}

impl Journal {
    /// No entry. It takes no memory.
    pub fn new(alloc: Global) -> Journal
        ensures { result.posted ≡ [] }
    {
        Journal {
            entries: Vec::new(alloc),
        }
    }

    pub fn len(&self) -> usize
        ensures { result ≡ length self.now.posted }
    {
        self.entries.len()
    }

    /// The entry at a place, from 0.
    pub fn get(&self, at: usize) -> Option<&Entry>
        ensures { option_copied result ≡ option_map (λ p. p.entry) (nth self.now.posted at) }
    {
        let posted = self.entries.get(at)?;
        Some(&posted.entry)
    }

    /// Makes room for one entry more.
    pub(crate) fn reserve(&mut self) -> Result<(), AllocError>
        ensures posted { self.new.posted ≡ self.old.posted }
        ensures ok { OnOk result (length self.new.posted < self.new.room) }
    {
        self.entries.reserve(1)
    }

    /// Adds an entry, for which there is room.
    pub(crate) fn add(&mut self, posted: Posted<Bundle, Defs>)
        requires { length self.old.posted < self.old.room }
        ensures { self.new.posted ≡ self.old.posted ++ posted_in posted ∷ [] }
    {
        self.entries.push_reserved(posted);
    }
}

ghost use Rattle.std.specs.Prelude.{◌≡◌, IfOk, map};
ghost use Rattle.dist_bundle.specs.Bundle.{entry_in};

use crate::reach::Reach;
use expr_tree::Sym;
use kernel_defs::Definition;
use shared_calls::Shared;
use std::alloc::{AllocError, Global};
use std::marker::Model;

/// A symbol with its definition.
#[derive(Debug, Drop)]
pub struct BundleEntry {
    pub symbol: Sym,
    pub definition: Definition,
}

/// The definitions on a set of symbols, with the shared symbols and the module number. A symbol of the set without an entry has its
/// first definition.
#[derive(Debug, Drop)]
pub struct Bundle {
    reach: Reach,
    entries: Vec<BundleEntry>,
    shared: Shared,
    module_number: u64,
}

impl Model for Bundle {
    ghost use Rattle.std.specs.Coded.{codes};
    ghost use Rattle.expr_tree.specs.Code.{coded_tree};
    ghost use Rattle.journal.specs.Closure as closure;

    ghost Value = { closure.Bundle };

    ghost coded = { Prim.hlevel (codes, coded_tree) };

    ghost use Rattle.dist_bundle.specs.Bundle.{bundle_in, IsBundle};

    ghost view = { bundle_in };

    ghost invariant = { IsBundle };
}

/// The same entries in a list of their own.
fn copies_of(alloc: Global, entries: &[BundleEntry]) -> Result<Vec<BundleEntry>, AllocError>
    ensures { IfOk result (λ copies. map entry_in copies.items ≡ map entry_in entries.now) }
{
    let mut copies = Vec::with_capacity(alloc, entries.len())?;
    for entry in entries {
        copies.push(BundleEntry {
            symbol: entry.symbol,
            definition: entry.definition.copy(alloc)?,
        })?;
    }
    Ok(copies)
}

impl Bundle {
    /// The same bundle. Values and rules are shared, so this takes a time that depends on the number of its symbols, and not on what
    /// they have.
    pub fn copy(&self, alloc: Global) -> Result<Bundle, AllocError>
        ensures { IfOk result (λ b. b ≡ self.now) }
    {
        Ok(Bundle {
            reach: self.reach.copy(alloc)?,
            entries: copies_of(alloc, self.entries.as_slice())?,
            shared: self.shared.copy(alloc)?,
            module_number: self.module_number,
        })
    }
}

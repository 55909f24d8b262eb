use crate::event::Entry;
use crate::item::Item;
use expr_tree::Sym;
use item_list::Items;
use std::snapshot::Snapshot;

/// What is handed in beside an entry. It serves contracts alone: a snapshot has no bytes.
#[derive(Drop)]
pub enum Handed<Bundled, Lent> {
    Nothing,
    /// At Submit: the item, with its bundle.
    Given(Snapshot<Item>, Snapshot<Bundled>),
    /// At Yield: the master's definitions.
    Lent(Snapshot<Lent>),
    /// At Take: the versions of definitions that the kernel holds.
    Held(Snapshot<Items<(Sym, u64)>>),
}

/// An entry, with what was handed in beside it.
#[derive(Drop)]
pub struct Posted<Bundled, Lent> {
    pub entry: Entry,
    pub handed: Handed<Bundled, Lent>,
}

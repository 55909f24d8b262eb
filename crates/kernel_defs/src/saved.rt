ghost use Rattle.std.specs.Prelude.{◌≡◌, ◌++◌, ◌∷◌, [], IfErr, OnOk, OnErr};
ghost use Rattle.kernel_defs.specs.Saved.{piece_of, saved_in};

use crate::chain::Entry;
use expr_tree::Sym;
use std::alloc::Global;

/// What stood for a symbol before it was put by.
#[derive(Drop)]
pub(crate) enum Piece {
    Kept(Box<Entry>),
    Absent(Sym),
}

/// What stood for the locals of a form before they were put by, in the order of the locals.
#[derive(Drop)]
pub struct Saved {
    pub(crate) pieces: Vec<Piece>,
}

impl Saved {
    /// Nothing was put by. It takes no memory.
    pub fn new(alloc: Global) -> Saved
        ensures { saved_in result ≡ [] }
    {
        Saved {
            pieces: Vec::new(alloc),
        }
    }

    /// Adds a piece at the end. An `Err` gives it back, and leaves the others unchanged.
    pub(crate) fn push(&mut self, piece: Piece) -> Result<(), Piece>
        ensures ok { OnOk result (saved_in self.new ≡ saved_in self.old ++ piece_of piece ∷ []) }
        ensures err { OnErr result (saved_in self.new ≡ saved_in self.old) }
        ensures back { IfErr result (λ p. piece_of p ≡ piece_of piece) }
    {
        match self.pieces.push(piece) {
            Ok(()) => Ok(()),
            Err(failed) => Err(failed.value),
        }
    }
}

//! Locals are put by, and put back.
ghost use Rattle.std.specs.Prelude.{◌≡◌, ◌++◌, ◌∷◌, [], List, IfOk, OnOk, OnErr, Some, None};
ghost use Rattle.semantics.specs.Definitions as d;
ghost use Rattle.semantics.specs.Definitions.{Definitions};
ghost use Rattle.semantics.specs.Program.{Local};
ghost use Rattle.semantics.specs.Play as play;
ghost use Rattle.builtin_names.specs.Named.{names_in};
ghost use Rattle.kernel_defs.specs.Definition.{definition_of};
ghost use Rattle.kernel_defs.specs.Locals.{linked, or_first, restored, saved_along, without};
ghost use Rattle.kernel_defs.specs.Saved.{piece_of, saved_in};

use crate::chain::Entry;
use crate::definition::Definition;
use crate::defs::Defs;
use crate::saved::{Piece, Saved};
use builtin_names::Vocabulary;
use expr_tree::{Attrs, Expr, Sym};
use rule_store::Rules;
use std::alloc::{AllocError, Global};

/// An entry for a local: its value and nothing else.
fn local_entry(alloc: Global, symbol: Sym, value: Option<Expr>) -> Result<Box<Entry>, AllocError>
    ensures symbol { IfOk result (λ e. e.value.symbol ≡ symbol) }
    ensures definition { IfOk result (λ e. definition_of e.value.definition ≡ play.local_definition (record { symbol = symbol; value = value })) }
{
    let definition = Definition {
        attrs: Attrs::none(),
        own: value,
        downs: Rules::new(alloc),
        ups: Rules::new(alloc),
    };
    Entry::boxed(alloc, symbol, definition)
}

impl Defs {
    /// Puts a symbol by, which gets this value and nothing else. An `Err` leaves the definitions and `saved` unchanged.
    pub fn put_by(
        &mut self,
        alloc: Global,
        names: &Vocabulary,
        symbol: Sym,
        value: Option<Expr>,
        saved: &mut Saved,
    ) -> Result<(), AllocError>
        ensures definitions { OnOk result (self.new ≡ d.put (names_in names.now) self.old symbol (play.local_definition (record { symbol = symbol; value = value }))) }
        ensures saved { OnOk result (saved_in saved.new ≡ saved_in saved.old ++ (symbol, d.look_up self.old.entries symbol) ∷ []) }
        ensures err { OnErr result (self.new ≡ self.old) }
        ensures err_saved { OnErr result (saved_in saved.new ≡ saved_in saved.old) }
    {
        let local = local_entry(alloc, symbol, value)?;
        let piece = self.take_piece(symbol);
        match saved.push(piece) {
            Ok(()) => {
                self.store(names, local);
                Ok(())
            }
            Err(piece) => {
                self.link_piece(piece);
                Err(AllocError)
            }
        }
    }

    fn take_piece(&mut self, symbol: Sym) -> Piece
        ensures piece { piece_of result ≡ (symbol, d.look_up self.old.entries symbol) }
        ensures rest { self.new ≡ without self.old symbol }
        ensures back { (x : d.Definition) → d.look_up self.old.entries symbol ≡ Some x → self.old ≡ record self.new { entries = d.add_entry self.new.entries symbol x } }
    {
        match self.take(symbol) {
            Some(entry) => Piece::Kept(entry),
            None => Piece::Absent(symbol),
        }
    }

    fn link_piece(&mut self, piece: Piece)
        requires { d.look_up self.old.entries (piece_of piece).0 ≡ None }
        ensures { self.new ≡ linked (piece_of piece) self.old }
    {
        match piece {
            Piece::Kept(entry) => self.link(entry),
            Piece::Absent(_) => (),
        }
    }

    /// Gives a symbol what it had before it was put by.
    fn put_back_one(&mut self, names: &Vocabulary, piece: Piece)
        ensures { self.new ≡ d.put (names_in names.now) self.old (piece_of piece).0 (or_first (names_in names.now) (piece_of piece).0 (piece_of piece).1) }
    {
        match piece {
            Piece::Kept(entry) => {
                self.take(entry.symbol);
                self.store(names, entry);
            }
            Piece::Absent(symbol) => {
                self.take(symbol);
            }
        }
    }

    fn put_back_all(&mut self, names: &Vocabulary, saved: Saved)
        ensures { self.new ≡ restored (names_in names.now) (saved_in saved) self.old }
    {
        let Saved { mut pieces } = saved;
        while let Some(piece) = pieces.pop() {
            self.put_back_one(names, piece);
        }
    }

    /// Gives symbols what they had before they were put by, the last first. It takes no memory.
    pub fn put_back(&mut self, names: &Vocabulary, saved: Saved)
        ensures { (old : Definitions) (ls : List Local) → saved_in saved ≡ saved_along (names_in names.now) ls old → self.new ≡ play.put_back (names_in names.now) old ls self.old }
    {
        self.entries_ascend();
        self.put_back_all(names, saved);
    }
}

ghost use Rattle.std.specs.Prelude.{◌≡◌, ◌<◌, ◌≤◌, ◌+◌, ◌^◌, ◌++◌, ◌||◌, List, ℕ, map, length, get_or, is_some, string_bytes, true, Some, IfOk, IfSome, OnOk};
ghost use Rattle.std.specs.List.{list_any};
ghost use Rattle.std.specs.Str.{bytes_eq};
ghost use Rattle.indexmap.specs.IndexSet.{contains_text};
ghost use Rattle.script_text.specs.Laws.{AreDistinct};
ghost use Rattle.script_text.specs.Spelling.{bases, by_texts, spelled, symbol_text};
ghost use Rattle.name_table.specs.Table.{NameTable, OrdersByName, is_kept, found, places, row_of};

use crate::name_order::compare_names;
use crate::spelling::read_name;
use expr_tree::{Sym, Text, Texts};
use indexmap::IndexSet;
use std::alloc::{AllocError, Global};
use std::marker::Model;

/// The bases of symbols, each once and in the order of names, and among them those of the known names, by their rows.
#[derive(Drop)]
pub struct Names {
    set: IndexSet<String>,
    known: Vec<u32>,
}

impl Model for Names {
    ghost use Rattle.std.specs.Prelude.{map, string_bytes};
    ghost use Rattle.name_table.specs.Table.{NameTable};
    ghost use Rattle.name_table.specs.Kept.{IsTable};

    ghost Value = { NameTable };

    ghost view = { λ n. record { texts = map string_bytes n.set.keys; known = n.known.items } };

    ghost invariant = { λ n. IsTable (record { texts = map string_bytes n.set.keys; known = n.known.items }) };
}

impl Names {
    /// The bases of the known names and of the other texts. Each text is a name, and may be that of a generated symbol.
    pub fn of_texts(alloc: Global, known: &Texts, texts: &Texts) -> Result<Names, AllocError>
        requires { length known.now + length texts.now < 2 ^ 32 }
        ensures texts { IfOk result (λ names. names.texts ≡ bases (known.now ++ texts.now)) }
        ensures known { IfOk result (λ names. names.known ≡ places names.texts known.now) }
    {
        let mut set = IndexSet::new(alloc);
        add_bases(alloc, &mut set, known)?;
        add_bases(alloc, &mut set, texts)?;
        set.sort_by(|a, b| compare_names(a.as_str(), b.as_str()))?;
        let known = places_of(alloc, &set, known)?;
        Ok(Names { set, known })
    }

    /// The symbol that a name is read as, where its base is kept: `x$12` is the symbol 12 of the base `x`.
    pub fn find(&self, text: &str) -> Option<Sym>
        ensures some { IfSome result (λ s. s ≡ found self.now text.now) }
        ensures kept { is_some result ≡ is_kept self.now (spelled text.now).base }
        ensures within { IfSome result (λ s. s.base < length self.now.texts) }
    {
        let name = read_name(text);
        match self.set.get_index_of(name.base) {
            Some(place) => Some(Sym {
                base: place as u32,
                number: name.number,
            }),
            None => None,
        }
    }

    /// The text of a symbol, with `$` and the number where it is generated.
    pub fn text(&self, alloc: Global, symbol: Sym) -> Result<Text, AllocError>
        ensures { IfOk result (λ t. t ≡ symbol_text (by_texts self.now.texts) symbol) }
    {
        let mut text = Text::of(alloc, self.base_text(symbol.base))?;
        if symbol.number != 0 {
            text.append("$")?;
            let mut digits = itoa::Buffer::new();
            text.append(digits.format(symbol.number))?;
        }
        Ok(text)
    }

    /// The text of a base. That of one that is not kept is empty.
    pub fn base_text(&self, base: u32) -> &str
        ensures { result.now ≡ by_texts self.now.texts base }
    {
        match self.set.get_index(base as usize) {
            Some(text) => text.as_str(),
            None => "",
        }
    }

    /// The number of bases.
    pub fn len(&self) -> usize
        ensures value { result ≡ length self.now.texts }
        ensures within { result < 2 ^ 32 }
    {
        self.set.len()
    }

    /// The number of known names.
    pub fn known_len(&self) -> usize
        ensures { result ≡ length self.now.known }
    {
        self.known.len()
    }

    /// The plain symbol of the known name in a row.
    pub fn known(&self, row: usize) -> Sym
        requires { row < length self.now.known }
        ensures value { result ≡ record { base = get_or self.now.known row 0; number = 0 } }
        ensures kept { result.base < length self.now.texts }
    {
        Sym {
            base: self.known[row],
            number: 0,
        }
    }

    /// The row of the known name that the symbol is.
    #[tactic(auto, using(crate::proofs::Places::place_steps))]
    pub fn row(&self, symbol: Sym) -> Option<usize>
        ensures { result ≡ row_of self.now symbol }
    {
        if symbol.number != 0 {
            return None;
        }
        for (row, base) in self.known.iter().enumerate() {
            if *base == symbol.base {
                return Some(row);
            }
        }
        None
    }

    /// No two bases have one text.
    pub fn texts_are_distinct(&self)
        ensures { AreDistinct self.now.texts }
    {
        let _ = &self.set;
    }

    /// The base of each known name is kept.
    pub fn known_are_kept(&self)
        ensures { (row : ℕ) → row < length self.now.known → get_or self.now.known row 0 < length self.now.texts }
    {
        let _ = &self.set;
    }

    /// Symbols compare as their names do: by the texts of the bases, then by number.
    pub fn symbols_are_in_the_order_of_names(&self)
        ensures { OrdersByName self.now }
    {
        let _ = &self.set;
    }
}

/// The places of the bases of names that are all kept.
#[tactic(auto, using(crate::proofs::Adding::adding_steps))]
fn places_of(alloc: Global, set: &IndexSet<String>, names: &Texts) -> Result<Vec<u32>, AllocError>
    requires few { length set.now.keys < 2 ^ 32 }
    requires kept { (t : List ℕ) → list_any (bytes_eq t) (map (λ name. (spelled name).base) names.now) ≡ true → contains_text set.now t ≡ true }
    ensures { IfOk result (λ r. r.items ≡ places (map string_bytes set.now.keys) names.now) }
{
    let mut found = Vec::new(alloc);
    for name in names.as_slice() {
        match set.get_index_of(read_name(name.as_str()).base) {
            Some(place) => found.push(place as u32)?,
            None => unreachable!(),
        }
    }
    Ok(found)
}

/// Adds the bases of names.
#[tactic(auto, using(crate::proofs::Adding::adding_steps))]
fn add_bases(alloc: Global, set: &mut IndexSet<String>, names: &Texts) -> Result<(), AllocError>
    ensures bases { OnOk result ((t : List ℕ) → contains_text set.new t ≡ (contains_text set.old t || list_any (bytes_eq t) (map (λ name. (spelled name).base) names.now))) }
    ensures few { OnOk result (length set.new.keys ≤ length set.old.keys + length names.now) }
{
    for name in names.as_slice() {
        let base = read_name(name.as_str()).base;
        set.insert(String::from_str(alloc, base)?)?;
    }
    Ok(())
}

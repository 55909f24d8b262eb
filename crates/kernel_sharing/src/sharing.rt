ghost use Rattle.std.specs.Prelude.{◌≡◌, if◌then◌else◌, not, IfOk, OnErr, OnOk};
ghost use Rattle.journal.specs.Forms.{cannot_share, in_other_kind, with_named, with_shared};
ghost use Rattle.semantics.specs.Definitions as d;
ghost use Rattle.builtin_names.specs.Named.{names_in};
ghost use Rattle.shared_calls.specs.View.{share_of};

use builtin_names::Vocabulary;
use expr_tree::{Sym, Syms};
use kernel_defs::{Defs, is_among, symbols_of};
use shared_calls::{ShareKind, Shared, SharedSymbol};
use std::alloc::{AllocError, Global};

fn is_in_other_kind(defs: &Defs, symbol: Sym, kind: ShareKind) -> bool
    ensures { result ≡ in_other_kind (share_of kind) (d.shared_as defs.now.shared symbol) }
{
    match defs.shared().find(symbol) {
        None => false,
        Some(shared) => !shared.kind.is(kind),
    }
}

/// Whether one of some symbols is Protected, or shared in the other kind.
fn cannot_share(names: &Vocabulary, defs: &Defs, symbols: &[Sym], kind: ShareKind) -> bool
    ensures { result ≡ cannot_share (names_in names.now) defs.now (share_of kind) symbols.now }
{
    for symbol in symbols {
        if defs.is_protected(names, *symbol) || is_in_other_kind(defs, *symbol, kind) {
            return true;
        }
    }
    false
}

/// The shared symbols, with those of some symbols that are not shared yet at the end.
fn with_shared(
    alloc: Global,
    names: &Vocabulary,
    defs: &Defs,
    symbols: &[Sym],
    kind: ShareKind,
) -> Result<Shared, AllocError>
    ensures { IfOk result (λ shared. shared ≡ with_shared (names_in names.now) defs.now (share_of kind) symbols.now defs.now.shared) }
{
    let mut shared = defs.shared().copy(alloc)?;
    for symbol in symbols {
        if shared.find(*symbol).is_none() {
            let attrs = defs.stored_attrs(names, *symbol);
            let symbol = *symbol;
            shared.push(SharedSymbol {
                symbol,
                kind,
                attrs,
            })?;
        }
    }
    Ok(shared)
}

/// Shares symbols, and says whether it did: it shares none where one of them is Protected or shared in the other kind. A symbol
/// that is shared stays as it is shared. An `Err` leaves the definitions unchanged.
pub fn share(
    alloc: Global,
    names: &Vocabulary,
    defs: &mut Defs,
    symbols: &Syms,
    kind: ShareKind,
) -> Result<bool, AllocError>
    ensures allowed { IfOk result (λ done. done ≡ not (cannot_share (names_in names.now) defs.old (share_of kind) symbols.now)) }
    ensures shared { IfOk result (λ done. defs.new ≡ (if done then record defs.old { shared = with_shared (names_in names.now) defs.old (share_of kind) symbols.now defs.old.shared } else defs.old)) }
    ensures err { OnErr result (defs.new ≡ defs.old) }
{
    if cannot_share(names, defs, symbols.as_slice(), kind) {
        return Ok(false);
    }
    let shared = with_shared(alloc, names, defs, symbols.as_slice(), kind)?;
    defs.set_shared(shared);
    Ok(true)
}

/// The symbols that were named to be distributed, with those of some symbols that were not at the end.
fn with_named(alloc: Global, defs: &Defs, symbols: &[Sym]) -> Result<Syms, AllocError>
    ensures { IfOk result (λ named. named ≡ with_named symbols.now defs.now.named) }
{
    let mut named = symbols_of(alloc, defs.named().as_slice())?;
    for symbol in symbols {
        if !is_among(*symbol, &named) {
            named.push(*symbol)?;
        }
    }
    Ok(named)
}

/// Adds symbols to those that were named to be distributed, each once. An `Err` leaves the definitions unchanged.
pub fn name(alloc: Global, defs: &mut Defs, symbols: &Syms) -> Result<(), AllocError>
    ensures ok { OnOk result (defs.new ≡ record defs.old { named = with_named symbols.now defs.old.named }) }
    ensures err { OnErr result (defs.new ≡ defs.old) }
{
    let named = with_named(alloc, defs, symbols.as_slice())?;
    defs.set_named(named);
    Ok(())
}

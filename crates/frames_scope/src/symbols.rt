//! Whether the bases of symbols differ.
ghost use Rattle.std.specs.Prelude.{◌≡◌};
ghost use Rattle.semantics.specs.Scoping as s;

use expr_tree::Sym;

fn has_base(base: u32, symbols: &[Sym]) -> bool
    ensures { result ≡ s.has_base base symbols.now }
{
    for symbol in symbols {
        if symbol.base == base {
            return true;
        }
    }
    false
}

/// Whether no two symbols have one base.
pub(crate) fn bases_differ(symbols: &[Sym]) -> bool
    ensures { result ≡ s.bases_differ symbols.now }
{
    for (i, symbol) in symbols.iter().enumerate() {
        if has_base(symbol.base, &symbols[i + 1..]) {
            return false;
        }
    }
    true
}

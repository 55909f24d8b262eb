ghost use Rattle.std.specs.Prelude.{◌≡◌};
ghost use Rattle.expr_tree.specs.Tree.{trees};
ghost use Rattle.show_form.specs.Extents.{capped, extent, parts_extent, joined, deepened};

use expr_tree::{Expr, MAX_DEPTH, MAX_SIZE};

/// A size and a depth. What is beyond a limit counts as one more than the limit.
#[derive(Clone, Copy, Debug)]
pub(crate) struct Extent {
    pub size: u64,
    pub depth: u32,
}

fn capped(size: u64, depth: u32) -> Extent
    ensures { result ≡ capped size depth }
{
    Extent {
        size: size.min(MAX_SIZE + 1),
        depth: depth.min(MAX_DEPTH + 1),
    }
}

pub(crate) fn extent_of(e: &Expr) -> Extent
    ensures { result ≡ extent e.now }
{
    capped(e.size(), e.depth())
}

/// That of two things beside each other.
pub(crate) fn joined(a: Extent, b: Extent) -> Extent
    ensures { result ≡ joined a b }
{
    capped(a.size.saturating_add(b.size), a.depth.max(b.depth))
}

/// That of an expression whose head and elements have this one together.
pub(crate) fn deepened(parts: Extent) -> Extent
    ensures { result ≡ deepened parts }
{
    capped(parts.size, parts.depth.saturating_add(1))
}

/// That of a head and elements together.
#[tactic(auto, using(crate::proofs::Extents::parts_none))]
pub(crate) fn parts_extent(head: &Expr, items: &[Expr]) -> Extent
    ensures { result ≡ parts_extent head.now items.now }
{
    let mut parts = extent_of(head);
    for item in items {
        parts = joined(parts, extent_of(item));
    }
    parts
}

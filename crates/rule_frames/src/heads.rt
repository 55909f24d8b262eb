//! The attributes of the heads of a pattern, but for those of its constructs.
ghost use Rattle.std.specs.Prelude.{◌≡◌, ◌++◌, length, IfOk, OnOk};
ghost use Rattle.expr_tree.specs.Tree.{symbol, trees};
ghost use Rattle.semantics.specs.Match.{asked, first_is_symbol, has_shape, heads, heads_in, is_construct, pattern};
ghost use Rattle.builtin_names.specs.Named.{names_in};
ghost use Rattle.rule_frames.specs.Told.{told_of};

use builtin_names::{Vocabulary, is_known};
use expr_tree::{Attrs, Expr, Node, Sym};
use item_list::Items;
use match_seq::AttrSource;
use semantics::Builtin;
use std::alloc::{AllocError, Global};

/// What is told of some symbols. Of another symbol nothing is.
#[derive(Drop)]
pub(crate) struct Told {
    symbols: Items<(Sym, Attrs)>,
}

impl AttrSource for Told {
    ghost use Rattle.rule_frames.specs.Told.{attrs_in};

    ghost told = { λ t s. attrs_in t.symbols s };

    fn attrs(&self, symbol: Sym) -> Attrs {
        for (head, attrs) in self.symbols.as_slice() {
            if *head == symbol {
                return *attrs;
            }
        }
        Attrs::none()
    }
}

/// Whether there are two items, of which the first is a symbol.
#[tactic(auto, using(expr_tree::proofs::Callers::tree_steps))]
fn names_a_pattern(items: &[Expr]) -> bool
    ensures { result ≡ has_shape pattern (length items.now) (first_is_symbol (trees items.now)) }
{
    match items {
        [name, _] => matches!(name.node(), Node::Symbol(_)),
        _ => false,
    }
}

/// Whether a head and items are a construct of patterns.
#[tactic(auto, using(expr_tree::proofs::Callers::tree_steps))]
fn is_construct(names: &Vocabulary, head: Sym, items: &[Expr]) -> bool
    ensures { result ≡ is_construct (names_in names.now) (symbol head) (trees items.now) }
{
    let count = items.len();
    if is_known(names, Builtin::Blank, head) {
        return count <= 1;
    }
    if is_known(names, Builtin::BlankSequence, head) {
        return count <= 1;
    }
    if is_known(names, Builtin::BlankNullSequence, head) {
        return count <= 1;
    }
    if is_known(names, Builtin::Pattern, head) {
        return names_a_pattern(items);
    }
    if is_known(names, Builtin::PatternTest, head) {
        return count == 2;
    }
    if is_known(names, Builtin::Condition, head) {
        return count == 2;
    }
    if is_known(names, Builtin::Alternatives, head) {
        return true;
    }
    if is_known(names, Builtin::HoldPattern, head) {
        return count == 1;
    }
    is_known(names, Builtin::Verbatim, head) && count == 1
}

fn add_head<A: AttrSource>(
    names: &Vocabulary,
    attrs: &A,
    head: &Expr,
    items: &[Expr],
    symbols: &mut Items<(Sym, Attrs)>,
) -> Result<(), AllocError>
    ensures { OnOk result (symbols.new ≡ symbols.old ++ told_of (A.told attrs.now) (asked (names_in names.now) head.now (trees items.now))) }
{
    match head.node() {
        Node::Symbol(symbol) => {
            if is_construct(names, *symbol, items) {
                return Ok(());
            }
            symbols.push((*symbol, attrs.attrs(*symbol)))
        }
        _ => Ok(()),
    }
}

#[cycle(heads)]
#[tactic(auto, using(crate::proofs::Telling::head_steps))]
fn add_heads<A: AttrSource>(
    names: &Vocabulary,
    attrs: &A,
    pattern: &Expr,
    symbols: &mut Items<(Sym, Attrs)>,
) -> Result<(), AllocError>
    ensures { OnOk result (symbols.new ≡ symbols.old ++ told_of (A.told attrs.now) (heads (names_in names.now) pattern.now)) }
{
    match pattern.node() {
        Node::Normal(head, items) => {
            add_head(names, attrs, head, items.as_slice(), symbols)?;
            add_heads(names, attrs, head, symbols)?;
            add_heads_in(names, attrs, items.as_slice(), symbols)
        }
        _ => Ok(()),
    }
}

#[cycle(heads)]
#[tactic(auto, using(crate::proofs::Telling::head_steps))]
fn add_heads_in<A: AttrSource>(
    names: &Vocabulary,
    attrs: &A,
    items: &[Expr],
    symbols: &mut Items<(Sym, Attrs)>,
) -> Result<(), AllocError>
    ensures { OnOk result (symbols.new ≡ symbols.old ++ told_of (A.told attrs.now) (heads_in (names_in names.now) (trees items.now))) }
{
    for item in items {
        add_heads(names, attrs, item, symbols)?;
    }
    Ok(())
}

impl Told {
    /// What a source tells of the heads of the ordinary patterns in a pattern.
    pub(crate) fn of<A: AttrSource>(
        alloc: Global,
        names: &Vocabulary,
        pattern: &Expr,
        attrs: &A,
    ) -> Result<Told, AllocError>
        ensures { IfOk result (λ t. t.symbols ≡ told_of (A.told attrs.now) (heads (names_in names.now) pattern.now)) }
    {
        let mut symbols = Items::new(alloc);
        add_heads(names, attrs, pattern, &mut symbols)?;
        Ok(Told { symbols })
    }
}

ghost use Rattle.std.specs.Prelude.{◌≡◌, ◌++◌, OnOk};
ghost use Rattle.expr_tree.specs.Tree.{trees};
ghost use Rattle.expr_tree.specs.Substitution.{symbol_in};
ghost use Rattle.match_seq.specs.Heads.{matching, heads, heads_of, told_of};

use crate::setting::How;
use expr_tree::{Attrs, Expr, Node, Sym};
use item_list::Items;
use std::alloc::AllocError;

/// What tells the attributes of symbols.
pub trait AttrSource {
    ghost use Rattle.expr_tree.specs.declared.sym.Sym.{Sym};
    ghost use Rattle.expr_tree.specs.declared.attrs.Attrs.{Attrs};

    ghost told: { Self → Sym → Attrs };

    fn attrs(&self, symbol: Sym) -> Attrs
        ensures { result ≡ told self.now symbol };
}

/// Adds what a source tells of an expression that is a symbol.
fn add_head<A: AttrSource>(
    attrs: &A,
    head: &Expr,
    hows: &mut Items<(Sym, How)>,
) -> Result<(), AllocError>
    ensures { OnOk result (hows.new ≡ hows.old ++ told_of (λ s. matching (A.told attrs.now s)) (symbol_in head.now)) }
{
    match head.node() {
        Node::Symbol(symbol) => {
            let told = attrs.attrs(*symbol);
            hows.push((
                *symbol,
                How {
                    flat: told.flat,
                    orderless: told.orderless,
                },
            ))
        }
        _ => Ok(()),
    }
}

/// Adds what a source tells of the heads of a pattern.
#[cycle(heads)]
#[tactic(auto, using(crate::proofs::Told::head_steps))]
pub(crate) fn add_heads<A: AttrSource>(
    attrs: &A,
    pattern: &Expr,
    hows: &mut Items<(Sym, How)>,
) -> Result<(), AllocError>
    ensures { OnOk result (hows.new ≡ hows.old ++ told_of (λ s. matching (A.told attrs.now s)) (heads pattern.now)) }
{
    match pattern.node() {
        Node::Normal(head, items) => {
            add_head(attrs, head, hows)?;
            add_heads(attrs, head, hows)?;
            add_heads_of(attrs, items.as_slice(), hows)
        }
        _ => Ok(()),
    }
}

#[cycle(heads)]
#[tactic(auto, using(crate::proofs::Told::head_steps))]
fn add_heads_of<A: AttrSource>(
    attrs: &A,
    items: &[Expr],
    hows: &mut Items<(Sym, How)>,
) -> Result<(), AllocError>
    ensures { OnOk result (hows.new ≡ hows.old ++ told_of (λ s. matching (A.told attrs.now s)) (heads_of (trees items.now))) }
{
    for item in items {
        add_heads(attrs, item, hows)?;
    }
    Ok(())
}

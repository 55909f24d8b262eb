ghost use Rattle.std.specs.Prelude.{◌≡◌};
ghost use Rattle.semantics.specs.Match.{how_of, is_symbol};
ghost use Rattle.match_seq.specs.Goals.{matching_of, told, head_in, how_in};
ghost use Rattle.match_seq.specs.Search.{is_single};

use crate::constructs::{Constructs, Form};
use expr_tree::{Expr, Node, Sym};
use item_list::Items;

/// Flat and Orderless of a head.
#[derive(Clone, Copy)]
pub(crate) struct How {
    pub(crate) flat: bool,
    pub(crate) orderless: bool,
}

/// What a search reads patterns by: the constructs, and what the heads of patterns are.
#[derive(Drop)]
pub(crate) struct Setting {
    pub(crate) constructs: Constructs,
    pub(crate) hows: Items<(Sym, How)>,
}

/// The head of a pattern, or an atom itself.
pub(crate) fn head_in(pattern: &Expr) -> &Expr
    ensures { result.now ≡ head_in pattern.now }
{
    match pattern.node() {
        Node::Normal(head, _) => head,
        _ => pattern,
    }
}

impl Setting {
    fn told(&self, symbol: Sym) -> How
        ensures { matching_of result ≡ told self.now.hows symbol }
    {
        for (head, how) in self.hows.as_slice() {
            if *head == symbol {
                return *how;
            }
        }
        How {
            flat: false,
            orderless: false,
        }
    }

    /// Flat and Orderless of a pattern.
    pub(crate) fn how_in(&self, pattern: &Expr) -> How
        ensures { matching_of result ≡ how_in self.now pattern.now }
    {
        match head_in(pattern).node() {
            Node::Symbol(symbol) => self.told(*symbol),
            _ => How {
                flat: false,
                orderless: false,
            },
        }
    }
}

fn is_symbol(e: &Expr) -> bool
    ensures { result ≡ is_symbol e.now }
{
    matches!(e.node(), Node::Symbol(_))
}

impl Constructs {
    /// Whether a pattern is a single blank, also under a name, a test, a condition or `HoldPattern`.
    #[tactic(auto, using(crate::proofs::Places::item_steps))]
    pub(crate) fn is_single(&self, pattern: &Expr) -> bool
        ensures { result ≡ is_single self.now pattern.now }
    {
        let Node::Normal(head, items) = pattern.node() else {
            return false;
        };
        match self.form(head, items.len()) {
            Form::One | Form::OneOf => true,
            Form::Named => match items.as_slice() {
                [name, second, ..] => is_symbol(name) && self.is_single(second),
                _ => false,
            },
            Form::Tested | Form::Conditioned | Form::Held => match items.as_slice() {
                [first, ..] => self.is_single(first),
                [] => false,
            },
            _ => false,
        }
    }
}

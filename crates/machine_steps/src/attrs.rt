//! The attributes that definitions give.

use builtin_names::Vocabulary;
use expr_tree::{Attrs, Sym};
use kernel_defs::Defs;
use match_seq::AttrSource;

/// What matching asks of symbols, as definitions have it.
#[derive(Drop)]
pub struct DefAttrs<'a> {
    pub defs: &'a Defs,
    pub names: &'a Vocabulary,
}

impl<'a> AttrSource for DefAttrs<'a> {
    ghost use Rattle.machine_steps.specs.Attributes.{attrs_seen};

    ghost told = { λ t s. attrs_seen t.names.now t.defs.now s };

    #[tactic(auto, using(builtin_names::proofs::Flags::flag_steps))]
    fn attrs(&self, symbol: Sym) -> Attrs {
        let found = self.defs.attrs_of(self.names, symbol);
        let mut attrs = Attrs::none();
        attrs.flat = found.flat;
        attrs.orderless = found.orderless;
        attrs
    }
}

use crate::sym::Sym;

/// The symbols that putting in place looks for: `Module`, `With` and `Function`, which bind names, `List` and `Set`, in which
/// they list them, and `Sequence`.
#[derive(Clone, Copy, Debug, PartialEq, Eq)]
pub struct Binders {
    pub module: Sym,
    pub with: Sym,
    pub function: Sym,
    pub list: Sym,
    pub set: Sym,
    pub sequence: Sym,
}

use expr_tree::Sym;

/// A lock, and the kernel that holds it.
#[derive(Clone, Copy, Debug, PartialEq, Eq)]
pub struct Held {
    pub lock: Sym,
    pub by: u32,
}

//! Expressions of which a part is being replaced.
ghost use Rattle.std.specs.Prelude.{◌≡◌, IfOk};
ghost use Rattle.machine_rules.specs.Levels.{with_part};

use frames_control::Stack;
use item_list::Items;
use made_exprs::Formed;
use std::alloc::{AllocError, Global};

/// A head and elements that are done, and elements that are left.
#[derive(Drop)]
pub struct Elements {
    pub(crate) head: Formed,
    pub(crate) done: Items<Formed>,
    pub(crate) rest: Stack,
}

/// An expression of which a part is being replaced.
#[derive(Drop)]
pub enum Level {
    /// The head is, and these elements are left.
    Head(Stack),
    /// An element is, between those that are done and those that are left.
    Element(Elements),
}

impl Level {
    /// The part is done.
    pub(crate) fn with_part(self, alloc: Global, part: Formed) -> Result<Elements, AllocError>
        ensures { IfOk result (λ es. es ≡ with_part part self) }
    {
        match self {
            Level::Head(rest) => Ok(Elements {
                head: part,
                done: Items::new(alloc),
                rest,
            }),
            Level::Element(mut elements) => {
                elements.done.push(part)?;
                Ok(elements)
            }
        }
    }
}

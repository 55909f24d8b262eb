ghost use Rattle.std.specs.Prelude.{◌≡◌, IfOk};
ghost use Rattle.show_form.specs.Frames.{kept_extent, opened, added, closed};

use crate::extent::{Extent, deepened, extent_of, joined, parts_extent};
use expr_tree::{Built, Expr, Exprs};
use item_list::Items;
use std::alloc::{AllocError, Global};

/// An expression that was read, or only its extent where it is beyond the limits.
#[derive(Drop)]
pub(crate) enum Kept {
    Whole(Expr),
    Beyond(Extent),
}

/// A head whose bracket is open with the elements that were read, or only their extent where one of them is beyond the limits.
#[derive(Drop)]
pub(crate) enum Frame {
    Parts(Expr, Exprs),
    Beyond(Extent),
}

fn kept_extent(kept: &Kept) -> Extent
    ensures { result ≡ kept_extent kept.now }
{
    match kept {
        Kept::Whole(e) => extent_of(e),
        Kept::Beyond(extent) => *extent,
    }
}

/// Opens the bracket behind a head.
pub(crate) fn open(alloc: Global, head: Kept) -> Frame
    ensures { result ≡ opened head }
{
    match head {
        Kept::Whole(e) => Frame::Parts(e, Items::new(alloc)),
        Kept::Beyond(extent) => Frame::Beyond(extent),
    }
}

/// Adds an element.
pub(crate) fn add(frame: Frame, item: Kept) -> Result<Frame, AllocError>
    ensures { IfOk result (λ f. f ≡ added frame item) }
{
    match frame {
        Frame::Beyond(extent) => Ok(Frame::Beyond(joined(extent, kept_extent(&item)))),
        Frame::Parts(head, mut items) => match item {
            Kept::Whole(e) => {
                items.push(e)?;
                Ok(Frame::Parts(head, items))
            }
            Kept::Beyond(extent) => {
                let parts = parts_extent(&head, items.as_slice());
                Ok(Frame::Beyond(joined(parts, extent)))
            }
        },
    }
}

/// Closes the bracket.
pub(crate) fn close(alloc: Global, frame: Frame) -> Result<Kept, AllocError>
    ensures { IfOk result (λ k. k ≡ closed frame) }
{
    match frame {
        Frame::Beyond(extent) => Ok(Kept::Beyond(deepened(extent))),
        Frame::Parts(head, items) => {
            let extent = deepened(parts_extent(&head, items.as_slice()));
            match Expr::normal(alloc, head, items) {
                Ok(e) => Ok(Kept::Whole(e)),
                Err(Built::NoMemory) => Err(AllocError),
                Err(_) => Ok(Kept::Beyond(extent)),
            }
        }
    }
}

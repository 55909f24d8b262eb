//! What the queue keeps of each item, and walks over it.
ghost use Rattle.std.specs.Prelude.{◌≡◌, suc, ◌<◌, length, slice_get, ◌&&◌};
ghost use Rattle.std.specs.Option.{option_copied};
ghost use Rattle.journal.specs.Closure.{Bundle};
ghost use Rattle.journal.specs.Core.{first_for, is_waiting, may_go};
ghost use Rattle.eval_queue.specs.Items.{items_in, with_status, IsPassed};

use journal::{Item, Status};

/// An item with what it takes with it, and with what became of it.
#[derive(Debug, Drop)]
pub struct Kept<Bundled> {
    pub item: Item,
    pub bundle: Bundled,
    pub status: Status,
}

impl<Bundled> Kept<Bundled> {
    fn may_be_taken(&self, kernel: u32) -> bool
        ensures { result ≡ (is_waiting self.now.status && may_go self.now.item kernel) }
    {
        self.status.is_waiting() && self.item.may_go(kernel)
    }
}

/// What is kept at a place.
pub fn at_place<Bundled>(kept: &[Kept<Bundled>], place: usize) -> Option<&Kept<Bundled>>
    ensures { option_copied result ≡ slice_get kept.now place }
{
    kept.get(place)
}

/// Gives the item at a place another status.
pub fn set_status<Bundled: Drop>(kept: &mut Vec<Kept<Bundled>>, place: usize, status: Status)
    requires { place < length kept.old.items }
    ensures { kept.new.items ≡ with_status (suc place) status kept.old.items }
{
    kept[place].status = status;
}

/// The first place, from one on, whose item waits; the end where there is none. None waits before the first of them.
pub fn next_waiting<Bundled>(kept: &[Kept<Bundled>], from: usize) -> usize
    requires { IsPassed from kept.now }
    ensures { IsPassed result kept.now }
{
    let mut place = from;
    while place < kept.len() && !kept[place].status.is_waiting() {
        place += 1;
    }
    place
}

/// The least id whose item waits and may go to the kernel, where none waits before a place.
pub fn first_from<Bundled>(kept: &[Kept<Bundled>], from: usize, kernel: u32) -> Option<usize>
    requires { IsPassed from kept.now }
    ensures { (bundle_of : Bundled → Bundle) → result ≡ first_for 1 (items_in bundle_of kept.now) kernel }
{
    for place in from..kept.len() {
        if kept[place].may_be_taken(kernel) {
            return Some(place + 1);
        }
    }
    None
}

// A turn in a field, as one keeps it who waits in the middle of an evaluation.
ghost use Rattle.std.specs.Prelude.{◌≡◌, IfSome, Some};
ghost use Rattle.turn_desk.specs.Lists.{IsPrefix, HasExactly};
ghost use Rattle.turn_desk.specs.Passes.{by_number, seeing};
ghost use Rattle.desk_uses.specs.Holder.{IsReadyToLeave, IsNextTurn};

use crate::Notes;
use std::mem;
use std::sync::Wait;
use turn_desk::{Desk, Turn};

/// Gives the turn up and waits for the next one of the same pass.
pub fn next_turn<R: Wait>(rt: &R, desk: &Desk<Notes>, turn: Turn<Notes>) -> Turn<Notes>
    requires desk { turn.pass.desk ≡ desk.now }
    requires posted { turn.book.items.items ≡ turn.pass.seen }
    ensures pass { result.pass ≡ seeing turn.pass result.book.items.items }
    ensures seen { IsPrefix turn.pass.seen result.book.items.items }
    ensures own { HasExactly result.book.items.items (by_number turn.pass) }
{
    let pass = turn.leave(desk);
    desk.turn(rt, pass)
}

pub struct Holder<'a> {
    desk: &'a Desk<Notes>,
    turn: Option<Turn<Notes>>,
}

impl<'a> Holder<'a> {
    pub fn new(desk: &'a Desk<Notes>, turn: Turn<Notes>) -> Holder<'a>
        ensures desk { result.desk.now ≡ desk.now }
        ensures turn { result.turn ≡ Some turn }
    {
        Holder {
            desk,
            turn: Some(turn),
        }
    }

    pub fn into_turn(self) -> Option<Turn<Notes>>
        ensures { result ≡ self.entry.turn }
    {
        let Holder { desk: _, turn } = self;
        turn
    }

    /// Gives the turn up and waits for the next one, through a `&mut`.
    pub fn pause<R: Wait>(&mut self, rt: &R)
        requires { IfSome self.old.turn (IsReadyToLeave self.old.desk.now) }
        ensures { IsNextTurn self.old.turn self.new.turn }
    {
        if let Some(turn) = self.turn.take() {
            let empty = mem::replace(&mut self.turn, Some(next_turn(rt, self.desk, turn)));
            let None = empty else { unreachable!() };
        }
    }
}

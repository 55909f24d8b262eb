// Passes that go to threads.
ghost use Rattle.std.specs.Prelude.{◌≡◌, ◌+◌, ◌^◌, ◌<◌};

use desk_uses::{Notes, post_numbers};
use std::alloc::{AllocError, Global};
use std::sync::Wait;
use turn_desk::{Desk, Pass};

/// A pass, its desk, and how many turns it is to take.
#[derive(Drop)]
pub struct Worker<'a> {
    desk: &'a Desk<Notes>,
    pass: Pass<u64>,
    turns: u64,
    ghost of_desk: { pass.desk ≡ desk.now },
}

impl<'a> Worker<'a> {
    pub fn new(desk: &'a Desk<Notes>, pass: Pass<u64>, turns: u64) -> Worker<'a>
        requires { pass.desk ≡ desk.now }
    {
        Worker { desk, pass, turns }
    }

    /// Adds an entry in each of its turns, and says whether there was memory.
    pub fn run<R: Wait>(self, rt: &R) -> bool {
        let Worker { desk, pass, turns } = self;
        post_numbers(rt, desk, pass, turns).is_ok()
    }
}

/// A worker for the first pass and for each of `more` passes that are split off it.
pub fn workers(
    alloc: Global,
    desk: &Desk<Notes>,
    first: Pass<u64>,
    more: u32,
    turns: u64,
) -> Result<Vec<Worker<'_>>, AllocError>
    requires desk { first.desk ≡ desk.now }
    requires root { first.number ≡ 0 }
    requires bound { first.made + more < 2 ^ 32 }
{
    let mut pass = first;
    let mut workers = Vec::new(alloc);
    for n in 0..more {
        let (kept, new) = desk.split(pass);
        pass = kept;
        workers.push(Worker::new(desk, new, turns))?;
    }
    workers.push(Worker::new(desk, pass, turns))?;
    Ok(workers)
}

// Turns a second.
ghost use Rattle.std.specs.Prelude.{◌<◌, ◌≤◌};

use crate::worker;
use desk_uses::Notes;
use std::alloc::Global;
use std::sync::{Mutex, Wait};
use std::thread::Threads;
use std::time::{Clock, Duration, Instant};
use std::{io, thread};
use turn_desk::Desk;

// Turns of all passes together.
const TURNS: u64 = 200_000;

fn turns_each(passes: u32) -> u64 {
    TURNS / u64::from(passes).max(1)
}

fn rate(turns: u64, time: Duration) -> u128 {
    u128::from(turns) * 1_000_000_000 / time.as_nanos().max(1)
}

/// Each pass adds its entries in turns of its own, in a thread of its own.
pub fn desk_rate<R: Threads + Wait + Clock + Sync>(
    rt: &R,
    alloc: Global,
    passes: u32,
) -> io::Result<u128>
    requires { passes < 1000 }
{
    let book = Notes {
        items: Vec::new(alloc),
    };
    let (desk, first) = Desk::new(alloc, book)?;
    let turns = turns_each(passes);
    let workers = worker::workers(alloc, &desk, first, passes.saturating_sub(1), turns)?;
    let start = Instant::now(rt)?;
    thread::map_vec(rt, workers, &|worker| worker.run(rt))?;
    Ok(rate(TURNS, start.elapsed(rt)?))
}

fn lock_each<R: Wait>(rt: &R, notes: &Mutex<Notes>, number: u32, turns: u64) -> bool {
    for n in 0..turns {
        if !notes.lock(rt).add(number, n) {
            return false;
        }
    }
    true
}

/// The same entries under a mutex.
pub fn mutex_rate<R: Threads + Wait + Clock + Sync>(
    rt: &R,
    alloc: Global,
    passes: u32,
) -> io::Result<u128>
    requires { passes < 1000 }
{
    let book = Notes {
        items: Vec::new(alloc),
    };
    let notes = Mutex::new(book);
    let turns = turns_each(passes);
    let start = Instant::now(rt)?;
    thread::map_indices(
        rt,
        alloc,
        passes as usize,
        &|i| { lock_each(rt, &notes, (i % 1000) as u32, turns) },
    )?;
    Ok(rate(TURNS, start.elapsed(rt)?))
}

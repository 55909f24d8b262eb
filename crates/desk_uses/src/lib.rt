//! Callers of the desk: two threads that post at one desk, a turn that is kept in a field, a book that contracts see as a list, and
//! any number of passes. They show that the contracts of `turn_desk` serve a caller; the program does not use them.
#![tactic(auto)]

ghost use Rattle.std.specs.Prelude.{◌≡◌, ℕ, ◌+◌, ◌∷◌, [], ◌++◌, length, MatchBool, IfOk, IfErr, IfSome};
ghost use Rattle.turn_desk.specs.Passes.{NoneBeyond};
ghost use Rattle.turn_desk.specs.Lists.{entries_under};
ghost use Rattle.desk_uses.specs.Numbers.{below, with_own};

use std::alloc::Global;
use std::sync::Wait;
use std::thread;
use std::thread::Threads;
use turn_desk::{Desk, Kept, Pass};

/// A small book: numbers, each under the pass that posted it.
#[derive(Drop)]
pub struct Notes {
    pub items: Vec<(u32, u64)>,
}

impl Kept for Notes {
    type Entry = u64;

    ghost entries = { λ notes. notes.items.items };

    fn len(&self) -> u64 {
        self.items.len() as u64
    }
}

impl Notes {
    /// Adds an entry, and says whether there was memory.
    pub fn add(&mut self, number: u32, n: u64) -> bool
        ensures { MatchBool result (self.new.items.items ≡ self.old.items.items ++ (number, n) ∷ []) (self.new.items.items ≡ self.old.items.items) }
    {
        self.items.push((number, n)).is_ok()
    }
}

/// Takes a turn and posts one number, and says whether there was memory.
pub fn post_number<R: Wait>(
    rt: &R,
    desk: &Desk<Notes>,
    pass: Pass<u64>,
    n: u64,
) -> (Pass<u64>, bool)
    requires { pass.desk ≡ desk.now }
    ensures same { (result.0.desk ≡ pass.desk) × (result.0.number ≡ pass.number) × (result.0.made ≡ pass.made) × (result.0.joined ≡ pass.joined) }
    ensures own { MatchBool result.1 (result.0.own ≡ pass.own ++ n ∷ []) (result.0.own ≡ pass.own) }
{
    let number = pass.number();
    let mut turn = desk.turn(rt, pass);
    let added = turn.book().add(number, n);
    turn.post(desk);
    (turn.leave(desk), added)
}

/// Posts the numbers below `count`, one in each turn. `Err` is want of memory.
pub fn post_numbers<R: Wait>(
    rt: &R,
    desk: &Desk<Notes>,
    mut pass: Pass<u64>,
    count: u64,
) -> Result<Pass<u64>, Pass<u64>>
    requires { pass.desk ≡ desk.now }
    ensures ok { IfOk result (λ p. p ≡ with_own pass p.seen (below count)) }
    ensures err { IfErr result (λ p. p.desk ≡ pass.desk) }
{
    for n in 0..count {
        let (next, added) = post_number(rt, desk, pass, n);
        pass = next;
        if !added {
            return Err(pass);
        }
    }
    Ok(pass)
}

/// Two threads post the numbers below `count` each, one in each turn. The list has those of each in order, and no
/// others. `None` is want of memory.
pub fn post_both<R: Threads + Wait + Sync>(rt: &R, alloc: Global, count: u64) -> Option<Notes>
    ensures first { IfSome result (λ notes. entries_under 0 notes.items.items ≡ below count) }
    ensures second { IfSome result (λ notes. entries_under 1 notes.items.items ≡ below count) }
    ensures others { IfSome result (λ notes. NoneBeyond 2 notes.items.items) }
{
    let book = Notes {
        items: Vec::new(alloc),
    };
    let (desk, first) = Desk::new(alloc, book).ok()?;
    let (first, second) = desk.split(first);
    let shared = &desk;
    let (first, second) = thread::join(
        rt,
        move || -> Result<Pass<u64>, Pass<u64>>
            requires { first.desk ≡ shared.now }
            ensures { IfOk result (λ p. p ≡ with_own first p.seen (below count)) }
        { post_numbers(rt, shared, first, count) },
        move || -> Result<Pass<u64>, Pass<u64>>
            requires { second.desk ≡ shared.now }
            ensures { IfOk result (λ p. p ≡ with_own second p.seen (below count)) }
        { post_numbers(rt, shared, second, count) },
    );
    let (Ok(first), Ok(second)) = (first, second) else {
        return None;
    };
    let pass = desk.join(first, second);
    Some(desk.close(pass))
}

pub mod holder;
pub mod many;
pub mod number_list;
#[cfg(test)]
mod tests;

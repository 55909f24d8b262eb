//! Sections, and what is thrown.
ghost use Rattle.std.specs.Prelude.{◌≡◌, IfOk};
ghost use Rattle.semantics.specs.Play.{all_among};
ghost use Rattle.eval_seq.specs.Ends.{caught, held_in, leaves, thrown_by};

use evaluation_steps::Exit;
use expr_lists::is_among;
use expr_tree::{Expr, Sym, Syms};
use item_list::Items;
use machine_steps::KernelState;
use std::alloc::{AllocError, Global};

/// The value of an expression, or what it throws.
pub(crate) fn caught(value: Result<Expr, Exit>) -> Result<Expr, Exit>
    ensures { result ≡ caught value }
{
    match value {
        Ok(value) => Ok(value),
        Err(Exit::Stopped(stop)) => Err(Exit::Stopped(stop)),
        Err(Exit::Throwing(value)) => Err(Exit::Throwing(value)),
        Err(Exit::Thrown(value)) => Ok(value),
        Err(Exit::Quit) => Err(Exit::Quit),
        Err(Exit::Closed) => Err(Exit::Closed),
        Err(Exit::NoMemory) => Err(Exit::NoMemory),
    }
}

/// What a pass throws itself, or how else it ends.
pub(crate) fn thrown_by(exit: Exit) -> Result<Expr, Exit>
    ensures { result ≡ thrown_by exit }
{
    match exit {
        Exit::Throwing(value) => Ok(value),
        Exit::Stopped(stop) => Err(Exit::Stopped(stop)),
        Exit::Thrown(value) => Err(Exit::Thrown(value)),
        Exit::Quit => Err(Exit::Quit),
        Exit::Closed => Err(Exit::Closed),
        Exit::NoMemory => Err(Exit::NoMemory),
    }
}

/// Whether a section is left after its body: after a value, a stop and a throw.
pub(crate) fn is_left(value: &Result<Expr, Exit>) -> bool
    ensures { result ≡ leaves value.now }
{
    match value {
        Ok(_) => true,
        Err(Exit::Stopped(_)) => true,
        Err(Exit::Throwing(_)) => false,
        Err(Exit::Thrown(_)) => true,
        Err(Exit::Quit) => false,
        Err(Exit::Closed) => false,
        Err(Exit::NoMemory) => false,
    }
}

/// A copy of locks.
pub(crate) fn copied(alloc: Global, locks: &[Sym]) -> Result<Syms, AllocError>
    ensures { IfOk result (λ copy. copy ≡ locks.now) }
{
    let mut copy = Items::new(alloc);
    for lock in locks {
        copy.push(*lock)?;
    }
    Ok(copy)
}

fn all_among(locks: &[Sym], held: &[Sym]) -> bool
    ensures { result ≡ all_among locks.now held.now }
{
    for i in 0..locks.len() {
        if !is_among(locks[i], held) {
            return false;
        }
    }
    true
}

/// Whether the open section holds all of some locks, if one is open.
pub(crate) fn is_held(state: &KernelState, locks: &Syms) -> Option<bool>
    ensures { result ≡ held_in state.now.open_section locks.now }
{
    match &state.open_section {
        Some(held) => Some(all_among(locks.as_slice(), held.as_slice())),
        None => None,
    }
}

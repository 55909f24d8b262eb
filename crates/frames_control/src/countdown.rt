//! Counting the turns of a loop down.
ghost use Rattle.std.specs.Prelude.{◌≡◌};
ghost use Rattle.frames_control.specs.Countdowns.{CountsDown, turns_in};

use expr_tree::{Expr, Node};
use std::marker::Model;

/// A loop takes no more turns than the greatest number of steps that any limits allow; each turn is a step.
pub(crate) const MOST_TURNS: u128 = 100_000_000;

/// The turns that a loop has left.
#[derive(Drop)]
pub struct Countdown {
    turns: u128,
}

impl Model for Countdown {
    ghost use Rattle.std.specs.Prelude.{ℕ};

    ghost Value = { ℕ };

    ghost view = { λ c. c.turns };
}

impl Countdown {
    pub fn from(turns: u128) -> Countdown
        ensures { result ≡ turns }
    {
        Countdown { turns }
    }

    /// Takes one turn, where one is left.
    pub fn take(&mut self) -> bool
        ensures { CountsDown self.old result self.new }
    {
        if self.turns == 0 {
            return false;
        }
        self.turns -= 1;
        true
    }
}

/// The turns that an integer tells.
pub(crate) fn turns_of(e: &Expr) -> Option<Countdown>
    ensures { result ≡ turns_in e.now }
{
    match e.node() {
        Node::Int(turns) if 0 <= *turns => Some(Countdown::from(*turns as u128)),
        _ => None,
    }
}

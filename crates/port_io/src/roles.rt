//! What a source and a sink promise.
ghost use Rattle.std.specs.Prelude.{◌≡◌, ℕ, List, ◌<◌, ◌≤◌, ◌+◌, length, take, MatchResult, IsOk, OnErr};
ghost use Rattle.std.specs.declared.option.Option.{Option};
ghost use Rattle.std.specs.Io.{ReadsAtMost};
ghost use Rattle.std.specs.Io.KnownBytes.{ReadConsumes, Appends};
ghost use Rattle.port_io.specs.Counts.{Rose};
ghost use Rattle.port_io.specs.Writing.{WritesAll};

use thiserror::Error;

/// The outside failed.
#[derive(Clone, Copy, Debug, Error)]
#[error("the outside failed")]
pub struct Failed;

/// Where bytes come from.
pub trait Source {
    /// The bytes left, where the source tells them.
    ghost left: { Self → Option (List ℕ) };

    /// How many calls failed so far.
    ghost faults: { Self → ℕ };

    /// No call fails from now on.
    ghost never_fails: { Self → Type 0 };

    /// Reads the next bytes. `Ok(0)` is the end of input.
    fn read(&mut self, into: &mut [u8]) -> Result<usize, Failed>
        requires { 0 < length into.old }
        ensures bound { ReadsAtMost result into.new }
        ensures bytes { ReadConsumes (left self.old) (left self.new) result into.new }
        ensures counted { faults self.old ≤ faults self.new }
        ensures failed { OnErr result (Rose (faults self.old) (faults self.new)) }
        ensures sure { never_fails self.old → IsOk result }
        ensures lasting { never_fails self.old → never_fails self.new };
}

/// Where bytes go.
pub trait Sink {
    /// The bytes that the sink holds, where it tells them.
    ghost held: { Self → Option (List ℕ) };

    /// How many calls failed so far.
    ghost faults: { Self → ℕ };

    /// The sink takes this many more bytes, in any pieces, without a failure.
    ghost takes: { Self → ℕ → Type 0 };

    /// Appends all bytes, or a prefix of them where it fails.
    fn write_all(&mut self, bytes: &[u8]) -> Result<(), Failed>
        ensures bytes { WritesAll (held self.old) (held self.new) bytes.now result }
        ensures counted { faults self.old ≤ faults self.new }
        ensures failed { OnErr result (Rose (faults self.old) (faults self.new)) }
        ensures sure { takes self.old (length bytes.now) → IsOk result }
        ensures lasting { (more : ℕ) → takes self.old (length bytes.now + more) → takes self.new more };
}

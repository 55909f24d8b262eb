//! The outside of an evaluation.
ghost use Rattle.std.specs.Prelude.{◌≡◌, true};
ghost use Rattle.laws_calls.specs.Calls.{may_come};
ghost use Rattle.builtin_names.specs.Named.{names_in};
ghost use Rattle.machine_steps.specs.Outward.{call_of, reply_of};
ghost use Rattle.eval_seq.specs.Outward.{may_reply, AfterReply};

use kernel_defs::Defs;
use machine_steps::{Answer, Want};

/// The outside of an evaluation. It may change the definitions.
pub trait Upcall {
    ghost use Rattle.std.specs.Prelude.{Bool};
    ghost use Rattle.name_table.specs.Table.{NameTable};
    ghost use Rattle.semantics.specs.Definitions.{Definitions};
    ghost use Rattle.semantics.specs.Program.{Call, Mode};
    ghost use Rattle.semantics.specs.Play.{Reply};
    ghost use Rattle.semantics.specs.Opened.{opens};

    /// The state before, the definitions before, the call, the reply, the definitions after and the state after.
    ghost step: { Self → Definitions → Call → Reply → Definitions → Self → Type 0 };

    /// Holds of an outside that may be called.
    ghost ready: { Self → Type 0 } = { λ outside. Unit {0} };

    /// The names of its symbols.
    ghost names: { Self → NameTable };

    /// What it is the outside of.
    ghost mode: { Self → Mode };

    /// Whether a section is open.
    ghost is_open: { Self → Bool };

    /// It is asked only what may come in its mode and where a section is open or not, and may be called again after a value and a stop.
    fn call(&mut self, defs: &mut Defs, want: Want) -> Answer
        requires ready { ready self.old }
        requires comes { may_come (names_in (names self.old)) (mode self.old) (is_open self.old) (call_of want) ≡ true }
        ensures step { step self.old defs.old (call_of want) (reply_of result) defs.new self.new }
        ensures fits { may_reply (call_of want) (reply_of result) ≡ true }
        ensures ready { AfterReply (reply_of result) (ready self.new) }
        ensures names { names self.new ≡ names self.old }
        ensures mode { mode self.new ≡ mode self.old }
        ensures is_open { is_open self.new ≡ opens (call_of want) (reply_of result) (is_open self.old) };
}

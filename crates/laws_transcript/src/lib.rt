//! The sequential transcript is what the run with no kernels writes. It stands on `sequential_transcript` and `journal`. The function
//! here has no code: its contract is a law.
#![tactic(auto)]

ghost use Rattle.laws_transcript.specs.Alone.{AloneIsRun};

/// Where each cell is built, the lines of a script that one kernel runs are those of the run with no kernels, and its journal is Close alone.
pub fn a_script_alone_is_the_run_without_kernels()
    ensures law { AloneIsRun }
{}

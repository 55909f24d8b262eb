//! The definition of the transcript of a script that one kernel runs without an outside, with the rows that are not built, and the
//! law that a script has at most one. It joins the cells of `script_text`, the reading and the lines of `syntax`, and the evaluation
//! of `semantics`.
#![tactic(auto)]

ghost use Rattle.sequential_transcript.specs.Laws.{OneTranscript};

/// A script has at most one transcript.
pub fn a_script_has_one_transcript()
    ensures law { OneTranscript }
{}

//! A run of a script without kernels.
ghost use Rattle.std.specs.Prelude.{◌≡◌, ◌≤◌, map, string_bytes};
ghost use Rattle.script_run.specs.Promise.{Completes, Ends, Runs};

use crate::report::{Report, Status};
use crate::words::steps_of;
use crate::writing::run_script;
use port_io::{ReadNo, Sink, Source, read_all};
use std::alloc::Global;
use std::str;

/// The most bytes that a script has.
const LIMIT: u64 = 1_048_576;

/// Reads a script, runs its cells and writes a line for each, without waiting.
#[tactic(auto, using(crate::proofs::RunLemmas::run_steps))]
pub fn run_alone<S: Source, K: Sink>(
    alloc: Global,
    words: &[String],
    source: &mut S,
    sink: &mut K,
) -> Report
    ensures outcome { let before : Ends = record { left = S.left source.old; read_faults = S.faults source.old; held = K.held sink.old; write_faults = K.faults sink.old } in
        let after : Ends = record { left = S.left source.new; read_faults = S.faults source.new; held = K.held sink.new; write_faults = K.faults sink.new } in
        Runs (map string_bytes words.now) before after result.status }
    ensures untouched { result.status ≡ Status.Usage → (source.new ≡ source.old) × (sink.new ≡ sink.old) }
    ensures unread { result.status ≡ Status.ReadFault → sink.new ≡ sink.old }
    ensures too_long { result.status ≡ Status.TooLong → sink.new ≡ sink.old }
    ensures not_text { result.status ≡ Status.NotText → sink.new ≡ sink.old }
    ensures complete { Completes (map string_bytes words.now) (S.left source.old) (S.never_fails source.old) (K.takes sink.old) result.status }
    ensures read_counted { S.faults source.old ≤ S.faults source.new }
    ensures write_counted { K.faults sink.old ≤ K.faults sink.new }
{
    let Some(steps) = steps_of(words) else {
        return Report {
            status: Status::Usage,
        };
    };
    match read_all(alloc, source, LIMIT) {
        Ok(bytes) => match str::from_utf8(bytes.as_slice()) {
            Ok(script) => Report {
                status: run_script(alloc, steps, script, sink),
            },
            Err(_) => Report {
                status: Status::NotText,
            },
        },
        Err(ReadNo::Fault) => Report {
            status: Status::ReadFault,
        },
        Err(ReadNo::TooLong) => Report {
            status: Status::TooLong,
        },
        Err(ReadNo::NoMemory) => Report {
            status: Status::NoMemory,
        },
    }
}

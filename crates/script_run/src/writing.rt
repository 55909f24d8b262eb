//! Writes the transcript of a script.
ghost use Rattle.std.specs.Prelude.{◌≡◌, ◌≢◌, ◌≤◌, length};
ghost use Rattle.script_text.specs.Cells.{cells};
ghost use Rattle.lex_form.specs.Spans.{texts_of as span_texts};
ghost use Rattle.sequential_transcript.specs.Transcript.{texts_of};
ghost use Rattle.script_run.specs.Cells.{AreCellSpans, AreLexed};
ghost use Rattle.script_run.specs.Promise.{Writes, TakesAll};

use crate::cell::run_cell;
use crate::cell_text::cell_text;
use crate::report::Status;
use crate::script_names::{lex_cells, names_of_script};
use crate::value::first_definitions;
use builtin_names::Vocabulary;
use eval_seq::KernelState;
use lex_form::{Lexed, Spans, cells};
use port_io::{Failed, Sink};
use std::alloc::Global;

/// Runs the cells and writes the line of each, until a write fails.
#[tactic(auto, using(crate::proofs::WritingLemmas::writing_steps))]
fn write_cells<K: Sink>(
    alloc: Global,
    names: &Vocabulary,
    steps: u64,
    script: &str,
    spans: &Spans,
    lexed: &[Lexed],
    sink: &mut K,
) -> Status
    requires short { length script.now ≤ 1048576 }
    requires spans { AreCellSpans script.now spans.now }
    requires lexed { AreLexed (span_texts script.now spans.now) lexed.now }
    requires cells { span_texts script.now spans.now ≡ cells script.now }
    requires texts { names.now.texts ≡ texts_of (cells script.now) }
    ensures written { Writes (K.held sink.old) (K.held sink.new) (K.faults sink.old) (K.faults sink.new) steps script.now result }
    ensures counted { K.faults sink.old ≤ K.faults sink.new }
    ensures sure { TakesAll (K.takes sink.old) steps script.now → result ≢ Status.WriteFault }
{
    let Ok(defs) = first_definitions(alloc) else {
        return Status::NoMemory;
    };
    let mut state = KernelState::new(defs);
    for (at, span) in spans.as_slice().iter().enumerate() {
        let cell = cell_text(script, *span);
        let n = at as u64 + 1;
        let Ok(line) = run_cell(alloc, names, steps, &mut state, n, cell, &lexed[at]) else {
            return Status::NoMemory;
        };
        match sink.write_all(line.as_str().as_bytes()) {
            Ok(()) => {}
            Err(Failed) => return Status::WriteFault,
        }
    }
    Status::Done
}

/// Runs a script, and writes its transcript.
#[tactic(auto, using(crate::proofs::WritingLemmas::writing_steps, crate::proofs::TextLemmas::cell_spans))]
pub(crate) fn run_script<K: Sink>(alloc: Global, steps: u64, script: &str, sink: &mut K) -> Status
    requires { length script.now ≤ 1048576 }
    ensures written { Writes (K.held sink.old) (K.held sink.new) (K.faults sink.old) (K.faults sink.new) steps script.now result }
    ensures counted { K.faults sink.old ≤ K.faults sink.new }
    ensures sure { TakesAll (K.takes sink.old) steps script.now → result ≢ Status.WriteFault }
{
    let Ok(spans) = cells(alloc, script) else {
        return Status::NoMemory;
    };
    let Ok(lexed) = lex_cells(alloc, script, &spans) else {
        return Status::NoMemory;
    };
    match names_of_script(alloc, script, &spans, lexed.as_slice()) {
        Ok(names) => write_cells(alloc, &names, steps, script, &spans, lexed.as_slice(), sink),
        Err(_) => Status::NoMemory,
    }
}

//! How a run ends.
use crate::run::{Ended, ROOM, run_on, source_of};
use port_io::{Calls, MemSink};
use script_run::Status;
use std::alloc::Global;
use std::test::Fail;

/// The most bytes that an input has.
const MOST_BYTES: usize = 1_048_576;

/// Two cells, each with a line.
const TWO_LINES: &[u8] = b"Set[x, 3]\n\nPlus[x, 4]\n";

/// Words that are not read.
static REFUSED: &[&str] = &[
    "",
    "--kernels",
    "--kernels 1",
    "--kernels 17",
    "--kernels 2 --kernels 3",
    "--lose 0:1",
    "--journal=x",
    "--kernels 0 --steps",
    "--kernels 0 --steps 0",
    "--kernels 0 --steps 100000001",
    "--kernels 0 --steps 5 --steps 5",
    "--steps 5 --kernels 0",
];

/// A run on these bytes, with a source and a sink that do not fail.
fn on_bytes(alloc: Global, words: &str, bytes: &[u8]) -> Result<Ended, Fail> {
    let source = source_of(alloc, bytes, Calls::new(alloc))?;
    run_on(
        alloc,
        words,
        source,
        MemSink::new(alloc, ROOM, Calls::new(alloc))?,
    )
}

/// A run on so many spaces.
fn on_spaces(alloc: Global, count: usize) -> Result<Ended, Fail> {
    let spaces = vec![in alloc; b' '; count]?;
    on_bytes(alloc, "--kernels 0", spaces.as_slice())
}

/// The number of one call.
fn call(alloc: Global, number: u64) -> Result<Calls, Fail> {
    let mut calls = Vec::new(alloc);
    calls.push(number)?;
    Ok(Calls::from_vec(calls))
}

fn is_silent(run: &Ended, status: Status) -> bool {
    run.status == status && run.text.as_str() == ""
}

#[test]
fn an_input_has_a_greatest_length(rt: HostRuntime) -> Result<(), Fail> {
    assert!(rt; is_silent(&on_spaces(rt.alloc(), MOST_BYTES)?, Status::Done));
    assert!(rt; is_silent(&on_spaces(rt.alloc(), MOST_BYTES + 1)?, Status::TooLong));
    Ok(())
}

#[test]
fn an_input_is_text(rt: HostRuntime) -> Result<(), Fail> {
    let run = on_bytes(rt.alloc(), "--kernels 0", &[255])?;
    assert!(rt; is_silent(&run, Status::NotText));
    Ok(())
}

#[test]
fn other_words_are_refused(rt: HostRuntime) -> Result<(), Fail> {
    for words in REFUSED {
        let run = on_bytes(rt.alloc(), words, TWO_LINES)?;
        assert!(rt; is_silent(&run, Status::Usage));
    }
    Ok(())
}

#[test]
fn a_first_read_that_fails_ends_a_run(rt: HostRuntime) -> Result<(), Fail> {
    let source = source_of(rt.alloc(), TWO_LINES, call(rt.alloc(), 1)?)?;
    let sink = MemSink::new(rt.alloc(), ROOM, Calls::new(rt.alloc()))?;
    let run = run_on(rt.alloc(), "--kernels 0", source, sink)?;
    assert!(rt; is_silent(&run, Status::ReadFault));
    Ok(())
}

#[test]
fn a_second_write_that_fails_ends_a_run(rt: HostRuntime) -> Result<(), Fail> {
    let source = source_of(rt.alloc(), TWO_LINES, Calls::new(rt.alloc()))?;
    let sink = MemSink::new(rt.alloc(), ROOM, call(rt.alloc(), 2)?)?;
    let run = run_on(rt.alloc(), "--kernels 0", source, sink)?;
    assert_eq!(rt; run.status, Status::WriteFault);
    assert_eq!(rt; run.text.as_str(), "Out[1]= 3\n");
    Ok(())
}

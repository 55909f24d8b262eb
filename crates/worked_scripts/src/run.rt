//! The rows, run.
use crate::row::Row;
use crate::{edges, page, removing, rewriting, scripts, throwing};
use port_io::{Bytes, Calls, MemSink, MemSource};
use script_run::{Status, run_alone};
use std::alloc::Global;
use std::str;
use std::test::Fail;

/// Room for a transcript.
pub(crate) const ROOM: usize = 100_000;

fn words_of(alloc: Global, words: &str) -> Result<Vec<String>, Fail> {
    let mut list = Vec::new(alloc);
    for word in words.split_whitespace() {
        list.push(String::from_str(alloc, word)?)?;
    }
    Ok(list)
}

/// A source of these bytes whose calls with these numbers fail.
pub(crate) fn source_of(alloc: Global, bytes: &[u8], fails: Calls) -> Result<MemSource, Fail> {
    Ok(MemSource {
        bytes: Bytes::from_vec(Vec::from_slice(alloc, bytes)?),
        place: 0,
        calls: 0,
        fails,
    })
}

/// How a run ended, and what it wrote.
#[derive(Drop)]
pub(crate) struct Ended {
    pub(crate) status: Status,
    pub(crate) text: String,
}

/// Runs a script under these words.
pub(crate) fn run_on(
    alloc: Global,
    words: &str,
    mut source: MemSource,
    mut sink: MemSink,
) -> Result<Ended, Fail> {
    let words = words_of(alloc, words)?;
    let status = run_alone(alloc, words.as_slice(), &mut source, &mut sink).status;
    let mut text = String::new(alloc);
    if let Ok(bytes) = str::from_utf8(sink.bytes()) {
        text.push_str(bytes)?;
    }
    Ok(Ended { status, text })
}

/// What is written for a script under these words, or what was written before it ended otherwise than Done.
pub(crate) fn written(alloc: Global, words: &str, script: &str) -> Result<String, Fail> {
    let source = source_of(alloc, script.as_bytes(), Calls::new(alloc))?;
    let sink = MemSink::new(alloc, ROOM, Calls::new(alloc))?;
    let run = run_on(alloc, words, source, sink)?;
    let mut text = run.text;
    if run.status != Status::Done {
        text.push_str("and then it ended")?;
    }
    Ok(text)
}

/// Puts the name of a row, and what is written for it, behind a report where that is not its transcript.
fn report_row(alloc: Global, row: &Row, report: &mut String) -> Result<(), Fail> {
    let text = written(alloc, row.words, row.script)?;
    if text.as_str() != row.transcript {
        report.push_str(row.name)?;
        report.push_str(":\n")?;
        report.push_str(text.as_str())?;
    }
    Ok(())
}

/// The names of the rows for which something else is written, each with that.
fn differing(alloc: Global, tables: &[&[Row]]) -> Result<String, Fail> {
    let mut report = String::new(alloc);
    for table in tables {
        for row in *table {
            report_row(alloc, row, &mut report)?;
        }
    }
    Ok(report)
}

#[test]
fn scripts_print_their_transcripts(rt: HostRuntime) -> Result<(), Fail> {
    let report = differing(rt.alloc(), scripts::tables().as_slice())?;
    assert_eq!(rt; report.as_str(), "");
    Ok(())
}

#[test]
fn the_examples_of_the_page_hold(rt: HostRuntime) -> Result<(), Fail> {
    let tables = [
        page::sample_script(),
        page::text(),
        page::definitions(),
        page::numbers(),
        page::logic(),
        page::control(),
        page::assignment(),
        page::parts(),
        page::functions(),
        page::differences(),
    ];
    let report = differing(rt.alloc(), tables.as_slice())?;
    assert_eq!(rt; report.as_str(), "");
    Ok(())
}

#[test]
fn the_edges_hold(rt: HostRuntime) -> Result<(), Fail> {
    let report = differing(rt.alloc(), edges::tables().as_slice())?;
    assert_eq!(rt; report.as_str(), "");
    Ok(())
}

#[test]
fn replacing_holds(rt: HostRuntime) -> Result<(), Fail> {
    let report = differing(rt.alloc(), rewriting::tables().as_slice())?;
    assert_eq!(rt; report.as_str(), "");
    Ok(())
}

#[test]
fn taking_away_holds(rt: HostRuntime) -> Result<(), Fail> {
    let report = differing(rt.alloc(), removing::tables().as_slice())?;
    assert_eq!(rt; report.as_str(), "");
    Ok(())
}

#[test]
fn throwing_holds(rt: HostRuntime) -> Result<(), Fail> {
    let report = differing(rt.alloc(), throwing::tables().as_slice())?;
    assert_eq!(rt; report.as_str(), "");
    Ok(())
}

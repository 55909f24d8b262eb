use super::*;
use crate::memory::{MemSink, MemSource};
use crate::roles::Sink;
use crate::std_io::{StdSink, StdSource};
use crate::{Bytes, Calls};
use std::test::Fail;

fn calls_of(alloc: Global, call: Option<u64>) -> Result<Calls, Fail> {
    let mut calls = Calls::new(alloc);
    if let Some(call) = call {
        calls.push(call)?;
    }
    Ok(calls)
}

fn source_of(alloc: Global, fails: Option<u64>) -> Result<MemSource, Fail> {
    let mut bytes = Bytes::new(alloc);
    bytes.push(7)?;
    bytes.push(8)?;
    bytes.push(9)?;
    let fails = calls_of(alloc, fails)?;
    Ok(MemSource {
        bytes,
        place: 0,
        calls: 0,
        fails,
    })
}

#[test]
fn reads_memory(rt: HostRuntime) -> Result<(), Fail> {
    let mut source = source_of(rt.alloc(), None)?;
    let bytes = read_all(rt.alloc(), &mut source, 3)?;
    assert_eq!(rt; bytes.as_slice(), [7, 8, 9].as_slice());
    Ok(())
}

#[test]
fn tells_a_fault_in_mid_stream(rt: HostRuntime) -> Result<(), Fail> {
    let mut source = source_of(rt.alloc(), Some(2))?;
    assert!(rt; matches!(read_all(rt.alloc(), &mut source, 3), Err(ReadNo::Fault)));
    assert_eq!(rt; source.place, 3);
    let mut source = source_of(rt.alloc(), None)?;
    assert!(rt; matches!(read_all(rt.alloc(), &mut source, 2), Err(ReadNo::TooLong)));
    Ok(())
}

#[test]
fn fills_a_sink_in_memory(rt: HostRuntime) -> Result<(), Fail> {
    let mut sink = MemSink::new(rt.alloc(), 3, calls_of(rt.alloc(), Some(2))?)?;
    assert!(rt; sink.write_all(&[1, 2]).is_ok());
    assert!(rt; sink.write_all(&[3]).is_err());
    assert!(rt; sink.write_all(&[3, 4]).is_err());
    assert!(rt; sink.write_all(&[3]).is_ok());
    assert_eq!(rt; sink.bytes(), [1, 2, 3].as_slice());
    Ok(())
}

#[test]
fn reads_a_reader(rt: HostRuntime) -> Result<(), Fail> {
    let text = [1u8, 2];
    let mut source = StdSource::new(text.as_slice());
    let bytes = read_all(rt.alloc(), &mut source, 9)?;
    assert_eq!(rt; bytes.as_slice(), text.as_slice());
    Ok(())
}

#[test]
fn writes_to_a_writer(rt: HostRuntime) -> Result<(), Fail> {
    let mut written = Vec::new(rt.alloc());
    {
        let mut sink = StdSink::new(&mut written);
        assert!(rt; sink.write_all(&[1, 2]).is_ok());
        assert!(rt; sink.write_all(&[3]).is_ok());
    }
    assert_eq!(rt; written.as_slice(), [1, 2, 3].as_slice());
    Ok(())
}

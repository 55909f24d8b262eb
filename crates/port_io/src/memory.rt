//! A source and a sink in memory.
ghost use Rattle.std.specs.Prelude.{◌≡◌, ℕ, List, [], ◌++◌, ◌+◌, ◌-◌, ◌^◌, ◌<◌, ◌≤◌, drop, take, min, length, Some, IfOk, IsOk, OnErr, is_err, vec_len, vec_capacity};
ghost use Rattle.std.specs.Io.{ReadsAtMost};
ghost use Rattle.std.specs.Io.KnownBytes.{ReadConsumes};
ghost use Rattle.port_io.specs.Counts.{Rose};
ghost use Rattle.port_io.specs.Calls.{count_up_to, fails_next};

use crate::roles::{Failed, Sink, Source};
use crate::{Bytes, Calls};
use std::alloc::{AllocError, Global};
use std::marker::Model;

/// Bytes that are read from a place on. The calls whose numbers, from 1, stand in `fails` fail.
#[derive(Drop)]
pub struct MemSource {
    pub bytes: Bytes,
    pub place: usize,
    pub calls: u64,
    pub fails: Calls,
}

impl Source for MemSource {
    ghost left = { λ source. Some (drop source.place source.bytes) };

    ghost faults = { λ source. count_up_to source.calls source.fails };

    ghost never_fails = { λ source. source.fails ≡ [] };

    fn read(&mut self, into: &mut [u8]) -> Result<usize, Failed>
        requires { 0 < length into.old }
        ensures bound { ReadsAtMost result into.new }
        ensures bytes { ReadConsumes (Some (drop self.old.place self.old.bytes)) (Some (drop self.new.place self.new.bytes)) result into.new }
        ensures counted { count_up_to self.old.calls self.old.fails ≤ count_up_to self.new.calls self.new.fails }
        ensures failed { OnErr result (Rose (count_up_to self.old.calls self.old.fails) (count_up_to self.new.calls self.new.fails)) }
        ensures sure { self.old.fails ≡ [] → IsOk result }
        ensures lasting { self.old.fails ≡ [] → self.new.fails ≡ [] }
        ensures exact { is_err result ≡ fails_next self.old.calls self.old.fails }
        ensures numbered { self.new.calls ≡ min (self.old.calls + 1) (2 ^ 64 - 1) }
        ensures kept { (self.new.bytes ≡ self.old.bytes) × (self.new.fails ≡ self.old.fails) }
    {
        if next_fails(&mut self.calls, &self.fails) {
            return Err(Failed);
        }
        let count = copy_from(self.bytes.as_slice(), self.place, into);
        self.place += count;
        Ok(count)
    }
}

/// Counts a call, and tells whether it is to fail.
fn next_fails(calls: &mut u64, fails: &Calls) -> bool
    ensures fails { result ≡ fails_next calls.old fails.now }
    ensures numbered { calls.new ≡ min (calls.old + 1) (2 ^ 64 - 1) }
{
    if *calls == u64::MAX {
        return false;
    }
    *calls += 1;
    fails.as_slice().contains(calls)
}

/// Copies bytes from a place on, as many as there are and as there is room for.
fn copy_from(bytes: &[u8], place: usize, into: &mut [u8]) -> usize
    requires { 0 < length into.old }
    ensures bound { result ≤ length into.new }
    ensures bytes { drop place bytes.now ≡ take result into.new ++ drop (place + result) bytes.now }
    ensures end { result ≡ 0 → drop place bytes.now ≡ [] }
    ensures inside { place ≤ length bytes.now → place + result ≤ length bytes.now }
    ensures past { length bytes.now < place → result ≡ 0 }
{
    if place >= bytes.len() {
        return 0;
    }
    let left = &bytes[place..];
    let count = left.len().min(into.len());
    into[..count].copy_from_slice(&left[..count]);
    count
}

/// Bytes that are held, up to a room. The calls whose numbers, from 1, stand in `fails` fail, and
/// so does a piece longer than the room left.
#[derive(Drop)]
pub struct MemSink {
    bytes: Vec<u8>,
    room: usize,
    calls: u64,
    fails: Calls,
    faults: u64,
}

impl Model for MemSink {
    ghost use Rattle.std.specs.Prelude.{◌≤◌, vec_len, vec_capacity};
    ghost use Rattle.port_io.specs.Memory.{Store};

    ghost Value = { Store };

    ghost view = { λ s. record { held = s.bytes.items; room = s.room; calls = s.calls; fails = s.fails; faults = s.faults } };

    ghost invariant = { λ s. (vec_len s.bytes ≤ s.room) × (s.room ≤ vec_capacity s.bytes) };
}

impl MemSink {
    ghost use Rattle.port_io.specs.Memory.{empty_store};

    /// Takes room for `room` bytes.
    pub fn new(alloc: Global, room: usize, fails: Calls) -> Result<MemSink, AllocError>
        ensures { IfOk result (λ sink. sink ≡ empty_store room fails) }
    {
        let bytes = Vec::with_capacity(alloc, room)?;
        Ok(MemSink {
            bytes,
            room,
            calls: 0,
            fails,
            faults: 0,
        })
    }

    /// What the sink holds.
    pub fn bytes(&self) -> &[u8]
        ensures { result.now ≡ self.now.held }
    {
        self.bytes.as_slice()
    }
}

impl Sink for MemSink {
    ghost use Rattle.port_io.specs.Memory.{refuses, after_write};
    ghost use Rattle.port_io.specs.Writing.{WritesAll};

    ghost held = { λ sink. Some sink.held };

    ghost faults = { λ sink. sink.faults };

    ghost takes = { λ sink more. (sink.fails ≡ []) × (length sink.held + more ≤ sink.room) };

    fn write_all(&mut self, bytes: &[u8]) -> Result<(), Failed>
        ensures bytes { WritesAll (Some self.old.held) (Some self.new.held) bytes.now result }
        ensures counted { self.old.faults ≤ self.new.faults }
        ensures failed { OnErr result (Rose self.old.faults self.new.faults) }
        ensures sure { (self.old.fails ≡ []) × (length self.old.held + length bytes.now ≤ self.old.room) → IsOk result }
        ensures lasting { (more : ℕ) → (self.old.fails ≡ []) × (length self.old.held + (length bytes.now + more) ≤ self.old.room) → (self.new.fails ≡ []) × (length self.new.held + more ≤ self.new.room) }
        ensures exact { is_err result ≡ refuses self.old bytes.now }
        ensures after { self.new ≡ after_write self.old bytes.now }
    {
        let is_failing = next_fails(&mut self.calls, &self.fails);
        if is_failing || bytes.len() > self.room - self.bytes.len() {
            self.faults = self.faults.saturating_add(1);
            return Err(Failed);
        }
        let Ok(()) = self.bytes.extend_from_slice(bytes) else {
            unreachable!()
        };
        Ok(())
    }
}

//! Sources and sinks in memory, for tests: they move few bytes at a time, and fail where they are told to.

ghost use Rattle.std.specs.Prelude.{◌≡◌, ◌≤◌, ◌<◌, ◌+◌, ◌↔◌, ℕ, List, [], ◌++◌, length, min, take, drop, Some, Option, IfOk, OnErr, IsErr, IsTrue};
ghost use Rattle.std.specs.Io.{ReadsAtMost, WritesAtMost};
ghost use Rattle.std.specs.Io.KnownBytes.{ReadConsumes, WriteAppends};
ghost use Rattle.nrt_base.specs.Causes.{HasCause};
ghost use Rattle.nrt_streams.specs.MemoryStreams.{whole_source, empty_sink, raised, is_to_fail, read_by, after_read, is_refused, taken_by, after_write};

use crate::stream::{Failed, Sink, Source};
use nrt_base::NoMemory;
use std::alloc::Global;
use std::marker::Model;

fn raised(count: u64) -> u64
    ensures { result ≡ raised count }
{
    if count < u64::MAX { count + 1 } else { count }
}

fn is_to_fail(fails: &[u64], calls: u64) -> bool
    ensures { result ≡ is_to_fail fails.now calls }
{
    let number = raised(calls);
    fails.iter().any(|call| number == *call)
}

// Copies the front of the bytes, as much as there is space for and `most` at most, and says how much that was.
fn copy_front(bytes: &[u8], space: &mut [u8], most: usize) -> usize
    ensures number { result ≡ length (take (min most (length space.old)) bytes.now) }
    ensures space { space.new ≡ take (min most (length space.old)) bytes.now ++ drop result space.old }
{
    let count = most.min(space.len()).min(bytes.len());
    space[..count].copy_from_slice(&bytes[..count]);
    count
}

/// A source in memory, which tells its bytes.
#[derive(Debug, Drop)]
pub struct MemSource {
    bytes: Vec<u8>,
    at: usize,
    step: usize,
    fails: Vec<u64>,
    calls: u64,
    faults: u64,
}

impl Model for MemSource {
    ghost use Rattle.std.specs.Prelude.{◌≤◌, length, drop};
    ghost use Rattle.nrt_streams.specs.MemoryStreams.{Input};

    ghost Value = { Input };

    ghost view = { λ s. record { left = drop s.at s.bytes.items; step = s.step; fails = s.fails.items; calls = s.calls; faults = s.faults } };

    ghost invariant = { λ s. (s.at ≤ length s.bytes.items) × (1 ≤ s.step) };
}

impl MemSource {
    /// A source of these bytes. A call moves at most `step` bytes; `fails` has the numbers, from 1, of the calls that are to fail.
    pub fn new(bytes: Vec<u8>, step: usize, fails: Vec<u64>) -> MemSource
        requires { 1 ≤ step }
        ensures { result ≡ whole_source bytes.items step fails.items }
    {
        MemSource {
            bytes,
            at: 0,
            step,
            fails,
            calls: 0,
            faults: 0,
        }
    }

    /// The bytes that are left.
    pub fn left(&self) -> &[u8]
        ensures { result.now ≡ self.now.left }
    {
        &self.bytes.as_slice()[self.at..]
    }

    /// The number of reads so far, which stays at 2^64 - 1.
    pub fn calls(&self) -> u64
        ensures { result ≡ self.now.calls }
    {
        self.calls
    }
}

impl Source for MemSource {
    ghost left = { λ s. Some s.left };

    ghost fault_count = { λ s. s.faults };

    fn read(&mut self, buf: &mut [u8]) -> Result<usize, Failed>
        ensures bound { ReadsAtMost result buf.new }
        ensures bytes { ReadConsumes (Some self.old.left) (Some self.new.left) result buf.new }
        ensures cause { HasCause (self.old.faults) (self.new.faults) result }
        ensures fails { IsErr result ↔ IsTrue (is_to_fail self.old.fails self.old.calls) }
        ensures source { self.new ≡ after_read self.old (length buf.old) }
        ensures number { IfOk result (λ n. n ≡ length (read_by self.old (length buf.old))) }
        ensures space { IfOk result (λ n. buf.new ≡ read_by self.old (length buf.old) ++ drop n buf.old) }
        ensures refused { OnErr result (buf.new ≡ buf.old) }
    {
        let fails = is_to_fail(self.fails.as_slice(), self.calls);
        self.calls = raised(self.calls);
        if fails {
            self.faults = raised(self.faults);
            return Err(Failed);
        }
        let count = copy_front(&self.bytes.as_slice()[self.at..], buf, self.step);
        self.at += count;
        Ok(count)
    }

    fn faults(&self) -> u64 {
        self.faults
    }
}

/// A sink in memory, which tells its bytes.
#[derive(Debug, Drop)]
pub struct MemSink {
    bytes: Vec<u8>,
    room: usize,
    step: usize,
    fails: Vec<u64>,
    calls: u64,
    faults: u64,
}

impl Model for MemSink {
    ghost use Rattle.std.specs.Prelude.{◌≤◌, length, vec_capacity};
    ghost use Rattle.nrt_streams.specs.MemoryStreams.{Output};

    ghost Value = { Output };

    ghost view = { λ s. record { held = s.bytes.items; room = s.room; step = s.step; fails = s.fails.items; calls = s.calls; faults = s.faults } };

    ghost invariant = { λ s. (length s.bytes.items ≤ s.room) × (s.room ≤ vec_capacity s.bytes) × (1 ≤ s.step) };
}

impl MemSink {
    /// A sink with room for so many bytes, which it makes here. A call moves at most `step` bytes; `fails` has the numbers, from 1, of the calls that are to fail.
    pub fn new(
        alloc: Global,
        room: usize,
        step: usize,
        fails: Vec<u64>,
    ) -> Result<MemSink, NoMemory>
        requires { 1 ≤ step }
        ensures { IfOk result (λ sink. sink ≡ empty_sink room step fails.items) }
    {
        Ok(MemSink {
            bytes: Vec::with_capacity(alloc, room)?,
            room,
            step,
            fails,
            calls: 0,
            faults: 0,
        })
    }

    /// The bytes that are held.
    pub fn bytes(&self) -> &[u8]
        ensures { result.now ≡ self.now.held }
    {
        self.bytes.as_slice()
    }

    /// The number of writes so far, which stays at 2^64 - 1.
    pub fn calls(&self) -> u64
        ensures { result ≡ self.now.calls }
    {
        self.calls
    }
}

impl Sink for MemSink {
    ghost held = { λ s. Some s.held };

    ghost fault_count = { λ s. s.faults };

    fn write(&mut self, bytes: &[u8]) -> Result<usize, Failed>
        ensures bound { WritesAtMost result bytes.now }
        ensures some { 0 < length bytes.now → IfOk result (λ n. 0 < n) }
        ensures bytes { WriteAppends (Some self.old.held) (Some self.new.held) result bytes.now }
        ensures cause { HasCause (self.old.faults) (self.new.faults) result }
        ensures fails { IsErr result ↔ IsTrue (is_refused self.old bytes.now) }
        ensures sink { self.new ≡ after_write self.old bytes.now }
        ensures number { IfOk result (λ n. n ≡ length (taken_by self.old bytes.now)) }
    {
        let fails = is_to_fail(self.fails.as_slice(), self.calls);
        let free = self.room - self.bytes.len();
        self.calls = raised(self.calls);
        if fails || (!bytes.is_empty() && free == 0) {
            self.faults = raised(self.faults);
            return Err(Failed);
        }
        let count = self.step.min(free).min(bytes.len());
        match self.bytes.extend_from_slice(&bytes[..count]) {
            Ok(()) => Ok(count),
            Err(_) => unreachable!(),
        }
    }

    fn faults(&self) -> u64 {
        self.faults
    }
}

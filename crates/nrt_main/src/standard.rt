//! The readers and writers of the system, as sources and sinks.

ghost use Rattle.std.specs.Prelude.{◌≡◌, None};

use nrt_streams::{Failed, Sink, Source};
use std::alloc::Global;
use std::io::{self, Read, Write};

/// A reader of the system as a source. It tells nothing of its bytes, and keeps those that were read, as far as
/// memory lasts, for messages.
#[derive(Drop)]
pub struct StdSource<R> {
    reader: R,
    faults: u64,
    seen: Vec<u8>,
}

impl<R> StdSource<R> {
    pub fn new(alloc: Global, reader: R) -> Self
        ensures { result.faults ≡ 0 }
    {
        StdSource {
            reader,
            faults: 0,
            seen: Vec::new(alloc),
        }
    }

    /// The bytes that were read.
    pub fn seen(&self) -> &[u8] {
        self.seen.as_slice()
    }
}

impl<R: Read> Source for StdSource<R> {
    ghost left = { λ s. None };

    ghost fault_count = { λ s. s.faults };

    fn read(&mut self, buf: &mut [u8]) -> Result<usize, Failed> {
        match self.reader.read(buf) {
            Ok(count) => {
                let _ = self.seen.extend_from_slice(&buf[..count]);
                Ok(count)
            }
            Err(_) => {
                self.faults = self.faults.saturating_add(1);
                Err(Failed)
            }
        }
    }

    fn faults(&self) -> u64 {
        self.faults
    }
}

/// A writer of the system as a sink. It tells nothing of its bytes, and counts a write that takes nothing as failed.
#[derive(Drop)]
pub struct StdSink<W> {
    writer: W,
    faults: u64,
    broken: bool,
}

impl<W> StdSink<W> {
    pub fn new(writer: W) -> Self
        ensures { result.faults ≡ 0 }
    {
        StdSink {
            writer,
            faults: 0,
            broken: false,
        }
    }

    /// Whether the other end of a pipe was closed.
    pub fn is_broken(&self) -> bool {
        self.broken
    }
}

impl<W: Write> Sink for StdSink<W> {
    ghost held = { λ s. None };

    ghost fault_count = { λ s. s.faults };

    fn write(&mut self, bytes: &[u8]) -> Result<usize, Failed> {
        match self.writer.write(bytes) {
            Ok(count) if count > 0 || bytes.is_empty() => Ok(count),
            Ok(_) => {
                self.faults = self.faults.saturating_add(1);
                Err(Failed)
            }
            Err(error) => {
                self.broken = error.kind() == io::ErrorKind::BrokenPipe;
                self.faults = self.faults.saturating_add(1);
                Err(Failed)
            }
        }
    }

    fn faults(&self) -> u64 {
        self.faults
    }
}

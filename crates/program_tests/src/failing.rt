//! Reads and writes that fail.

use crate::running::{PLAIN, words};
use nrt_commands::{OpenGate, let_go, run_nrt};
use nrt_streams::{MemSink, MemSource};
use std::alloc::Global;
use std::sync::Wait;
use std::test::Fail;
use std::thread::Threads;
use stream_commands::Status;

/// A run of the plain script, 16 bytes a call: its status, and how many reads and writes it took.
fn counted<R: Threads + Wait + Sync>(
    rt: &R,
    alloc: Global,
    reads: &[u64],
    writes: &[u64],
) -> Result<(Status, u64, u64), Fail> {
    let words = words(alloc, &[b"run"])?;
    let mut source = MemSource::new(PLAIN.to_vec(alloc)?, 16, reads.to_vec(alloc)?);
    let mut sink = MemSink::new(alloc, 4096, 16, writes.to_vec(alloc)?)?;
    let mut kept = None;
    let status = run_nrt(
        rt,
        alloc,
        words.as_slice(),
        &mut source,
        &mut sink,
        &OpenGate,
        &mut kept,
    );
    let_go(kept);
    Ok((status, source.calls(), sink.calls()))
}

// The first, the second and the last read fail, and so do the writes.
#[test]
fn failing_calls(rt: HostRuntime) -> Result<(), Fail> {
    let alloc = rt.alloc();
    assert_eq!(rt; counted(&rt, alloc, &[], &[])?, (Status::Done, 5, 8));
    for call in [1, 2, 5] {
        let ends = counted(&rt, alloc, &[call], &[])?;
        assert_eq!(rt; ends, (Status::ReadFault, call, 0));
    }
    for call in [1, 2, 8] {
        let ends = counted(&rt, alloc, &[], &[call])?;
        assert_eq!(rt; ends, (Status::WriteFault, 5, call));
    }
    Ok(())
}

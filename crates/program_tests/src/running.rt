//! Runs of the program over a source and a sink in memory, and what their reports say.

use nrt_commands::{Gate, OpenGate, let_go, run_nrt};
use nrt_streams::{Arg, MemSink, MemSource};
use std::alloc::Global;
use std::sync::Wait;
use std::test::Fail;
use std::thread::Threads;
use stream_commands::Status;

pub const PLAIN: &[u8] = b"nodes 2\n1 put a Quick fox\n1 publish\n1 copy 2\n1 search 2 fox\n";

pub fn words(alloc: Global, texts: &[&[u8]]) -> Result<Vec<Arg>, Fail> {
    let mut words = Vec::new(alloc);
    for text in texts {
        words.push(Arg::new(alloc, text)?)?;
    }
    Ok(words)
}

/// A run of words over a script, read and written three bytes at a time: its status, and what the sink holds.
pub fn run<R: Threads + Wait + Sync>(
    rt: &R,
    alloc: Global,
    texts: &[&[u8]],
    script: &[u8],
    reads: &[u64],
    writes: &[u64],
) -> Result<(Status, Vec<u8>), Fail> {
    run_gated(rt, alloc, &OpenGate, texts, script, reads, writes)
}

/// Such a run past a gate.
pub fn run_gated<R: Threads + Wait + Sync, G: Gate + Sync>(
    rt: &R,
    alloc: Global,
    gate: &G,
    texts: &[&[u8]],
    script: &[u8],
    reads: &[u64],
    writes: &[u64],
) -> Result<(Status, Vec<u8>), Fail> {
    let words = words(alloc, texts)?;
    let mut source = MemSource::new(script.to_vec(alloc)?, 3, reads.to_vec(alloc)?);
    let mut sink = MemSink::new(alloc, 4096, 3, writes.to_vec(alloc)?)?;
    let mut kept = None;
    let status = run_nrt(
        rt,
        alloc,
        words.as_slice(),
        &mut source,
        &mut sink,
        gate,
        &mut kept,
    );
    let_go(kept);
    Ok((status, sink.bytes().to_vec(alloc)?))
}

/// A run of a word over what the source holds: its status, and what the sink holds then.
pub fn ran<R: Threads + Wait + Sync>(
    rt: &R,
    alloc: Global,
    word: &[u8],
    held: Vec<u8>,
) -> Result<(Status, Vec<u8>), Fail> {
    let words = words(alloc, &[word])?;
    let mut source = MemSource::new(held, 4096, Vec::new(alloc));
    let mut sink = MemSink::new(alloc, 1_048_576, 4096, Vec::new(alloc))?;
    let mut kept = None;
    let status = run_nrt(
        rt,
        alloc,
        words.as_slice(),
        &mut source,
        &mut sink,
        &OpenGate,
        &mut kept,
    );
    let_go(kept);
    Ok((status, sink.bytes().to_vec(alloc)?))
}

/// The report of a script, where it was run.
pub fn report_of<R: Threads + Wait + Sync>(
    rt: &R,
    alloc: Global,
    script: &[u8],
) -> Result<Vec<u8>, Fail> {
    let (status, text) = ran(rt, alloc, b"run", script.to_vec(alloc)?)?;
    match status {
        Status::Done => Ok(text),
        _ => Err(Fail::from("it was not run")),
    }
}

/// Whether a report of a script is judged to be legal.
pub fn is_legal_report<R: Threads + Wait + Sync>(
    rt: &R,
    alloc: Global,
    script: &[u8],
    report: &[u8],
) -> Result<bool, Fail> {
    let mut both = script.to_vec(alloc)?;
    both.extend_from_slice(b"report\n")?;
    both.extend_from_slice(report)?;
    let (status, _) = ran(rt, alloc, b"judge", both)?;
    Ok(status == Status::Done)
}

/// Runs each script, whose report has to end so.
pub fn each_ends<R: Threads + Wait + Sync>(
    rt: &R,
    alloc: Global,
    rows: &[(&[u8], &[u8])],
) -> Result<(), Fail> {
    for (script, wanted) in rows {
        let text = report_of(rt, alloc, script)?;
        if !text.ends_with(wanted) {
            return Err(Fail::from("a report ends otherwise"));
        }
    }
    Ok(())
}

/// Whether it is a line of the report.
pub fn has_line(report: &[u8], line: &[u8]) -> bool {
    report
        .split(|byte| *byte == b'\n')
        .any(|other| other == line)
}

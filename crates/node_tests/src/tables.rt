//! Calls of a primary on a directory in memory, as tables.

ghost use Rattle.std.specs.Prelude.{IfOk};
ghost use Rattle.disk_memory.specs.Memory.{cells_in};
ghost use Rattle.node_tests.specs.Seeing.{IsEmpty};

use crate::bench::Call::{self, Cut, Delete, HasMet, Plan, Publish, Put, Ready, Start};
use crate::bench::run;
use crate::calls::CallOutcome;
use disk_memory::MemDir;
use nrt_base::NoMemory;
use std::alloc::Global;
use std::test::Fail;

/// A directory in memory without a file.
pub fn empty_dir(alloc: Global) -> Result<MemDir, NoMemory>
    ensures { IfOk result (λ dir. IsEmpty (cells_in dir)) }
{
    let dir = MemDir::new(alloc)?;
    Ok(dir)
}

// Plays calls of which the last is made where the k-th call of the directory fails, and after which so many faults are met.
fn stopped(alloc: Global, before: &[Call], k: u64, call: Call, met: u64) -> Result<(), Fail> {
    let mut calls = Vec::from_slice(alloc, before)?;
    calls.extend_from_slice(&[Plan(k), call, HasMet(met)])?;
    run(alloc, empty_dir(alloc)?, 0, calls.as_slice())
}

// The segment of the first point loses a row, and a put and a delete wait: four writes and a removal.
const BEFORE_A_PUBLISH: [Call; 8] = [
    Put(0),
    Put(1),
    Put(2),
    Publish(CallOutcome::Point),
    Delete(2),
    Publish(CallOutcome::Point),
    Put(3),
    Delete(0),
];

#[test]
fn a_publish_stopped_at_each_call(rt: HostRuntime) -> Result<(), Fail> {
    for k in 1..5 {
        let call = Publish(CallOutcome::Failed);
        stopped(rt.alloc(), &BEFORE_A_PUBLISH, k, call, 1)?;
    }
    let call = Publish(CallOutcome::Point);
    stopped(rt.alloc(), &BEFORE_A_PUBLISH, 5, call, 1)?;
    stopped(rt.alloc(), &BEFORE_A_PUBLISH, 6, call, 0)
}

// A row dies before the start.
const BEFORE_A_MERGE: [Call; 9] = [
    Put(0),
    Put(1),
    Put(2),
    Publish(CallOutcome::Point),
    Put(3),
    Put(4),
    Delete(0),
    Publish(CallOutcome::Point),
    Start(CallOutcome::Started),
];

// A merge writes three files.
#[test]
fn a_merge_stopped_at_each_call(rt: HostRuntime) -> Result<(), Fail> {
    for k in 1..4 {
        let call = Ready(CallOutcome::Failed);
        stopped(rt.alloc(), &BEFORE_A_MERGE, k, call, 1)?;
    }
    let call = Ready(CallOutcome::Ready);
    stopped(rt.alloc(), &BEFORE_A_MERGE, 4, call, 0)
}

// A row dies after the start: the cut-over writes a live file, and removes the one that was noted.
#[test]
fn a_cut_over_stopped_at_each_call(rt: HostRuntime) -> Result<(), Fail> {
    let alloc = rt.alloc();
    let mut before = Vec::from_slice(alloc, &BEFORE_A_MERGE)?;
    let point = Publish(CallOutcome::Point);
    before.extend_from_slice(&[Ready(CallOutcome::Ready), Delete(1), point])?;
    let before = before.as_slice();
    stopped(alloc, before, 1, Cut(CallOutcome::Failed), 1)?;
    stopped(alloc, before, 2, Cut(CallOutcome::CutOver), 1)?;
    stopped(alloc, before, 3, Cut(CallOutcome::CutOver), 0)
}

// A generation draws 1,679,616 names; from then on nothing is put.
#[test]
fn names_are_spent_for_puts_alone(rt: HostRuntime) -> Result<(), Fail> {
    let alloc = rt.alloc();
    let calls = [
        Delete(0),
        Publish(CallOutcome::Point),
        Put(0),
        Publish(CallOutcome::NamesSpent),
    ];
    run(alloc, empty_dir(alloc)?, 1_679_616, &calls)
}

#[test]
fn a_put_wants_a_place_among_256_segments(rt: HostRuntime) -> Result<(), Fail> {
    let alloc = rt.alloc();
    let mut calls = Vec::new(alloc);
    for key in 0..=255 {
        calls.extend_from_slice(&[Put(key), Publish(CallOutcome::Point)])?;
    }
    calls.extend_from_slice(&[Put(0), Publish(CallOutcome::TooManySegments)])?;
    run(alloc, empty_dir(alloc)?, 0, calls.as_slice())
}

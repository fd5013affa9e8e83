//! The calls of a primary, beside what is seen of it.

ghost use Rattle.std.specs.Prelude.{◌<◌, ◌≤◌, OnOk, IfOk};
ghost use Rattle.nrt_base.specs.SegNumbers.{segments_of_generation};
ghost use Rattle.node_tests.specs.Seeing.{IsSeen, IsEmpty};

use crate::seen::Seen;
use commit_steps::CommitBook;
use disk_model::Dir;
use documents::Op;
use file_deleter::FileDeleter;
use index_primary::{Primary, PrimaryFault, PublishFault};
use nrt_base::{Gen, List, Version};
use searcher_switch::Searchers;
use seg_merge::merge;
use segment_infos::Infos;
use segment_steps::flush;
use std::alloc::Global;
use std::test::Fail;

/// Far more calls than a test makes.
const MANY: u64 = 1_000_000;

/// What a publish, or a call of a merge, leads to.
#[derive(Clone, Copy, PartialEq, Eq)]
pub enum CallOutcome {
    Nothing,
    NamesSpent,
    TooManySegments,
    Failed,
    Point,
    Started,
    Ready,
    CutOver,
}

/// A primary of an empty directory at version 1 of generation 1, which has drawn so many names.
pub fn start<D: Dir + Drop>(alloc: Global, dir: D, drawn: u32) -> Result<(Primary<D>, Seen), Fail>
    requires empty { IsEmpty (D.cells dir) }
    requires drawn { drawn ≤ segments_of_generation }
    ensures { IfOk result (λ b. IsSeen b.0 b.1) }
{
    let files = FileDeleter::new(alloc)?;
    let names = List::new(alloc);
    let readers = List::new(alloc);
    let records = List::new(alloc);
    let segs = List::new(alloc);
    let searchers = Searchers::new(alloc, Version(1), names, readers)?;
    let infos = Infos {
        generation: Gen(1),
        version: Version(1),
        counter: drawn,
        segs: records,
    };
    let commits = CommitBook::new(1);
    let primary = Primary::from_parts(alloc, dir, files, searchers, commits, infos, segs)?;
    let seen = Seen {
        accepted: 0,
        version: 1,
        ready: None,
        merges: List::new(alloc),
    };
    Ok((primary, seen))
}

/// Accepts an operation.
pub fn accept<D: Dir>(primary: &mut Primary<D>, seen: &mut Seen, op: Op) -> Result<(), Fail>
    requires { IsSeen primary.old seen.old }
    ensures { OnOk result (IsSeen primary.new seen.new) }
{
    if u64::from(seen.accepted) >= MANY {
        return Err(Fail::new("too many operations"));
    }
    seen.accepted = primary.accept(op)?;
    Ok(())
}

/// Publishes what waits.
pub fn publish<D: Dir>(
    alloc: Global,
    primary: &mut Primary<D>,
    seen: &mut Seen,
) -> Result<CallOutcome, Fail>
    requires { IsSeen primary.old seen.old }
    ensures { OnOk result (IsSeen primary.new seen.new) }
{
    if seen.version >= MANY {
        return Err(Fail::new("too many points"));
    }
    let task = match primary.publish_start(alloc) {
        Ok(Some(task)) => task,
        Ok(None) => return Ok(CallOutcome::Nothing),
        Err(PublishFault::NamesSpent) => return Ok(CallOutcome::NamesSpent),
        Err(PublishFault::TooManySegments) => return Ok(CallOutcome::TooManySegments),
        Err(PublishFault::Memory) => return Err(Fail::new("out of memory")),
    };
    let work = flush(alloc, &task)?;
    match primary.publish_end(alloc, work) {
        Ok(version) => {
            seen.version = version.0;
            Ok(CallOutcome::Point)
        }
        Err(PrimaryFault::Failed) => Ok(CallOutcome::Failed),
        Err(PrimaryFault::Memory) => Err(Fail::new("out of memory")),
    }
}

/// Starts a merge, where some neighbours can be chosen.
pub fn merge_start<D: Dir>(
    alloc: Global,
    primary: &mut Primary<D>,
    seen: &mut Seen,
    factor: u32,
) -> Result<CallOutcome, Fail>
    requires seen { IsSeen primary.old seen.old }
    requires factor { 2 ≤ factor }
    ensures { OnOk result (IsSeen primary.new seen.new) }
{
    match primary.merge_start(alloc, factor) {
        Ok(Some(task)) => {
            seen.merges.push(task)?;
            Ok(CallOutcome::Started)
        }
        Ok(None) => Ok(CallOutcome::Nothing),
        Err(PublishFault::NamesSpent) => Ok(CallOutcome::NamesSpent),
        Err(PublishFault::TooManySegments) => Ok(CallOutcome::TooManySegments),
        Err(PublishFault::Memory) => Err(Fail::new("out of memory")),
    }
}

/// Makes the oldest merge, and writes its files.
pub fn merge_ready<D: Dir>(
    alloc: Global,
    primary: &mut Primary<D>,
    seen: &mut Seen,
) -> Result<CallOutcome, Fail>
    requires { IsSeen primary.old seen.old }
    ensures { OnOk result (IsSeen primary.new seen.new) }
{
    if seen.ready.is_some() || seen.merges.as_slice().is_empty() {
        return Err(Fail::new("no merge is to be made"));
    }
    let task = seen.merges.remove(0);
    let merged = merge(alloc, &task)?;
    match primary.merge_ready(alloc, merged) {
        Ok(state) => {
            drop(state);
            seen.ready = Some(task);
            Ok(CallOutcome::Ready)
        }
        Err(PrimaryFault::Failed) => Ok(CallOutcome::Failed),
        Err(PrimaryFault::Memory) => Err(Fail::new("out of memory")),
    }
}

/// Cuts over to the merge whose files are written.
pub fn merge_cut<D: Dir>(
    alloc: Global,
    primary: &mut Primary<D>,
    seen: &mut Seen,
) -> Result<CallOutcome, Fail>
    requires { IsSeen primary.old seen.old }
    ensures { OnOk result (IsSeen primary.new seen.new) }
{
    let Some(task) = seen.ready.take() else {
        return Err(Fail::new("no merge is ready"));
    };
    match primary.merge_cut(alloc, task.seg) {
        Ok(()) => Ok(CallOutcome::CutOver),
        Err(PrimaryFault::Failed) => Ok(CallOutcome::Failed),
        Err(PrimaryFault::Memory) => Err(Fail::new("out of memory")),
    }
}

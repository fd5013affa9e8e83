//! Openings of a replica, and what it answers then.

ghost use Rattle.std.specs.Prelude.{IfOk, ◌<◌};
ghost use Rattle.replica_opening.specs.Opened.{IsSettledOn};
ghost use Rattle.replica_node.specs.Starting.{IsJustOpened};

use crate::files::{DOCS, SEG, crashed, leftover, opened_on};
use codec_frame::{FileFault, FrameFault};
use commit_steps::RecoverFault;
use disk_model::{Dir, FaultDir};
use nrt_base::{Gen, Version};
use replica_node::{PointAnswer, Refused, Replica, StartFault};
use seg_reader::{SegFault, SegFile};
use std::alloc::Global;
use std::test::Fail;

/// A replica on a directory.
pub fn opened<D: FaultDir + Drop>(alloc: Global, dir: D) -> Result<Replica<D>, Fail>
    requires { IsSettledOn (D.cells dir) }
    ensures { IfOk result IsJustOpened }
{
    match Replica::start_from(alloc, dir) {
        Ok(replica) => Ok(replica),
        Err(_) => Err(Fail::new("it is not opened")),
    }
}

// What a replica answers of these points.
fn answers<D: Dir>(replica: &mut Replica<D>) -> [PointAnswer; 5] {
    [
        replica.new_point(Gen(2), Version(3)),
        replica.new_point(Gen(2), Version(2)),
        replica.new_point(Gen(1), Version(9)),
        replica.new_point(Gen(2), Version(4)),
        replica.new_point(Gen(3), Version(3)),
    ]
}

// What a replica on a directory answers of them.
fn answers_on<D: FaultDir + Drop>(alloc: Global, dir: D) -> Result<[PointAnswer; 5], Fail>
    requires { IsSettledOn (D.cells dir) }
{
    let mut replica = opened(alloc, dir)?;
    Ok(answers(&mut replica))
}

#[test]
fn a_point_is_answered_by_its_numbers(rt: HostRuntime) -> Result<(), Fail> {
    let dir = crashed(opened_on(rt.alloc(), &DOCS)?)?;
    let due = [
        PointAnswer::Same(Version(3)),
        PointAnswer::Older(Version(3)),
        PointAnswer::OldGen(Gen(2)),
        PointAnswer::Start,
        PointAnswer::Same(Version(3)),
    ];
    assert_eq!(rt; answers_on(rt.alloc(), dir)?, due);
    Ok(())
}

// Why no replica is opened, and how many names its directory has then. None where one is opened.
fn refusal<D: FaultDir + Drop>(
    alloc: Global,
    dir: D,
) -> Result<(Option<StartFault>, usize, D), Fail>
    requires { IsSettledOn (D.cells dir) }
{
    let (fault, dir) = match Replica::start_from(alloc, dir) {
        Ok(replica) => (None, replica.into_dir()),
        Err(Refused { dir, fault }) => (Some(fault), dir),
    };
    let mut dir = dir;
    dir.crash(0)?;
    let names = dir.list()?;
    Ok((fault, names.len(), dir))
}

#[test]
fn a_damaged_segment_is_refused(rt: HostRuntime) -> Result<(), Fail> {
    let mut docs = DOCS;
    docs[36] = 2;
    let dir = crashed(opened_on(rt.alloc(), &docs)?)?;
    let (fault, names, _) = refusal(rt.alloc(), dir)?;
    let is_due = match fault {
        Some(StartFault::Segment(seg, SegFault::File(SegFile::Docs, FileFault::Frame(frame)))) => {
            seg == SEG && matches!(frame, FrameFault::Checksum { .. })
        }
        _ => false,
    };
    assert!(rt; is_due);
    assert_eq!(rt; names, 6);
    Ok(())
}

/// How many names a replica has that is opened on a directory.
pub fn names_on<D: FaultDir + Drop>(alloc: Global, dir: D) -> Result<usize, Fail>
    requires { IsSettledOn (D.cells dir) }
{
    let replica = opened(alloc, dir)?;
    let names = replica.names(alloc);
    drop(replica);
    Ok(names?.len())
}

// Whether an opening is refused so that is stopped at this call: a list, loads of the commit and of three files, a list, and
// two removals.
fn is_due(fault: Option<StartFault>, k: u64) -> bool {
    match fault {
        Some(StartFault::Recover(RecoverFault::Failed)) => k < 3,
        Some(StartFault::Failed) => 2 < k && k < 9,
        None => k == 9,
        _ => false,
    }
}

// An opening that is stopped at a call: whether it is refused as is due, how many names there are then, whether the leftover is
// one of them, and how many names there are after another opening.
fn stopped_at<D: FaultDir + Drop>(
    alloc: Global,
    dir: D,
    k: u64,
) -> Result<(bool, usize, bool, usize), Fail>
    requires settled { IsSettledOn (D.cells dir) }
    requires some { 0 < k }
{
    let mut dir = dir;
    dir.stop_at(k);
    let (fault, names, dir) = refusal(alloc, dir)?;
    let has = dir.has(&leftover(b"_10001.docs")?);
    let later = names_on(alloc, crashed(dir)?)?;
    Ok((is_due(fault, k), names, has, later))
}

#[test]
fn an_opening_stopped_at_each_call(rt: HostRuntime) -> Result<(), Fail> {
    for k in 1..10 {
        let dir = crashed(opened_on(rt.alloc(), &DOCS)?)?;
        let left = match k {
            1..=7 => 6,
            8 => 5,
            _ => 4,
        };
        let stopped = stopped_at(rt.alloc(), dir, k)?;
        assert_eq!(rt; stopped, (true, left, k < 8, 4), "call {k}");
    }
    Ok(())
}

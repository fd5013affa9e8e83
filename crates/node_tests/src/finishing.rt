//! A copy that is finished while the disk stops. Its source stands for a document.

ghost use Rattle.std.specs.Prelude.{◌≡◌, ◌<◌, None, OnOk};
ghost use Rattle.disk_model.specs.Disk.{Name, Content, reads_of};
ghost use Rattle.replica_opening.specs.Opened.{IsSettledOn};
ghost use Rattle.replica_node.specs.Sources.{HeldReadAs, IsSourced, KeepsSource};
ghost use Rattle.replica_node.specs.Starting.{IsJustOpened};

use crate::files::{DOCS, crashed, opened_on};
use crate::jobs::{begin, due_part, file_metas};
use crate::openings::opened;
use copy_job::JobFault;
use disk_memory::MemDir;
use disk_model::{Dir, FaultDir};
use index_check::check_dir;
use nrt_base::{Doc, Key, NoMemory, Text};
use replica_node::Replica;
use replica_node::laws::{point_runs, sourced_stands};
use segment_infos::decode;
use std::alloc::Global;
use std::test::Fail;

// The document of the segment.
fn only_doc(alloc: Global) -> Result<Doc, NoMemory> {
    let key = Key::new(alloc, b"a")?;
    let text = Text::new(alloc, b"x")?;
    Ok(Doc { key, text })
}

/// A replica whose directory has no name holds nothing, so all that it holds reads as at any source.
pub fn check_empty<D: Dir>(alloc: Global, replica: &Replica<D>) -> Result<(), Fail>
    ensures { OnOk result ((source : Name → Content)
        → HeldReadAs source (D.cells replica.now.dir) replica.now.files) }
{
    let _ = replica.version();
    if !replica.names(alloc)?.is_empty() {
        return Err(Fail::new("it holds a file"));
    }
    Ok(())
}

// Lets the first file that the job lacks arrive from a source.
fn fetch<D: Dir, S: Dir>(
    alloc: Global,
    replica: &mut Replica<D>,
    source: &mut S,
) -> Result<(), Fail>
    ensures sourced { OnOk result (IsSourced (reads_of (S.cells source.old)) D.cells replica.old
        → IsSourced (reads_of (S.cells source.old)) D.cells replica.new) }
    ensures cells { S.cells source.new ≡ S.cells source.old }
{
    let Some(job) = replica.job() else {
        return Err(Fail::new("no job"));
    };
    let number = job.number();
    let Some(name) = job.missing().first() else {
        return Err(Fail::new("nothing is missing"));
    };
    let bytes = source.load(name)?;
    let part = due_part(alloc, job, bytes)?;
    point_runs::<D>();
    match replica.arrived(number, part) {
        Ok(()) => Ok(()),
        Err(_) => Err(Fail::new("a file does not arrive")),
    }
}

// Begins a job of the files of the segment.
fn begin_files<D: Dir>(alloc: Global, replica: &mut Replica<D>) -> Result<(), Fail>
    requires none { replica.old.job ≡ None }
    requires jobs { replica.old.jobs ≡ 0 }
    ensures sourced { KeepsSource D.cells replica.old replica.new }
{
    let metas = file_metas(alloc)?;
    match begin(alloc, replica, metas.as_slice())? {
        Ok(_) => Ok(()),
        Err(_) => Err(Fail::new("no job begins")),
    }
}

// Lets three files arrive from a source.
fn fetch_files<D: Dir, S: Dir>(
    alloc: Global,
    replica: &mut Replica<D>,
    source: &mut S,
) -> Result<(), Fail>
    ensures sourced { OnOk result (IsSourced (reads_of (S.cells source.old)) D.cells replica.old
        → IsSourced (reads_of (S.cells source.old)) D.cells replica.new) }
    ensures cells { S.cells source.new ≡ S.cells source.old }
{
    fetch(alloc, replica, source)?;
    fetch(alloc, replica, source)?;
    fetch(alloc, replica, source)?;
    Ok(())
}

// Copies the files from a source to a replica that was just opened and holds nothing.
fn copy_files<D: Dir, S: Dir>(
    alloc: Global,
    replica: &mut Replica<D>,
    source: &mut S,
) -> Result<(), Fail>
    requires { IsJustOpened replica.old }
    ensures sourced { OnOk result (IsSourced (reads_of (S.cells source.new)) D.cells replica.new) }
{
    check_empty(alloc, replica)?;
    begin_files(alloc, replica)?;
    fetch_files(alloc, replica, source)?;
    Ok(())
}

/// Finishes the job, where the source stands for the document under the job's infos. Answers whether it did.
pub fn finish<D: Dir, S: Dir>(
    alloc: Global,
    replica: &mut Replica<D>,
    source: &mut S,
) -> Result<bool, Fail>
    requires { IsSourced (reads_of (S.cells source.old)) D.cells replica.old }
{
    let Some(job) = replica.job() else {
        return Err(Fail::new("no job"));
    };
    if !job.missing().is_empty() {
        return Err(Fail::new("a file is missing"));
    }
    let number = job.number();
    let infos = decode(alloc, job.want().infos.as_slice())?;
    if check_dir(alloc, source, &infos, &[only_doc(alloc)?]).is_err() {
        return Err(Fail::new("the source has another document"));
    }
    let _ = replica.version();
    sourced_stands();
    match replica.finish(alloc, number) {
        Ok(_) => Ok(true),
        Err(JobFault::DirFailed) => Ok(false),
        Err(_) => Err(Fail::new("another fault")),
    }
}

// Whether a copy from a source is finished where the disk stops at a call of its finish.
fn is_finished<D: FaultDir, S: Dir>(
    alloc: Global,
    replica: &mut Replica<D>,
    source: &mut S,
    stop: u64,
) -> Result<bool, Fail>
    requires opened { IsJustOpened replica.old }
    requires some { 0 < stop }
{
    copy_files(alloc, replica, source)?;
    replica.stop_at(stop);
    finish(alloc, replica, source)
}

// Whether such a copy is finished by a replica on a directory.
fn finishes<D: FaultDir + Drop, S: Dir>(
    alloc: Global,
    dir: D,
    source: &mut S,
    stop: u64,
) -> Result<bool, Fail>
    requires settled { IsSettledOn (D.cells dir) }
    requires some { 0 < stop }
{
    let mut replica = opened(alloc, dir)?;
    is_finished(alloc, &mut replica, source, stop)
}

// Three renames and three loads.
#[test]
fn a_finish_stopped_at_each_call(rt: HostRuntime) -> Result<(), Fail> {
    let mut source = opened_on(rt.alloc(), &DOCS)?;
    for call in 1..8 {
        let dir = crashed(MemDir::new(rt.alloc())?)?;
        let is_finished = finishes(rt.alloc(), dir, &mut source, call)?;
        assert_eq!(rt; is_finished, call == 7, "call {call}");
    }
    Ok(())
}

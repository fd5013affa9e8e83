//! A job that takes over parts of an older one.

ghost use Rattle.std.specs.Prelude.{◌≡◌, [], IfOk};
ghost use Rattle.std.specs.List.Sorted.{IsStrictlySortedBy};
ghost use Rattle.std.specs.Ordering.{nat_cmp};
ghost use Rattle.copy_state.specs.States.{IsCopyState};
ghost use Rattle.file_deleter.specs.Holdings.{AreCounted, IsWhole};
ghost use Rattle.disk_memory.specs.Memory.{cells_in};
ghost use Rattle.copy_job.specs.Jobs.{job_names};

use crate::copies::{framed, named};
use crate::jobs::due_part;
use bytes::Bytes;
use copy_job::{CopyJob, JobKind};
use copy_state::{CopyState, FileMetaData, Infos, encode, read_meta};
use disk_memory::MemDir;
use disk_model::Dir;
use file_deleter::FileDeleter;
use file_names::{FileName, temp_name};
use nrt_base::{Gen, List, NoMemory, Share, Version};
use std::alloc::Global;
use std::test::Fail;

// A state of files that have these letters as names, and this metadata. The letters ascend.
fn state_of(alloc: Global, letters: &[u8], meta: &FileMetaData) -> Result<CopyState, Fail>
    requires { IsStrictlySortedBy nat_cmp letters.now }
    ensures { IfOk result IsCopyState }
{
    let infos = Infos {
        generation: Gen(1),
        version: Version(1),
        counter: 0,
        segs: List::new(alloc),
    };
    let infos = encode(alloc, &infos)?;
    let mut files = List::new(alloc);
    for letter in letters {
        let name = named(*letter)?;
        let own = meta.share(alloc)?;
        files.push((name, own))?;
    }
    Ok(CopyState {
        version: Version(1),
        generation: 0,
        primary_gen: Gen(1),
        infos,
        files,
        completed: List::new(alloc),
    })
}

// A job that lacks every file of a state.
fn lacking(alloc: Global, number: u64, want: CopyState) -> Result<CopyJob, Fail>
    requires { IsCopyState want }
    ensures parts { IfOk result (λ job. job.parts ≡ []) }
    ensures names { IfOk result (λ job. job_names job ≡ []) }
{
    match CopyJob::begin(alloc, number, JobKind::Point, want, &[]) {
        Ok(job) => Ok(job),
        Err(_) => Err(Fail::new("a job")),
    }
}

// The first file that a job lacks comes to it.
fn come<D: Dir>(
    alloc: Global,
    job: &mut CopyJob,
    file: &Bytes,
    files: &mut FileDeleter,
    dir: &mut D,
) -> Result<(), Fail>
    requires whole { IsWhole (D.cells dir.old) files.old }
    requires counted { AreCounted (job_names job.old) files.old }
    ensures whole { IsWhole (D.cells dir.new) files.new }
    ensures counted { AreCounted (job_names job.new) files.new }
{
    let part = due_part(alloc, job, file.share(alloc)?)?;
    if files.count(&temp_name(&part.name, job.number())) != 0 {
        return Err(Fail::new("a name that is free"));
    }
    match job.arrived(part, files, dir) {
        Ok(()) => Ok(()),
        Err(_) => Err(Fail::new("a part")),
    }
}

// Job 1 has `a` and `b`; job 2 wants `a`, `c` and `d`, with metadata of its own, and takes over.
fn taken_over<D: Dir>(
    alloc: Global,
    metas: (&FileMetaData, &FileMetaData),
    file: &Bytes,
    files: &mut FileDeleter,
    dir: &mut D,
) -> Result<CopyJob, Fail>
    requires { IsWhole (D.cells dir.old) files.old }
{
    let mut older = lacking(alloc, 1, state_of(alloc, b"ab", metas.0)?)?;
    come(alloc, &mut older, file, files, dir)?;
    come(alloc, &mut older, file, files, dir)?;
    let mut job = lacking(alloc, 2, state_of(alloc, b"acd", metas.1)?)?;
    job.transfer(older, files, dir);
    Ok(job)
}

// Puts the names at the end, each with a space behind it.
fn push_names(text: &mut Vec<u8>, names: &[FileName]) -> Result<(), NoMemory> {
    for name in names {
        text.extend_from_slice(name.as_slice())?;
        text.push(b' ')?;
    }
    Ok(())
}

// What job 2 lacks then, and what stands.
fn outcome<D: Dir>(
    alloc: Global,
    metas: (&FileMetaData, &FileMetaData),
    file: &Bytes,
    files: &mut FileDeleter,
    dir: &mut D,
) -> Result<Vec<u8>, Fail>
    requires { IsWhole (D.cells dir.old) files.old }
{
    let mut text = Vec::new(alloc);
    let job = taken_over(alloc, metas, file, files, dir)?;
    let told = push_names(&mut text, job.missing());
    drop(job);
    told?;
    text.extend_from_slice(b"| ")?;
    let names = files.names(alloc)?;
    push_names(&mut text, names.as_slice())?;
    Ok(text)
}

// An empty directory, and its deleter.
fn empty(alloc: Global) -> Result<(FileDeleter, MemDir), NoMemory>
    ensures { IfOk result (λ site. IsWhole (cells_in site.1) site.0) }
{
    let dir = MemDir::new(alloc)?;
    let files = FileDeleter::new(alloc)?;
    Ok((files, dir))
}

// The same in memory.
fn row(
    alloc: Global,
    metas: (&FileMetaData, &FileMetaData),
    file: &Bytes,
) -> Result<Vec<u8>, Fail> {
    let mut site = empty(alloc)?;
    outcome(alloc, metas, file, &mut site.0, &mut site.1)
}

#[test]
fn a_job_takes_over_what_it_wants(rt: HostRuntime) -> Result<(), Fail> {
    let alloc = rt.alloc();
    let file = framed(alloc, b"x")?;
    let meta = read_meta(alloc, file.as_slice()).ok().ok_or("metadata")?;
    let mut other = meta.share(alloc)?;
    other.checksum = 0;
    let same = row(alloc, (&meta, &meta), &file)?;
    assert!(rt; same.as_slice() == b"c d | a_1.tmp ".as_slice());
    let differs = row(alloc, (&meta, &other), &file)?;
    assert!(rt; differs.as_slice() == b"a c d | ".as_slice());
    Ok(())
}

//! Jobs of a replica, and the parts that they lack.

ghost use Rattle.std.specs.Prelude.{◌≡◌, ◌<◌, None, Some, IfOk, slice_get};
ghost use Rattle.std.specs.Option.{option_map};
ghost use Rattle.copy_state.specs.States.{IsCopyState, meta_in};
ghost use Rattle.replica_node.specs.Replica.{IsPointState};
ghost use Rattle.replica_node.specs.Sources.{KeepsSource};
ghost use Rattle.segment_infos.specs.declared.infos.Infos.{Infos};
ghost use Rattle.segment_infos.specs.Infos.{CanSpell};
ghost use Rattle.node_tests.specs.States.{HaveShortNames, IsDuePart};

use crate::files::{DOCS, INFO, POST, SEG};
use bytes::Bytes;
use copy_job::{CopyJob, JobFault, Part};
use copy_state::{CopyState, FileMetaData, read_meta, same};
use disk_model::Dir;
use file_names::FileName;
use nrt_base::{Gen, List, NoMemory, Share, Version};
use replica_node::Replica;
use segment_infos::{Infos, SegRecord, encode, files_of};
use std::alloc::Global;
use std::test::Fail;

// The infos of a point of the segment.
fn infos_of(alloc: Global, generation: Gen, version: Version) -> Result<Infos, NoMemory>
    requires generation { 0 < generation.0 }
    requires version { 0 < version.0 }
    ensures can { IfOk result CanSpell }
    ensures generation { IfOk result (λ infos. infos.generation ≡ generation) }
    ensures version { IfOk result (λ infos. infos.version ≡ version) }
{
    let mut segs = List::new(alloc);
    let only = SegRecord {
        seg: SEG,
        rows: 1,
        live_gen: 0,
        live: 1,
    };
    segs.push(only)?;
    Ok(Infos {
        generation,
        version,
        counter: 1,
        segs,
    })
}

// The names, each with the metadata at its place.
fn listed(
    alloc: Global,
    names: &[FileName],
    metas: &[FileMetaData],
) -> Result<List<(FileName, FileMetaData)>, Fail>
    ensures { IfOk result (HaveShortNames names.now) }
{
    let mut files = List::new(alloc);
    let mut at = 0;
    while at < names.len() {
        let name = names[at];
        if name.as_slice().len() > 46 || at >= metas.len() {
            return Err(Fail::new("a long name, or too few metadata"));
        }
        files.push((name, metas[at].share(alloc)?))?;
        at += 1;
    }
    Ok(files)
}

/// A state of a point of the segment, whose files have this metadata.
pub fn state_of(
    alloc: Global,
    generation: Gen,
    version: Version,
    metas: &[FileMetaData],
) -> Result<CopyState, Fail>
    requires generation { 0 < generation.0 }
    requires version { 0 < version.0 }
    ensures copy { IfOk result IsCopyState }
    ensures point { IfOk result (λ state. (infos : Infos) × IsPointState state infos) }
    ensures generation { IfOk result (λ state. state.primary_gen ≡ generation) }
    ensures version { IfOk result (λ state. state.version ≡ version) }
{
    let infos = infos_of(alloc, generation, version)?;
    let names = files_of(alloc, &infos)?;
    let files = listed(alloc, names.as_slice(), metas)?;
    let spelled = encode(alloc, &infos)?;
    Ok(CopyState {
        version,
        generation: 1,
        primary_gen: generation,
        infos: spelled,
        files,
        completed: List::new(alloc),
    })
}

/// Begins a job of the next version.
pub fn begin<D: Dir>(
    alloc: Global,
    replica: &mut Replica<D>,
    metas: &[FileMetaData],
) -> Result<Result<u64, JobFault>, Fail>
    requires none { replica.old.job ≡ None }
    requires jobs { replica.old.jobs < 2 }
    ensures sourced { KeepsSource D.cells replica.old replica.new }
{
    let generation = replica.seen();
    let searched = replica.version();
    if generation.0 == 0 || searched.0 > 1_000 {
        return Err(Fail::new("another point"));
    }
    let state = state_of(alloc, generation, Version(searched.0 + 1), metas)?;
    Ok(replica.start_job(alloc, state))
}

// The metadata of a file.
fn meta_of(alloc: Global, file: &[u8]) -> Result<FileMetaData, Fail> {
    match read_meta(alloc, file) {
        Ok(meta) => Ok(meta),
        Err(_) => Err(Fail::new("no metadata")),
    }
}

/// The metadata of the files.
pub fn file_metas(alloc: Global) -> Result<Vec<FileMetaData>, Fail> {
    let mut metas = Vec::new(alloc);
    metas.push(meta_of(alloc, &DOCS)?)?;
    metas.push(meta_of(alloc, &POST)?)?;
    metas.push(meta_of(alloc, &INFO)?)?;
    Ok(metas)
}

// The metadata that is wanted of a file.
fn wanted<'a>(files: &'a [(FileName, FileMetaData)], name: &FileName) -> Option<&'a FileMetaData>
    ensures { option_map (λ m. m.now) result ≡ meta_in files.now name.now }
{
    for file in files {
        if *name == file.0 {
            return Some(&file.1);
        }
    }
    None
}

/// The first file that a job lacks, with these bytes.
pub fn due_part(alloc: Global, job: &CopyJob, bytes: Bytes) -> Result<Part, Fail>
    ensures due { IfOk result (IsDuePart job.now) }
    ensures name { IfOk result (λ part. slice_get job.now.missing 0 ≡ Some part.name) }
    ensures bytes { IfOk result (λ part. part.bytes ≡ bytes) }
{
    let Some(name) = job.missing().first() else {
        return Err(Fail::new("nothing is missing"));
    };
    let Ok(meta) = read_meta(alloc, bytes.as_slice()) else {
        return Err(Fail::new("no metadata"));
    };
    let Some(want) = wanted(job.want().files.as_slice(), name) else {
        return Err(Fail::new("a file that is not wanted"));
    };
    if !same(want, &meta) {
        return Err(Fail::new("another file is wanted"));
    }
    Ok(Part {
        name: *name,
        bytes,
        meta,
    })
}

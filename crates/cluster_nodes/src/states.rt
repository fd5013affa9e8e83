//! Copy states, and the files of jobs.

ghost use Rattle.std.specs.Prelude.{◌≡◌, IfOk, IsSome, IsSomeAnd};
ghost use Rattle.std.specs.Option.{option_map};
ghost use Rattle.disk_model.specs.Disk.{is_among};
ghost use Rattle.copy_job.specs.Jobs.{IsJob};
ghost use Rattle.copy_state.specs.States.{meta_in};
ghost use Rattle.index_primary.specs.States.{out_of};
ghost use Rattle.cluster_nodes.specs.JobChanges.{IsNextFile, IsNextToFetch};
ghost use Rattle.replica_node.specs.Jobs.{running_point};
ghost use Rattle.cluster_nodes.specs.Outs.{want_of};

use copy_job::CopyJob;
use copy_state::{CopyState, FileMetaData};
use disk_model::Dir;
use file_names::FileName;
use nrt_base::{List, NoMemory, Share};
use replica_node::Replica;
use std::alloc::Global;

// A second value of a file's name with its metadata.
fn share_file(
    alloc: Global,
    file: &(FileName, FileMetaData),
) -> Result<(FileName, FileMetaData), NoMemory>
    ensures { IfOk result (λ copy. copy ≡ file.now) }
{
    let meta = file.1.share(alloc)?;
    Ok((file.0, meta))
}

// A second list of these files.
fn share_files(
    alloc: Global,
    files: &[(FileName, FileMetaData)],
) -> Result<List<(FileName, FileMetaData)>, NoMemory>
    ensures { IfOk result (λ copies. copies ≡ files.now) }
{
    let mut copies = Vec::with_capacity(alloc, files.len())?;
    for file in files {
        copies.push(share_file(alloc, file)?)?;
    }
    Ok(List::from_vec(copies))
}

/// A second value of a copy state.
pub fn share_state(alloc: Global, state: &CopyState) -> Result<CopyState, NoMemory>
    ensures { IfOk result (λ copy. copy ≡ state.now) }
{
    let infos = state.infos.share(alloc)?;
    let files = share_files(alloc, state.files.as_slice())?;
    let completed = state.completed.share(alloc)?;
    Ok(CopyState {
        version: state.version,
        generation: state.generation,
        primary_gen: state.primary_gen,
        infos,
        files,
        completed,
    })
}

/// A second value of the copy state that the job of a replica was begun with, where one runs.
pub fn state_of<D: Dir + Drop>(
    alloc: Global,
    replica: &Replica<D>,
) -> Result<Option<CopyState>, NoMemory>
    ensures { IfOk result (λ state. option_map out_of state ≡ want_of replica.now.job) }
{
    let Some(job) = replica.job() else {
        return Ok(None);
    };
    let state = share_state(alloc, job.want())?;
    Ok(Some(state))
}

// The metadata that is wanted of a file.
fn meta_of<'a>(files: &'a [(FileName, FileMetaData)], name: &FileName) -> Option<&'a FileMetaData>
    ensures { option_map (λ m. m.now) result ≡ meta_in files.now name.now }
{
    for file in files {
        if file.0 == *name {
            return Some(&file.1);
        }
    }
    None
}

/// The first file that a job lacks, with the metadata that is wanted of it.
pub fn next_file(alloc: Global, job: &CopyJob) -> Result<Option<(FileName, FileMetaData)>, NoMemory>
    ensures { IfOk result (IsNextToFetch job.now) }
{
    let Some(name) = job.missing().first() else {
        return Ok(None);
    };
    match meta_of(job.want().files.as_slice(), name) {
        Some(meta) => {
            let meta = meta.share(alloc)?;
            Ok(Some((*name, meta)))
        }
        None => unreachable!(),
    }
}

/// The first file that the job of a replica, which runs, lacks, with the metadata that is wanted of it.
pub fn next_lacking<D: Dir + Drop>(
    alloc: Global,
    replica: &Replica<D>,
) -> Result<Option<(FileName, FileMetaData)>, NoMemory>
    requires { IsSome (running_point replica.now.job) }
    ensures { IfOk result (λ file.
        IsSomeAnd (running_point replica.now.job) (λ j. IsNextFile j file)) }
{
    let Some(job) = replica.job() else {
        unreachable!()
    };
    next_file(alloc, job)
}

/// Whether a job lacks a file.
pub fn lacks(job: &CopyJob, name: &FileName) -> bool
    ensures is { result ≡ is_among job.now.missing name.now }
    ensures job { IsJob job.now }
{
    job.missing().iter().any(|q| q == name)
}

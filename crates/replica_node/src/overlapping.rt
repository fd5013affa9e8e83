//! Copies of merged segments that end because a newer point copies one of their files.

ghost use Rattle.std.specs.Prelude.{◌≡◌, ◌≤◌, []};
ghost use Rattle.std.specs.List.{list_any};
ghost use Rattle.disk_model.specs.Disk.{is_among};
ghost use Rattle.file_deleter.specs.Holdings.{AreCounted};
ghost use Rattle.file_deleter.specs.Moves.{MovesCounts};
ghost use Rattle.copy_state.specs.States.{meta_names};
ghost use Rattle.replica_node.specs.Merges.{running_names, AreCopiesApart};
ghost use Rattle.replica_node.specs.Overlapping.{overlaps, first_overlapping, copies_beside};

use crate::merges::RunningCopies;
use copy_job::{CopyJob, JobPart};
use copy_state::FileMetaData;
use disk_model::Dir;
use file_deleter::FileDeleter;
use file_names::FileName;

// Whether one of the files has this name.
fn is_wanted(files: &[(FileName, FileMetaData)], name: &FileName) -> bool
    ensures { result ≡ is_among (meta_names files.now) name.now }
{
    for file in files {
        if file.0 == *name {
            return true;
        }
    }
    false
}

// Whether one of the files has one of these names.
fn names_one(files: &[(FileName, FileMetaData)], names: &[FileName]) -> bool
    ensures { result ≡ list_any (is_among (meta_names files.now)) names.now }
{
    names.iter().any(|name| is_wanted(files, name))
}

// Whether one of the files has the own name of a part.
fn has_one(files: &[(FileName, FileMetaData)], parts: &[JobPart]) -> bool
    ensures { result ≡ list_any (λ p. is_among (meta_names files.now) p.own) parts.now }
{
    parts.iter().any(|part| is_wanted(files, &part.own))
}

// Whether a copy copies one of the files.
fn copies_one(files: &[(FileName, FileMetaData)], copy: &CopyJob) -> bool
    ensures { result ≡ overlaps (meta_names files.now) copy.now }
{
    names_one(files, copy.missing()) || has_one(files, copy.parts())
}

// The number of the first copy that copies one of the files.
fn first_copying(files: &[(FileName, FileMetaData)], copies: &[CopyJob]) -> Option<u64>
    ensures { result ≡ first_overlapping (meta_names files.now) copies.now }
{
    let mut i = 0;
    while i < copies.len() {
        if copies_one(files, &copies[i]) {
            return Some(copies[i].number());
        }
        i += 1;
    }
    None
}

/// Ends each copy of a merged segment that copies one of these files, the first one first, and gives back what it held. Takes no
/// memory.
pub(crate) fn end_overlapping<D: Dir>(
    running: &mut RunningCopies,
    wanted: &[(FileName, FileMetaData)],
    files: &mut FileDeleter,
    dir: &mut D,
)
    requires apart { AreCopiesApart running.old }
    requires counted { AreCounted (running_names running.old) files.old }
    ensures rest { running.new ≡ copies_beside (meta_names wanted.now) running.old }
    ensures moves { MovesCounts [] (running_names running.old) (running_names running.new)
        files.old files.new (D.cells dir.old) (D.cells dir.new) }
    ensures later { D.faults dir.old ≤ D.faults dir.new }
{
    while let Some(number) = first_copying(wanted, running.items()) {
        let copy = running.take(number);
        copy.end(files, dir);
    }
}

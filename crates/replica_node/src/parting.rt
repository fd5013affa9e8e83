//! Pending files where a point comes to be searched.

ghost use Rattle.std.specs.Prelude.{◌≡◌, IfOk};
ghost use Rattle.copy_state.specs.States.{meta_names};
ghost use Rattle.replica_node.specs.Parting.{AreLeft};

use copy_state::{CopyState, FileMetaData};
use file_names::FileName;
use merge_precopy::Precopies;
use nrt_base::{NoMemory, Share};
use std::alloc::Global;

/// The pending files that a point leaves, and the names of those that it does not leave.
#[derive(Drop)]
pub struct Left {
    pub pending: Precopies,
    pub dropped: Vec<FileName>,
}

// The names of files.
fn names_of(alloc: Global, files: &[(FileName, FileMetaData)]) -> Result<Vec<FileName>, NoMemory>
    ensures { IfOk result (λ names. names.items ≡ meta_names files.now) }
{
    let mut names = Vec::new(alloc);
    for file in files {
        names.push(file.0)?;
    }
    Ok(names)
}

/// Parts the pending files: those that the state's point names belong to the point, and those that the state lists as completed
/// belong to no point; the others are left.
pub fn part_pending(alloc: Global, pending: &Precopies, state: &CopyState) -> Result<Left, NoMemory>
    ensures { IfOk result (AreLeft pending.now state.now) }
{
    let names = names_of(alloc, state.files.as_slice())?;
    let mut left = pending.share(alloc)?;
    let mut dropped = left.taken_by(names.as_slice())?;
    let completed = left.completed(state.completed.as_slice())?;
    dropped.extend_from_slice(completed.as_slice())?;
    Ok(Left {
        pending: left,
        dropped,
    })
}

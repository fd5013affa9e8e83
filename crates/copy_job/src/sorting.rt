//! Which files of a state are held already.

ghost use Rattle.std.specs.Prelude.{◌≡◌, List, [], ◌∷◌, ◌++◌, IfOk, IfErr, OnOk};
ghost use Rattle.std.specs.List.Sorted.{IsStrictlySortedBy};
ghost use Rattle.std.specs.Ordering.{nat_cmp};
ghost use Rattle.std.specs.Cmp.Lexicographic.{slice_cmp};
ghost use Rattle.disk_model.specs.Disk.{Name};
ghost use Rattle.copy_state.specs.declared.meta.FileMetaData.{FileMetaData};
ghost use Rattle.copy_state.specs.States.{meta_names};
ghost use Rattle.copy_job.specs.Jobs.{AreAgreed, AreSortedOut, IsBeginningFault};

use crate::fault::JobFault;
use crate::lookup::meta_of;
use copy_state::{FileMetaData, same};
use file_names::FileName;
use nrt_base::{List, NoMemory, Share};
use std::alloc::Global;

/// The files of a state: those that are not held, and those that are.
#[derive(Drop)]
pub(crate) struct Sorted {
    pub(crate) missing: List<FileName>,
    pub(crate) reused: List<FileName>,
}

// The clash of a file with what is held of it.
fn clash(
    alloc: Global,
    file: &(FileName, FileMetaData),
    ours: &FileMetaData,
) -> Result<JobFault, NoMemory>
    ensures { IfOk result (λ fault. fault ≡ JobFault.NameClash file.now.0 ours.now file.now.1) }
{
    Ok(JobFault::NameClash {
        name: file.0,
        ours: ours.share(alloc)?,
        theirs: file.1.share(alloc)?,
    })
}

// Sorts one file out.
fn sort_one(
    alloc: Global,
    file: &(FileName, FileMetaData),
    held: &[(FileName, FileMetaData)],
    sorted: &mut Sorted,
) -> Result<(), JobFault>
    requires { IsStrictlySortedBy (slice_cmp nat_cmp) (meta_names held.now) }
    ensures ok { (front : List (Name × FileMetaData))
        → AreSortedOut held.now front sorted.old.missing sorted.old.reused
        → OnOk result (AreSortedOut held.now (front ++ file.now ∷ [])
        sorted.new.missing sorted.new.reused) }
    ensures err { (front rest : List (Name × FileMetaData)) → AreAgreed held.now front
        → IfErr result (IsBeginningFault held.now (front ++ file.now ∷ rest)) }
{
    let Some(ours) = meta_of(held, &file.0) else {
        sorted.missing.push(file.0)?;
        return Ok(());
    };
    if !same(ours, &file.1) {
        return Err(clash(alloc, file, ours)?);
    }
    sorted.reused.push(file.0)?;
    Ok(())
}

/// Sorts the files of a state out.
pub(crate) fn sort_out(
    alloc: Global,
    files: &[(FileName, FileMetaData)],
    held: &[(FileName, FileMetaData)],
) -> Result<Sorted, JobFault>
    requires { IsStrictlySortedBy (slice_cmp nat_cmp) (meta_names held.now) }
    ensures ok { IfOk result (λ s. AreSortedOut held.now files.now s.missing s.reused) }
    ensures err { IfErr result (IsBeginningFault held.now files.now) }
{
    let mut sorted = Sorted {
        missing: List::new(alloc),
        reused: List::new(alloc),
    };
    for file in files {
        if let Err(fault) = sort_one(alloc, file, held, &mut sorted) {
            return Err(fault);
        }
    }
    Ok(sorted)
}

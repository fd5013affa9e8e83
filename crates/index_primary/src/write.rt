//! Writes of new files.

ghost use Rattle.std.specs.Prelude.{◌≡◌, ◌+◌, ◌<◌, ◌≤◌, ℕ, List, ◌++◌, true, OnOk, OnErr, IfErr, IfOk, IsErrOf};
ghost use Rattle.std.specs.List.{All};
ghost use Rattle.nrt_base.specs.Causes.{Rose};
ghost use Rattle.disk_model.specs.Disk.{is_among};
ghost use Rattle.file_deleter.specs.Holdings.{IsWhole, count_of, times};
ghost use Rattle.file_deleter.specs.Moves.{KeepsFiles, Creates};
ghost use Rattle.disk_model.specs.Faults.{IsMemoryOrFailed};
ghost use Rattle.index_primary.specs.Written.{names_of, ReadsSo};

use bytes::Bytes;
use disk_model::{Dir, DirFault};
use file_deleter::FileDeleter;
use file_names::FileName;
use nrt_base::{List, NoMemory, Share};
use std::alloc::Global;

fn collected(alloc: Global, files: &[(FileName, Bytes)]) -> Result<Vec<FileName>, NoMemory>
    ensures { IfOk result (λ names. names.items ≡ names_of files.now) }
{
    files.iter().map(|file| file.0).collect(alloc)
}

/// The names of files.
pub fn names_in(alloc: Global, files: &[(FileName, Bytes)]) -> Result<List<FileName>, NoMemory>
    ensures { IfOk result (λ names. names ≡ names_of files.now) }
{
    Ok(List::from_vec(collected(alloc, files)?))
}

/// The names of both lists.
pub fn joined(alloc: Global, a: &[FileName], b: &[FileName]) -> Result<List<FileName>, NoMemory>
    ensures { IfOk result (λ names. names ≡ a.now ++ b.now) }
{
    let mut names = Vec::from_slice(alloc, a)?;
    names.extend_from_slice(b)?;
    Ok(List::from_vec(names))
}

// Writes a file and counts it once.
fn write_one<D: Dir>(
    alloc: Global,
    file: &(FileName, Bytes),
    files: &mut FileDeleter,
    dir: &mut D,
) -> Result<(), DirFault>
    requires { count_of files.old file.now.0 ≡ 0 }
    ensures creates { Creates file.now.0 file.now.1 files.old files.new
        (D.cells dir.old) (D.cells dir.new) result }
    ensures in_whole { IsWhole (D.cells dir.old) files.old → IfErr result IsMemoryOrFailed }
    ensures failed { IsErrOf result DirFault.Failed → Rose (D.faults dir.old) (D.faults dir.new) }
    ensures later { D.faults dir.old ≤ D.faults dir.new }
{
    let Ok(bytes) = file.1.share(alloc) else {
        return Err(DirFault::Memory);
    };
    files.create(file.0, bytes, dir)
}

/// Writes each file and counts it once, in order. After an `Err` those that were written are given back.
pub fn write_all<D: Dir>(
    alloc: Global,
    names: &[FileName],
    made: &[(FileName, Bytes)],
    files: &mut FileDeleter,
    dir: &mut D,
) -> Result<(), DirFault>
    requires names { names.now ≡ names_of made.now }
    requires fresh { (q : List ℕ) → is_among names.now q ≡ true → count_of files.old q ≡ 0 }
    requires once { (q : List ℕ) → times names.now q ≤ 1 }
    requires whole { IsWhole (D.cells dir.old) files.old }
    ensures counts { OnOk result ((q : List ℕ)
        → count_of files.new q ≡ count_of files.old q + times names.now q) }
    ensures same { OnErr result ((q : List ℕ) → count_of files.new q ≡ count_of files.old q) }
    ensures keeps { KeepsFiles names.now files.old files.new (D.cells dir.old) (D.cells dir.new) }
    ensures reads { OnOk result (All (ReadsSo (D.cells dir.new)) made.now) }
    ensures only { IfErr result IsMemoryOrFailed }
    ensures failed { IsErrOf result DirFault.Failed → Rose (D.faults dir.old) (D.faults dir.new) }
    ensures later { D.faults dir.old ≤ D.faults dir.new }
{
    let mut i = 0;
    while i < made.len() {
        match write_one(alloc, &made[i], files, dir) {
            Ok(()) => i += 1,
            Err(fault) => {
                files.release(&names[..i], dir);
                return Err(fault);
            }
        }
    }
    Ok(())
}

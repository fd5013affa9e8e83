//! The image of a directory: its files, in ascending order of their names.

ghost use Rattle.std.specs.Prelude.{◌≡◌, ◌<◌, ◌^◌, Some, IsSome, false, true, length, IfOk, OnOk};
ghost use Rattle.std.specs.List.{All};
ghost use Rattle.disk_model.specs.Disk.{reads_of};
ghost use Rattle.disk_model.specs.Faults.{counted, is_met};
ghost use Rattle.disk_model.specs.Listed.{AreNamesOf};
ghost use Rattle.index_check.specs.ImagesNow.{ArePutOff, AreReadAs, IsImageNow};

use crate::writing::write_image;
use bytes::Bytes;
use disk_model::{Dir, DirFault, FaultDir};
use file_names::FileName;
use nrt_base::NoMemory;
use std::alloc::{AllocError, Global};

// Puts off what is planned for a disk, so that the calls which are made next meet no fault.
fn put_off<D: FaultDir>(dir: &mut D)
    ensures plans { ArePutOff 0 (D.planned dir.new) }
    ensures cells { D.cells dir.new ≡ D.cells dir.old }
{
    dir.plan(u64::MAX);
    dir.stop_at(u64::MAX);
}

// The names of the files of a directory, where no fault is met.
fn names_of<D: FaultDir>(dir: &mut D) -> Result<Vec<FileName>, NoMemory>
    requires unmet { is_met (D.planned dir.old) ≡ false }
    ensures names { IfOk result (λ names. AreNamesOf (D.cells dir.old) names.items) }
    ensures cells { D.cells dir.new ≡ D.cells dir.old }
{
    match dir.list() {
        Ok(names) => Ok(names),
        Err(DirFault::Memory) => Err(AllocError),
        Err(_) => unreachable!(),
    }
}

// The bytes of a file that is there, where no fault is met.
fn read_file<D: FaultDir>(dir: &mut D, name: &FileName) -> Result<Bytes, NoMemory>
    requires there { IsSome (reads_of (D.cells dir.old) name.now) }
    requires unmet { is_met (D.planned dir.old) ≡ false }
    ensures bytes { IfOk result (λ bytes. reads_of (D.cells dir.old) name.now ≡ Some bytes) }
    ensures plans { OnOk result (D.planned dir.new ≡ counted (D.planned dir.old)) }
    ensures cells { D.cells dir.new ≡ D.cells dir.old }
{
    match dir.load(name) {
        Ok(bytes) => Ok(bytes),
        Err(DirFault::Memory) => Err(AllocError),
        Err(_) => unreachable!(),
    }
}

/// The files of these names, which are there, each with its bytes. What is still planned for the disk is put off first, so that
/// reading them meets no fault: `Err` is want of memory alone.
pub fn read_files<D: FaultDir>(
    alloc: Global,
    dir: &mut D,
    names: &[FileName],
) -> Result<Vec<(FileName, Bytes)>, NoMemory>
    requires there { All (λ q. IsSome (reads_of (D.cells dir.old) q)) names.now }
    ensures read { IfOk result (λ files. AreReadAs (reads_of (D.cells dir.old))
        names.now files.items) }
    ensures cells { D.cells dir.new ≡ D.cells dir.old }
{
    put_off(dir);
    let mut files = Vec::with_capacity(alloc, names.len())?;
    for name in names {
        let bytes = read_file(dir, name)?;
        files.push((*name, bytes))?;
    }
    Ok(files)
}

// Whether each of the files has fewer than 2^32 bytes.
fn are_small(files: &[(FileName, Bytes)]) -> bool
    ensures { result ≡ true → All (λ f. length f.1 < 2 ^ 32) files.now }
{
    files.iter().all(|file| u32::try_from(file.1.len()).is_ok())
}

/// The image of a directory, as it reads now. What is still planned for its disk is put off first, so that reading it meets no
/// fault. A file of 2^32 bytes or more, which no image can hold, is out of memory.
#[tactic(auto, using(crate::proofs::ImageLaws::image_now))]
pub fn image_of<D: FaultDir>(alloc: Global, dir: &mut D) -> Result<Vec<u8>, NoMemory>
    ensures image { IfOk result (λ image. IsImageNow (reads_of (D.cells dir.old)) image.items) }
    ensures cells { D.cells dir.new ≡ D.cells dir.old }
{
    put_off(dir);
    let names = names_of(dir)?;
    let files = read_files(alloc, dir, names.as_slice())?;
    if !are_small(files.as_slice()) {
        return Err(AllocError);
    }
    write_image(alloc, files.as_slice())
}

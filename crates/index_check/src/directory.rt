//! The files of an image, as a directory in memory.

ghost use Rattle.std.specs.Prelude.{◌≡◌, [], Some, None, map, IfOk, OnOk, IsTrue};
ghost use Rattle.file_names.specs.Names.{is_ascending};
ghost use Rattle.disk_model.specs.Disk.{put, reads_of};
ghost use Rattle.disk_memory.specs.Memory.{cells_in};
ghost use Rattle.index_check.specs.Directory.{directory_with};

use crate::calm::CalmDir;
use bytes::Bytes;
use disk_model::{Dir, DirFault};
use file_names::FileName;
use nrt_base::NoMemory;
use std::alloc::{AllocError, Global};

// Writes a file that does not exist.
fn put_file(dir: &mut CalmDir, name: &FileName, bytes: Bytes) -> Result<(), NoMemory>
    requires { reads_of (cells_in dir.old) name.now ≡ None }
    ensures { OnOk result (reads_of (cells_in dir.new)
        ≡ put (reads_of (cells_in dir.old)) name.now (Some bytes)) }
{
    match dir.write_new(name, bytes) {
        Ok(()) => Ok(()),
        Err(DirFault::Memory) => Err(AllocError),
        Err(_) => unreachable!(),
    }
}

// Writes files into an empty directory, one after the other.
fn put_files(dir: &mut CalmDir, files: Vec<(FileName, Bytes)>) -> Result<(), NoMemory>
    requires empty { reads_of (cells_in dir.old) ≡ directory_with [] }
    requires ascending { IsTrue (is_ascending (map (λ f. f.0) files.items)) }
    ensures { OnOk result (reads_of (cells_in dir.new) ≡ directory_with files.items) }
{
    for (name, bytes) in files {
        put_file(dir, &name, bytes)?;
    }
    Ok(())
}

/// The directory of these files, whose names ascend, in memory.
pub fn memory_dir(alloc: Global, files: Vec<(FileName, Bytes)>) -> Result<CalmDir, NoMemory>
    requires { IsTrue (is_ascending (map (λ f. f.0) files.items)) }
    ensures { IfOk result (λ dir. reads_of (cells_in dir) ≡ directory_with files.items) }
{
    let mut dir = CalmDir::new(alloc)?;
    put_files(&mut dir, files)?;
    Ok(dir)
}

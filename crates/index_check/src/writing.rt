//! The image of files, written.

ghost use Rattle.std.specs.Prelude.{◌≡◌, ◌++◌, ◌<◌, ◌^◌, length, map, IsTrue, OnOk, IfOk};
ghost use Rattle.std.specs.List.{All, flat_map};
ghost use Rattle.file_names.specs.Names.{is_ascending};
ghost use Rattle.index_check.specs.Images.{file_bytes, FileFits, IsImageOf};

use body_forms::{push_string, push_u32};
use bytes::Bytes;
use file_names::FileName;
use nrt_base::NoMemory;
use std::alloc::{AllocError, Global};

/// The most files of an image.
const MOST: usize = 0xffff_ffff;

// Puts a file at the end: its name as a string, and its bytes behind their length.
fn push_file(out: &mut Vec<u8>, file: &(FileName, Bytes)) -> Result<(), NoMemory>
    requires { length file.now.1 < 2 ^ 32 }
    ensures bytes { OnOk result (out.new.items ≡ out.old.items ++ file_bytes file.now) }
    ensures fits { OnOk result (FileFits file.now) }
{
    let bytes = file.1.as_slice();
    push_string(out, file.0.as_slice())?;
    push_u32(out, bytes.len() as u32)?;
    out.extend_from_slice(bytes)?;
    Ok(())
}

// Puts files at the end, one after the other.
fn push_files(out: &mut Vec<u8>, files: &[(FileName, Bytes)]) -> Result<(), NoMemory>
    requires { All (λ f. length f.1 < 2 ^ 32) files.now }
    ensures bytes { OnOk result (out.new.items ≡ out.old.items ++ flat_map file_bytes files.now) }
    ensures fit { OnOk result (All FileFits files.now) }
{
    for file in files {
        push_file(out, file)?;
    }
    Ok(())
}

/// The image of files whose names ascend. 2^32 files or more are out of memory.
pub fn write_image(alloc: Global, files: &[(FileName, Bytes)]) -> Result<Vec<u8>, NoMemory>
    requires ascending { IsTrue (is_ascending (map (λ f. f.0) files.now)) }
    requires small { All (λ f. length f.1 < 2 ^ 32) files.now }
    ensures { IfOk result (λ image. IsImageOf image.items files.now) }
{
    if files.len() > MOST {
        return Err(AllocError);
    }
    let mut out = Vec::new(alloc);
    push_u32(&mut out, files.len() as u32)?;
    push_files(&mut out, files)?;
    Ok(out)
}

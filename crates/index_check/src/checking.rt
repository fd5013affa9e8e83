//! What a check of an image finds.

ghost use Rattle.std.specs.Prelude.{◌≡◌, ◌⊎◌, Ok, Err, map, IfOk, IsTrue, IsSome, alloc_error};
ghost use Rattle.file_names.specs.Names.{is_ascending};
ghost use Rattle.disk_model.specs.Disk.{reads_of};
ghost use Rattle.disk_memory.specs.Memory.{cells_in};
ghost use Rattle.index_check.specs.Images.{IsNoImage};
ghost use Rattle.index_check.specs.Directory.{directory_with};
ghost use Rattle.index_check.specs.Lines.{name_and_number};
ghost use Rattle.index_check.specs.Checks.{TellsNoCommit, TellsNumbers, IsRefusalOf, IsCheckOfImage, IsExactCheck};

use crate::calm::CalmDir;
use crate::commit::read_commit;
use crate::directory::memory_dir;
use crate::fault::CheckFault;
use crate::line::{commit_line, fault_line, name_and_number, none_line};
use crate::reading::{ImageFault, read_image};
use bytes::Bytes;
use file_names::FileName;
use nrt_base::{Doc, List, NoMemory};
use segment_infos::Infos;
use std::alloc::{AllocError, Global};

/// What a check finds: the line that it writes, and what is wrong with the directory, if anything is.
#[derive(Debug, Drop)]
pub struct Checked {
    pub line: List<u8>,
    pub fault: Option<CheckFault>,
}

// A directory without a commit, with its line.
fn without_commit(alloc: Global) -> Result<Checked, NoMemory>
    ensures { IfOk result TellsNoCommit }
{
    let line = none_line(alloc)?;
    Ok(Checked { line, fault: None })
}

// A commit, with its line.
fn with_commit(alloc: Global, number: u64, infos: &Infos, docs: &[Doc]) -> Result<Checked, NoMemory>
    ensures { IfOk result (TellsNumbers number infos.now docs.now) }
{
    let line = commit_line(alloc, number, infos, docs)?;
    Ok(Checked { line, fault: None })
}

// What is wrong, with its line. A fault that no line speaks of is want of memory.
fn refusal(alloc: Global, fault: CheckFault) -> Result<Checked, NoMemory>
    requires { (fault ≡ CheckFault.Memory) ⊎ IsSome (name_and_number fault) }
    ensures { IfOk result (IsRefusalOf fault) }
{
    let Some((name, number)) = name_and_number(&fault) else {
        return Err(AllocError);
    };
    let line = fault_line(alloc, &name, number)?;
    Ok(Checked {
        line,
        fault: Some(fault),
    })
}

// What a check of a directory finds.
fn check(alloc: Global, dir: &mut CalmDir) -> Result<Checked, NoMemory>
    ensures { IsExactCheck alloc_error (reads_of (cells_in dir.old)) result }
{
    match read_commit(alloc, dir) {
        Ok(None) => without_commit(alloc),
        Ok(Some(found)) => with_commit(alloc, found.0, &found.1, found.2.as_slice()),
        Err(fault) => refusal(alloc, fault),
    }
}

// What a check of the directory of these files, whose names ascend, finds.
fn check_files(alloc: Global, files: Vec<(FileName, Bytes)>) -> Result<Checked, NoMemory>
    requires { IsTrue (is_ascending (map (λ f. f.0) files.items)) }
    ensures { IsExactCheck alloc_error (directory_with files.items) result }
{
    let mut dir = memory_dir(alloc, files)?;
    check(alloc, &mut dir)
}

/// What a check of an image of a directory finds.
pub fn check_image(alloc: Global, bytes: &[u8]) -> Result<Checked, ImageFault>
    ensures checked { IfOk result (IsCheckOfImage bytes.now) }
    ensures body { result ≡ Err ImageFault.Body → IsNoImage bytes.now }

    // Each of these is answered, unless memory runs out.
    ensures each_check { (checked : Checked) → IsCheckOfImage bytes.now checked
        → (result ≡ Err ImageFault.Memory) ⊎ (result ≡ Ok checked) }
    ensures each_body { IsNoImage bytes.now
        → (result ≡ Err ImageFault.Memory) ⊎ (result ≡ Err ImageFault.Body) }
{
    let files = match read_image(alloc, bytes) {
        Ok(files) => files,
        Err(fault) => return Err(fault),
    };
    match check_files(alloc, files) {
        Ok(checked) => Ok(checked),
        Err(_) => Err(ImageFault::Memory),
    }
}

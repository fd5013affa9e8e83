//! What an opening finds.

ghost use Rattle.std.specs.Prelude.{◌≡◌, ◌≤◌, ◌⊎◌, ℕ, List, Ok, Err, Some, None, IfOk, IfErr, IsErrOf};
ghost use Rattle.disk_model.specs.Disk.{reads_of};
ghost use Rattle.disk_model.specs.Faults.{IsMemoryOrFailed};
ghost use Rattle.nrt_base.specs.Causes.{Rose};
ghost use Rattle.commit_steps.specs.Found.{ShowsNothing, IsNewestAnswer, IsNewestNumber, ShowsCommit};
ghost use Rattle.commit_steps.specs.Recovery.{IsCutOff, IsAnswered, IsWholeCommit, IsBrokenCommit, IsGone, SaysHowBroken, Recovers, IsLoaded, IsRecoverAnswer};

use codec_frame::FileFault;
use disk_model::{Dir, DirFault, first_missing};
use file_names::{FileName, commit_name};
use nrt_base::NoMemory;
use segment_infos::{Infos, ReadFault, decode, files_of, last_commit};
use std::alloc::Global;
use thiserror::Error;

/// Why no commit is recovered.
#[derive(Clone, Copy, Debug, PartialEq, Eq, Error)]
pub enum RecoverFault {
    /// Out of memory.
    #[error("out of memory")]
    Memory,
    /// The disk failed.
    #[error("the disk failed")]
    Failed,
    /// The `segments_N` with the greatest N has this name, and its bytes are refused.
    #[error("the last commit cannot be read: {0}: {1}")]
    Broken(FileName, FileFault),
    /// The last commit's infos name this file, which does not exist, the first such in ascending order.
    #[error("the last commit needs the file {0}, which does not exist")]
    Gone(FileName),
}

impl From<NoMemory> for RecoverFault {
    ghost use Rattle.commit_steps.specs.declared.recovery.RecoverFault.TheVariants.{Memory};

    ghost from_gives = { λ _ e. e ≡ Memory };

    fn from(_: NoMemory) -> Self {
        RecoverFault::Memory
    }
}

// A fault of the directory.
fn refusal(fault: DirFault) -> RecoverFault
    requires { IsMemoryOrFailed fault }
    ensures either { (result ≡ RecoverFault.Memory) ⊎ (result ≡ RecoverFault.Failed) }
    ensures failed { result ≡ RecoverFault.Failed → fault ≡ DirFault.Failed }
{
    match fault {
        DirFault::Memory => RecoverFault::Memory,
        DirFault::Failed => RecoverFault::Failed,
        DirFault::Missing | DirFault::Exists => unreachable!(),
    }
}

/// The greatest N of a `segments_N` in the directory, or nothing where there is none. It changes nothing.
pub fn newest_number<D: Dir>(dir: &mut D) -> Result<Option<u64>, RecoverFault>
    ensures found { IfOk result (IsNewestAnswer (reads_of (D.cells dir.old))) }
    ensures err { IfErr result IsCutOff }
    ensures cells { D.cells dir.new ≡ D.cells dir.old }
    ensures failed { IsErrOf result RecoverFault.Failed → Rose (D.faults dir.old) (D.faults dir.new) }
    ensures later { D.faults dir.old ≤ D.faults dir.new }
{
    match dir.list() {
        Ok(names) => Ok(last_commit(names.as_slice())),
        Err(fault) => Err(refusal(fault)),
    }
}

/// The infos that the newest `segments_N` spells, or why its file is refused. It changes nothing.
pub fn load_infos<D: Dir>(alloc: Global, number: u64, dir: &mut D) -> Result<Infos, RecoverFault>
    requires { IsNewestNumber (reads_of (D.cells dir.old)) number }
    ensures found { IfOk result (ShowsCommit (reads_of (D.cells dir.old)) number) }
    ensures err { IfErr result (SaysHowBroken (reads_of (D.cells dir.old))) }
    ensures loaded { IsLoaded (reads_of (D.cells dir.old)) number result }
    ensures cells { D.cells dir.new ≡ D.cells dir.old }
    ensures failed { IsErrOf result RecoverFault.Failed → Rose (D.faults dir.old) (D.faults dir.new) }
    ensures later { D.faults dir.old ≤ D.faults dir.new }
{
    let name = commit_name(number);
    match dir.load(&name) {
        Ok(bytes) => match decode(alloc, &bytes) {
            Ok(infos) => Ok(infos),
            Err(ReadFault::File(fault)) => Err(RecoverFault::Broken(name, fault)),
            Err(ReadFault::Memory) => Err(RecoverFault::Memory),
        },
        Err(fault) => Err(refusal(fault)),
    }
}

// The answer of an opening, with all that is said of it as one.
fn answer<D: Dir>(alloc: Global, dir: &mut D) -> Result<Option<(u64, Infos)>, RecoverFault>
    ensures answer { IsRecoverAnswer (reads_of (D.cells dir.old)) result }
    ensures cells { D.cells dir.new ≡ D.cells dir.old }
    ensures failed { IsErrOf result RecoverFault.Failed → Rose (D.faults dir.old) (D.faults dir.new) }
    ensures later { D.faults dir.old ≤ D.faults dir.new }
{
    let Some(number) = newest_number(dir)? else {
        return Ok(None);
    };
    let infos = load_infos(alloc, number, dir)?;
    let files = files_of(alloc, &infos)?;
    match first_missing(files.as_slice(), dir) {
        None => Ok(Some((number, infos))),
        Some(name) => Err(RecoverFault::Gone(name)),
    }
}

/// The commit that the directory shows: the greatest N of a `segments_N`, with the infos that it spells, or nothing where
/// there is no `segments_N`. Each file that the infos name exists. It changes nothing.
pub fn recover<D: Dir>(alloc: Global, dir: &mut D) -> Result<Option<(u64, Infos)>, RecoverFault>
    // What is answered.
    ensures recovers { Recovers (reads_of (D.cells dir.old)) result }

    // Each of these is answered, unless the call is out of memory or the disk fails.
    ensures none { ShowsNothing (reads_of (D.cells dir.old)) → IsAnswered result (Ok None) }
    ensures whole { (n : ℕ) (infos : Infos) → IsWholeCommit (reads_of (D.cells dir.old)) n infos
        → IsAnswered result (Ok (Some (n, infos))) }
    ensures broken { (name : List ℕ) (fault : FileFault)
        → IsBrokenCommit (reads_of (D.cells dir.old)) name fault
        → IsAnswered result (Err (RecoverFault.Broken name fault)) }
    ensures gone { (name : List ℕ) → IsGone (reads_of (D.cells dir.old)) name
        → IsAnswered result (Err (RecoverFault.Gone name)) }

    // What stays, and when the disk failed.
    ensures cells { D.cells dir.new ≡ D.cells dir.old }
    ensures failed { IsErrOf result RecoverFault.Failed → Rose (D.faults dir.old) (D.faults dir.new) }
    ensures later { D.faults dir.old ≤ D.faults dir.new }
{
    answer(alloc, dir)
}

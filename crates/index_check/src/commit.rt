//! The commit that a directory shows, with its documents.

ghost use Rattle.std.specs.Prelude.{◌≡◌, ◌≤◌, ◌⊎◌, ℕ, List, IfOk, IfErr, IsErrOf, Ok, Err, None};
ghost use Rattle.nrt_base.specs.Causes.{Rose};
ghost use Rattle.nrt_base.specs.declared.doc.Doc.{Doc};
ghost use Rattle.disk_model.specs.Disk.{reads_of};
ghost use Rattle.segment_infos.specs.declared.infos.Infos.{Infos};
ghost use Rattle.seg_reader.specs.Stands.{StandsFor};
ghost use Rattle.commit_steps.specs.Found.{ShowsNothing, IsNewestAnswer, IsNewestNumber, ShowsCommit};
ghost use Rattle.index_check.specs.Answers.{IsCutShort, IsDue, IsExact};
ghost use Rattle.index_check.specs.Commit.{ShowsFound, HasBrokenInfos, IsCommitFault, IsCommitRead, IsDueCommit, fault_of_infos};

use crate::fault::CheckFault;
use crate::standing::read_documents;
use commit_steps::{RecoverFault, load_infos, newest_number};
use disk_model::Dir;
use nrt_base::{Doc, List};
use segment_infos::Infos;
use std::alloc::Global;

/// A commit: its number, its infos, and its documents in order of key.
#[derive(Drop)]
struct Found {
    number: u64,
    infos: Infos,
    docs: List<Doc>,
}

// The number of the newest commit, where there is one.
fn number_in<D: Dir>(dir: &mut D) -> Result<Option<u64>, CheckFault>
    ensures found { IfOk result (IsNewestAnswer (reads_of (D.cells dir.old))) }
    ensures fault { IfErr result IsCutShort }
    ensures cells { D.cells dir.new ≡ D.cells dir.old }
    ensures failed { IsErrOf result CheckFault.Failed → Rose (D.faults dir.old) (D.faults dir.new) }
    ensures later { D.faults dir.old ≤ D.faults dir.new }
{
    match newest_number(dir) {
        Ok(number) => Ok(number),
        Err(RecoverFault::Memory) => Err(CheckFault::Memory),
        Err(RecoverFault::Failed) => Err(CheckFault::Failed),
        Err(_) => unreachable!(),
    }
}

// Why infos were not read, as the check tells it.
fn told(fault: RecoverFault) -> CheckFault
    ensures { result ≡ fault_of_infos fault }
{
    match fault {
        RecoverFault::Memory => CheckFault::Memory,
        RecoverFault::Failed => CheckFault::Failed,
        RecoverFault::Broken(name, fault) => CheckFault::File(name, fault),
        RecoverFault::Gone(name) => CheckFault::NoFile(name),
    }
}

// The infos of the newest commit, or why its file is refused.
fn infos_in<D: Dir>(alloc: Global, number: u64, dir: &mut D) -> Result<Infos, CheckFault>
    requires { IsNewestNumber (reads_of (D.cells dir.old)) number }
    ensures exact { IsExact (ShowsCommit (reads_of (D.cells dir.old)) number)
        (HasBrokenInfos (reads_of (D.cells dir.old))) result }
    ensures cells { D.cells dir.new ≡ D.cells dir.old }
    ensures failed { IsErrOf result CheckFault.Failed → Rose (D.faults dir.old) (D.faults dir.new) }
    ensures later { D.faults dir.old ≤ D.faults dir.new }
{
    match load_infos(alloc, number, dir) {
        Ok(infos) => Ok(infos),
        Err(fault) => Err(told(fault)),
    }
}

// What a directory shows, with all that is said of it as one.
fn answer<D: Dir>(alloc: Global, dir: &mut D) -> Result<Option<Found>, CheckFault>
    ensures exact { IsExact (ShowsFound (reads_of (D.cells dir.old)))
        (IsCommitFault (reads_of (D.cells dir.old))) result }
    ensures cells { D.cells dir.new ≡ D.cells dir.old }
    ensures failed { IsErrOf result CheckFault.Failed → Rose (D.faults dir.old) (D.faults dir.new) }
    ensures later { D.faults dir.old ≤ D.faults dir.new }
{
    let Some(number) = number_in(dir)? else {
        return Ok(None);
    };
    let infos = infos_in(alloc, number, dir)?;
    let docs = read_documents(alloc, dir, &infos)?;
    Ok(Some(Found {
        number,
        infos,
        docs,
    }))
}

/// The commit that a directory shows, the `segments_N` with the greatest N: its number, its infos, and the documents that the
/// directory stands for under these, in order of key. None comes exactly where there is no `segments_N`. Else it says what is
/// wrong first. It changes nothing.
pub fn read_commit<D: Dir>(
    alloc: Global,
    dir: &mut D,
) -> Result<Option<(u64, Infos, Vec<Doc>)>, CheckFault>
    // What is answered.
    ensures commit { IfOk result (IsCommitRead (reads_of (D.cells dir.old))) }
    ensures fault { IfErr result (λ fault. IsCutShort fault
        ⊎ IsCommitFault (reads_of (D.cells dir.old)) fault) }

    // Each of these is answered, unless the call is out of memory or the disk fails.
    ensures nothing { ShowsNothing (reads_of (D.cells dir.old)) → IsDue result (Ok None) }
    ensures each_commit { (n : ℕ) (infos : Infos) (docs : List Doc)
        → ShowsCommit (reads_of (D.cells dir.old)) n infos
        → StandsFor (reads_of (D.cells dir.old)) infos docs → IsDueCommit result n infos docs }
    ensures each_fault { (fault : CheckFault) → IsCommitFault (reads_of (D.cells dir.old)) fault
        → IsDue result (Err fault) }

    // What stays, and when the disk failed.
    ensures cells { D.cells dir.new ≡ D.cells dir.old }
    ensures failed { IsErrOf result CheckFault.Failed → Rose (D.faults dir.old) (D.faults dir.new) }
    ensures later { D.faults dir.old ≤ D.faults dir.new }
{
    match answer(alloc, dir) {
        Ok(Some(found)) => Ok(Some((found.number, found.infos, found.docs.into_vec()))),
        Ok(None) => Ok(None),
        Err(fault) => Err(fault),
    }
}

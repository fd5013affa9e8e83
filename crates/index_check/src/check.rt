//! Whether a directory stands for given documents.

ghost use Rattle.std.specs.Prelude.{◌≡◌, ◌≤◌, ◌↔◌, ◌⊎◌, IsTrue, OnOk, IfErr, IsErrOf, MatchOption, Ok, Err};
ghost use Rattle.nrt_base.specs.Causes.{Rose};
ghost use Rattle.disk_model.specs.Disk.{reads_of};
ghost use Rattle.segment_infos.specs.Infos.{CanSpell};
ghost use Rattle.seg_reader.specs.Stands.{StandsFor};
ghost use Rattle.index_check.specs.Answers.{IsCutShort, IsDue, IsExact};
ghost use Rattle.index_check.specs.Checked.{DifferFirst, IsCheckFault};

use crate::fault::CheckFault;
use crate::standing::read_documents;
use disk_model::Dir;
use nrt_base::Doc;
use segment_infos::Infos;
use std::alloc::Global;

// Whether two documents are one: they have one key and one text.
fn is_same(a: &Doc, b: &Doc) -> bool
    ensures { IsTrue result ↔ (a.now ≡ b.now) }
{
    a.key.as_slice() == b.key.as_slice() && a.text.as_slice() == b.text.as_slice()
}

// The first place at which documents differ.
fn first_difference(found: &[Doc], docs: &[Doc]) -> Option<usize>
    ensures { MatchOption result (found.now ≡ docs.now) (DifferFirst found.now docs.now) }
{
    for (at, doc) in found.iter().enumerate() {
        match docs.get(at) {
            Some(other) if is_same(doc, other) => {}
            _ => return Some(at),
        }
    }
    if found.len() < docs.len() {
        Some(found.len())
    } else {
        None
    }
}

// The answer of a check, with all that is said of it as one.
fn answer<D: Dir>(alloc: Global, dir: &mut D, infos: &Infos, docs: &[Doc]) -> Result<(), CheckFault>
    requires { CanSpell infos.now }
    ensures exact { IsExact (λ _. StandsFor (reads_of (D.cells dir.old)) infos.now docs.now)
        (IsCheckFault (reads_of (D.cells dir.old)) infos.now docs.now) result }
    ensures cells { D.cells dir.new ≡ D.cells dir.old }
    ensures failed { IsErrOf result CheckFault.Failed → Rose (D.faults dir.old) (D.faults dir.new) }
    ensures later { D.faults dir.old ≤ D.faults dir.new }
{
    let found = read_documents(alloc, dir, infos)?;
    match first_difference(found.as_slice(), docs) {
        None => Ok(()),
        Some(at) => Err(CheckFault::OtherDocs(at)),
    }
}

/// Whether a directory stands for these documents under these infos: every segment is there and sound, no two live rows have
/// one key, and the live rows in order of key are the documents. Else it says what is wrong first. It changes nothing.
pub fn check_dir<D: Dir>(
    alloc: Global,
    dir: &mut D,
    infos: &Infos,
    docs: &[Doc],
) -> Result<(), CheckFault>
    requires { CanSpell infos.now }

    // What is answered.
    ensures stands { OnOk result (StandsFor (reads_of (D.cells dir.old)) infos.now docs.now) }
    ensures fault { IfErr result (λ fault. IsCutShort fault
        ⊎ IsCheckFault (reads_of (D.cells dir.old)) infos.now docs.now fault) }

    // Each of these is answered, unless the call is out of memory or the disk fails.
    ensures each_right { StandsFor (reads_of (D.cells dir.old)) infos.now docs.now
        → IsDue result (Ok tt) }
    ensures each_fault { (fault : CheckFault)
        → IsCheckFault (reads_of (D.cells dir.old)) infos.now docs.now fault
        → IsDue result (Err fault) }

    // What stays, and when the disk failed.
    ensures cells { D.cells dir.new ≡ D.cells dir.old }
    ensures failed { IsErrOf result CheckFault.Failed → Rose (D.faults dir.old) (D.faults dir.new) }
    ensures later { D.faults dir.old ≤ D.faults dir.new }
{
    answer(alloc, dir, infos, docs)
}

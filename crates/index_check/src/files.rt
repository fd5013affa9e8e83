//! The files of a segment, loaded.

ghost use Rattle.std.specs.Prelude.{◌≡◌, ◌⊎◌, ◌≤◌, ◌<◌, ◌↔◌, Some, None, IfOk, IfErr, IsErrOf, IsSome};
ghost use Rattle.nrt_base.specs.Causes.{Rose};
ghost use Rattle.disk_model.specs.Disk.{reads_of};
ghost use Rattle.seg_reader.specs.Stands.{IsLiveFileIn, ArePartsIn};
ghost use Rattle.index_check.specs.Answers.{IsCutShort};
ghost use Rattle.index_check.specs.Segments.{LacksFile};
ghost use Rattle.index_check.specs.Loading.{IsAbsent, LacksLive};

use crate::fault::CheckFault;
use bytes::Bytes;
use disk_model::{Dir, DirFault};
use file_names::{FileName, SegPart, live_name, part_name};
use seg_reader::SegParts;
use segment_infos::SegRecord;

// The bytes of a file.
fn load<D: Dir>(name: &FileName, dir: &mut D) -> Result<Bytes, CheckFault>
    ensures bytes { IfOk result (λ bytes. reads_of (D.cells dir.old) name.now ≡ Some bytes) }
    ensures fault { IfErr result (λ fault. IsCutShort fault
        ⊎ IsAbsent (reads_of (D.cells dir.old)) name.now fault) }
    ensures cells { D.cells dir.new ≡ D.cells dir.old }
    ensures failed { IsErrOf result CheckFault.Failed → Rose (D.faults dir.old) (D.faults dir.new) }
    ensures later { D.faults dir.old ≤ D.faults dir.new }
{
    match dir.load(name) {
        Ok(bytes) => Ok(bytes),
        Err(DirFault::Missing) => Err(CheckFault::NoFile(*name)),
        Err(DirFault::Failed) => Err(CheckFault::Failed),
        Err(DirFault::Memory) => Err(CheckFault::Memory),
        Err(DirFault::Exists) => unreachable!(),
    }
}

// The bytes of the live file, where the segment has one.
fn load_live<D: Dir>(record: &SegRecord, dir: &mut D) -> Result<Option<Bytes>, CheckFault>
    ensures live { IfOk result (IsLiveFileIn (reads_of (D.cells dir.old)) record.now) }
    ensures fault { IfErr result (λ fault. IsCutShort fault
        ⊎ LacksLive (reads_of (D.cells dir.old)) record.now fault) }
    ensures cells { D.cells dir.new ≡ D.cells dir.old }
    ensures failed { IsErrOf result CheckFault.Failed → Rose (D.faults dir.old) (D.faults dir.new) }
    ensures later { D.faults dir.old ≤ D.faults dir.new }
{
    if record.live_gen == 0 {
        return Ok(None);
    }
    let bytes = load(&live_name(record.seg, record.live_gen), dir)?;
    Ok(Some(bytes))
}

/// The bytes of a segment's files, which are loaded in ascending order of name. It changes nothing.
pub fn load_parts<D: Dir>(record: &SegRecord, dir: &mut D) -> Result<SegParts, CheckFault>
    ensures parts { IfOk result (ArePartsIn (reads_of (D.cells dir.old)) record.now) }
    ensures live_file { IfOk result (λ parts. IsSome parts.live ↔ (0 < record.now.live_gen)) }
    ensures fault { IfErr result (λ fault. IsCutShort fault
        ⊎ LacksFile (reads_of (D.cells dir.old)) record.now fault) }
    ensures cells { D.cells dir.new ≡ D.cells dir.old }
    ensures failed { IsErrOf result CheckFault.Failed → Rose (D.faults dir.old) (D.faults dir.new) }
    ensures later { D.faults dir.old ≤ D.faults dir.new }
{
    let docs = load(&part_name(record.seg, SegPart::Docs), dir)?;
    let post = load(&part_name(record.seg, SegPart::Post), dir)?;
    let info = load(&part_name(record.seg, SegPart::Info), dir)?;
    let live = load_live(record, dir)?;
    Ok(SegParts {
        docs,
        post,
        info,
        live,
    })
}

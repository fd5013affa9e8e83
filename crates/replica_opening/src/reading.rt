//! Reading the files of a segment.

ghost use Rattle.std.specs.Prelude.{◌≡◌, ◌≤◌, ◌<◌, ℕ, List, Some, None, IsSome, Contains, IfOk, IfErr, IsErrOf, MatchResult};
ghost use Rattle.std.specs.List.{All, flat_map};
ghost use Rattle.nrt_base.specs.Causes.{Rose};
ghost use Rattle.disk_model.specs.Disk.{reads_of};
ghost use Rattle.file_deleter.specs.Holdings.{IsThere};
ghost use Rattle.segment_infos.specs.Infos.{IsRecord};
ghost use Rattle.segment_infos.specs.Files.{files_of_segment};
ghost use Rattle.seg_reader.specs.Shown.{Shown};
ghost use Rattle.seg_reader.specs.Stands.{IsLiveFileIn, ArePartsIn, IsSegmentIn};
ghost use Rattle.replica_opening.specs.Readers.{IsRefusedIn};
ghost use Rattle.replica_opening.specs.Reading.{IsReadFrom, IsReadCutOff, IsReadRefusal, IsReadCutOffOr, refusal_of};

use bytes::Bytes;
use disk_model::{Dir, DirFault};
use file_names::{FileName, SegPart, live_name, part_name};
use nrt_base::{NoMemory, Share};
use seg_reader::{SegFault, SegParts, Segment};
use segment_infos::SegRecord;
use std::alloc::Global;
use thiserror::Error;

/// Why a segment is not read.
#[derive(Clone, Copy, Debug, PartialEq, Eq, Error)]
pub enum LoadFault {
    /// Out of memory.
    #[error("out of memory")]
    Memory,
    /// The disk failed.
    #[error("the disk failed")]
    Failed,
    /// Its files are refused.
    #[error(transparent)]
    Refused(SegFault),
}

// The bytes of a file that is there.
fn load<D: Dir>(name: &FileName, dir: &mut D) -> Result<Bytes, LoadFault>
    requires { IsThere (D.cells dir.old) name.now }
    ensures bytes { IfOk result (λ bytes. (D.cells dir.old name.now).now ≡ Some bytes) }
    ensures err { IfErr result IsReadCutOff }
    ensures cells { D.cells dir.new ≡ D.cells dir.old }
    ensures failed { IsErrOf result LoadFault.Failed → Rose (D.faults dir.old) (D.faults dir.new) }
    ensures later { D.faults dir.old ≤ D.faults dir.new }
{
    match dir.load(name) {
        Ok(bytes) => Ok(bytes),
        Err(DirFault::Memory) => Err(LoadFault::Memory),
        Err(DirFault::Failed) => Err(LoadFault::Failed),
        Err(DirFault::Missing | DirFault::Exists) => unreachable!(),
    }
}

// The live file of a segment, where it has one.
fn load_live<D: Dir>(record: &SegRecord, dir: &mut D) -> Result<Option<Bytes>, LoadFault>
    requires { (q : List ℕ) → Contains (files_of_segment record.now) q
        → IsThere (D.cells dir.old) q }
    ensures live { IfOk result (IsLiveFileIn (reads_of (D.cells dir.old)) record.now) }
    ensures err { IfErr result IsReadCutOff }
    ensures cells { D.cells dir.new ≡ D.cells dir.old }
    ensures failed { IsErrOf result LoadFault.Failed → Rose (D.faults dir.old) (D.faults dir.new) }
    ensures later { D.faults dir.old ≤ D.faults dir.new }
{
    if record.live_gen == 0 {
        return Ok(None);
    }
    match load(&live_name(record.seg, record.live_gen), dir) {
        Ok(bytes) => Ok(Some(bytes)),
        Err(fault) => Err(fault),
    }
}

// The files of a segment.
fn load_parts<D: Dir>(record: &SegRecord, dir: &mut D) -> Result<SegParts, LoadFault>
    requires { (q : List ℕ) → Contains (files_of_segment record.now) q
        → IsThere (D.cells dir.old) q }
    ensures parts { IfOk result (ArePartsIn (reads_of (D.cells dir.old)) record.now) }
    ensures err { IfErr result IsReadCutOff }
    ensures cells { D.cells dir.new ≡ D.cells dir.old }
    ensures failed { IsErrOf result LoadFault.Failed → Rose (D.faults dir.old) (D.faults dir.new) }
    ensures later { D.faults dir.old ≤ D.faults dir.new }
{
    let docs = load(&part_name(record.seg, SegPart::Docs), dir)?;
    let post = load(&part_name(record.seg, SegPart::Post), dir)?;
    let info = load(&part_name(record.seg, SegPart::Info), dir)?;
    let live = load_live(record, dir)?;
    Ok(SegParts {
        docs,
        post,
        info,
        live,
    })
}

/// A segment, and the bytes of its files.
#[derive(Drop)]
pub struct SegmentRead {
    pub segment: Segment,
    pub parts: SegParts,
}

// The bytes of a live file once more, where there is one.
fn share_live(alloc: Global, live: &Option<Bytes>) -> Result<Option<Bytes>, NoMemory>
    ensures { IfOk result (λ copy. copy ≡ live.now) }
{
    match live {
        Some(bytes) => match bytes.share(alloc) {
            Ok(copy) => Ok(Some(copy)),
            Err(fault) => Err(fault),
        },
        None => Ok(None),
    }
}

// The bytes of a segment's files once more. They are shared and not copied.
fn share_parts(alloc: Global, parts: &SegParts) -> Result<SegParts, NoMemory>
    ensures { IfOk result (λ copy. copy ≡ parts.now) }
{
    Ok(SegParts {
        docs: parts.docs.share(alloc)?,
        post: parts.post.share(alloc)?,
        info: parts.info.share(alloc)?,
        live: share_live(alloc, &parts.live)?,
    })
}

// Why a segment is not read.
fn refusal(fault: SegFault) -> LoadFault
    ensures { result ≡ refusal_of fault }
{
    match fault {
        SegFault::Memory => LoadFault::Memory,
        fault => LoadFault::Refused(fault),
    }
}

/// The segment of a record, read from its files, with their bytes.
pub fn read_segment<D: Dir>(
    alloc: Global,
    record: &SegRecord,
    dir: &mut D,
) -> Result<SegmentRead, LoadFault>
    requires record { IsRecord record.now }
    requires there { (q : List ℕ) → Contains (files_of_segment record.now) q
        → IsThere (D.cells dir.old) q }

    // What is answered.
    ensures read { IfOk result (IsReadFrom (reads_of (D.cells dir.old)) record.now) }
    ensures err { IfErr result (IsReadRefusal (reads_of (D.cells dir.old)) record.now) }

    // A segment is answered, and a fault, unless memory runs out or the disk fails.
    ensures shown { (shown : Shown) → IsSegmentIn (reads_of (D.cells dir.old)) record.now shown
        → IfErr result IsReadCutOff }
    ensures refused { (fault : SegFault) → IsRefusedIn (reads_of (D.cells dir.old)) record.now fault
        → MatchResult result (λ _. ⊥) (IsReadCutOffOr fault) }

    // What stays, and when the disk failed.
    ensures cells { D.cells dir.new ≡ D.cells dir.old }
    ensures failed { IsErrOf result LoadFault.Failed → Rose (D.faults dir.old) (D.faults dir.new) }
    ensures later { D.faults dir.old ≤ D.faults dir.new }
{
    let parts = match load_parts(record, dir) {
        Ok(parts) => parts,
        Err(fault) => return Err(fault),
    };
    let Ok(copy) = share_parts(alloc, &parts) else {
        return Err(LoadFault::Memory);
    };
    match Segment::from_parts(alloc, copy, record) {
        Ok(segment) => Ok(SegmentRead { segment, parts }),
        Err(fault) => Err(refusal(fault)),
    }
}

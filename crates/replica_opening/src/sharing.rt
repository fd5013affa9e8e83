//! The readers of a newer point, those of unchanged segments shared.

ghost use Rattle.std.specs.Prelude.{◌≡◌, ◌≢◌, ◌<◌, ◌≤◌, Some, IfSome, IfOk, IfErr, OnOk, IsErrOf, Contains, None, slice_get, length, List};
ghost use Rattle.std.specs.List.{All, AllPairs};
ghost use Rattle.nrt_base.specs.Causes.{Rose};
ghost use Rattle.disk_model.specs.Disk.{reads_of};
ghost use Rattle.segment_infos.specs.Infos.{IsRecord};
ghost use Rattle.seg_reader.specs.Shown.{Shown};
ghost use Rattle.seg_reader.specs.Stands.{IsSegmentIn};
ghost use Rattle.replica_opening.specs.Readers.{AreReaders};
ghost use Rattle.replica_opening.specs.Reading.{IsReadCutOff};
ghost use Rattle.replica_opening.specs.Opening.{IsReadNext};
ghost use Rattle.replica_opening.specs.Places.{NotesPlace, ArePlaces};

use crate::reading::{LoadFault, read_segment};
use disk_model::Dir;
use indexmap::IndexMap;
use nrt_base::{NoMemory, Share};
use seg_reader::Segment;
use segment_infos::SegRecord;
use std::alloc::Global;

/// Where the records of segments stand, by the numbers of the segments.
type Places = IndexMap<u64, usize>;

// Notes where a segment stands.
fn note_place(places: &mut Places, seg: u64, at: usize) -> Result<(), NoMemory>
    ensures { OnOk result (NotesPlace seg at places.old.entries places.new.entries) }
{
    places.insert(seg, at)?;
    Ok(())
}

// Where each of the records stands.
fn places_of(alloc: Global, records: &[SegRecord]) -> Result<Places, NoMemory>
    requires { AllPairs (λ r s. r.seg.0 ≢ s.seg.0) records.now }
    ensures { IfOk result (λ places. ArePlaces records.now places.entries) }
{
    let mut places = Places::new(alloc);
    let mut at = 0;
    while at < records.len() {
        if let Err(fault) = note_place(&mut places, records[at].seg.0, at) {
            return Err(fault);
        }
        at += 1;
    }
    Ok(places)
}

// The place of a record among others.
fn place_of(records: &[SegRecord], places: &Places, record: &SegRecord) -> Option<usize>
    requires { ArePlaces records.now places.now.entries }
    ensures found { IfSome result (λ at. slice_get records.now at ≡ Some record.now) }
    ensures all { Contains records.now record.now → result ≡ None → ⊥ }
{
    let Some(at) = places.get(&record.seg.0) else {
        return None;
    };
    match records.get(*at) {
        Some(found) => { if found == record { Some(*at) } else { None } }
        None => None,
    }
}

// The reader at a place, shared.
fn share_at(alloc: Global, readers: &[Segment], at: usize) -> Result<Segment, NoMemory>
    requires { at < length readers.now }
    ensures { IfOk result (λ reader. slice_get readers.now at ≡ Some reader) }
{
    match readers.get(at) {
        Some(reader) => reader.share(alloc),
        None => unreachable!(),
    }
}

// The reader of a segment: the one that there is, where the segment is unchanged, and else one that is read from its files.
fn reader_of<D: Dir>(
    alloc: Global,
    record: &SegRecord,
    olds: &[SegRecord],
    places: &Places,
    readers: &[Segment],
    dir: &mut D,
) -> Result<Segment, LoadFault>
    requires record { IsRecord record.now }
    requires places { ArePlaces olds.now places.now.entries }
    requires readers { AreReaders (reads_of (D.cells dir.old)) olds.now readers.now }
    requires stands { (shown : Shown) × IsSegmentIn (reads_of (D.cells dir.old)) record.now shown }
    ensures segment { IfOk result (IsSegmentIn (reads_of (D.cells dir.old)) record.now) }
    ensures fault { IfErr result IsReadCutOff }
    ensures cells { D.cells dir.new ≡ D.cells dir.old }
    ensures failed { IsErrOf result LoadFault.Failed → Rose (D.faults dir.old) (D.faults dir.new) }
    ensures later { D.faults dir.old ≤ D.faults dir.new }

    // An unchanged segment is not read again.
    ensures idle { Contains olds.now record.now
        → (D.plans dir.new ≡ D.plans dir.old) × (D.faults dir.new ≡ D.faults dir.old) }
{
    match place_of(olds, places, record) {
        Some(at) => match share_at(alloc, readers, at) {
            Ok(reader) => Ok(reader),
            Err(_) => Err(LoadFault::Memory),
        },
        None => match read_segment(alloc, record, dir) {
            Ok(read) => Ok(read.segment),
            Err(fault) => Err(fault),
        },
    }
}

// The next reader of a point.
fn next_reader<D: Dir>(
    alloc: Global,
    record: &SegRecord,
    olds: &[SegRecord],
    places: &Places,
    readers: &[Segment],
    segs: &mut Vec<Segment>,
    dir: &mut D,
) -> Result<(), LoadFault>
    requires record { IsRecord record.now }
    requires places { ArePlaces olds.now places.now.entries }
    requires readers { AreReaders (reads_of (D.cells dir.old)) olds.now readers.now }
    requires stands { (shown : Shown) × IsSegmentIn (reads_of (D.cells dir.old)) record.now shown }
    ensures read { OnOk result (IsReadNext (reads_of (D.cells dir.old)) record.now
        segs.old.items segs.new.items) }
    ensures fault { IfErr result IsReadCutOff }
    ensures cells { D.cells dir.new ≡ D.cells dir.old }
    ensures failed { IsErrOf result LoadFault.Failed → Rose (D.faults dir.old) (D.faults dir.new) }
    ensures later { D.faults dir.old ≤ D.faults dir.new }
{
    let reader = match reader_of(alloc, record, olds, places, readers, dir) {
        Ok(reader) => reader,
        Err(fault) => return Err(fault),
    };
    let Ok(()) = segs.push(reader) else {
        return Err(LoadFault::Memory);
    };
    Ok(())
}

/// The readers of a point whose files are all there and are those of segments: those of unchanged segments are shared, the
/// others are read from their files.
pub fn readers_of<D: Dir>(
    alloc: Global,
    records: &[SegRecord],
    olds: &[SegRecord],
    readers: &[Segment],
    dir: &mut D,
) -> Result<Vec<Segment>, LoadFault>
    requires records { All IsRecord records.now }
    requires apart { AllPairs (λ r s. r.seg.0 ≢ s.seg.0) olds.now }
    requires readers { AreReaders (reads_of (D.cells dir.old)) olds.now readers.now }
    requires stands { (segs : List Shown) × AreReaders (reads_of (D.cells dir.old)) records.now segs }
    ensures readers { IfOk result (λ segs.
        AreReaders (reads_of (D.cells dir.old)) records.now segs.items) }
    ensures fault { IfErr result IsReadCutOff }
    ensures cells { D.cells dir.new ≡ D.cells dir.old }
    ensures failed { IsErrOf result LoadFault.Failed → Rose (D.faults dir.old) (D.faults dir.new) }
    ensures later { D.faults dir.old ≤ D.faults dir.new }
{
    let Ok(places) = places_of(alloc, olds) else {
        return Err(LoadFault::Memory);
    };
    let mut segs = Vec::new(alloc);
    for record in records {
        if let Err(fault) = next_reader(alloc, record, olds, &places, readers, &mut segs, dir) {
            return Err(fault);
        }
    }
    Ok(segs)
}

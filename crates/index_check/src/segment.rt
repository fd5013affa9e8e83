//! One segment, read and checked.

ghost use Rattle.std.specs.Prelude.{◌≡◌, ◌≤◌, ◌<◌, ◌↔◌, map, length, slice_get, IfOk, IfErr, IfSome, IsErrOf, IsTrue, IsSome};
ghost use Rattle.std.specs.List.{All, AllZip};
ghost use Rattle.nrt_base.specs.Causes.{Rose};
ghost use Rattle.disk_model.specs.Disk.{reads_of};
ghost use Rattle.postings_plain.specs.declared.format.Format.{Format};
ghost use Rattle.postings_plain.specs.Postings.{format_number};
ghost use Rattle.postings_plain.specs.Body.{in_format, IsPostingsFile};
ghost use Rattle.segment_infos.specs.SegmentInfo.{IsInfoFile};
ghost use Rattle.segment_infos.specs.Infos.{IsRecord};
ghost use Rattle.seg_reader.specs.Files.{record_id, info_of};
ghost use Rattle.seg_reader.specs.Sound.{IsSound, term_row};
ghost use Rattle.index_check.specs.Answers.{IsExact};
ghost use Rattle.index_check.specs.Judged.{IsMemoryOrUnsound};
ghost use Rattle.index_check.specs.Segments.{IsRightOf, HaveFault, IsSegmentWrong, IsRightSegment, IsFirstWrong, segment_file_name, fault_of_reader};

use crate::fault::CheckFault;
use crate::files::load_parts;
use bytes::Bytes;
use disk_model::Dir;
use documents::words;
use file_names::{FileName, SegPart, live_name, part_name};
use nrt_base::{Key, List, NoMemory, Share};
use postings_plain::{Format, TermRow, encode_in};
use seg_reader::{SegFault, SegFile, SegParts, Segment, segment_id};
use segment_infos::{SegRecord, read_info};
use std::alloc::Global;

// The terms of a row: its key, and the words of its text.
fn terms_of(alloc: Global, segment: &Segment, row: u32) -> Result<TermRow, NoMemory>
    requires { row < length segment.now.docs }
    ensures { IfOk result (λ terms. IfSome (slice_get segment.now.docs row)
        (λ doc. terms ≡ term_row doc)) }
{
    let words = words(alloc, segment.text(row))?;
    Ok(TermRow {
        key: Key::new(alloc, segment.key(row))?,
        words: List::from_vec(words),
    })
}

// The terms of each row, dead ones among them.
fn all_terms(alloc: Global, segment: &Segment) -> Result<Vec<TermRow>, NoMemory>
    ensures terms { IfOk result (λ terms. terms.items ≡ map term_row segment.now.docs) }
    ensures some { IfOk result (λ terms. 0 < length terms.items) }
{
    let rows = segment.rows();
    let mut terms = Vec::with_capacity(alloc, rows as usize)?;
    for row in 0..rows {
        terms.push(terms_of(alloc, segment, row)?)?;
    }
    Ok(terms)
}

// The format of this number.
fn format_of(number: u8) -> Format
    ensures { (format : Format) → number ≡ format_number format → result ≡ format }
{
    if number == 1 {
        Format::One
    } else {
        Format::Two
    }
}

// The format of the postings of a segment, of which this is the info file.
fn format_in(info: &Bytes, record: &SegRecord) -> Format
    ensures { (format : Format) → IsInfoFile (record_id record.now) (info_of format record.now) info.now
        → result ≡ format }
{
    match read_info(info.as_slice(), &segment_id(record.seg)) {
        Ok(info) => format_of(info.format),
        Err(_) => Format::One,
    }
}

// Whether two files have the same bytes.
fn is_same_file(a: &Bytes, b: &Bytes) -> bool
    ensures { IsTrue result ↔ (a.now ≡ b.now) }
{
    a.as_slice() == b.as_slice()
}

// Whether the postings of a segment, which have this file, are those of its rows: the terms of the rows, encoded anew in the
// file's format, give the same file.
fn has_own_postings(
    alloc: Global,
    segment: &Segment,
    record: &SegRecord,
    format: Format,
    post: &Bytes,
) -> Result<bool, NoMemory>
    requires { IsPostingsFile (record_id record.now) (in_format format segment.now.entries) post.now }
    ensures { IfOk result (λ own. IsTrue own ↔ IsSound segment.now) }
{
    let terms = all_terms(alloc, segment)?;
    let id = segment_id(record.seg);
    let file = encode_in(alloc, format, &id, terms.as_slice())?;
    Ok(is_same_file(&file, post))
}

// The name of a file of a segment.
fn name_of(record: &SegRecord, part: SegFile) -> FileName
    ensures { result ≡ segment_file_name record.now part }
{
    match part {
        SegFile::Docs => part_name(record.seg, SegPart::Docs),
        SegFile::Post => part_name(record.seg, SegPart::Post),
        SegFile::Info => part_name(record.seg, SegPart::Info),
        SegFile::Live => live_name(record.seg, record.live_gen),
    }
}

// What the reader of a segment found, with the name of the file.
fn named(record: &SegRecord, fault: SegFault) -> CheckFault
    ensures { result ≡ fault_of_reader record.now fault }
{
    match fault {
        SegFault::Memory => CheckFault::Memory,
        SegFault::File(part, fault) => CheckFault::File(name_of(record, part), fault),
        SegFault::Disagrees { part, want, found } => CheckFault::Disagrees {
            name: name_of(record, part),
            want,
            found,
        },
    }
}

// The segment, if its postings, which have this file, are those of its rows.
fn if_sound(
    alloc: Global,
    segment: Segment,
    record: &SegRecord,
    format: Format,
    post: &Bytes,
) -> Result<Segment, CheckFault>
    requires { IsPostingsFile (record_id record.now) (in_format format segment.entries) post.now }
    ensures sound { IfOk result (λ same. (same ≡ segment) × IsSound segment) }
    ensures fault { IfErr result (IsMemoryOrUnsound segment record.now) }
    ensures disk { IsErrOf result CheckFault.Failed → ⊥ }
{
    match has_own_postings(alloc, &segment, record, format, post) {
        Ok(true) => Ok(segment),
        Ok(false) => {
            drop(segment);
            Err(CheckFault::Postings(name_of(record, SegFile::Post)))
        }
        Err(_) => {
            drop(segment);
            Err(CheckFault::Memory)
        }
    }
}

// The segment of these files, whose postings, which have this file, are in this format and those of its rows.
fn read_parts(
    alloc: Global,
    parts: SegParts,
    record: &SegRecord,
    format: Format,
    post: &Bytes,
) -> Result<Segment, CheckFault>
    requires live { IsSome parts.live ↔ (0 < record.now.live_gen) }
    requires format { (written : Format)
        → IsInfoFile (record_id record.now) (info_of written record.now) parts.info → format ≡ written }
    requires post { post.now ≡ parts.post }
    ensures exact { IsExact (IsRightOf parts record.now) (HaveFault parts record.now) result }
    ensures disk { IsErrOf result CheckFault.Failed → ⊥ }
{
    match Segment::from_parts(alloc, parts, record) {
        Ok(segment) => if_sound(alloc, segment, record, format, post),
        Err(fault) => Err(named(record, fault)),
    }
}

// The segment of these files, whose postings are those of its rows.
fn checked_segment(
    alloc: Global,
    parts: SegParts,
    record: &SegRecord,
) -> Result<Segment, CheckFault>
    requires { IsSome parts.live ↔ (0 < record.now.live_gen) }
    ensures exact { IsExact (IsRightOf parts record.now) (HaveFault parts record.now) result }
    ensures disk { IsErrOf result CheckFault.Failed → ⊥ }
{
    let format = format_in(&parts.info, record);
    let post = parts.post.share(alloc)?;
    read_parts(alloc, parts, record, format, &post)
}

// The segment of a record, or what is wrong with it. It changes nothing.
fn read_segment<D: Dir>(
    alloc: Global,
    record: &SegRecord,
    dir: &mut D,
) -> Result<Segment, CheckFault>
    requires { IsRecord record.now }
    ensures exact { IsExact (IsRightSegment (reads_of (D.cells dir.old)) record.now)
        (IsSegmentWrong (reads_of (D.cells dir.old)) record.now) result }
    ensures cells { D.cells dir.new ≡ D.cells dir.old }
    ensures failed { IsErrOf result CheckFault.Failed → Rose (D.faults dir.old) (D.faults dir.new) }
    ensures later { D.faults dir.old ≤ D.faults dir.new }
{
    let parts = load_parts(record, dir)?;
    checked_segment(alloc, parts, record)
}

/// The segments of records, in order, or what is wrong first. It changes nothing.
pub fn read_segments<D: Dir>(
    alloc: Global,
    records: &[SegRecord],
    dir: &mut D,
) -> Result<List<Segment>, CheckFault>
    requires { All IsRecord records.now }
    ensures exact { IsExact (AllZip (IsRightSegment (reads_of (D.cells dir.old))) records.now)
        (IsFirstWrong (reads_of (D.cells dir.old)) records.now) result }
    ensures cells { D.cells dir.new ≡ D.cells dir.old }
    ensures failed { IsErrOf result CheckFault.Failed → Rose (D.faults dir.old) (D.faults dir.new) }
    ensures later { D.faults dir.old ≤ D.faults dir.new }
{
    let mut segments = List::new(alloc);
    for each in records {
        segments.push(read_segment(alloc, each, dir)?)?;
    }
    Ok(segments)
}

//! The contents of the files of a new segment.

ghost use Rattle.std.specs.Prelude.{◌≡◌, ◌↔◌, ◌<◌, length, map, IfOk, IsSome};
ghost use Rattle.std.specs.List.{All};
ghost use Rattle.segment_infos.specs.Given.{HasSmallBody};
ghost use Rattle.docs_plain.specs.Documents.{documents_wanted, IsDocumentsFile};
ghost use Rattle.postings_plain.specs.Body.{format_wanted};
ghost use Rattle.postings_plain.specs.Inverting.{IsPostingsFileOf};
ghost use Rattle.segment_infos.specs.SegmentInfo.{IsInfoFile};
ghost use Rattle.seg_reader.specs.Files.{record_id, info_of, AreLiveRowsOf};
ghost use Rattle.seg_reader.specs.Sound.{term_row};
ghost use Rattle.seg_build.specs.Rows.{IsPrepared, docs_of};
ghost use Rattle.seg_build.specs.Built.{IsRecordOf, IsReadAs, HaveSmallBodies};

use crate::rows::{Prepared, documents, term_rows};
use bytes::Bytes;
use nrt_base::NoMemory;
use postings_plain::{Format, encode_in};
use seg_reader::{LiveBits, SegParts, segment_id};
use segment_infos::{SegInfo, SegRecord, encode_info};
use std::alloc::Global;

// The file of the documents.
fn docs_file(alloc: Global, id: &[u8; 16], rows: &[Prepared]) -> Result<Bytes, NoMemory>
    requires { 0 < length rows.now }
    ensures file { IfOk result (IsDocumentsFile id.now (docs_of rows.now)) }
    ensures small { IfOk result (HasSmallBody (documents_wanted id.now) id.now) }
{
    let docs = documents(alloc, rows)?;
    docs_plain::encode(alloc, id, docs.as_slice())
}

// The file of the postings, in this format.
fn post_file(
    alloc: Global,
    id: &[u8; 16],
    format: Format,
    rows: &[Prepared],
) -> Result<Bytes, NoMemory>
    requires some { 0 < length rows.now }
    requires words { All IsPrepared rows.now }
    ensures file { IfOk result (IsPostingsFileOf format id.now (map term_row (docs_of rows.now))) }
    ensures small { IfOk result (HasSmallBody (format_wanted format id.now) id.now) }
{
    let terms = term_rows(alloc, rows)?;
    encode_in(alloc, format, id, terms.as_slice())
}

/// The info file of a segment whose postings have this format.
pub fn info_file(
    alloc: Global,
    id: &[u8; 16],
    format: Format,
    segment: &SegRecord,
) -> Result<Bytes, NoMemory>
    requires { 0 < segment.now.rows }
    ensures { IfOk result (IsInfoFile id.now (info_of format segment.now)) }
{
    let info = SegInfo {
        seg: segment.seg,
        rows: segment.rows,
        format: format.number(),
    };
    encode_info(alloc, id, &info)
}

/// The live file, where the segment's record has a live generation.
pub fn live_file(
    alloc: Global,
    id: &[u8; 16],
    segment: &SegRecord,
    live: &LiveBits,
) -> Result<Option<Bytes>, NoMemory>
    requires id { id.now ≡ record_id segment.now }
    requires live { IsRecordOf live.now segment.now }
    ensures given { IfOk result (λ file. IsSome file ↔ (0 < segment.now.live_gen)) }
    ensures rows { IfOk result (λ file. AreLiveRowsOf file segment.now live.now) }
{
    if segment.live_gen == 0 {
        return Ok(None);
    }
    let file = seg_reader::encode(alloc, id, segment.live_gen, live)?;
    Ok(Some(file))
}

/// The parts of a segment with this record: of all rows, also of dead ones. The postings are in the second format exactly
/// where it has more than 128 rows.
pub fn parts_of(
    alloc: Global,
    segment: &SegRecord,
    rows: &[Prepared],
    live: &LiveBits,
) -> Result<SegParts, NoMemory>
    requires some { 0 < length rows.now }
    requires words { All IsPrepared rows.now }
    requires count { length live.now ≡ length rows.now }
    requires live { IsRecordOf live.now segment.now }
    ensures read { IfOk result (λ parts. IsReadAs segment.now parts (docs_of rows.now) live.now) }
    ensures small { IfOk result (HaveSmallBodies segment.now) }
{
    let id = segment_id(segment.seg);
    let docs = docs_file(alloc, &id, rows)?;
    let format = Format::of_rows(segment.rows as usize);
    let post = post_file(alloc, &id, format, rows)?;
    let info = info_file(alloc, &id, format, segment)?;
    let live = live_file(alloc, &id, segment, live)?;
    Ok(SegParts {
        docs,
        post,
        info,
        live,
    })
}

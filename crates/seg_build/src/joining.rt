//! A segment whose postings were joined from those of others.

ghost use Rattle.std.specs.Prelude.{◌≡◌, ◌<◌, length, map, replicate, true, IfOk};
ghost use Rattle.postings_plain.specs.Gathering.{Gathers};
ghost use Rattle.seg_reader.specs.Sound.{term_row};
ghost use Rattle.seg_build.specs.Built.{IsRecordOf, IsReadAs, HaveSmallBodies, IsNewSegment};

use crate::contents::{info_file, live_file};
use crate::files::{SegFiles, first_record, name_parts};
use nrt_base::{Doc, List, NoMemory, SegNo};
use postings_plain::{Format, Joined};
use seg_reader::{LiveBits, SegParts, segment_id};
use segment_infos::SegRecord;
use std::alloc::{AllocError, Global};

/// The most rows of a segment.
const MOST: usize = 0xffff_ffff;

// The parts of a segment with this record, of these documents.
fn joined_parts(
    alloc: Global,
    segment: &SegRecord,
    docs: &[Doc],
    joined: &Joined<'_>,
    live: &LiveBits,
) -> Result<SegParts, NoMemory>
    requires some { 0 < length docs.now }
    requires joined { Gathers joined.now (map term_row docs.now) }
    requires count { length live.now ≡ length docs.now }
    requires live { IsRecordOf live.now segment.now }
    ensures read { IfOk result (λ parts. IsReadAs segment.now parts docs.now live.now) }
    ensures small { IfOk result (HaveSmallBodies segment.now) }
{
    let id = segment_id(segment.seg);
    let file = docs_plain::encode(alloc, &id, docs)?;
    let format = Format::of_rows(segment.rows as usize);
    let post = joined.encode(alloc, format, &id)?;
    let info = info_file(alloc, &id, format, segment)?;
    let live = live_file(alloc, &id, segment, live)?;
    Ok(SegParts {
        docs: file,
        post,
        info,
        live,
    })
}

/// The segment of these documents, all of them live, whose postings were joined. 2^32 rows, or bytes of a file's body, or
/// more are out of memory.
pub fn build_joined(
    alloc: Global,
    seg: SegNo,
    docs: &[Doc],
    joined: &Joined<'_>,
) -> Result<SegFiles, NoMemory>
    requires some { 0 < length docs.now }
    requires joined { Gathers joined.now (map term_row docs.now) }

    // The segment: its number, its rows, and that all of them are live.
    ensures seg { IfOk result (λ built. built.seg ≡ seg) }
    ensures rows { IfOk result (λ built. built.rows ≡ length docs.now) }
    ensures live { IfOk result (λ built. built.live ≡ replicate (length docs.now) true) }

    // It is sound, and reads back as these documents.
    ensures built { IfOk result (λ built. IsNewSegment seg (replicate (length docs.now) true)
        built.files docs.now) }
{
    if docs.len() > MOST {
        return Err(AllocError);
    }
    let live = LiveBits::all(alloc, docs.len() as u32)?;
    let segment = first_record(seg, &live);
    let parts = joined_parts(alloc, &segment, docs, joined, &live)?;
    let files = name_parts(alloc, &segment, parts)?;
    Ok(SegFiles {
        seg,
        rows: segment.rows,
        live,
        files: List::from_vec(files),
    })
}

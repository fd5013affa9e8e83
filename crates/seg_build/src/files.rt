//! The files of a new segment, under their names.

ghost use Rattle.std.specs.Prelude.{◌≡◌, IfOk};
ghost use Rattle.seg_build.specs.Built.{record_of, files_of};

use bytes::Bytes;
use file_names::{FileName, SegPart, live_name, part_name};
use nrt_base::{List, NoMemory, SegNo};
use seg_reader::{LiveBits, SegParts};
use segment_infos::SegRecord;
use std::alloc::Global;

/// The live generation of the first live file that a segment has in the generation that made it.
const FIRST_LIVE_GEN: u64 = 1;

/// A segment that was built.
#[derive(Debug, Drop)]
pub struct SegFiles {
    pub seg: SegNo,
    /// How many rows it has.
    pub rows: u32,
    /// Which of them are live.
    pub live: LiveBits,
    /// Its files in ascending order of their names: documents, postings, info, and the first live file where some row is
    /// dead.
    pub files: List<(FileName, Bytes)>,
}

/// The record that infos have of a new segment with these live rows: its first live generation is 1, and it has none where
/// all rows are live.
pub fn first_record(seg: SegNo, live: &LiveBits) -> SegRecord
    ensures { result ≡ record_of seg live.now }
{
    let (rows, live_rows) = live.counts();
    let live_gen = if live_rows == rows { 0 } else { FIRST_LIVE_GEN };
    SegRecord {
        seg,
        rows,
        live_gen,
        live: live_rows,
    }
}

/// The parts of a segment, each under its name.
pub fn name_parts(
    alloc: Global,
    segment: &SegRecord,
    parts: SegParts,
) -> Result<Vec<(FileName, Bytes)>, NoMemory>
    ensures { IfOk result (λ files. files.items ≡ files_of segment.now parts) }
{
    let seg = segment.seg;
    let SegParts {
        docs,
        post,
        info,
        live,
    } = parts;
    let mut files = Vec::new(alloc);
    files.push((part_name(seg, SegPart::Docs), docs))?;
    files.push((part_name(seg, SegPart::Post), post))?;
    files.push((part_name(seg, SegPart::Info), info))?;
    if let Some(live) = live {
        files.push((live_name(seg, segment.live_gen), live))?;
    }
    Ok(files)
}

//! How one segment of infos is taken over into the next ones.

ghost use Rattle.std.specs.Prelude.{◌≡◌, ◌<◌, ◌^◌, ◌==◌, IfOk, OnOk};
ghost use Rattle.std.specs.List.{list_any};
ghost use Rattle.segment_steps.specs.Segments.{changed, HasItsRows};
ghost use Rattle.segment_steps.specs.Next.{next_live_gen, record_by, IsBounded, AddsLiveFile, TakesSegment};

use bytes::Bytes;
use file_names::{FileName, live_name};
use live_bits::LiveBits;
use nrt_base::{Gen, List, NoMemory, SegNo, Share};
use seg_merge::{Segment, segment_id};
use segment_infos::SegRecord;
use std::alloc::Global;

/// How many live generations a segment can get in each generation.
const LIVE_GENS: u64 = 4_294_967_296;

/// The segments of infos after a publish or a cut-over.
#[derive(Debug, Drop)]
pub struct NextSegments {
    pub records: List<SegRecord>,
    pub segs: List<Segment>,
    /// The files that are to be written, in order: those of the new segment, then the live files in the infos' order.
    pub files: List<(FileName, Bytes)>,
}

// The live generation that a segment gets in this generation: one above its own and above all of earlier generations.
fn live_gen_after(generation: Gen, record: SegRecord) -> u64
    requires few { generation.0 < 2 ^ 31 }
    requires bounded { IsBounded generation.0 «record» }
    ensures { result ≡ next_live_gen generation.0 «record» }
{
    let base = (generation.0 - record.seg.generation().0) * LIVE_GENS;
    if record.live_gen < base {
        base + 1
    } else {
        record.live_gen + 1
    }
}

// The record of a segment after its change.
fn record_after(generation: Gen, record: &SegRecord, change: &Option<LiveBits>) -> SegRecord
    requires few { generation.0 < 2 ^ 31 }
    requires bounded { IsBounded generation.0 «record».now }
    ensures { result ≡ record_by generation.0 «record».now change.now }
{
    match change {
        None => *record,
        Some(live) => {
            let (_, live_count) = live.counts();
            SegRecord {
                seg: record.seg,
                rows: record.rows,
                live_gen: live_gen_after(generation, *record),
                live: live_count,
            }
        }
    }
}

/// Whether a segment is one of these.
pub fn is_held(held: &[SegNo], seg: SegNo) -> bool
    ensures { result ≡ list_any (λ other. other.0 == seg.0) held.now }
{
    held.iter().any(|other| other.0 == seg.0)
}

// Puts the live file of a segment at the end, where its live rows change.
fn push_live_file(
    alloc: Global,
    files: &mut List<(FileName, Bytes)>,
    record: &SegRecord,
    change: &Option<LiveBits>,
) -> Result<(), NoMemory>
    ensures { OnOk result (AddsLiveFile «record».now change.now files.old files.new) }
{
    match change {
        None => Ok(()),
        Some(live) => {
            let id = segment_id(record.seg);
            let bytes = live_bits::encode(alloc, &id, record.live_gen, live)?;
            files.push((live_name(record.seg, record.live_gen), bytes))?;
            Ok(())
        }
    }
}

// A segment after its change.
fn segment_after(
    alloc: Global,
    segment: &Segment,
    change: &Option<LiveBits>,
) -> Result<Segment, NoMemory>
    requires { HasItsRows segment.now change.now }
    ensures { IfOk result (λ next. next ≡ changed segment.now change.now) }
{
    match change {
        None => segment.share(alloc),
        Some(live) => segment.with_live_rows(alloc, live.share(alloc)?),
    }
}

/// Takes a segment over with its change. It is left out where no row of it is live and it is none of those that are held.
pub fn take_over(
    alloc: Global,
    made: &mut NextSegments,
    generation: Gen,
    record: &SegRecord,
    segment: &Segment,
    change: &Option<LiveBits>,
    held: &[SegNo],
) -> Result<(), NoMemory>
    requires few { generation.0 < 2 ^ 31 }
    requires bounded { IsBounded generation.0 «record».now }
    requires rows { HasItsRows segment.now change.now }
    ensures { OnOk result (TakesSegment generation.0 held.now
        («record».now, (segment.now, change.now)) made.old made.new) }
{
    let next = record_after(generation, record, change);
    if next.live > 0 || is_held(held, record.seg) {
        push_live_file(alloc, &mut made.files, &next, change)?;
        made.segs.push(segment_after(alloc, segment, change)?)?;
        made.records.push(next)?;
    }
    Ok(())
}

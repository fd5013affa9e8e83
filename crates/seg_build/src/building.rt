//! A segment that is built from rows.

ghost use Rattle.std.specs.Prelude.{◌≡◌, ◌<◌, length, map, IfOk};
ghost use Rattle.std.specs.List.{All};
ghost use Rattle.std.specs.List.Sorted.{IsStrictlySortedBy};
ghost use Rattle.std.specs.Ordering.{nat_cmp};
ghost use Rattle.std.specs.Cmp.Lexicographic.{slice_cmp};
ghost use Rattle.segment_infos.specs.Files.{files_of_segment};
ghost use Rattle.seg_build.specs.Rows.{IsPrepared, docs_of, live_of};
ghost use Rattle.seg_build.specs.Built.{record_of, IsNewSegment};

use crate::contents::parts_of;
use crate::files::{SegFiles, first_record, name_parts};
use crate::rows::{Prepared, live_except};
use nrt_base::{List, NoMemory, SegNo};
use std::alloc::Global;

/// The segment of these rows, in their order, of which those marked dead are dead. Its postings have all rows, dead ones
/// among them. 2^32 rows, or bytes of a file's body, or more are out of memory.
pub fn build(
    alloc: Global,
    seg: SegNo,
    rows: &[Prepared],
    dead: &[bool],
) -> Result<SegFiles, NoMemory>
    requires some { 0 < length rows.now }
    requires marks { length dead.now ≡ length rows.now }
    requires words { All IsPrepared rows.now }

    // The segment: its number, its rows, and which of them are live.
    ensures seg { IfOk result (λ built. built.seg ≡ seg) }
    ensures rows { IfOk result (λ built. built.rows ≡ length rows.now) }
    ensures live { IfOk result (λ built. built.live ≡ live_of dead.now) }

    // The names of its files, in ascending order; a live file is among them exactly where some row is dead.
    ensures names { IfOk result (λ built. map (λ file. file.0) built.files
        ≡ files_of_segment (record_of seg (live_of dead.now))) }
    ensures ascending { IfOk result (λ built. IsStrictlySortedBy (slice_cmp nat_cmp)
        (map (λ file. file.0) built.files)) }

    // It is sound, and reads back as these documents and these live rows.
    ensures built { IfOk result (λ built. IsNewSegment seg (live_of dead.now) built.files
        (docs_of rows.now)) }
{
    let live = live_except(alloc, dead)?;
    let segment = first_record(seg, &live);
    let parts = parts_of(alloc, &segment, rows, &live)?;
    let files = name_parts(alloc, &segment, parts)?;
    Ok(SegFiles {
        seg,
        rows: segment.rows,
        live,
        files: List::from_vec(files),
    })
}

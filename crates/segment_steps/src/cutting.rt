//! The cut-over of a merge.

ghost use Rattle.std.specs.Prelude.{◌≡◌, ◌<◌, ◌^◌, length, replicate, true, Some, IfOk, OnOk};
ghost use Rattle.std.specs.List.{AllZip, zip};
ghost use Rattle.seg_merge.specs.Given.{record_of, Shown};
ghost use Rattle.seg_merge.specs.Merging.{origins, IsWithin};
ghost use Rattle.segment_steps.specs.Segments.{HasItsRows};
ghost use Rattle.segment_steps.specs.Next.{IsBounded, IsReadBack, IsBuiltWork};
ghost use Rattle.segment_steps.specs.CutOver.{change_by, inputs_in, lives_of, KeepsSegment, StepsOverSegment, IsPlaced, IsCutOf};

use crate::next::{NextSegments, is_held, take_over};
use live_bits::LiveBits;
use nrt_base::{Gen, List, NoMemory, SegNo, Share};
use seg_merge::{Merged, Segment, carry, first_record, read_back};
use segment_infos::SegRecord;
use std::alloc::Global;

// The live rows of the inputs, as they are now.
fn lives_now(
    alloc: Global,
    records: &[SegRecord],
    segs: &[Segment],
    inputs: &[SegNo],
) -> Result<Vec<LiveBits>, NoMemory>
    requires { length records.now ≡ length segs.now }
    ensures { IfOk result (λ lives. lives.items
        ≡ lives_of (inputs_in inputs.now (zip records.now segs.now))) }
{
    let mut lives = Vec::new(alloc);
    for at in 0..segs.len() {
        if is_held(inputs, records[at].seg) {
            lives.push(segs[at].live_rows().share(alloc)?)?;
        }
    }
    Ok(lives)
}

// The rows of a merged segment that are live, where some died.
fn change_of(live: LiveBits) -> Option<LiveBits>
    ensures { result ≡ change_by live }
{
    let (rows, live_count) = live.counts();
    if live_count == rows { None } else { Some(live) }
}

// Takes a segment over as it is.
fn keep(
    alloc: Global,
    made: &mut NextSegments,
    record: &SegRecord,
    segment: &Segment,
) -> Result<(), NoMemory>
    ensures { OnOk result (KeepsSegment («record».now, segment.now) made.old made.new) }
{
    made.segs.push(segment.share(alloc)?)?;
    made.records.push(*record)?;
    Ok(())
}

/// A merged segment that is to be put in the place of its inputs.
#[derive(Drop)]
pub struct Replacement {
    /// Its record with all rows live.
    pub entry: SegRecord,
    pub segment: Segment,
    /// Its rows that are live now, where some died.
    pub change: Option<LiveBits>,
}

// Goes on by one segment: the first of the inputs gives its place to the merged one, and the others leave.
fn step_over(
    alloc: Global,
    made: &mut NextSegments,
    placed: &mut bool,
    generation: Gen,
    inputs: &[SegNo],
    merged: &Replacement,
    record: &SegRecord,
    segment: &Segment,
) -> Result<(), NoMemory>
    requires few { generation.0 < 2 ^ 31 }
    requires bounded { IsBounded generation.0 merged.now.entry }
    requires rows { HasItsRows merged.now.segment merged.now.change }
    ensures { OnOk result (StepsOverSegment generation.0 inputs.now merged.now
        («record».now, segment.now) made.old made.new placed.old placed.new) }
{
    if is_held(inputs, record.seg) {
        if !*placed {
            take_over(
                alloc,
                made,
                generation,
                &merged.entry,
                &merged.segment,
                &merged.change,
                &[],
            )?;
            *placed = true;
        }
    } else {
        keep(alloc, made, record, segment)?;
    }
    Ok(())
}

// The segments of infos with the merged one in the place of the first of its inputs, and without the others.
fn put_in_place(
    alloc: Global,
    generation: Gen,
    inputs: &[SegNo],
    merged: &Replacement,
    records: &[SegRecord],
    segs: &[Segment],
) -> Result<NextSegments, NoMemory>
    requires few { generation.0 < 2 ^ 31 }
    requires bounded { IsBounded generation.0 merged.now.entry }
    requires rows { HasItsRows merged.now.segment merged.now.change }
    requires many { length records.now ≡ length segs.now }
    requires some { 0 < length (inputs_in inputs.now (zip records.now segs.now)) }
    ensures { IfOk result (IsPlaced generation.0 inputs.now merged.now
        (zip records.now segs.now)) }
{
    let mut made = NextSegments {
        records: List::new(alloc),
        segs: List::new(alloc),
        files: List::new(alloc),
    };
    let mut placed = false;
    for at in 0..segs.len() {
        step_over(
            alloc,
            &mut made,
            &mut placed,
            generation,
            inputs,
            merged,
            &records[at],
            &segs[at],
        )?;
    }
    Ok(made)
}

/// The segments of infos after the cut-over of a merge: the merged segment in the place of the first of its inputs, with the rows
/// that are live now, or none where none is. Its live file is to be written, where some row died.
pub fn cut_over(
    alloc: Global,
    generation: Gen,
    inputs: &[SegNo],
    task_live: &[LiveBits],
    merged: &Merged,
    records: &[SegRecord],
    segs: &[Segment],
) -> Result<NextSegments, NoMemory>
    requires few { generation.0 < 2 ^ 31 }
    requires bounded { IsBounded generation.0
        (record_of merged.now.files.seg merged.now.files.live) }
    requires many { length records.now ≡ length segs.now }
    requires some { 0 < length (inputs_in inputs.now (zip records.now segs.now)) }
    requires now { AllZip IsWithin
        (lives_of (inputs_in inputs.now (zip records.now segs.now))) task_live.now }
    requires from { merged.now.from ≡ origins 0 task_live.now }
    requires rows { merged.now.files.live ≡ replicate (length merged.now.from) true }
    requires built { IsBuiltWork (Some merged.now.files) }
    ensures { IfOk result (λ made. (shown : Shown) × IsReadBack merged.now.files shown
        × IsCutOf generation.0 (zip records.now segs.now) inputs.now merged.now shown made) }
{
    let lives = lives_now(alloc, records, segs, inputs)?;
    let live = carry(alloc, task_live, lives.as_slice(), merged)?;
    let change = change_of(live);
    let segment = read_back(alloc, &merged.files)?;
    let entry = first_record(merged.files.seg, &merged.files.live);
    let merging = Replacement {
        entry,
        segment,
        change,
    };
    match put_in_place(alloc, generation, inputs, &merging, records, segs) {
        Ok(made) => Ok(made),
        Err(fault) => Err(fault),
    }
}

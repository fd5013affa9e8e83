//! The live rows of segments.

ghost use Rattle.std.specs.Prelude.{◌≡◌, ◌≤◌, ◌<◌, ◌↔◌, ◌++◌, length, map, not, slice_index_or, IfOk, OnOk, MatchOption};
ghost use Rattle.std.specs.BTreeSet.{contains};
ghost use Rattle.documents.specs.Documents.{key_cmp};
ghost use Rattle.index_check.specs.Rows.{rows_of_segment, rows_of_segments, HaveOwnKeys, IsFirstTwin};

use nrt_base::{Doc, Key, NoMemory, SegNo, Share, Text};
use seg_reader::Segment;
use segment_infos::SegRecord;
use std::alloc::Global;
use std::collections::BTreeSet;

/// A live row: the number of its segment, and its document.
#[derive(Debug, Drop)]
pub struct LiveRow {
    pub seg: SegNo,
    pub doc: Doc,
}

// The document in a row.
fn doc_at(alloc: Global, segment: &Segment, row: u32) -> Result<Doc, NoMemory>
    requires { row < length segment.now.docs }
    ensures { IfOk result (λ doc. doc ≡ slice_index_or segment.now.docs row doc) }
{
    let key = Key::new(alloc, segment.key(row))?;
    let text = Text::new(alloc, segment.text(row))?;
    Ok(Doc { key, text })
}

// Puts the live rows of a segment at the end.
fn push_rows(
    alloc: Global,
    rows: &mut Vec<LiveRow>,
    record: &SegRecord,
    segment: &Segment,
) -> Result<(), NoMemory>
    ensures { OnOk result (rows.new.items
        ≡ rows.old.items ++ rows_of_segment record.now segment.now) }
{
    let seg = record.seg;
    for row in 0..segment.rows() {
        if segment.is_live(row) {
            let doc = doc_at(alloc, segment, row)?;
            rows.push(LiveRow { seg, doc })?;
        }
    }
    Ok(())
}

/// The live rows of segments, one segment after the other.
pub fn live_rows(
    alloc: Global,
    records: &[SegRecord],
    segments: &[Segment],
) -> Result<Vec<LiveRow>, NoMemory>
    requires { length segments.now ≡ length records.now }
    ensures { IfOk result (λ rows. rows.items ≡ rows_of_segments records.now segments.now) }
{
    let mut rows = Vec::new(alloc);
    for at in 0..records.len() {
        push_rows(alloc, &mut rows, &records[at], &segments[at])?;
    }
    Ok(rows)
}

/// The first row that has the key of a row before it.
pub fn first_twin<'a>(alloc: Global, rows: &'a [LiveRow]) -> Result<Option<&'a LiveRow>, NoMemory>
    ensures { IfOk result (λ twin. MatchOption twin (HaveOwnKeys rows.now)
        (λ row. IsFirstTwin rows.now row.now)) }
{
    let mut keys = BTreeSet::new(alloc);
    for row in rows {
        if !keys.insert(row.doc.key.share(alloc)?)? {
            return Ok(Some(row));
        }
    }
    Ok(None)
}

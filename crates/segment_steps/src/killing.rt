//! The rows of older segments that a cut makes dead.

ghost use Rattle.std.specs.Prelude.{◌≡◌, ◌<◌, length, IfOk, MatchOption, OnOk};
ghost use Rattle.std.specs.List.{All};
ghost use Rattle.nrt_base.specs.declared.doc.Doc.{Doc};
ghost use Rattle.documents.specs.declared.operation.Op.TheVariants.{Delete, Drop};
ghost use Rattle.documents.specs.Documents.{removes};
ghost use Rattle.postings_plain.specs.Postings.{row_of};
ghost use Rattle.seg_merge.specs.Given.{IsSound};
ghost use Rattle.live_bits.specs.LiveRows.{AreDeadFrom, IsFirstLive};
ghost use Rattle.segment_steps.specs.Segments.{live_change, changed};
ghost use Rattle.segment_steps.specs.Killing.{HasAllRows, where_fewer, KillsRow, KillsHits, KillsDocs};
ghost use Rattle.segment_steps.specs.Marks.{is_gone};

use crate::cut::Gone;
use live_bits::LiveBits;
use nrt_base::{Key, NoMemory, Share, Word};
use postings_plain::Postings;
use seg_merge::Segment;
use std::alloc::Global;

// The first row at or above this one that is live after the change.
fn next_live(segment: &Segment, change: &Option<LiveBits>, least: u32) -> Option<u32>
    ensures { MatchOption result (AreDeadFrom least (changed segment.now change.now).live)
        (IsFirstLive least (changed segment.now change.now).live) }
{
    match change {
        Some(live) => live.next_live(least),
        None => segment.live_rows().next_live(least),
    }
}

// Makes a row dead. The live rows are copied when the first of them dies.
fn kill_row(
    alloc: Global,
    segment: &Segment,
    change: &mut Option<LiveBits>,
    row: u32,
) -> Result<(), NoMemory>
    requires row { row < length segment.now.docs }
    requires rows { HasAllRows segment.now change.old }
    ensures { OnOk result (KillsRow segment.now row change.old change.new) }
{
    match change {
        Some(live) => live.kill(row),
        None => {
            let mut live = segment.live_rows().share(alloc)?;
            live.kill(row);
            *change = Some(live);
        }
    }
    Ok(())
}

// Makes the rows of hits dead. Neither dead rows between live ones nor hits between live rows are looked at one by one.
fn kill_hits(
    alloc: Global,
    segment: &Segment,
    hits: Postings<'_>,
    change: &mut Option<LiveBits>,
) -> Result<(), NoMemory>
    requires below { All (λ h. row_of h < length segment.now.docs) hits }
    requires rows { HasAllRows segment.now change.old }
    ensures { OnOk result (KillsHits segment.now hits.entry change.old change.new) }
{
    let count = segment.rows();
    let mut rows = hits;
    let mut from = 0;
    while let Some(row) = rows.next_from(from) {
        if row >= count {
            unreachable!();
        }
        match next_live(segment, change, row) {
            Some(live) => {
                if live == row {
                    kill_row(alloc, segment, change, row)?;
                    from = row + 1;
                } else {
                    from = live;
                }
            }
            None => return Ok(()),
        }
    }
    Ok(())
}

// Makes all rows of a key dead.
fn kill_key(
    alloc: Global,
    segment: &Segment,
    key: &Key,
    change: &mut Option<LiveBits>,
) -> Result<(), NoMemory>
    requires sound { IsSound segment.now }
    requires rows { HasAllRows segment.now change.old }
    ensures { OnOk result (KillsDocs (removes (Delete key.now)) segment.now change.old change.new) }
{
    if let Some(hits) = segment.rows_of_key(key.as_slice()) {
        kill_hits(alloc, segment, hits, change)?;
    }
    Ok(())
}

// Makes all rows dead whose text has a word.
fn kill_word(
    alloc: Global,
    segment: &Segment,
    word: &Word,
    change: &mut Option<LiveBits>,
) -> Result<(), NoMemory>
    requires sound { IsSound segment.now }
    requires rows { HasAllRows segment.now change.old }
    ensures { OnOk result (KillsDocs (removes (Drop word.now)) segment.now change.old change.new) }
{
    if let Some(hits) = segment.word(word.as_slice()) {
        kill_hits(alloc, segment, hits, change)?;
    }
    Ok(())
}

// The change, where not so many rows are live after it.
fn if_fewer(change: Option<LiveBits>, before: u32) -> Option<LiveBits>
    ensures { result ≡ where_fewer before change }
{
    match change {
        Some(live) => {
            let (_, after) = live.counts();
            if after == before { None } else { Some(live) }
        }
        None => None,
    }
}

/// The live rows of a segment without those that are gone, where some row dies. Each key and each word is looked up once.
pub fn change_of(
    alloc: Global,
    segment: &Segment,
    gone: &Gone,
) -> Result<Option<LiveBits>, NoMemory>
    requires { IsSound segment.now }
    ensures { IfOk result (λ change. change ≡ live_change (is_gone gone.now) segment.now) }
{
    let (_, before) = segment.live_rows().counts();
    let mut change = None;
    for key in &gone.keys {
        kill_key(alloc, segment, key, &mut change)?;
    }
    for word in &gone.words {
        kill_word(alloc, segment, word, &mut change)?;
    }
    Ok(if_fewer(change, before))
}

//! The live rows of segments that match, counted with their ranks.

ghost use Rattle.std.specs.Prelude.{◌≡◌, ◌+◌, ◌-◌, ◌<◌, ◌^◌, ℕ, List, length, IsTrue, IfOk, OnOk};
ghost use Rattle.std.specs.Int.{bit_at};
ghost use Rattle.std.specs.List.{All};
ghost use Rattle.nrt_base.specs.declared.doc.Doc.{Doc};
ghost use Rattle.documents.specs.Matching.{is_well_formed};
ghost use Rattle.documents.specs.Ranking.{scan_of};
ghost use Rattle.seg_reader.specs.Shown.{AreLiveDocuments};
ghost use Rattle.seg_reader.specs.Sound.{IsSound};
ghost use Rattle.seg_reader.specs.Placing.{IsPlacing};
ghost use Rattle.query_eval.specs.Best.{IsBar};
ghost use Rattle.query_eval.specs.Matching.{CountsMarked, CountsRow, CountsSegment, rows_of};
ghost use Rattle.query_eval.specs.Windows.{AreFirstBits};

use crate::best::{Bar, BestHits};
use crate::building::cursor_of;
use crate::cursor::{mark, next_start};
use documents::{Answer, Query};
use nrt_base::{NoMemory, Word};
use seg_reader::Segment;
use std::alloc::Global;

// Counts a row of this rank, if it is live.
fn count_ranked(
    alloc: Global,
    seg: &Segment,
    places: &[u32],
    row: u32,
    rank: u32,
    bar: &mut Bar,
    best: &mut BestHits,
) -> Result<(), NoMemory>
    requires row { row < length seg.now.docs }
    requires rows { length places.now ≡ length seg.now.docs }
    requires order { IsPlacing seg.now.docs places.now }
    requires bar { IsBar seg.now.docs places.now bar.old best.old.hits }
    requires room { best.old.total + 1 < 2 ^ 32 }
    ensures counts { OnOk result (CountsRow seg.now row rank best.old best.new) }
    ensures bar { OnOk result (IsBar seg.now.docs places.now bar.new best.new.hits) }
{
    if seg.is_live(row) {
        best.add(alloc, seg, places, bar, row, rank)?;
    }
    Ok(())
}

// Counts the live rows of a segment whose documents have a word. Its hits are read once: how many positions a hit has is the
// rank of its row.
fn search_word(
    alloc: Global,
    seg: &Segment,
    word: &Word,
    best: &mut BestHits,
) -> Result<(), NoMemory>
    requires sound { IsSound seg.now }
    requires room { best.old.total + length seg.now.docs < 2 ^ 32 }
    ensures { OnOk result (CountsSegment (Query.Word word.now) seg.now best.old best.new) }
{
    let Some(mut hits) = seg.word(word.as_slice()) else {
        return Ok(());
    };
    let places = seg.places();
    let mut bar = Bar::new();
    while let Some((row, times)) = hits.next_hit() {
        // Most hits of a word that many rows have end here, without a further call.
        if best.add_refused(seg, places, &bar, row, times) {
            continue;
        }
        count_ranked(alloc, seg, places, row, times, &mut bar, best)?;
    }
    Ok(())
}

// The lowest bits, so many of them as far as there are.
fn first_bits(count: u32) -> u64
    requires { 0 < count }
    ensures { AreFirstBits count result }
{
    u64::MAX >> (64 - count.min(64))
}

// Counts the marked rows of a window that are live, each with how often words and phrases stand in it.
fn count_window(
    alloc: Global,
    seg: &Segment,
    places: &[u32],
    start: u32,
    marks: u64,
    times: &[u32; 64],
    bar: &mut Bar,
    best: &mut BestHits,
) -> Result<(), NoMemory>
    requires few { length seg.now.docs < 2 ^ 32 }
    requires within { (i : ℕ) → bit_at marks i ≡ 1 → start + i < length seg.now.docs }
    requires rows { length places.now ≡ length seg.now.docs }
    requires order { IsPlacing seg.now.docs places.now }
    requires bar { IsBar seg.now.docs places.now bar.old best.old.hits }
    requires room { best.old.total + (length seg.now.docs - start) < 2 ^ 32 }
    ensures counts { OnOk result (CountsMarked seg.now start marks times.now 64 best.old best.new) }
    ensures bar { OnOk result (IsBar seg.now.docs places.now bar.new best.new.hits) }
{
    let mut place: u32 = 0;
    'bits: while place < 64 {
        let left = marks >> place;
        if left == 0 {
            return Ok(());
        }
        place += left.trailing_zeros();
        let often = times[place as usize];
        count_ranked(alloc, seg, places, start + place, often, bar, best)?;
        place += 1;
    }
    Ok(())
}

// Counts the live rows of a segment whose documents match, window by window.
fn search_rows(
    alloc: Global,
    seg: &Segment,
    query: &Query,
    best: &mut BestHits,
) -> Result<(), NoMemory>
    requires sound { IsSound seg.now }
    requires well_formed { IsTrue (is_well_formed query.now) }
    requires room { best.old.total + length seg.now.docs < 2 ^ 32 }
    ensures { OnOk result (CountsSegment query.now seg.now best.old best.new) }
{
    let mut cursor = cursor_of(alloc, seg, query)?;
    let rows = seg.rows();
    let places = seg.places();
    let mut bar = Bar::new();
    let mut row = 0;
    'windows: while let Some(start) = next_start(&mut cursor, row, rows) {
        let mut times = [0; 64];
        let marks = mark(&mut cursor, start, &mut times) & first_bits(rows - start);
        count_window(alloc, seg, places, start, marks, &times, &mut bar, best)?;
        if rows - start <= 64 {
            return Ok(());
        }
        row = start + 64;
    }
    Ok(())
}

// Counts the live rows of a segment whose documents match.
fn search(alloc: Global, seg: &Segment, query: &Query, best: &mut BestHits) -> Result<(), NoMemory>
    requires sound { IsSound seg.now }
    requires well_formed { IsTrue (is_well_formed query.now) }
    requires room { best.old.total + length seg.now.docs < 2 ^ 32 }
    ensures { OnOk result (CountsSegment query.now seg.now best.old best.new) }
{
    match query {
        Query::Word(word) => search_word(alloc, seg, word, best),
        _ => search_rows(alloc, seg, query, best),
    }
}

/// How many documents of the live rows of the segments match, and the first 20 of their hits: the greatest rank first, and
/// equal ranks in ascending order of key. The segments have fewer than 2^32 rows together.
pub fn answer(alloc: Global, segs: &[Segment], query: &Query) -> Result<Answer, NoMemory>
    requires sound { All IsSound segs.now }
    requires few { rows_of segs.now < 2 ^ 32 }
    requires well_formed { IsTrue (is_well_formed query.now) }
    ensures { IfOk result
        (λ answer. (docs : List Doc) → AreLiveDocuments segs.now docs
        → answer ≡ scan_of docs query.now) }
{
    let mut best = BestHits::new(alloc);
    for seg in segs {
        search(alloc, seg, query, &mut best)?;
    }
    Ok(best.into_answer())
}

//! The best 20 of the hits that are counted.

ghost use Rattle.std.specs.Prelude.{◌≡◌, ◌+◌, ◌<◌, ◌≤◌, ◌^◌, [], length, slice_get, false, IsTrue, IfSome, OnOk};
ghost use Rattle.std.specs.Ordering.{is_lt};
ghost use Rattle.documents.specs.Ranking.{answer_of, hit_cmp};
ghost use Rattle.seg_reader.specs.Placing.{IsPlacing, place_in};
ghost use Rattle.query_eval.specs.Best.{count_ahead as count_ahead_lem, hit_with, AreBest, AreBeyond, CountsHit, IsBar};
ghost use Rattle.query_eval.specs.Matching.{CountsRow};

use documents::{Answer, Hit};
use nrt_base::{Key, List, NoMemory};
use seg_reader::Segment;
use std::alloc::Global;
use std::marker::Model;

/// How many hits an answer gives at most.
const MOST_HITS: usize = 20;

/// How many documents were found, and the first 20 of their hits in order, seen as the answer that they make.
#[derive(Drop)]
pub struct BestHits {
    total: u32,
    hits: Vec<Hit>,
}

impl Model for BestHits {
    ghost use Rattle.documents.specs.declared.answer.Answer.{Answer};
    ghost use Rattle.query_eval.specs.Best.{AreBest};

    ghost Value = { Answer };

    ghost view = { λ best. record { total = best.total; hits = best.hits.items } };

    ghost invariant = { λ best. AreBest best.hits.items };
}

// Whether a hit stands ahead of one of this key and this rank.
fn is_ahead(hit: &Hit, key: &[u8], rank: u32) -> bool
    ensures { result ≡ is_lt (hit_cmp hit.now (hit_with key.now rank)) }
{
    rank.cmp(&hit.rank)
        .then_with(|| hit.key.as_slice().cmp(&key))
        .is_lt()
}

// How many of the hits stand ahead of one of this key and this rank. They are looked at from the last on, since most come
// behind them all.
fn count_ahead(hits: &[Hit], key: &[u8], rank: u32) -> usize
    ensures within { result ≤ length hits.now }
    ensures ahead { AreBest hits.now → result ≡ count_ahead_lem hits.now (hit_with key.now rank) }
{
    let mut place = hits.len();
    while place > 0 {
        if is_ahead(&hits[place - 1], key, rank) {
            return place;
        }
        place -= 1;
    }
    0
}

// Whether there are 20 hits that all stand ahead of those of this rank, whatever their keys.
fn are_beyond(hits: &[Hit], rank: u32) -> bool
    ensures { IsTrue result → AreBest hits.now → AreBeyond hits.now rank }
{
    if hits.len() < MOST_HITS {
        return false;
    }
    rank < hits[MOST_HITS - 1].rank
}

/// Hits that are refused unread in a segment: those of this rank or a lesser one, whose rows stand at this place or behind it
/// in the order of keys. None is where the place is 0.
#[derive(Drop)]
pub struct Bar {
    rank: u32,
    place: u32,
}

impl Bar {
    /// A bar that refuses none.
    pub fn new() -> Bar
        ensures { result.place ≡ 0 }
    {
        Bar { rank: 0, place: 0 }
    }

    // Whether a hit of this rank is refused, whose row stands at this place.
    fn refuses(&self, rank: u32, place: u32) -> bool
        ensures some { IsTrue result → 0 < self.now.place }
        ensures place { IsTrue result → self.now.place ≤ place }
        ensures rank { IsTrue result → rank ≤ self.now.rank }
    {
        self.place > 0 && place >= self.place && rank <= self.rank
    }
}

impl BestHits {
    pub fn new(alloc: Global) -> BestHits
        ensures { result ≡ answer_of [] }
    {
        BestHits {
            total: 0,
            hits: Vec::new(alloc),
        }
    }

    /// Counts a row of this rank, if it is live, where its hit is refused unread; and says whether it is.
    pub fn add_refused(
        &mut self,
        seg: &Segment,
        places: &[u32],
        bar: &Bar,
        row: u32,
        rank: u32,
    ) -> bool
        requires row { row < length seg.now.docs }
        requires rows { length places.now ≡ length seg.now.docs }
        requires bar { IsBar seg.now.docs places.now bar.now self.old.hits }
        requires room { self.old.total + 1 < 2 ^ 32 }
        ensures refused { IsTrue result → CountsRow seg.now row rank self.old self.new }
        ensures other { result ≡ false → self.new ≡ self.old }
        ensures bar { IsBar seg.now.docs places.now bar.now self.new.hits }
    {
        if bar.refuses(rank, places[row as usize]) {
            if seg.is_live(row) {
                self.total += 1;
            }
            return true;
        }
        false
    }

    /// Counts the document of a row, which has this rank. Its key is read only where it may come among the first 20: behind a
    /// hit of the segment that was read and refused none is.
    pub fn add(
        &mut self,
        alloc: Global,
        seg: &Segment,
        places: &[u32],
        bar: &mut Bar,
        row: u32,
        rank: u32,
    ) -> Result<(), NoMemory>
        requires row { row < length seg.now.docs }
        requires rows { length places.now ≡ length seg.now.docs }
        requires order { IsPlacing seg.now.docs places.now }
        requires bar { IsBar seg.now.docs places.now bar.old self.old.hits }
        requires room { self.old.total + 1 < 2 ^ 32 }
        ensures counts { OnOk result
            (IfSome (slice_get seg.now.docs row)
            (λ doc. CountsHit (hit_with doc.key rank) self.old self.new)) }
        ensures bar { OnOk result (IsBar seg.now.docs places.now bar.new self.new.hits) }
    {
        self.total += 1;
        let at = places[row as usize];
        if bar.refuses(rank, at) {
            return Ok(());
        }
        if are_beyond(self.hits.as_slice(), rank) {
            return Ok(());
        }
        let key = seg.key(row);
        let place = count_ahead(self.hits.as_slice(), key, rank);
        if place < MOST_HITS {
            let key = Key::new(alloc, key)?;
            self.hits.insert(place, Hit { key, rank })?;
            self.hits.truncate(MOST_HITS);
        } else {
            *bar = Bar { rank, place: at };
        }
        Ok(())
    }

    pub fn into_answer(self) -> Answer
        ensures total { result.total ≡ self.total }
        ensures hits { result.hits ≡ self.hits }
    {
        let BestHits { total, hits } = self;
        Answer {
            total,
            hits: List::from_vec(hits),
        }
    }
}

//! The postings of several segments, joined without their dead rows.

ghost use Rattle.std.specs.Prelude.{◌≡◌, ℕ, ◌<◌, ◌^◌, List, [], length, OnOk, IfOk};
ghost use Rattle.std.specs.List.{All};
ghost use Rattle.body_forms.specs.File.{HasSmallBody};
ghost use Rattle.postings_plain.specs.declared.row.TermRow.{TermRow};
ghost use Rattle.postings_plain.specs.Postings.{row_of, hits_of, HitsFitFrom, HitsFit};
ghost use Rattle.postings_plain.specs.Body.{heading_of, format_wanted};
ghost use Rattle.postings_plain.specs.Reading.{at_place};
ghost use Rattle.postings_plain.specs.Inverting.{IsPostingsFileOf};
ghost use Rattle.postings_plain.specs.Gathering.{Gathers, AreFew};
ghost use Rattle.postings_plain.specs.Joining.{renumbered, AddsHitsTo, JoinsEntries};

use crate::encoding::encode_found;
use crate::file::PostFile;
use crate::format::Format;
use crate::hits::TermHits;
use crate::inverting::Found;
use crate::postings::Postings;
use crate::term::Term;
use bytes::Bytes;
use nrt_base::NoMemory;
use std::alloc::Global;
use std::marker::Model;

// The hits of rows that have a number, under their numbers.
fn kept(alloc: Global, hits: Postings<'_>, numbers: &[Option<u32>]) -> Result<TermHits, NoMemory>
    requires ascend { (field : ℕ) × HitsFitFrom field 0 hits }
    requires below { All (λ h. row_of h < length numbers.now) hits }
    requires few { length numbers.now < 2 ^ 32 }
    ensures { IfOk result (λ kept. kept ≡ renumbered numbers.now hits.entry) }
{
    let mut hits = hits;
    let mut kept = TermHits::new(alloc);
    let mut least = 0;
    while let Some(row) = hits.next_from(least) {
        if let Some(number) = numbers[row as usize] {
            kept.push_hit(alloc, number, hits.positions())?;
        }
        least = row + 1;
    }
    Ok(kept)
}

// Adds hits to those of a term.
fn add_hits<'a>(
    alloc: Global,
    found: &mut Found<'a>,
    term: Term<'a>,
    hits: TermHits,
) -> Result<(), NoMemory>
    ensures { OnOk result (AddsHitsTo found.old found.new term.entry hits) }
{
    if hits.as_slice().is_empty() {
        return Ok(());
    }
    let had = found.entry(term)?.or_insert(TermHits::new(alloc));
    had.append(hits)
}

// Adds the hits of an entry whose rows have a number.
fn add_entry<'a>(
    alloc: Global,
    found: &mut Found<'a>,
    post: &'a PostFile,
    place: u32,
    numbers: &[Option<u32>],
) -> Result<(), NoMemory>
    requires place { place < length post.now.entries }
    requires below { All (λ e. All (λ h. row_of h < length numbers.now) (hits_of e)) post.now.entries }
    requires few { length numbers.now < 2 ^ 32 }
    ensures { OnOk result (AddsHitsTo found.old found.new (heading_of (at_place post.now.entries place))
        (renumbered numbers.now (hits_of (at_place post.now.entries place)))) }
{
    let (field, bytes, hits) = post.entry(place);
    let hits = kept(alloc, hits, numbers)?;
    add_hits(alloc, found, Term::of_entry(field, bytes), hits)
}

/// Postings that are joined, segment by segment: seen as the rows of each term so far.
#[derive(Drop)]
pub struct Joined<'a> {
    found: Found<'a>,
}

impl<'a> Model for Joined<'a> {
    ghost use Rattle.postings_plain.specs.Gathering.{FoundTerms};

    ghost Value = { FoundTerms };

    ghost view = { λ joined. joined.found.entries };
}

impl<'a> Joined<'a> {
    /// Those of no rows.
    pub fn new(alloc: Global) -> Joined<'a>
        ensures { Gathers result [] }
    {
        Joined {
            found: Found::new(alloc),
        }
    }

    /// Adds the postings of the rows that have a number, under their numbers: of a segment's live rows, behind the rows so
    /// far.
    pub fn add(
        &mut self,
        alloc: Global,
        post: &'a PostFile,
        numbers: &[Option<u32>],
    ) -> Result<(), NoMemory>
        requires below { All (λ e. All (λ h. row_of h < length numbers.now) (hits_of e))
            post.now.entries }
        requires few { length numbers.now < 2 ^ 32 }
        ensures { OnOk result (JoinsEntries self.old self.new post.now.entries numbers.now) }
    {
        for place in 0..post.terms() {
            add_entry(alloc, &mut self.found, post, place, numbers)?;
        }
        Ok(())
    }

    /// The file of the postings in this format. A body of 2^32 bytes or more is out of memory.
    pub fn encode(&self, alloc: Global, format: Format, id: &[u8; 16]) -> Result<Bytes, NoMemory>
        requires { (rows : List TermRow) × Gathers self.now rows × AreFew rows
            × (0 < length rows) }
        ensures file { IfOk result (λ bytes. (rows : List TermRow) → Gathers self.now rows
            → AreFew rows → 0 < length rows → IsPostingsFileOf format id.now rows bytes) }
        ensures small { IfOk result (HasSmallBody (format_wanted format id.now) id.now) }
    {
        encode_found(alloc, format, id, &self.found)
    }
}

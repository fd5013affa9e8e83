//! Where the rows of a segment stand in the order of their keys.

ghost use Rattle.std.specs.Prelude.{◌≡◌, length, IfOk};
ghost use Rattle.seg_reader.specs.Placing.{GivesPlace, IsPlacing};

use docs_plain::DocsFile;
use nrt_base::NoMemory;
use postings_plain::{PostFile, Postings};
use std::alloc::Global;
use std::sync::Arc;

/// The field of keys in postings.
const KEY: u8 = 0;

// Gives a row this place where its key is the term.
fn place_row(docs: &DocsFile, term: &[u8], row: u32, place: u32, places: &mut [u32])
    requires { length places.old ≡ length docs.now }
    ensures rows { length places.new ≡ length docs.now }
    ensures gives { GivesPlace docs.now term.now place places.old places.new }
{
    if row < docs.len() && docs.key(row) == term {
        places[row as usize] = place;
    }
}

// Gives the rows of hits, whose keys are the term, this place.
fn place_rows(docs: &DocsFile, term: &[u8], hits: Postings<'_>, place: u32, places: &mut [u32])
    requires { length places.old ≡ length docs.now }
    ensures rows { length places.new ≡ length docs.now }
    ensures gives { GivesPlace docs.now term.now place places.old places.new }
{
    let mut hits = hits;
    let mut least = 0;
    while let Some(row) = hits.next_from(least) {
        place_row(docs, term, row, place, places);
        let Some(next) = row.checked_add(1) else {
            return;
        };
        least = next;
    }
}

// Each row's place in the order of keys, from 1 on; 0 where the postings do not tell it.
fn places_of(alloc: Global, docs: &DocsFile, post: &PostFile) -> Result<Vec<u32>, NoMemory>
    ensures rows { IfOk result (λ places. length places.items ≡ length docs.now) }
    ensures order { IfOk result (λ places. IsPlacing docs.now places.items) }
{
    let mut places = vec![in alloc; 0u32; docs.len() as usize]?;
    for entry in 0..post.terms() {
        let (field, term, hits) = post.entry(entry);
        if field != KEY {
            return Ok(places);
        }
        place_rows(docs, term, hits, entry + 1, places.as_mut_slice());
    }
    Ok(places)
}

/// Each row's place in the order of keys, from 1 on, to be shared; 0 where the postings do not tell it.
pub fn shared_places(
    alloc: Global,
    docs: &DocsFile,
    post: &PostFile,
) -> Result<Arc<Vec<u32>>, NoMemory>
    ensures rows { IfOk result (λ places. length places.value.items ≡ length docs.now) }
    ensures order { IfOk result (λ places. IsPlacing docs.now places.value.items) }
{
    let places = places_of(alloc, docs, post)?;
    Ok(Arc::new(alloc, places)?)
}

//! A segment that is read.

ghost use Rattle.std.specs.Prelude.{◌≡◌, ◌↔◌, ◌<◌, ◌⊎◌, ℕ, length, slice_get, slice_index_or, false, IsTrue, IsSome, IfSome, IfOk, IfErr, MatchOption, Ok, Err};
ghost use Rattle.std.specs.List.{All};
ghost use Rattle.nrt_base.specs.Bytes.{is_key, is_text};
ghost use Rattle.docs_plain.specs.Documents.{IsRow};
ghost use Rattle.postings_plain.specs.Postings.{row_of, hits_of, HitsFit};
ghost use Rattle.postings_plain.specs.Body.{HasEntry, HasNoEntry};
ghost use Rattle.seg_reader.specs.Shown.{Shown, shown_with, key_field, word_field};
ghost use Rattle.seg_reader.specs.Files.{IsSegmentOf};
ghost use Rattle.seg_reader.specs.Faults.{IsSegmentFault};
ghost use Rattle.seg_reader.specs.Placing.{IsPlacing};
ghost use Rattle.seg_reader.specs.Reading.{IsLiveOrAll, IsSegmentAnswer};

use crate::agreement::compare_numbers;
use crate::parts::{SegFault, SegParts};
use crate::placing::shared_places;
use crate::reading::{Contents, read_contents};
use docs_plain::DocsFile;
use live_bits::LiveBits;
use nrt_base::{NoMemory, Share};
use postings_plain::{PostFile, Postings};
use segment_infos::SegRecord;
use std::alloc::Global;
use std::marker::Model;
use std::sync::Arc;

/// The field of keys, and that of words, in postings.
const KEY: u8 = 0;

const WORD: u8 = 1;

/// A segment that is read, seen as the document of each row, which rows are live, and the postings. All is lent from the
/// shared bytes of its files; its live rows are held as bits.
#[derive(Debug, Drop)]
pub struct Segment {
    docs: DocsFile,
    post: PostFile,
    live: LiveBits,
    // Where each row stands in the order of keys.
    places: Arc<Vec<u32>>,
}

impl Model for Segment {
    ghost use Rattle.std.specs.Prelude.{◌≡◌, length};
    ghost use Rattle.postings_plain.specs.Body.{IsRowCount};
    ghost use Rattle.seg_reader.specs.Placing.{IsPlacing};
    ghost use Rattle.seg_reader.specs.Shown.{Shown};

    ghost Value = { Shown };

    ghost view = { λ s. record { docs = s.docs; live = s.live; entries = s.post.entries } };

    ghost invariant = { λ s. (length s.live ≡ length s.docs) × IsRowCount s.post.entries (length s.docs)
        × (length s.places.value.items ≡ length s.docs) × IsPlacing s.docs s.places.value.items };
}

impl Segment {
    /// The segment whose files these are, of which infos have this record. Each file is gone through once and shared; the
    /// bits of its live rows are copied.
    pub fn from_parts(
        alloc: Global,
        parts: SegParts,
        record: &SegRecord,
    ) -> Result<Segment, SegFault>
        requires { IsSome parts.live ↔ (0 < record.now.live_gen) }

        // What is answered.
        ensures segment { IfOk result (IsSegmentOf parts record.now) }
        ensures fault { IfErr result (λ fault. (fault ≡ SegFault.Memory)
            ⊎ IsSegmentFault parts record.now fault) }

        // Each segment and each fault is answered, unless memory runs out.
        ensures each_segment { (shown : Shown) → IsSegmentOf parts record.now shown
            → (result ≡ Err SegFault.Memory) ⊎ (result ≡ Ok shown) }
        ensures each_fault { (fault : SegFault) → IsSegmentFault parts record.now fault
            → (result ≡ Err SegFault.Memory) ⊎ (result ≡ Err fault) }
    {
        answer(alloc, parts, record)
    }

    /// How many rows it has, at least 1.
    pub fn rows(&self) -> u32
        ensures docs { result ≡ length self.now.docs }
        ensures live { result ≡ length self.now.live }
        ensures some { 0 < result }
        ensures texts { All IsRow self.now.docs }
    {
        self.docs.len()
    }

    /// Whether a row is live.
    pub fn is_live(&self, row: u32) -> bool
        requires { row < length self.now.docs }
        ensures { result ≡ slice_index_or self.now.live row false }
    {
        self.live.is_live(row)
    }

    /// The key of the document in a row.
    pub fn key(&self, row: u32) -> &[u8]
        requires { row < length self.now.docs }
        ensures value { IfSome (slice_get self.now.docs row) (λ doc. result.now ≡ doc.key) }
        ensures kind { IfSome (slice_get self.now.docs row) (λ doc. IsTrue (is_key doc.key)) }
    {
        self.docs.key(row)
    }

    /// The text of the document in a row.
    pub fn text(&self, row: u32) -> &[u8]
        requires { row < length self.now.docs }
        ensures value { IfSome (slice_get self.now.docs row) (λ doc. result.now ≡ doc.text) }
        ensures kind { IfSome (slice_get self.now.docs row) (λ doc. IsTrue (is_text doc.text)) }
    {
        self.docs.text(row)
    }

    /// Where each row stands in the order of keys: 0 where that is not known.
    pub fn places(&self) -> &[u32]
        ensures rows { length result.now ≡ length self.now.docs }
        ensures order { IsPlacing self.now.docs result.now }
    {
        self.places.as_slice()
    }

    /// Which rows are live.
    pub fn live_rows(&self) -> &LiveBits
        ensures live { result.now ≡ self.now.live }
        ensures rows { length result.now ≡ length self.now.docs }
    {
        &self.live
    }

    /// The same segment with other live rows. The bytes of its files are shared, and none is read again.
    pub fn with_live_rows(&self, alloc: Global, live: LiveBits) -> Result<Segment, NoMemory>
        requires { length live ≡ length self.now.docs }
        ensures { IfOk result (λ segment. segment ≡ shown_with self.now live) }
    {
        Ok(Segment {
            docs: self.docs.share(alloc)?,
            post: self.post.share(alloc)?,
            live,
            places: self.places.clone()?,
        })
    }

    /// The postings of all rows, dead rows among them.
    pub fn postings(&self) -> &PostFile
        ensures entries { result.now.entries ≡ self.now.entries }
        ensures below { All (λ e. All (λ h. row_of h < length self.now.docs) (hits_of e))
            self.now.entries }
    {
        &self.post
    }

    /// The rows whose text has a word, with its positions, dead rows among them. None comes exactly where no row has it.
    pub fn word(&self, word: &[u8]) -> Option<Postings<'_>>
        ensures found { MatchOption result (HasNoEntry self.now.entries word_field word.now)
            (HasEntry self.now.entries word_field word.now) }
        ensures fit { IfSome result (HitsFit word_field) }
        ensures below { IfSome result (All (λ h. row_of h < length self.now.docs)) }
    {
        self.post.find(WORD, word)
    }

    /// The rows of a key, dead rows among them. None comes exactly where no row has it.
    pub fn rows_of_key(&self, key: &[u8]) -> Option<Postings<'_>>
        ensures found { MatchOption result (HasNoEntry self.now.entries key_field key.now)
            (HasEntry self.now.entries key_field key.now) }
        ensures fit { IfSome result (HitsFit key_field) }
        ensures below { IfSome result (All (λ h. row_of h < length self.now.docs)) }
    {
        self.post.find(KEY, key)
    }
}

// The live rows of the file, or all rows where there is none.
fn live_or_all(alloc: Global, live: Option<LiveBits>, rows: u32) -> Result<LiveBits, NoMemory>
    ensures { IfOk result (IsLiveOrAll rows live) }
{
    match live {
        Some(live) => Ok(live),
        None => LiveBits::all(alloc, rows),
    }
}

// The segment of the files, or why there is none.
fn answer(alloc: Global, parts: SegParts, record: &SegRecord) -> Result<Segment, SegFault>
    ensures { IsSegmentAnswer parts record.now result }
{
    let contents = read_contents(alloc, parts, record)?;
    compare_numbers(&contents, record)?;
    let Contents {
        docs,
        post,
        live,
        ..
    } = contents;
    let live = live_or_all(alloc, live, record.rows)?;
    let places = shared_places(alloc, &docs, &post)?;
    Ok(Segment {
        docs,
        post,
        live,
        places,
    })
}

/// The bytes of its files are shared, and the bits of its live rows are copied.
impl Share for Segment {
    fn share(&self, alloc: Global) -> Result<Self, NoMemory> {
        Ok(Segment {
            docs: self.docs.share(alloc)?,
            post: self.post.share(alloc)?,
            live: self.live.share(alloc)?,
            places: self.places.clone()?,
        })
    }
}

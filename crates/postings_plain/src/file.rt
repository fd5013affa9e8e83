//! Files of postings, read.

ghost use Rattle.std.specs.Prelude.{◌≡◌, ◌<◌, length, MatchOption, IfSome};
ghost use Rattle.std.specs.List.{AllPairs};
ghost use Rattle.codec_frame.specs.Checking.{IsChecked};
ghost use Rattle.postings_plain.specs.Postings.{HitsFit, IsFileEntry};
ghost use Rattle.postings_plain.specs.Body.{SpellsPostings, IsBefore, HasEntry, HasNoEntry, IsRowCount, postings_wanted, IsPostingsRead};
ghost use Rattle.postings_plain.specs.Reading.{at_place};

use crate::body::row_count;
use crate::find::{find, heading_in};
use crate::format::Format;
use crate::postings::Postings;
use body_forms::{item_at, item_count};
use bytes::Bytes;
use codec_frame::{FileFault, FrameFault, Framed, Want, check};
use nrt_base::{NoMemory, Share};
use std::alloc::Global;
use std::marker::Model;

/// The name of the format in the header.
pub const NAME: &[u8; 11] = b"NrtPostings";

// The frame of a file with this id, in either format.
fn frame_of(bytes: &Bytes, id: &[u8; 16]) -> Result<Framed, FrameFault>
    ensures { IsChecked (postings_wanted id.now) bytes.now result }
{
    let want = Want {
        name: NAME,
        min: u32::from(Format::One.number()),
        max: u32::from(Format::Two.number()),
        id: Some(*id),
        suffix: b"",
    };
    check(bytes.as_slice(), &want)
}

/// The postings of a segment, seen as their format and the list of their entries: each has a field, a term and its hits.
/// Nothing is copied to be read: all is lent from the shared bytes.
#[derive(Debug, Drop)]
pub struct PostFile {
    // The whole file; its body is the bytes from `start` to before `end`.
    bytes: Bytes,
    start: usize,
    end: usize,
    format: Format,
    rows: u64,
}

impl Model for PostFile {
    ghost use Rattle.std.specs.Prelude.{length, ◌≤◌, slice_range};
    ghost use Rattle.postings_plain.specs.Body.{FormattedEntries, in_format, SpellsPostings, IsRowCount};
    ghost use Rattle.postings_plain.specs.Reading.{entries_in};

    ghost Value = { FormattedEntries };

    ghost view = { λ a. in_format a.format (entries_in a.format (slice_range a.bytes a.start a.end)) };

    ghost invariant = { λ a. (a.start ≤ a.end) × (a.end ≤ length a.bytes)
        × SpellsPostings a.format (slice_range a.bytes a.start a.end)
        (entries_in a.format (slice_range a.bytes a.start a.end))
        × IsRowCount (entries_in a.format (slice_range a.bytes a.start a.end)) a.rows };
}

impl PostFile {
    fn body(&self) -> &[u8]
        ensures { SpellsPostings self.now.format result.now self.now.entries }
    {
        &self.bytes.as_slice()[self.start..self.end]
    }

    /// How many rows the postings speak of: one above the greatest row in them.
    pub fn rows(&self) -> u64
        ensures { IsRowCount self.now.entries result }
    {
        self.rows
    }

    /// The format that they are in.
    pub fn format(&self) -> Format
        ensures { result ≡ self.now.format }
    {
        self.format
    }

    /// How many entries there are, each before the next one, by field and by the bytes of the term.
    pub fn terms(&self) -> u32
        ensures count { result ≡ length self.now.entries }
        ensures ascend { AllPairs IsBefore self.now.entries }
    {
        let body = self.body();
        item_count(body)
    }

    /// The entry at a place: its field, its term and its hits.
    pub fn entry(&self, place: u32) -> (u8, &[u8], Postings<'_>)
        requires { place < length self.now.entries }
        ensures value { (result.0, (result.1.now, result.2)) ≡ at_place self.now.entries place }
        ensures fit { IsFileEntry self.now.format (at_place self.now.entries place) }
    {
        let body = self.body();
        let item = item_at(body, place);
        let (field, term) = heading_in(item);
        (field, term, Postings::of_entry(self.format, item))
    }

    /// The hits of a term: of a key where the field is 0, of a word where it is 1. None comes exactly where no row has it.
    pub fn find(&self, field: u8, term: &[u8]) -> Option<Postings<'_>>
        ensures found { MatchOption result (HasNoEntry self.now.entries field term.now)
            (HasEntry self.now.entries field term.now) }
        ensures fit { IfSome result (HitsFit field) }
    {
        let body = self.body();
        let place = find(body, field, term)?;
        Some(Postings::of_entry(self.format, item_at(body, place)))
    }
}

/// The bytes are shared and not copied.
impl Share for PostFile {
    fn share(&self, alloc: Global) -> Result<Self, NoMemory> {
        Ok(PostFile {
            bytes: self.bytes.share(alloc)?,
            start: self.start,
            end: self.end,
            format: self.format,
            rows: self.rows,
        })
    }
}

/// The postings of a file with this id, in either format. It is looked at whole.
pub fn read_postings(bytes: Bytes, id: &[u8; 16]) -> Result<PostFile, FileFault>
    ensures { IsPostingsRead id.now bytes result }
{
    let frame = frame_of(&bytes, id)?;
    let format = Format::of_version(frame.version);
    match row_count(format, &bytes.as_slice()[frame.start..frame.end]) {
        Some(rows) => Ok(PostFile {
            bytes,
            start: frame.start,
            end: frame.end,
            format,
            rows,
        }),
        None => Err(FileFault::Body),
    }
}

//! Files of stored documents, read.

ghost use Rattle.std.specs.Prelude.{◌≡◌, ◌↔◌, ◌<◌, IsTrue, IfSome, List, length, slice_get};
ghost use Rattle.std.specs.List.{All};
ghost use Rattle.nrt_base.specs.Bytes.{is_key, is_text};
ghost use Rattle.nrt_base.specs.declared.doc.Doc.{Doc};
ghost use Rattle.body_forms.specs.Given.{IsChecked};
ghost use Rattle.body_forms.specs.File.{IsFileRead};
ghost use Rattle.docs_plain.specs.Documents.{IsRow, SpellsDocuments, documents_wanted};

use crate::row::{is_row, parts_of};
use body_forms::{FileFault, FrameFault, Framed, Want, check, is_item_table, item_at, item_count};
use bytes::Bytes;
use nrt_base::{NoMemory, Share};
use std::alloc::Global;
use std::marker::Model;

/// The name of the format in the header.
pub const NAME: &[u8; 7] = b"NrtDocs";

/// The version of the format.
pub const VERSION: u32 = 1;

// The frame of a file with this id.
fn frame_of(bytes: &Bytes, id: &[u8; 16]) -> Result<Framed, FrameFault>
    ensures { IsChecked (documents_wanted id.now) bytes.now result }
{
    let want = Want {
        name: NAME,
        min: VERSION,
        max: VERSION,
        id: Some(*id),
        suffix: b"",
    };
    check(bytes.as_slice(), &want)
}

/// The stored documents of a segment, seen as the list of them. Keys and texts are lent from the shared bytes.
#[derive(Debug, Drop)]
pub struct DocsFile {
    bytes: Bytes,
    start: usize,
    end: usize,
}

impl Model for DocsFile {
    ghost use Rattle.std.specs.Prelude.{List, length, ◌≤◌, slice_range};
    ghost use Rattle.nrt_base.specs.declared.doc.Doc.{Doc};
    ghost use Rattle.docs_plain.specs.Documents.{SpellsDocuments};
    ghost use Rattle.docs_plain.specs.Rows.{docs_in};

    ghost Value = { List Doc };

    ghost view = { λ a. docs_in (slice_range a.bytes a.start a.end) };

    ghost invariant = { λ a. (a.start ≤ a.end) × (a.end ≤ length a.bytes) × SpellsDocuments (slice_range a.bytes a.start a.end) (docs_in (slice_range a.bytes a.start a.end)) };
}

impl DocsFile {
    fn body(&self) -> &[u8]
        ensures { SpellsDocuments result.now self.now }
    {
        &self.bytes.as_slice()[self.start..self.end]
    }

    /// How many documents there are.
    pub fn len(&self) -> u32
        ensures count { result ≡ length self.now }
        ensures rows { All IsRow self.now }
    {
        item_count(self.body())
    }

    /// The key of the document in a row.
    pub fn key(&self, row: u32) -> &[u8]
        requires { row < length self.now }
        ensures value { IfSome (slice_get self.now row) (λ doc. result.now ≡ doc.key) }
        ensures kind { IfSome (slice_get self.now row) (λ doc. IsTrue (is_key doc.key)) }
    {
        parts_of(item_at(self.body(), row)).0
    }

    /// The text of the document in a row.
    pub fn text(&self, row: u32) -> &[u8]
        requires { row < length self.now }
        ensures value { IfSome (slice_get self.now row) (λ doc. result.now ≡ doc.text) }
        ensures kind { IfSome (slice_get self.now row) (λ doc. IsTrue (is_text doc.text)) }
    {
        parts_of(item_at(self.body(), row)).1
    }
}

/// The bytes are shared and not copied.
impl Share for DocsFile {
    fn share(&self, alloc: Global) -> Result<Self, NoMemory> {
        Ok(DocsFile {
            bytes: self.bytes.share(alloc)?,
            start: self.start,
            end: self.end,
        })
    }
}

// Whether the bytes are the body of documents.
fn is_documents(body: &[u8]) -> bool
    ensures { IsTrue result ↔ ((docs : List Doc) × SpellsDocuments body.now docs) }
{
    if !is_item_table(body) {
        return false;
    }
    let count = item_count(body);
    if count == 0 {
        return false;
    }
    for place in 0..count {
        if !is_row(item_at(body, place)) {
            return false;
        }
    }
    true
}

/// The documents of a file with this id, which is looked at whole.
pub fn read_docs(bytes: Bytes, id: &[u8; 16]) -> Result<DocsFile, FileFault>
    ensures { IsFileRead SpellsDocuments (documents_wanted id.now) id.now bytes result }
{
    let frame = frame_of(&bytes, id)?;
    if !is_documents(&bytes.as_slice()[frame.start..frame.end]) {
        return Err(FileFault::Body);
    }
    Ok(DocsFile {
        bytes,
        start: frame.start,
        end: frame.end,
    })
}

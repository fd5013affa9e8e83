//! Rows of stored documents: a key as a string, then a text.

ghost use Rattle.std.specs.Prelude.{◌≡◌, ◌↔◌, ◌++◌, IsTrue, OnOk};
ghost use Rattle.std.specs.List.{list_all};
ghost use Rattle.nrt_base.specs.Bytes.{is_key_byte, is_key, is_text_byte, is_text};
ghost use Rattle.nrt_base.specs.declared.doc.Doc.{Doc};
ghost use Rattle.docs_plain.specs.Documents.{row, IsRow};
ghost use Rattle.docs_plain.specs.Rows.{IsRowOfSome};

use body_forms::{push_string, string_of};
use nrt_base::{Doc, NoMemory};

const LONGEST_KEY: usize = 64;

const LONGEST_TEXT: usize = 4096;

// Whether a key may have this byte.
fn is_key_byte(byte: u8) -> bool
    ensures { result ≡ is_key_byte byte }
{
    b'!' <= byte && byte <= b'~'
}

// Whether a text may have this byte.
fn is_text_byte(byte: u8) -> bool
    ensures { result ≡ is_text_byte byte }
{
    b' ' <= byte && byte <= b'~'
}

// Whether a key may have each of these bytes.
fn are_key_bytes(bytes: &[u8]) -> bool
    ensures { result ≡ list_all is_key_byte bytes.now }
{
    bytes.iter().all(|byte| is_key_byte(*byte))
}

// Whether a text may have each of these bytes.
fn are_text_bytes(bytes: &[u8]) -> bool
    ensures { result ≡ list_all is_text_byte bytes.now }
{
    bytes.iter().all(|byte| is_text_byte(*byte))
}

// Whether a key may have these bytes.
fn is_key(bytes: &[u8]) -> bool
    ensures { result ≡ is_key bytes.now }
{
    1 <= bytes.len() && bytes.len() <= LONGEST_KEY && are_key_bytes(bytes)
}

// Whether a text may have these bytes.
fn is_text(bytes: &[u8]) -> bool
    ensures { result ≡ is_text bytes.now }
{
    bytes.len() <= LONGEST_TEXT && are_text_bytes(bytes)
}

// Whether the bytes are exactly one row.
pub(crate) fn is_row(item: &[u8]) -> bool
    ensures { IsTrue result ↔ IsRowOfSome item.now }
{
    match string_of(item) {
        Some((key, text)) => is_key(key) && is_text(text),
        None => false,
    }
}

// The key and the text of a row.
pub(crate) fn parts_of(item: &[u8]) -> (&[u8], &[u8])
    requires { IsRowOfSome item.now }
    ensures key { (doc : Doc) → IsRow doc → item.now ≡ row doc → result.0.now ≡ doc.key }
    ensures text { (doc : Doc) → IsRow doc → item.now ≡ row doc → result.1.now ≡ doc.text }
{
    match string_of(item) {
        Some(parts) => parts,
        None => unreachable!(),
    }
}

// Puts the row of a document at the end.
pub(crate) fn push_row(out: &mut Vec<u8>, doc: &Doc) -> Result<(), NoMemory>
    ensures row { OnOk result (out.new.items ≡ out.old.items ++ row doc.now) }
    ensures kind { OnOk result (IsRow doc.now) }
{
    push_string(out, doc.key.as_slice())?;
    out.extend_from_slice(doc.text.as_slice())
}

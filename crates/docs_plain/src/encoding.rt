//! Files of stored documents, written.

ghost use Rattle.std.specs.Prelude.{◌≡◌, ◌++◌, ◌<◌, length, OnOk, IfOk};
ghost use Rattle.body_forms.specs.File.{AddsSpelling, HasSmallBody};
ghost use Rattle.docs_plain.specs.Documents.{documents_wanted, IsDocumentsFile};
ghost use Rattle.docs_plain.specs.Rows.{SpellsSmall};

use crate::file::{NAME, VERSION};
use crate::row::push_row;
use body_forms::{push_end, push_table, write_footer, write_index_header};
use bytes::Bytes;
use nrt_base::{Doc, NoMemory};
use std::alloc::Global;

/// The file of these documents. A body of 2^32 bytes or more is out of memory.
pub fn encode(alloc: Global, id: &[u8; 16], docs: &[Doc]) -> Result<Bytes, NoMemory>
    requires { 0 < length docs.now }
    ensures file { IfOk result (IsDocumentsFile id.now docs.now) }
    ensures small { IfOk result (HasSmallBody (documents_wanted id.now) id.now) }
{
    let mut out = Vec::new(alloc);
    write_index_header(&mut out, NAME, VERSION, id, b"")?;
    push_body(alloc, &mut out, docs)?;
    write_footer(&mut out)?;
    Ok(Bytes::from_vec(out)?)
}

// Puts the body of documents at the end.
fn push_body(alloc: Global, out: &mut Vec<u8>, docs: &[Doc]) -> Result<(), NoMemory>
    requires { 0 < length docs.now }
    ensures { OnOk result (AddsSpelling SpellsSmall docs.now out.old.items out.new.items) }
{
    let mut offsets = Vec::new(alloc);
    let mut area = Vec::new(alloc);
    push_end(&mut offsets, &area)?;
    for doc in docs {
        push_row(&mut area, doc)?;
        push_end(&mut offsets, &area)?;
    }
    push_table(out, docs.len(), &offsets, &area)?;
    Ok(())
}

//! The documents that a directory stands for under infos.

ghost use Rattle.std.specs.Prelude.{◌≡◌, ◌≤◌, ◌⊎◌, IfOk, IfErr, IsErrOf};
ghost use Rattle.std.specs.List.Sorted.{IsPermutation};
ghost use Rattle.nrt_base.specs.Causes.{Rose};
ghost use Rattle.disk_model.specs.Disk.{reads_of};
ghost use Rattle.documents.specs.Documents.{key_cmp};
ghost use Rattle.segment_infos.specs.Infos.{CanSpell};
ghost use Rattle.seg_reader.specs.Shown.{IsInKeyOrder};
ghost use Rattle.seg_reader.specs.Stands.{StandsFor};
ghost use Rattle.index_check.specs.Answers.{IsCutShort, IsExact};
ghost use Rattle.index_check.specs.Rows.{row_documents, AreOwnDocuments, HaveTwin};
ghost use Rattle.index_check.specs.Checked.{IsWrong};

use crate::fault::CheckFault;
use crate::rows::{LiveRow, first_twin, live_rows};
use crate::segment::read_segments;
use disk_model::Dir;
use file_names::{SegPart, part_name};
use nrt_base::{Doc, List, NoMemory, Share};
use segment_infos::Infos;
use std::alloc::Global;
use std::cmp::Ordering;

// The document of each row.
fn into_documents(alloc: Global, rows: Vec<LiveRow>) -> Result<Vec<Doc>, NoMemory>
    ensures { IfOk result (λ docs. docs.items ≡ row_documents rows.items) }
{
    let mut docs = Vec::with_capacity(alloc, rows.len())?;
    for row in rows {
        docs.push(row.doc)?;
    }
    Ok(docs)
}

// The order of documents: that of their keys.
fn by_key(a: &Doc, b: &Doc) -> Ordering
    ensures { result ≡ key_cmp a.now.key b.now.key }
{
    a.key.cmp(&b.key)
}

// Documents in order of key.
fn in_order(docs: Vec<Doc>) -> Vec<Doc>
    ensures same { IsPermutation docs.items result.items }
    ensures in_order { IsInKeyOrder result.items }
{
    let mut docs = docs;
    docs.sort_unstable_by(|a, b| by_key(a, b));
    docs
}

// The documents of live rows in order of key, or the first row that has the key of a row before it.
fn documents_in(alloc: Global, rows: Vec<LiveRow>) -> Result<List<Doc>, CheckFault>
    ensures docs { IfOk result (AreOwnDocuments rows.items) }
    ensures fault { IfErr result (λ fault. IsCutShort fault ⊎ HaveTwin rows.items fault) }
    ensures disk { IsErrOf result CheckFault.Failed → ⊥ }
{
    match first_twin(alloc, rows.as_slice())? {
        Some(twin) => {
            let key = twin.doc.key.share(alloc)?;
            Err(CheckFault::TwoRows(part_name(twin.seg, SegPart::Docs), key))
        }
        None => {
            let docs = into_documents(alloc, rows)?;
            Ok(List::from_vec(in_order(docs)))
        }
    }
}

/// The documents that a directory stands for under infos, or what is wrong first. It changes nothing.
pub fn read_documents<D: Dir>(
    alloc: Global,
    dir: &mut D,
    infos: &Infos,
) -> Result<List<Doc>, CheckFault>
    requires { CanSpell infos.now }
    ensures exact { IsExact (StandsFor (reads_of (D.cells dir.old)) infos.now)
        (IsWrong (reads_of (D.cells dir.old)) infos.now) result }
    ensures cells { D.cells dir.new ≡ D.cells dir.old }
    ensures failed { IsErrOf result CheckFault.Failed → Rose (D.faults dir.old) (D.faults dir.new) }
    ensures later { D.faults dir.old ≤ D.faults dir.new }
{
    let records = infos.segs.as_slice();
    let segments = read_segments(alloc, records, dir)?;
    let rows = live_rows(alloc, records, segments.as_slice())?;
    documents_in(alloc, rows)
}

//! The documents that nodes show.

ghost use Rattle.std.specs.Prelude.{◌≡◌, ◌<◌, ◌++◌, false, true, length, slice_index_or, IfOk, OnOk};
ghost use Rattle.std.specs.List.Sorted.{IsPermutation};
ghost use Rattle.documents.specs.Documents.{key_cmp};
ghost use Rattle.seg_reader.specs.Shown.{live_documents_of, IsInKeyOrder, AreLiveDocuments};
ghost use Rattle.history_rules.specs.Nodes.{IsNode, is_running, version_of};
ghost use Rattle.history_rules.specs.Points.{documents_at};
ghost use Rattle.history_book.specs.Log.{printed};

use cluster_nodes::readers_in;
use cluster_state::ClusterState;
use disk_model::FaultDir;
use nrt_base::{Doc, Key, NoMemory, NodeNo, Text};
use seg_reader::Segment;
use std::alloc::Global;
use std::cmp::Ordering;

// The document in a row.
fn doc_at(alloc: Global, segment: &Segment, row: u32) -> Result<Doc, NoMemory>
    requires { row < length segment.now.docs }
    ensures { IfOk result (λ doc. doc ≡ slice_index_or segment.now.docs row doc) }
{
    let key = Key::new(alloc, segment.key(row))?;
    let text = Text::new(alloc, segment.text(row))?;
    Ok(Doc { key, text })
}

// Puts the documents of a segment's live rows at the end.
fn push_documents(alloc: Global, docs: &mut Vec<Doc>, segment: &Segment) -> Result<(), NoMemory>
    ensures { OnOk result (docs.new.items ≡ docs.old.items ++ live_documents_of segment.now) }
{
    for row in 0..segment.rows() {
        if segment.is_live(row) {
            let doc = doc_at(alloc, segment, row)?;
            docs.push(doc)?;
        }
    }
    Ok(())
}

// The order of documents: that of their keys.
fn by_key(a: &Doc, b: &Doc) -> Ordering
    ensures { result ≡ key_cmp a.now.key b.now.key }
{
    a.key.cmp(&b.key)
}

// Documents in order of key.
fn in_order(docs: Vec<Doc>) -> Vec<Doc>
    ensures same { IsPermutation docs.items result.items }
    ensures in_order { IsInKeyOrder result.items }
{
    let mut docs = docs;
    docs.sort_unstable_by(|a, b| by_key(a, b));
    docs
}

// The documents of the live rows of segments, in order of key.
fn documents_in(alloc: Global, segments: &[Segment]) -> Result<Vec<Doc>, NoMemory>
    ensures { IfOk result (λ docs. AreLiveDocuments segments.now docs.items) }
{
    let mut docs = Vec::new(alloc);
    for at in 0..segments.len() {
        push_documents(alloc, &mut docs, &segments[at])?;
    }
    Ok(in_order(docs))
}

/// The documents that a running node shows to searches, in order of key: those of the version that the history shows of it. It fails when
/// out of memory, and changes nothing.
pub fn documents_of<D: FaultDir + Drop>(
    state: &ClusterState<D>,
    alloc: Global,
    n: NodeNo,
) -> Result<Vec<Doc>, NoMemory>
    requires running { state.now.ended ≡ false }
    requires node { IsNode state.now.nodes n.0 }
    requires up { is_running n.0 (printed state.now.log) ≡ true }
    ensures { IfOk result (λ docs. docs.items ≡ documents_at (printed state.now.log)
        (version_of n.0 (printed state.now.log))) }
{
    documents_in(alloc, readers_in(&state.places, n))
}

//! The hits of a query that was asked, which follow the documents.

ghost use Rattle.std.specs.Prelude.{◌≡◌, ◌∷◌, ℕ, List, [], IsTrue, IfOk, IfSome, OnOk, if◌then◌else◌};
ghost use Rattle.std.specs.BTreeMap.{IsOrdered, get, is_at};
ghost use Rattle.nrt_base.specs.declared.doc.Doc.{Doc as DocLem};
ghost use Rattle.documents.specs.declared.operation.Op.TheVariants.{Put as PutOp, Delete as DeleteOp};
ghost use Rattle.documents.specs.declared.query.Query.{Query as QueryLem};
ghost use Rattle.documents.specs.Documents.{after_op, documents_in, IsAscending, key_cmp};
ghost use Rattle.documents.specs.Ranking.{matching_hits, scan_of};
ghost use Rattle.history_points.specs.Kept.{HasHits, head_rank, KeepsHits, KeepAllHits};

use crate::best::best_of;
use crate::candidates::may_match;
use documents::{Answer, Hit, Op, Query, Texts, listed, scan_if_told};
use nrt_base::{Doc, Key, List, NoMemory, Share};
use std::alloc::Global;
use std::collections::BTreeMap;

/// The most documents that an answer tells.
const MOST_TOLD: usize = 0xffff_ffff;

/// The rank of each document that a query matches, by its key.
pub type Ranks = BTreeMap<Key, u32>;

/// A query that was asked, and its hits.
#[derive(Drop)]
pub struct KeptQuery {
    query: Query,
    ranks: Ranks,
}

/// The hits of one document.
fn hits_of(alloc: Global, query: &Query, doc: &Doc) -> Result<Option<List<Hit>>, NoMemory>
    ensures { IfOk result (λ found. IfSome found (λ hits.
        hits ≡ matching_hits query.now (doc.now ∷ []))) }
{
    let mut one = Vec::new(alloc);
    one.push(doc.share(alloc)?)?;
    match scan_if_told(alloc, one.as_slice(), query)? {
        Some(answer) => Ok(Some(answer.hits)),
        None => Ok(None),
    }
}

/// Gives a key the rank of the first hit, or takes the key out where there is none.
fn set_rank(alloc: Global, ranks: &mut Ranks, key: &Key, hits: &[Hit]) -> Result<(), NoMemory>
    ensures { OnOk result ((k : List ℕ) → get key_cmp ranks.new k
        ≡ (if is_at (key_cmp key.now) k then head_rank hits.now else get key_cmp ranks.old k)) }
{
    match hits.first() {
        Some(hit) => {
            ranks.insert(key.share(alloc)?, hit.rank)?;
            Ok(())
        }
        None => {
            ranks.remove(key);
            Ok(())
        }
    }
}

/// Follows a put. A document that ranks too high for 32 bits is not told.
fn follow_put(alloc: Global, ranks: &mut Ranks, query: &Query, doc: &Doc) -> Result<bool, NoMemory>
    ensures { IfOk result (λ told. IsTrue told → (docs : List DocLem)
        → HasHits (matching_hits query.now docs) ranks.old
        → HasHits (matching_hits query.now (after_op docs (PutOp doc.now))) ranks.new) }
{
    if !may_match(query, doc.text.as_slice()) {
        ranks.remove(&doc.key);
        return Ok(true);
    }
    let Some(hits) = hits_of(alloc, query, doc)? else {
        return Ok(false);
    };
    set_rank(alloc, ranks, &doc.key, hits.as_slice())?;
    Ok(true)
}

/// Follows a delete.
fn follow_delete(ranks: &mut Ranks, query: &Query, key: &Key)
    ensures { (docs : List DocLem) → HasHits (matching_hits query.now docs) ranks.old
        → HasHits (matching_hits query.now (after_op docs (DeleteOp key.now))) ranks.new }
{
    ranks.remove(key);
}

/// Follows an operation, unless it drops a word.
fn follow(alloc: Global, kept: &mut KeptQuery, op: &Op) -> Result<bool, NoMemory>
    ensures { IfOk result (λ told. IsTrue told → (docs : List DocLem)
        → KeepsHits docs kept.old → KeepsHits (after_op docs op.now) kept.new) }
{
    match op {
        Op::Put(doc) => follow_put(alloc, &mut kept.ranks, &kept.query, doc),
        Op::Delete(key) => {
            follow_delete(&mut kept.ranks, &kept.query, key);
            Ok(true)
        }
        Op::Drop(_) => Ok(false),
    }
}

/// Keeps one more query after an operation, where its hits followed it.
fn keep_after(
    alloc: Global,
    new: &mut Vec<KeptQuery>,
    one: KeptQuery,
    op: &Op,
) -> Result<(), NoMemory>
    ensures { OnOk result ((docs : List DocLem) → KeepsHits docs one
        → KeepAllHits (after_op docs op.now) new.old.items
        → KeepAllHits (after_op docs op.now) new.new.items) }
{
    let mut one = one;
    if !follow(alloc, &mut one, op)? {
        return Ok(());
    }
    new.push(one)?;
    Ok(())
}

/// The queries that are kept after an operation.
pub fn kept_after(alloc: Global, kept: Vec<KeptQuery>, op: &Op) -> Result<Vec<KeptQuery>, NoMemory>
    ensures { IfOk result (λ new. (docs : List DocLem) → KeepAllHits docs kept.items
        → KeepAllHits (after_op docs op.now) new.items) }
{
    let mut kept = kept;
    let mut new = Vec::with_capacity(alloc, kept.len())?;
    while let Some(one) = kept.pop() {
        keep_after(alloc, &mut new, one, op)?;
    }
    Ok(new)
}

/// The hits of a query among documents. None where one ranks too high for 32 bits.
fn ranks_among(alloc: Global, docs: &[Doc], query: &Query) -> Result<Option<Ranks>, NoMemory>
    requires { IsAscending docs.now }
    ensures { IfOk result (λ found. IfSome found (λ ranks.
        HasHits (matching_hits query.now docs.now) ranks)) }
{
    let mut ranks = Ranks::new(alloc);
    for doc in docs {
        if !follow_put(alloc, &mut ranks, query, doc)? {
            return Ok(None);
        }
    }
    Ok(Some(ranks))
}

/// A query with its hits among these texts.
#[tactic(auto, using(crate::proofs::KeptLaws::texts_ascend))]
pub fn kept_of(alloc: Global, texts: &Texts, query: &Query) -> Result<Option<KeptQuery>, NoMemory>
    requires { IsOrdered key_cmp texts.now }
    ensures { IfOk result (λ found. IfSome found (KeepsHits (documents_in texts.now))) }
{
    let docs = listed(alloc, texts)?;
    match ranks_among(alloc, docs.as_slice(), query)? {
        Some(ranks) => {
            let query = query.share(alloc)?;
            Ok(Some(KeptQuery { query, ranks }))
        }
        None => Ok(None),
    }
}

/// Whether the two are one query that is kept: a word.
pub fn is_same(a: &Query, b: &Query) -> bool
    ensures { IsTrue result → a.now ≡ b.now }
{
    match a {
        Query::Word(a) => match b {
            Query::Word(b) => a == b,
            _ => false,
        },
        _ => false,
    }
}

/// The hits of a query that is kept.
pub fn find<'a>(kept: &'a [KeptQuery], query: &Query) -> Option<&'a Ranks>
    ensures { (docs : List DocLem) → KeepAllHits docs kept.now
        → IfSome result (λ ranks. HasHits (matching_hits query.now docs) ranks.now) }
{
    for one in kept {
        if is_same(&one.query, query) {
            return Some(&one.ranks);
        }
    }
    None
}

/// What a search answers whose hits are these. None where 32 bits do not tell how many there are.
pub fn answer_of(alloc: Global, ranks: &Ranks) -> Result<Option<Answer>, NoMemory>
    ensures { IfOk result (λ found. IfSome found (λ answer. (docs : List DocLem)
        (query : QueryLem) → IsAscending docs → HasHits (matching_hits query docs) ranks.now
        → answer ≡ scan_of docs query)) }
{
    let total = ranks.len();
    if total > MOST_TOLD {
        return Ok(None);
    }
    let total = total as u32;
    let best = best_of(alloc, ranks)?;
    let hits = List::from_vec(best);
    Ok(Some(Answer { total, hits }))
}

//! The documents that a query may match: each of the others lacks a word that every match has.

ghost use Rattle.std.specs.Prelude.{◌≡◌, ◌++◌, ◌∷◌, List, [], true, IfOk, OnOk};
ghost use Rattle.std.specs.List.{list_any, list_all};
ghost use Rattle.nrt_base.specs.declared.doc.Doc.{Doc as DocLem};
ghost use Rattle.documents.specs.Documents.{documents_in};
ghost use Rattle.documents.specs.Matching.{stands_in, matches};
ghost use Rattle.documents.specs.Words.{words_of};
ghost use Rattle.history_points.specs.Candidates.{HaveMatches};

use documents::{Query, Texts, has_word};
use nrt_base::{Doc, Key, List, NoMemory, Share, Text, Word};
use std::alloc::Global;

/// Whether the first word of a phrase is among the words of a text.
fn first_stands(phrase: &[Word], text: &[u8]) -> bool
    ensures { stands_in phrase.now (words_of text.now) ≡ true → result ≡ true }
{
    match phrase.split_first() {
        Some((word, _)) => has_word(text, word),
        None => true,
    }
}

/// Whether a query may match a text.
#[cycle(candidates)]
pub fn may_match(query: &Query, text: &[u8]) -> bool
    ensures { matches query.now (words_of text.now) ≡ true → result ≡ true }
{
    match query {
        Query::Word(word) => has_word(text, word),
        Query::Phrase(phrase) => first_stands(phrase.as_slice(), text),
        Query::All(parts) => all_may(parts, text),
        Query::Any(parts) => some_may(parts, text),
        Query::Not(_) => true,
    }
}

#[cycle(candidates)]
fn all_may(parts: &List<Query>, text: &[u8]) -> bool
    ensures { list_all (λ part. matches part (words_of text.now)) parts.now ≡ true
        → result ≡ true }
{
    for part in parts.as_slice() {
        if !may_match(part, text) {
            return false;
        }
    }
    true
}

#[cycle(candidates)]
fn some_may(parts: &List<Query>, text: &[u8]) -> bool
    ensures { list_any (λ part. matches part (words_of text.now)) parts.now ≡ true
        → result ≡ true }
{
    for part in parts.as_slice() {
        if may_match(part, text) {
            return true;
        }
    }
    false
}

/// Takes one more document in, where the query may match it.
#[tactic(auto, using(crate::proofs::CandidateLaws::one_more, crate::proofs::CandidateLaws::one_less))]
fn note_candidate(
    alloc: Global,
    docs: &mut Vec<Doc>,
    query: &Query,
    key: &Key,
    text: &Text,
) -> Result<(), NoMemory>
    ensures { OnOk result ((all : List DocLem) → HaveMatches query.now all docs.old.items
        → HaveMatches query.now (all ++ record { key = key.now; text = text.now } ∷ [])
        docs.new.items) }
{
    if may_match(query, text.as_slice()) {
        docs.push(Doc {
            key: key.share(alloc)?,
            text: text.share(alloc)?,
        })?;
    }
    Ok(())
}

/// The documents that a query may match, in ascending order of key.
#[tactic(auto, using(crate::proofs::CandidateLaws::none_yet))]
pub fn candidates(alloc: Global, texts: &Texts, query: &Query) -> Result<Vec<Doc>, NoMemory>
    ensures { IfOk result (λ docs. HaveMatches query.now (documents_in texts.now) docs.items) }
{
    let mut docs = Vec::new(alloc);
    for (key, text) in texts {
        note_candidate(alloc, &mut docs, query, key, text)?;
    }
    Ok(docs)
}

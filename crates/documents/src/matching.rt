//! Which documents a query matches.

ghost use Rattle.std.specs.Prelude.{◌≡◌, IfOk};
ghost use Rattle.std.specs.List.{list_any, list_all};
ghost use Rattle.documents.specs.Words.{has_word as has_word_lem};
ghost use Rattle.documents.specs.Matching.{stands_in as stands_in_lem, matches as matches_lem, matches_doc};

use crate::query::Query;
use crate::text_words::words;
use nrt_base::{Doc, List, NoMemory, Word};
use std::alloc::Global;

fn has_word(words: &[Word], word: &Word) -> bool
    ensures { result ≡ has_word_lem word.now words.now }
{
    words.iter().any(|w| w == word)
}

fn stands_in(phrase: &[Word], words: &[Word]) -> bool
    ensures { result ≡ stands_in_lem phrase.now words.now }
{
    for i in 0..words.len() {
        if words[i..].starts_with(phrase) {
            return true;
        }
    }
    phrase.is_empty()
}

// Whether a query matches these words.
#[cycle(matching)]
pub(crate) fn matches_words(query: &Query, words: &[Word]) -> bool
    ensures { result ≡ matches_lem query.now words.now }
{
    match query {
        Query::Word(word) => has_word(words, word),
        Query::Phrase(phrase) => stands_in(phrase.as_slice(), words),
        Query::All(parts) => all_match(parts, words),
        Query::Any(parts) => any_matches(parts, words),
        Query::Not(part) => !matches_words(part.as_ref(), words),
    }
}

#[cycle(matching)]
fn all_match(parts: &List<Query>, words: &[Word]) -> bool
    ensures { result ≡ list_all (λ part. matches_lem part words.now) parts.now }
{
    for part in parts.as_slice() {
        if !matches_words(part, words) {
            return false;
        }
    }
    true
}

#[cycle(matching)]
fn any_matches(parts: &List<Query>, words: &[Word]) -> bool
    ensures { result ≡ list_any (λ part. matches_lem part words.now) parts.now }
{
    for part in parts.as_slice() {
        if matches_words(part, words) {
            return true;
        }
    }
    false
}

/// Whether a document matches: the words of its text are found once.
pub fn matches(alloc: Global, doc: &Doc, query: &Query) -> Result<bool, NoMemory>
    ensures { IfOk result (λ yes. yes ≡ matches_doc query.now doc.now) }
{
    let words = words(alloc, doc.text.as_slice())?;
    Ok(matches_words(query, words.as_slice()))
}

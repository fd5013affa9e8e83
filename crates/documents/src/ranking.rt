//! How high documents rank, and what a search of them answers.

ghost use Rattle.std.specs.Prelude.{◌≡◌, ◌<◌, ◌^◌, IfOk, IsTrue, MatchOption, true, length, sum_by};
ghost use Rattle.std.specs.List.{list_any};
ghost use Rattle.documents.specs.Matching.{is_well_formed};
ghost use Rattle.documents.specs.Ranking.{times_of_word, times_of_phrase, rank_of as rank_of_lem, fitting, is_too_high, matching_hits, hit_cmp, answer_of, scan_of};

use crate::answer::{Answer, Hit};
use crate::matching::matches_words;
use crate::query::Query;
use crate::text_words::words;
use nrt_base::{Doc, List, NoMemory, Share, Word};
use std::alloc::Global;
use std::cmp::Ordering;

/// How many hits an answer shows at most.
const MOST_HITS: usize = 20;

fn times_of_word(words: &[Word], word: &Word) -> usize
    ensures { result ≡ times_of_word word.now words.now }
{
    words.iter().filter(|w| *w == word).count()
}

// At how many places the phrase stands. It stands at the end too where it is empty.
fn times_of_phrase(words: &[Word], phrase: &[Word]) -> usize
    ensures { result ≡ times_of_phrase phrase.now words.now }
{
    let mut times = 0;
    for i in 0..words.len() {
        if words[i..].starts_with(phrase) {
            times += 1;
        }
    }
    if phrase.is_empty() { times + 1 } else { times }
}

// How high the words rank, where 32 bits tell it.
#[cycle(ranking)]
pub(crate) fn rank_of(query: &Query, words: &[Word]) -> Option<u32>
    ensures { result ≡ fitting (rank_of_lem query.now words.now) }
{
    match query {
        Query::Word(word) => u32::try_from(times_of_word(words, word)).ok(),
        Query::Phrase(phrase) => u32::try_from(times_of_phrase(words, phrase.as_slice())).ok(),
        Query::All(parts) => sum_of_ranks(parts, words),
        Query::Any(parts) => sum_of_ranks(parts, words),
        Query::Not(_) => Some(0),
    }
}

#[cycle(ranking)]
fn sum_of_ranks(parts: &List<Query>, words: &[Word]) -> Option<u32>
    ensures { result ≡ fitting (sum_by (λ part. rank_of_lem part words.now) parts.now) }
{
    let mut sum: u32 = 0;
    for part in parts.as_slice() {
        sum = sum.checked_add(rank_of(part, words)?)?;
    }
    Some(sum)
}

// The documents that match, as hits. None where one of them ranks too high for 32 bits.
fn matching_hits(alloc: Global, docs: &[Doc], query: &Query) -> Result<Option<Vec<Hit>>, NoMemory>
    ensures { IfOk result (λ found. MatchOption found
        (list_any (is_too_high query.now) docs.now ≡ true)
        (λ hits. hits.items ≡ matching_hits query.now docs.now)) }
{
    let mut hits = Vec::new(alloc);
    for doc in docs {
        let words = words(alloc, doc.text.as_slice())?;
        if matches_words(query, words.as_slice()) {
            let Some(rank) = rank_of(query, words.as_slice()) else {
                return Ok(None);
            };
            hits.push(Hit {
                key: doc.key.share(alloc)?,
                rank,
            })?;
        }
    }
    Ok(Some(hits))
}

// The greater rank comes first, and of equal ranks the lesser key.
fn compare(a: &Hit, b: &Hit) -> Ordering
    ensures { result ≡ hit_cmp a.now b.now }
{
    b.rank.cmp(&a.rank).then(a.key.cmp(&b.key))
}

fn answer_of(hits: Vec<Hit>) -> Answer
    requires { length hits.items < 2 ^ 32 }
    ensures { result ≡ answer_of hits.items }
{
    let mut hits = hits;
    let total = hits.len() as u32;
    hits.sort_unstable_by(|a, b| compare(a, b));
    hits.truncate(MOST_HITS);
    Answer {
        total,
        hits: List::from_vec(hits),
    }
}

/// What a search of the documents answers. None where one that matches ranks too high for 32 bits,
/// which none does where the query is well-formed.
pub fn scan_if_told(alloc: Global, docs: &[Doc], query: &Query) -> Result<Option<Answer>, NoMemory>
    requires { length docs.now < 2 ^ 32 }
    ensures { IfOk result (λ found. MatchOption found
        (list_any (is_too_high query.now) docs.now ≡ true)
        (λ answer. answer ≡ scan_of docs.now query.now)) }
{
    match matching_hits(alloc, docs, query)? {
        Some(hits) => Ok(Some(answer_of(hits))),
        None => Ok(None),
    }
}

/// How many documents match, and the best 20 of them. The documents are fewer than 2^32.
pub fn scan(alloc: Global, docs: &[Doc], query: &Query) -> Result<Answer, NoMemory>
    requires few { length docs.now < 2 ^ 32 }
    requires formed { IsTrue (is_well_formed query.now) }
    ensures { IfOk result (λ answer. answer ≡ scan_of docs.now query.now) }
{
    match scan_if_told(alloc, docs, query)? {
        Some(answer) => Ok(answer),
        None => unreachable!(),
    }
}

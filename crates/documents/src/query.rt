//! What searches look for.

ghost use Rattle.std.specs.Prelude.{◌≡◌, IfOk};

use nrt_base::{Boxed, List, NoMemory, Share, Word};
use std::alloc::Global;

/// What a search looks for.
///
/// A query is well-formed where each phrase has at least two words, each `All` and each `Any` at
/// least two parts, its depth is at most 32 and it has at most 64 leaves.
#[derive(Debug, Drop)]
pub enum Query {
    /// The word is among the words of the text.
    Word(Word),
    /// The words stand in the text one after the other.
    Phrase(List<Word>),
    /// Every part matches.
    All(List<Query>),
    /// Some part matches.
    Any(List<Query>),
    /// The part does not match.
    Not(Boxed<Query>),
}

impl Share for Query {
    fn share(&self, alloc: Global) -> Result<Self, NoMemory> {
        share_query(alloc, self)
    }
}

#[cycle(share)]
fn share_query(alloc: Global, query: &Query) -> Result<Query, NoMemory>
    ensures { IfOk result (λ copy. copy ≡ query.now) }
{
    match query {
        Query::Word(word) => Ok(Query::Word(word.share(alloc)?)),
        Query::Phrase(words) => Ok(Query::Phrase(words.share(alloc)?)),
        Query::All(parts) => Ok(Query::All(share_queries(alloc, parts)?)),
        Query::Any(parts) => Ok(Query::Any(share_queries(alloc, parts)?)),
        Query::Not(part) => {
            let copy = share_query(alloc, part.as_ref())?;
            Ok(Query::Not(Boxed::new(alloc, copy)?))
        }
    }
}

#[cycle(share)]
fn share_queries(alloc: Global, queries: &List<Query>) -> Result<List<Query>, NoMemory>
    ensures { IfOk result (λ copy. copy ≡ queries.now) }
{
    let mut copies = Vec::with_capacity(alloc, queries.as_slice().len())?;
    for query in queries.as_slice() {
        copies.push(share_query(alloc, query)?)?;
    }
    Ok(List::from_vec(copies))
}

//! The texts that searches go over, and the hits of the queries that were asked of them.

ghost use Rattle.std.specs.Prelude.{◌≡◌, ◌<◌, ◌^◌, [], true, length, IfOk, IfSome, OnOk, MatchOption};
ghost use Rattle.std.specs.List.{list_any};
ghost use Rattle.documents.specs.Documents.{IsAscending, after_op, documents_in};
ghost use Rattle.documents.specs.Ranking.{is_too_high, scan_of};
ghost use Rattle.history_points.specs.Kept.{IsSearched};

use crate::candidates::candidates;
use crate::kept::{KeptQuery, answer_of, find, is_same, kept_after, kept_of};
use documents::{Answer, Op, Query, Texts, change, scan_if_told, texts_of};
use nrt_base::{Doc, NoMemory};
use std::alloc::Global;
use std::mem::replace;

/// So many queries are always kept, and as many more as there are documents for each of them, since a query that was let go costs a walk over all documents.
const MOST_KEPT: usize = 64;

/// The texts that searches go over, and the queries that were asked of them, with their hits.
#[derive(Drop)]
pub struct SearchedTexts {
    texts: Texts,
    kept: Vec<KeptQuery>,
}

impl SearchedTexts {
    /// No texts.
    pub fn new(alloc: Global) -> Self
        ensures none { documents_in result.texts ≡ [] }
        ensures kept { IsSearched result }
    {
        SearchedTexts {
            texts: Texts::new(alloc),
            kept: Vec::new(alloc),
        }
    }

    /// Documents that are a list in ascending order of key.
    pub fn of(alloc: Global, docs: &[Doc]) -> Result<Self, NoMemory>
        requires { IsAscending docs.now }
        ensures same { IfOk result (λ searched. documents_in searched.texts ≡ docs.now) }
        ensures kept { IfOk result IsSearched }
    {
        let texts = texts_of(alloc, docs)?;
        let kept = Vec::new(alloc);
        Ok(SearchedTexts { texts, kept })
    }

    /// Changes the documents as an operation says.
    pub fn change(&mut self, alloc: Global, op: &Op) -> Result<(), NoMemory>
        requires { IsSearched self.old }
        ensures after { OnOk result
            (documents_in self.new.texts ≡ after_op (documents_in self.old.texts) op.now) }
        ensures kept { OnOk result (IsSearched self.new) }
    {
        change(alloc, &mut self.texts, op)?;
        let left = replace(&mut self.kept, Vec::new(alloc));
        let kept = kept_after(alloc, left, op)?;
        self.kept = kept;
        Ok(())
    }

    /// How many documents there are.
    pub fn len(&self) -> usize
        ensures { result ≡ length self.now.texts.entries }
    {
        self.texts.len()
    }

    /// Lets go of what is kept where it is many.
    #[tactic(auto, using(crate::proofs::KeptLaws::none_kept))]
    fn make_room(&mut self)
        requires { IsSearched self.old }
        ensures texts { self.new.texts ≡ self.old.texts }
        ensures kept { IsSearched self.new }
    {
        let most = MOST_KEPT.max(self.texts.len() / MOST_KEPT);
        if self.kept.len() < most {
            return;
        }
        self.kept.clear();
    }

    /// Keeps the hits of a query from now on, where it is one that is kept, and was not yet.
    fn keep(&mut self, alloc: Global, query: &Query) -> Result<(), NoMemory>
        requires { IsSearched self.old }
        ensures texts { self.new.texts ≡ self.old.texts }
        ensures kept { OnOk result (IsSearched self.new) }
    {
        if !is_same(query, query) || find(self.kept.as_slice(), query).is_some() {
            return Ok(());
        }
        self.make_room();
        let Some(one) = kept_of(alloc, &self.texts, query)? else {
            return Ok(());
        };
        self.kept.push(one)?;
        Ok(())
    }

    /// What a search answers whose hits are kept.
    fn kept_answer(&self, alloc: Global, query: &Query) -> Result<Option<Answer>, NoMemory>
        requires { IsSearched self.now }
        ensures { IfOk result (λ found. IfSome found (λ answer.
            answer ≡ scan_of (documents_in self.now.texts) query.now)) }
    {
        match find(self.kept.as_slice(), query) {
            Some(ranks) => answer_of(alloc, ranks),
            None => Ok(None),
        }
    }

    /// What a search of all documents answers. None where one that matches ranks too high for 32 bits.
    fn scan(&self, alloc: Global, query: &Query) -> Result<Option<Answer>, NoMemory>
        requires { length self.now.texts.entries < 2 ^ 32 }
        ensures { IfOk result (λ found. MatchOption found
            (list_any (is_too_high query.now) (documents_in self.now.texts) ≡ true)
            (λ answer. answer ≡ scan_of (documents_in self.now.texts) query.now)) }
    {
        let docs = candidates(alloc, &self.texts, query)?;
        let found = scan_if_told(alloc, docs.as_slice(), query)?;
        Ok(found)
    }

    /// What a search answers. None where a document that matches ranks too high for 32 bits.
    pub fn answer(&mut self, alloc: Global, query: &Query) -> Result<Option<Answer>, NoMemory>
        requires few { length self.old.texts.entries < 2 ^ 32 }
        requires kept { IsSearched self.old }
        ensures answer { IfOk result (λ found. MatchOption found
            (list_any (is_too_high query.now) (documents_in self.old.texts) ≡ true)
            (λ answer. answer ≡ scan_of (documents_in self.old.texts) query.now)) }
        ensures texts { self.new.texts ≡ self.old.texts }
        ensures kept { OnOk result (IsSearched self.new) }
    {
        self.keep(alloc, query)?;
        match self.kept_answer(alloc, query)? {
            Some(answer) => Ok(Some(answer)),
            None => self.scan(alloc, query),
        }
    }
}

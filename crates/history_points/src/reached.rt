//! The documents that the first entries of a history wrote.

ghost use Rattle.std.specs.Prelude.{◌≡◌, ◌≤◌, ◌∷◌, length, reverse, take, IsTrue, IfOk, OnOk};
ghost use Rattle.documents.specs.Documents.{documents_in, documents_after};
ghost use Rattle.history_rules.specs.Nodes.{Past};
ghost use Rattle.history_rules.specs.Points.{operations_at, operations_written, documents_at};
ghost use Rattle.history_points.specs.AskedPoints.{oldest, IsReachedBy};
ghost use Rattle.history_points.specs.Kept.{IsSearched};

use crate::searched::SearchedTexts;
use history_facts::documents_at;
use history_rules::{Entry, Event};
use nrt_base::{NoMemory, Version};
use std::alloc::Global;

/// Takes one more entry in, behind these, unless it is a promotion.
#[tactic(auto, using(crate::proofs::AskedLaws::one_written, crate::proofs::AskedLaws::same_written))]
fn write(
    alloc: Global,
    searched: &mut SearchedTexts,
    before: &[Entry],
    entry: &Entry,
) -> Result<bool, NoMemory>
    requires kept { IsSearched searched.old }
    requires texts { documents_in searched.old.texts
        ≡ documents_after (operations_written (reverse before.now)) }
    ensures kept { OnOk result (IsSearched searched.new) }
    ensures texts { IfOk result (λ taken. IsTrue taken → documents_in searched.new.texts
        ≡ documents_after (operations_written (entry.now ∷ reverse before.now))) }
{
    match &entry.event {
        Event::Accepted { op, .. } => {
            searched.change(alloc, op)?;
            Ok(true)
        }
        Event::Promoted { .. } => Ok(false),
        _ => Ok(true),
    }
}

/// Goes on from what the first entries wrote to what so many wrote, unless a promotion stands between.
fn go_on(
    alloc: Global,
    searched: &mut SearchedTexts,
    entries: &[Entry],
    from: usize,
    to: usize,
) -> Result<bool, NoMemory>
    requires within { (from ≤ to) × (to ≤ length entries.now) }
    requires kept { IsSearched searched.old }
    requires texts { documents_in searched.old.texts
        ≡ documents_after (operations_written (reverse (take from entries.now))) }
    ensures kept { OnOk result (IsSearched searched.new) }
    ensures texts { IfOk result (λ reached. IsTrue reached → documents_in searched.new.texts
        ≡ documents_after (operations_written (reverse (take to entries.now)))) }
{
    for i in from..to {
        let taken = write(alloc, searched, &entries[..i], &entries[i])?;
        if !taken {
            return Ok(false);
        }
    }
    Ok(true)
}

/// The documents that so many of the first entries wrote.
#[derive(Drop)]
pub struct Reached {
    pub count: usize,
    pub searched: SearchedTexts,
}

impl Reached {
    /// Before any entry.
    #[tactic(auto, using(crate::proofs::AskedLaws::none_reached))]
    pub fn new(alloc: Global) -> Self
        ensures { (past : Past) → IsReachedBy past result }
    {
        Reached {
            count: 0,
            searched: SearchedTexts::new(alloc),
        }
    }

    /// Goes on to what so many entries wrote, unless the texts are those of more, or a promotion stands between.
    fn reach(&mut self, alloc: Global, entries: &[Entry], place: usize) -> Result<bool, NoMemory>
        requires reached { IsReachedBy (reverse entries.now) self.old }
        requires within { place ≤ length entries.now }
        ensures { IfOk result (λ reached. IsTrue reached →
            IsReachedBy (reverse entries.now) self.new × (self.new.count ≡ place)) }
    {
        if place < self.count {
            return Ok(false);
        }
        let reached = go_on(alloc, &mut self.searched, entries, self.count, place)?;
        self.count = place;
        Ok(reached)
    }

    /// Goes to the documents that the point of a version had behind some of the entries, which so many of the first ones wrote.
    #[tactic(auto, using(crate::proofs::AskedLaws::reached_point, crate::proofs::AskedLaws::made_reached, crate::proofs::AskedLaws::point_ascends))]
    pub fn go_to(
        &mut self,
        alloc: Global,
        entries: &[Entry],
        place: usize,
        before: &[Entry],
        v: Version,
    ) -> Result<(), NoMemory>
        requires reached { IsReachedBy (reverse entries.now) self.old }
        requires within { place ≤ length entries.now }
        requires point { operations_at (reverse before.now) v.0
            ≡ operations_written (oldest place (reverse entries.now)) }
        ensures reached { OnOk result (IsReachedBy (reverse entries.now) self.new) }
        ensures point { OnOk result
            (documents_in self.new.searched.texts ≡ documents_at (reverse before.now) v.0) }
    {
        if self.reach(alloc, entries, place)? {
            return Ok(());
        }
        let docs = documents_at(alloc, before, v)?;
        self.searched = SearchedTexts::of(alloc, docs.as_slice())?;
        self.count = place;
        Ok(())
    }
}

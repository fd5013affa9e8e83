//! How many documents the points have that lines ask for, each made from those of the last one.

ghost use Rattle.std.specs.Prelude.{◌≡◌, ◌∷◌, [], length, reverse, IfOk, OnOk};
ghost use Rattle.history_rules.specs.Points.{documents_at};
ghost use Rattle.known_past.specs.Known.{IsKnown};
ghost use Rattle.history_points.specs.AskedPoints.{IsAskedPoint};

use crate::places::{Places, no_places, note_point, place_of};
use crate::reached::Reached;
use history_rules::Entry;
use known_past::KnownPast;
use nrt_base::{NoMemory, Version};
use std::alloc::Global;

/// The documents that were asked for last, and where those of each version were written.
#[derive(Drop)]
pub struct AskedPoint {
    places: Places,
    reached: Reached,
}

impl AskedPoint {
    /// Before any entry.
    pub fn new(alloc: Global) -> Self
        ensures { IsAskedPoint [] result }
    {
        AskedPoint {
            places: no_places(alloc),
            reached: Reached::new(alloc),
        }
    }

    /// Takes one more entry in, behind these.
    #[tactic(auto, using(crate::proofs::AskedLaws::asked_next))]
    pub fn take(
        &mut self,
        known: &KnownPast,
        before: &[Entry],
        entry: &Entry,
    ) -> Result<(), NoMemory>
        requires known { IsKnown (reverse before.now) known.now }
        requires asked { IsAskedPoint (reverse before.now) self.old }
        ensures { OnOk result (IsAskedPoint (entry.now ∷ reverse before.now) self.new) }
    {
        note_point(&mut self.places, known, before, entry)
    }

    /// How many documents the point of a version has.
    #[tactic(auto, using(crate::proofs::AskedLaws::place_low, crate::proofs::AskedLaws::place_is, crate::proofs::AskedLaws::asked_there, crate::proofs::AskedLaws::count_there))]
    pub fn document_count(
        &mut self,
        alloc: Global,
        entries: &[Entry],
        v: Version,
    ) -> Result<usize, NoMemory>
        requires { IsAskedPoint (reverse entries.now) self.old }
        ensures count { IfOk result (λ count.
            count ≡ length (documents_at (reverse entries.now) v.0)) }
        ensures asked { OnOk result (IsAskedPoint (reverse entries.now) self.new) }
    {
        let place = place_of(&self.places, v.0);
        self.reached.go_to(alloc, entries, place, entries, v)?;
        let count = self.reached.searched.len();
        Ok(count)
    }
}

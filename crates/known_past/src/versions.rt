//! What is known of each version: where it was made.

ghost use Rattle.std.specs.Prelude.{ℕ, ◌≡◌, ◌==◌, ◌<◌, ◌+◌, ◌^◌, ◌∷◌, [], if◌then◌else◌, length, reverse, OnOk};
ghost use Rattle.history_rules.specs.Nodes.{Past, is_made_in_generation, is_point};
ghost use Rattle.known_past.specs.Versions.{made_known, VersionsAreKnown};

use history_rules::{Entry, Event};
use nrt_base::{NoMemory, Version};
use std::alloc::Global;
use std::collections::BTreeMap;

/// How many entries there were after each version was last published or promoted, 0 where nothing is noted.
pub type Made = BTreeMap<u64, usize>;

/// Where each version was made, and how many entries there were after the last promotion.
#[derive(Drop)]
pub struct KnownVersions {
    pub made: Made,
    pub promoted: usize,
}

fn made_in(made: &Made, v: u64) -> usize
    ensures { result ≡ made_known made.now v }
{
    match made.get(&v) {
        Some(place) => *place,
        None => 0,
    }
}

fn set_made(made: &mut Made, v: Version, place: usize) -> Result<(), NoMemory>
    ensures { OnOk result ((w : ℕ) → made_known made.new w ≡
        (if v.0 == w then place else made_known made.old w)) }
{
    made.insert(v.0, place)?;
    Ok(())
}

impl KnownVersions {
    /// Before any entry.
    pub fn new(alloc: Global) -> Self
        ensures { VersionsAreKnown [] result }
    {
        KnownVersions {
            made: Made::new(alloc),
            promoted: 0,
        }
    }

    /// Takes one more entry in, behind these.
    #[tactic(auto, using(crate::proofs::VersionLaws::published_next, crate::proofs::VersionLaws::promoted_next, crate::proofs::VersionLaws::none_next))]
    pub fn take(&mut self, before: &[Entry], entry: &Entry) -> Result<(), NoMemory>
        requires versions { VersionsAreKnown (reverse before.now) self.old }
        requires few { length before.now + 1 < 2 ^ 64 }
        ensures { OnOk result (VersionsAreKnown (entry.now ∷ reverse before.now) self.new) }
    {
        match &entry.event {
            Event::Published { v, .. } => set_made(&mut self.made, *v, before.len() + 1),
            Event::Promoted { v, .. } => {
                self.promoted = before.len() + 1;
                set_made(&mut self.made, *v, before.len() + 1)
            }
            _ => Ok(()),
        }
    }

    /// Whether the version was published or promoted in the present generation.
    #[tactic(auto, using(crate::proofs::VersionLaws::made_then, crate::proofs::VersionLaws::made_else))]
    pub fn is_made(&self, v: Version) -> bool
        ensures { (past : Past) → VersionsAreKnown past self.now
            → result ≡ is_made_in_generation v.0 past }
    {
        let place = made_in(&self.made, v.0);
        0 < place && self.promoted <= place
    }

    /// Whether there is a point of this version.
    #[tactic(auto, using(crate::proofs::VersionLaws::point_then, crate::proofs::VersionLaws::point_else))]
    pub fn is_point(&self, v: Version) -> bool
        ensures { (past : Past) → VersionsAreKnown past self.now → result ≡ is_point v.0 past }
    {
        v.0 == 1 || 0 < made_in(&self.made, v.0)
    }
}

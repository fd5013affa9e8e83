//! Where the operations of each version were written.

ghost use Rattle.std.specs.Prelude.{ℕ, ◌≡◌, ◌==◌, ◌∷◌, [], if◌then◌else◌, reverse, OnOk};
ghost use Rattle.known_past.specs.Known.{IsKnown};
ghost use Rattle.history_points.specs.AskedPoints.{place_at, ArePlacesOfPoints};

use history_rules::{Entry, Event};
use known_past::KnownPast;
use nrt_base::{NoMemory, Version};
use std::alloc::Global;
use std::collections::BTreeMap;

/// How many of the first entries wrote the operations of each version, 0 where nothing is noted.
pub type Places = BTreeMap<u64, usize>;

/// Nothing is noted before any entry.
pub fn no_places(alloc: Global) -> Places
    ensures { ArePlacesOfPoints [] result }
{
    Places::new(alloc)
}

/// What is noted for a version.
pub fn place_of(places: &Places, v: u64) -> usize
    ensures { result ≡ place_at places.now v }
{
    match places.get(&v) {
        Some(place) => *place,
        None => 0,
    }
}

fn set_place(places: &mut Places, v: Version, place: usize) -> Result<(), NoMemory>
    ensures { OnOk result ((w : ℕ) → place_at places.new w ≡
        (if v.0 == w then place else place_at places.old w)) }
{
    places.insert(v.0, place)?;
    Ok(())
}

/// Notes for a version what is noted for another.
fn copy_place(places: &mut Places, searched: u64, v: Version) -> Result<(), NoMemory>
    ensures { OnOk result ((w : ℕ) → place_at places.new w ≡
        (if v.0 == w then place_at places.old searched else place_at places.old w)) }
{
    let place = place_of(places, searched);
    set_place(places, v, place)
}

/// Takes one more entry in, behind these.
#[tactic(auto, using(crate::proofs::AskedLaws::published_places, crate::proofs::AskedLaws::promoted_places, crate::proofs::AskedLaws::same_places))]
pub fn note_point(
    places: &mut Places,
    known: &KnownPast,
    before: &[Entry],
    entry: &Entry,
) -> Result<(), NoMemory>
    requires known { IsKnown (reverse before.now) known.now }
    requires places { ArePlacesOfPoints (reverse before.now) places.old }
    ensures { OnOk result (ArePlacesOfPoints (entry.now ∷ reverse before.now) places.new) }
{
    match &entry.event {
        Event::Published { v, .. } => {
            let started = known.start_count(entry.at, before);
            set_place(places, *v, started)
        }
        Event::Promoted { n, v, .. } => {
            let searched = known.version_of(*n, before);
            copy_place(places, searched, *v)
        }
        _ => Ok(()),
    }
}

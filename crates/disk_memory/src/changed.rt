//! Which names may have a past, so that a sync of the names goes to these alone.

ghost use Rattle.std.specs.Prelude.{◌≡◌, ◌≢◌, true, false, is_some, [], ℕ, List};
ghost use Rattle.std.specs.Bool.{OnTrue};
ghost use Rattle.std.specs.BTreeMap.{get_by};
ghost use Rattle.std.specs.Cmp.Lexicographic.{slice_cmp};
ghost use Rattle.std.specs.Ordering.{nat_cmp};
ghost use Rattle.disk_memory.specs.Table.{held_in};
ghost use Rattle.disk_memory.specs.Changed.{has_changed, AreAllNoted};

use crate::slot::Slot;
use disk_model::FileName;
use std::alloc::Global;
use std::collections::BTreeMap;

/// The names that have changed since the names were synced. Where one found no memory, each name counts as changed.
#[derive(Drop)]
pub struct Changed {
    pub names: Vec<FileName>,
    pub all: bool,
}

impl Changed {
    /// No name has changed.
    pub fn new(alloc: Global) -> Changed
        ensures { (q : List ℕ) → has_changed result q ≡ false }
    {
        Changed {
            names: Vec::new(alloc),
            all: false,
        }
    }

    // Notes a name. It needs no memory: where it finds none, each name is noted.
    fn add(&mut self, name: &FileName)
        ensures here { has_changed self.new name.now ≡ true }
        ensures kept { (q : List ℕ) → has_changed self.old q ≡ true → has_changed self.new q ≡ true }
    {
        if self.names.push(*name).is_err() {
            self.all = true;
        }
    }
}

// How a name stands: whether it has a slot, and whether that has a past.
#[derive(Clone, Copy)]
struct Standing {
    has_slot: bool,
    has_past: bool,
}

// How a name stands.
fn look_at(slots: &BTreeMap<FileName, Slot>, name: &FileName) -> Standing
    ensures slot { result.has_slot ≡ is_some (get_by (slice_cmp nat_cmp name.now) slots.now) }
    ensures past { OnTrue result.has_past ((held_in slots.now.entries name.now).past ≢ []) }
{
    match slots.get(name) {
        Some(slot) => Standing {
            has_slot: true,
            has_past: slot.has_past(),
        },
        None => Standing {
            has_slot: false,
            has_past: false,
        },
    }
}

/// Notes a name that is about to change, and says whether it has a slot. One that has a past is noted already.
pub fn note(changed: &mut Changed, slots: &BTreeMap<FileName, Slot>, name: &FileName) -> bool
    requires { AreAllNoted changed.old slots.now.entries }
    ensures slot { result ≡ is_some (get_by (slice_cmp nat_cmp name.now) slots.now) }
    ensures here { has_changed changed.new name.now ≡ true }
    ensures kept { (q : List ℕ) → has_changed changed.old q ≡ true
        → has_changed changed.new q ≡ true }
{
    let standing = look_at(slots, name);
    if !standing.has_past {
        changed.add(name);
    }
    standing.has_slot
}

//! The names of the disk, each with its slot, and which of them a sync of the names has to settle.

ghost use Rattle.std.specs.Prelude.{◌≡◌, true, Some, None, ◌↔◌, ◌⊎◌, OnOk, OnErr, IfOk, IsErrOf, Err, is_some, All, Any, ℕ, List, []};
ghost use Rattle.std.specs.Bool.{OnTrue, OnFalse};
ghost use Rattle.std.specs.List.Sorted.{IsStrictlySortedBy};
ghost use Rattle.std.specs.Map.{keys_of};
ghost use Rattle.std.specs.Cmp.Lexicographic.{slice_cmp};
ghost use Rattle.std.specs.Ordering.{nat_cmp};
ghost use Rattle.disk_memory.specs.Held.{outcome_of, set_to, with_outcome};
ghost use Rattle.disk_memory.specs.Table.{held_in, names_in, reads_in, HasFile, ChangesAt, IsUnchanged, renamed_table, half_renamed_table, flushed_table, settled_table};
ghost use Rattle.disk_memory.specs.Crash.{held_after_crash};

use crate::changed::{Changed, note};
use crate::slot::Slot;
use crate::state::{Outcome, State};
use crate::table;
use bytes::Bytes;
use disk_model::{DirFault, FileName, NoMemory};
use std::alloc::Global;
use std::collections::BTreeMap;
use std::marker::Model;

/// The names of the disk, each with its slot.
#[derive(Drop)]
pub struct Slots {
    by_name: BTreeMap<FileName, Slot>,
    changed: Changed,
}

impl Model for Slots {
    ghost use Rattle.std.specs.Prelude.{List};
    ghost use Rattle.disk_model.specs.Disk.{Name};
    ghost use Rattle.disk_memory.specs.Held.{Held};
    ghost use Rattle.disk_memory.specs.Changed.{AreAllNoted};

    ghost Value = { List (Name × Held) };

    ghost view = { λ s. s.by_name.entries };

    ghost invariant = { λ s. AreAllNoted s.changed s.by_name.entries };
}

impl Slots {
    /// No name has a slot.
    pub fn new(alloc: Global) -> Slots
        ensures { result ≡ [] }
    {
        Slots {
            by_name: BTreeMap::new(alloc),
            changed: Changed::new(alloc),
        }
    }

    /// Whether a file of this name exists.
    pub fn has(&self, name: &FileName) -> bool
        ensures { result ≡ is_some (reads_in self.now name.now) }
    {
        table::has(&self.by_name, name)
    }

    /// Whether each of the names has a file.
    pub fn has_all(&self, names: &[FileName]) -> bool
        ensures yes { OnTrue result (All (λ q. HasFile self.now q) names.now) }
        ensures no { OnFalse result (Any (λ q. reads_in self.now q ≡ None) names.now) }
    {
        table::has_all(&self.by_name, names)
    }

    /// The bytes of a file, shared.
    pub fn load(&self, name: &FileName) -> Result<Bytes, DirFault>
        ensures bytes { IfOk result (λ bytes. reads_in self.now name.now ≡ Some bytes) }
        ensures missing { IsErrOf result DirFault.Missing ↔ (reads_in self.now name.now ≡ None) }
        ensures others { OnErr result
            ((result ≡ Err DirFault.Missing) ⊎ (result ≡ Err DirFault.Memory)) }
    {
        table::load(&self.by_name, name)
    }

    /// The names ascend. It changes nothing.
    pub fn is_ordered(&self)
        ensures { IsStrictlySortedBy (slice_cmp nat_cmp) (keys_of self.now) }
    {
        table::is_ordered(&self.by_name);
    }

    /// The names under which a file exists, in ascending order.
    pub fn names(&self, alloc: Global) -> Result<Vec<FileName>, NoMemory>
        ensures names { IfOk result (λ names. names.items ≡ names_in self.now) }
        ensures ordered { IsStrictlySortedBy (slice_cmp nat_cmp) (keys_of self.now) }
    {
        table::names(alloc, &self.by_name)
    }

    /// Puts a file, in this state, under a name that has none.
    pub fn set(&mut self, alloc: Global, name: &FileName, state: State) -> Result<(), NoMemory>
        requires { reads_in self.old name.now ≡ None }
        ensures ok { OnOk result (ChangesAt self.old self.new name.now (set_to state)) }
        ensures err { OnErr result (IsUnchanged self.old self.new) }
    {
        let has_slot = note(&mut self.changed, &self.by_name, name);
        table::set(alloc, &mut self.by_name, name, has_slot, state)
    }

    /// Fails to put a file, in this state, under a name that has none.
    pub fn half_set(&mut self, alloc: Global, name: &FileName, state: State) -> Result<(), NoMemory>
        requires { reads_in self.old name.now ≡ None }
        ensures ok { OnOk result
            (ChangesAt self.old self.new name.now (with_outcome (outcome_of state))) }
        ensures err { OnErr result (IsUnchanged self.old self.new) }
    {
        let has_slot = note(&mut self.changed, &self.by_name, name);
        table::half_set(alloc, &mut self.by_name, name, has_slot, state)
    }

    /// Gives a file another name.
    pub fn rename(&mut self, alloc: Global, from: &FileName, to: &FileName) -> Result<(), NoMemory>
        requires there { HasFile self.old from.now }
        requires free { reads_in self.old to.now ≡ None }
        ensures ok { OnOk result
            (held_in self.new ≡ renamed_table (held_in self.old) from.now to.now) }
        ensures err { OnErr result (IsUnchanged self.old self.new) }
    {
        note(&mut self.changed, &self.by_name, from);
        let has_slot = note(&mut self.changed, &self.by_name, to);
        table::rename(alloc, &mut self.by_name, from, to, has_slot)
    }

    /// Fails to give a file another name. A crash may show it under either.
    pub fn half_rename(
        &mut self,
        alloc: Global,
        from: &FileName,
        to: &FileName,
    ) -> Result<(), NoMemory>
        requires there { HasFile self.old from.now }
        requires free { reads_in self.old to.now ≡ None }
        ensures ok { OnOk result
            (held_in self.new ≡ half_renamed_table (held_in self.old) from.now to.now) }
        ensures err { OnErr result (IsUnchanged self.old self.new) }
    {
        note(&mut self.changed, &self.by_name, from);
        let has_slot = note(&mut self.changed, &self.by_name, to);
        table::half_rename(alloc, &mut self.by_name, from, to, has_slot)
    }

    /// Removes a file that is there. Takes no memory.
    pub fn remove(&mut self, name: &FileName)
        requires { HasFile self.old name.now }
        ensures { ChangesAt self.old self.new name.now (set_to State.Absent) }
    {
        note(&mut self.changed, &self.by_name, name);
        table::remove(&mut self.by_name, name);
    }

    /// Fails to remove a file that is there. Takes no memory.
    pub fn half_remove(&mut self, name: &FileName)
        requires { HasFile self.old name.now }
        ensures { ChangesAt self.old self.new name.now (with_outcome Outcome.Gone) }
    {
        note(&mut self.changed, &self.by_name, name);
        table::half_remove(&mut self.by_name, name);
    }

    /// Marks files as synced.
    pub fn flush_all(&mut self, names: &[FileName])
        requires { All (λ q. HasFile self.old q) names.now }
        ensures { (q : List ℕ) → held_in self.new q
            ≡ flushed_table (held_in self.old) names.now q }
    {
        table::flush_all(&mut self.by_name, names);
    }

    /// Forgets the past outcomes of every name, and the names under which no file exists. It goes to the names that have changed.
    pub fn settle_all(&mut self)
        ensures { (q : List ℕ) → held_in self.new q ≡ settled_table (held_in self.old) q }
    {
        if self.changed.all {
            table::settle_all(&mut self.by_name);
            self.changed.all = false;
        } else {
            table::settle_these(&mut self.by_name, self.changed.names.as_slice());
        }
        self.changed.names.clear();
    }

    /// A crash leaves the image that the pick says.
    pub fn crash_all(&mut self, pick: u64)
        ensures { (q : List ℕ) → held_in self.new q ≡ held_after_crash pick self.old q }
    {
        table::crash_all(&mut self.by_name, pick);
        self.changed.all = false;
        self.changed.names.clear();
    }
}

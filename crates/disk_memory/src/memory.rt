//! A directory in memory, whose faults are planned and whose crashes are picked by a number.

ghost use Rattle.std.specs.Prelude.{◌≡◌, ◌<◌, ◌↔◌, ℕ, List, Some, None, is_some, IfOk, OnOk, OnErr, IsOk, IsErrOf, Any, IsSome, refl};
ghost use Rattle.std.specs.Cmp.Lexicographic.{slice_cmp};
ghost use Rattle.std.specs.Ordering.{nat_cmp};
ghost use Rattle.std.specs.List.Sorted.{IsStrictlySortedBy};
ghost use Rattle.disk_model.specs.Disk as model;
ghost use Rattle.disk_model.specs.Disk.{is_among, BothRead, HasCrashed, restarted};
ghost use Rattle.disk_model.specs.Faults.{CountsFaults, FailsByPlans, ended};
ghost use Rattle.disk_memory.specs.Held.{untouched};
ghost use Rattle.disk_memory.specs.Table.{table_after_write, table_after_remove, table_after_rename, table_after_sync, table_after_sync_names};
ghost use Rattle.disk_memory.specs.Crash.{held_after_crash};
ghost use Rattle.disk_memory.specs.Memory.{entries_of, table_of, plans_of, cells_in, faults_in, known_plans, image_in, names_on};

use crate::plans::Planned;
use crate::slots::Slots;
use crate::state::State;
use bytes::Bytes;
use disk_model::{Dir, DirFault, FaultDir, FileName, NoMemory};
use std::alloc::Global;

/// A directory in memory. It shares the contents that it is given and gives, and copies none.
///
/// Beside what a directory is, its contracts say which outcomes it holds under each name, in order, since the
/// number of a crash picks among them.
#[derive(Drop)]
pub struct MemDir {
    alloc: Global,
    slots: Slots,
    plans: Planned,
}

impl MemDir {
    /// An empty directory, of which every image is empty, without a plan.
    pub fn new(alloc: Global) -> Result<MemDir, NoMemory>
        ensures table { IfOk result (λ dir. (q : List ℕ) → table_of dir q ≡ untouched) }
        ensures plans { IfOk result (λ dir. plans_of dir
            ≡ record { once = 0; stop = 0; met_once = 0; met_stop = 0 }) }
    {
        Ok(MemDir {
            alloc,
            slots: Slots::new(alloc),
            plans: Planned::new(),
        })
    }
}

impl Dir for MemDir {
    ghost cells = { cells_in };

    ghost faults = { faults_in };

    ghost plans = { known_plans };

    fn has(&self, name: &FileName) -> bool {
        self.slots.has(name)
    }

    fn list(&mut self) -> Result<Vec<FileName>, DirFault>
        ensures names { IfOk result (λ names. (q : List ℕ)
            → is_among names.items q ≡ is_some (cells_in self.old q).now) }
        ensures ascending { IfOk result (λ names. IsStrictlySortedBy (slice_cmp nat_cmp) names.items) }
        ensures cells { cells_in self.new ≡ cells_in self.old }
        ensures not_missing { IsErrOf result DirFault.Missing → ⊥ }
        ensures not_exists { IsErrOf result DirFault.Exists → ⊥ }
        ensures faults { CountsFaults (faults_in self.old) (faults_in self.new) result }
        ensures plans { FailsByPlans (known_plans self.old) (known_plans self.new) result }
        ensures entries { entries_of self.new ≡ entries_of self.old }
    {
        if self.plans.is_met() {
            self.plans.count();
            return Err(DirFault::Failed);
        }
        let names = self.slots.names(self.alloc)?;
        self.plans.count();
        Ok(names)
    }

    fn load(&mut self, name: &FileName) -> Result<Bytes, DirFault>
        ensures bytes { IfOk result (λ bytes. (cells_in self.old name.now).now ≡ Some bytes) }
        ensures cells { cells_in self.new ≡ cells_in self.old }
        ensures missing { IsErrOf result DirFault.Missing ↔ ((cells_in self.old name.now).now ≡ None) }
        ensures not_exists { IsErrOf result DirFault.Exists → ⊥ }
        ensures faults { CountsFaults (faults_in self.old) (faults_in self.new) result }
        ensures plans { FailsByPlans (known_plans self.old) (known_plans self.new) result }
        ensures entries { entries_of self.new ≡ entries_of self.old }
    {
        if !self.slots.has(name) {
            return Err(DirFault::Missing);
        }
        if self.plans.is_met() {
            self.plans.count();
            return Err(DirFault::Failed);
        }
        let bytes = self.slots.load(name)?;
        self.plans.count();
        Ok(bytes)
    }

    fn write_new(&mut self, name: &FileName, bytes: Bytes) -> Result<(), DirFault>
        ensures cells { cells_in self.new ≡ model.after_write (cells_in self.old) name.now bytes result }
        ensures not_missing { IsErrOf result DirFault.Missing → ⊥ }
        ensures exists { IsErrOf result DirFault.Exists ↔ IsSome (cells_in self.old name.now).now }
        ensures faults { CountsFaults (faults_in self.old) (faults_in self.new) result }
        ensures plans { FailsByPlans (known_plans self.old) (known_plans self.new) result }
        ensures table { table_of self.new ≡ table_after_write (table_of self.old) name.now bytes result }
    {
        if self.slots.has(name) {
            return Err(DirFault::Exists);
        }
        if self.plans.is_met() {
            self.slots.half_set(self.alloc, name, State::Loose(bytes))?;
            self.plans.count();
            return Err(DirFault::Failed);
        }
        self.slots.set(self.alloc, name, State::Loose(bytes))?;
        self.plans.count();
        Ok(())
    }

    fn sync(&mut self, names: &[FileName]) -> Result<(), DirFault>
        ensures cells { cells_in self.new ≡ model.after_sync (cells_in self.old) names.now result }
        ensures missing { IsErrOf result DirFault.Missing
            ↔ Any (λ q. (cells_in self.old q).now ≡ None) names.now }
        ensures not_exists { IsErrOf result DirFault.Exists → ⊥ }
        ensures memory { IsErrOf result DirFault.Memory → ⊥ }
        ensures faults { CountsFaults (faults_in self.old) (faults_in self.new) result }
        ensures plans { FailsByPlans (known_plans self.old) (known_plans self.new) result }
        ensures table { table_of self.new ≡ table_after_sync (table_of self.old) names.now result }
    {
        if !self.slots.has_all(names) {
            return Err(DirFault::Missing);
        }
        if self.plans.is_met() {
            self.plans.count();
            return Err(DirFault::Failed);
        }
        self.slots.flush_all(names);
        self.plans.count();
        Ok(())
    }

    fn sync_names(&mut self) -> Result<(), DirFault>
        ensures cells { cells_in self.new ≡ model.after_sync_names (cells_in self.old) result }
        ensures only_failed { OnErr result (IsErrOf result DirFault.Failed) }
        ensures faults { CountsFaults (faults_in self.old) (faults_in self.new) result }
        ensures plans { FailsByPlans (known_plans self.old) (known_plans self.new) result }
        ensures table { table_of self.new ≡ table_after_sync_names (table_of self.old) result }
    {
        if self.plans.is_met() {
            self.plans.count();
            return Err(DirFault::Failed);
        }
        self.slots.settle_all();
        self.plans.count();
        Ok(())
    }

    fn rename(&mut self, from: &FileName, to: &FileName) -> Result<(), DirFault>
        ensures cells { cells_in self.new
            ≡ model.after_rename (cells_in self.old) from.now to.now result }
        ensures missing { IsErrOf result DirFault.Missing ↔ ((cells_in self.old from.now).now ≡ None) }
        ensures exists { IsErrOf result DirFault.Exists ↔ BothRead (cells_in self.old) from.now to.now }
        ensures faults { CountsFaults (faults_in self.old) (faults_in self.new) result }
        ensures plans { FailsByPlans (known_plans self.old) (known_plans self.new) result }
        ensures table { table_of self.new
            ≡ table_after_rename (table_of self.old) from.now to.now result }
    {
        if !self.slots.has(from) {
            return Err(DirFault::Missing);
        }
        if self.slots.has(to) {
            return Err(DirFault::Exists);
        }
        if self.plans.is_met() {
            self.slots.half_rename(self.alloc, from, to)?;
            self.plans.count();
            return Err(DirFault::Failed);
        }
        self.slots.rename(self.alloc, from, to)?;
        self.plans.count();
        Ok(())
    }

    fn remove(&mut self, name: &FileName) -> Result<(), DirFault>
        ensures cells { cells_in self.new ≡ model.after_remove (cells_in self.old) name.now result }
        ensures missing { IsErrOf result DirFault.Missing ↔ ((cells_in self.old name.now).now ≡ None) }
        ensures not_exists { IsErrOf result DirFault.Exists → ⊥ }
        ensures memory { IsErrOf result DirFault.Memory → ⊥ }
        ensures faults { CountsFaults (faults_in self.old) (faults_in self.new) result }
        ensures plans { FailsByPlans (known_plans self.old) (known_plans self.new) result }
        ensures table { table_of self.new ≡ table_after_remove (table_of self.old) name.now result }
    {
        if !self.slots.has(name) {
            return Err(DirFault::Missing);
        }
        if self.plans.is_met() {
            self.slots.half_remove(name);
            self.plans.count();
            return Err(DirFault::Failed);
        }
        self.slots.remove(name);
        self.plans.count();
        Ok(())
    }

    fn faults(&self) -> u64 {
        self.plans.faults()
    }
}

impl FaultDir for MemDir {
    ghost planned = { plans_of };

    ghost leaves = { image_in };

    ghost names = { names_on };

    ghost known = { λ m. refl };

    ghost all_met = { λ m. refl };

    fn is_named(&self) {
        self.slots.is_ordered();
    }

    fn plan(&mut self, k: u64)
        requires { 0 < k }
        ensures plans { plans_of self.new ≡ record (plans_of self.old) { once = k } }
        ensures faults { faults_in self.new ≡ faults_in self.old }
        ensures cells { cells_in self.new ≡ cells_in self.old }
        ensures entries { entries_of self.new ≡ entries_of self.old }
    {
        self.plans.set_once(k);
    }

    fn stop_at(&mut self, k: u64)
        requires { 0 < k }
        ensures plans { plans_of self.new ≡ record (plans_of self.old) { stop = k } }
        ensures faults { faults_in self.new ≡ faults_in self.old }
        ensures cells { cells_in self.new ≡ cells_in self.old }
        ensures entries { entries_of self.new ≡ entries_of self.old }
    {
        self.plans.set_stop(k);
    }

    fn kinds(&self) -> (u64, u64) {
        self.plans.kinds()
    }

    /// This takes no memory.
    fn crash(&mut self, pick: u64) -> Result<(), NoMemory>
        ensures image { OnOk result (HasCrashed (cells_in self.old) (cells_in self.new)) }
        ensures picked { OnOk result (cells_in self.new ≡ restarted (image_in self.old pick)) }
        ensures plans { OnOk result (plans_of self.new ≡ ended (plans_of self.old)) }
        ensures faults { faults_in self.new ≡ faults_in self.old }
        ensures refused { OnErr result (cells_in self.new ≡ cells_in self.old) }
        ensures refused_plans { OnErr result (plans_of self.new ≡ plans_of self.old) }
        ensures always { IsOk result }
        ensures table { (q : List ℕ) → table_of self.new q
            ≡ held_after_crash pick (entries_of self.old) q }
    {
        self.slots.crash_all(pick);
        self.plans.set_once(0);
        self.plans.set_stop(0);
        Ok(())
    }
}

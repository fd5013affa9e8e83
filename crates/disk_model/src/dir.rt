//! A directory of files, and one whose faults are planned.

ghost use Rattle.std.specs.Prelude.{◌≡◌, ◌<◌, ◌≤◌, ◌↔◌, ℕ, List, Some, None, is_some, IfOk, OnOk, OnErr, IsErrOf, Any, IsSome, Option};
ghost use Rattle.std.specs.Cmp.Lexicographic.{slice_cmp};
ghost use Rattle.std.specs.Ordering.{nat_cmp};
ghost use Rattle.std.specs.List.Sorted.{IsStrictlySortedBy};
ghost use Rattle.disk_model.specs.Disk.{Cell, Cells, Content, is_among, after_write, after_remove, after_rename, after_sync, after_sync_names, reads_of, first_missing, BothRead, Image, HasCrashed, restarted};
ghost use Rattle.disk_model.specs.Listed.{AreNamesOf};
ghost use Rattle.disk_model.specs.Faults.{Plans, CountsFaults, FailsByPlans, ended, faults_met};

use bytes::Bytes;
use file_names::{FileName, NoMemory};
use thiserror::Error;

/// Why a call of a directory is refused. Missing is looked at before Exists, and both before Failed.
#[derive(Clone, Copy, Debug, PartialEq, Eq, Error)]
pub enum DirFault {
    /// Out of memory. All is as before.
    #[error("out of memory")]
    Memory,
    /// A name that is loaded, synced, renamed from or removed does not exist. All is as before.
    #[error("the file does not exist")]
    Missing,
    /// The name of a new file, or the target of a rename, exists. All is as before.
    #[error("a file of this name exists already")]
    Exists,
    /// The disk failed. What reads now is as before.
    #[error("the disk failed")]
    Failed,
}

impl From<NoMemory> for DirFault {
    ghost use Rattle.disk_model.specs.declared.dir.DirFault.TheVariants.{Memory};

    ghost from_gives = { λ _ e. e ≡ Memory };

    fn from(_: NoMemory) -> Self {
        DirFault::Memory
    }
}

/// A directory of files.
///
/// Its meaning is a cell under each name: what reads now, whether that is synced, and what a crash may leave.
/// Each call says its effect by one equation on all cells, by its answer. So a call, refused or not, leaves the
/// current state of every name that it does not name and adds no outcome to it, and `sync_names` alone takes
/// outcomes away.
pub trait Dir {
    /// What stands under each name.
    ghost cells: { Self → List ℕ → Cell };

    /// How often the disk has failed.
    ghost faults: { Self → ℕ };

    /// The faults that are planned, where they are known.
    ghost plans: { Self → Option Plans };

    /// Whether a file of this name exists.
    fn has(&self, name: &FileName) -> bool
        ensures { result ≡ is_some (cells self.now name.now).now };

    /// The names of the files that exist, in ascending order.
    fn list(&mut self) -> Result<Vec<FileName>, DirFault>
        ensures names { IfOk result (λ names. (q : List ℕ)
            → is_among names.items q ≡ is_some (cells self.old q).now) }
        ensures ascending { IfOk result (λ names. IsStrictlySortedBy (slice_cmp nat_cmp) names.items) }
        ensures cells { cells self.new ≡ cells self.old }
        ensures not_missing { IsErrOf result DirFault.Missing → ⊥ }
        ensures not_exists { IsErrOf result DirFault.Exists → ⊥ }
        ensures faults { CountsFaults (faults self.old) (faults self.new) result }
        ensures plans { FailsByPlans (plans self.old) (plans self.new) result };

    /// The bytes of a file, shared.
    fn load(&mut self, name: &FileName) -> Result<Bytes, DirFault>
        ensures bytes { IfOk result (λ bytes. (cells self.old name.now).now ≡ Some bytes) }
        ensures cells { cells self.new ≡ cells self.old }
        ensures missing { IsErrOf result DirFault.Missing ↔ ((cells self.old name.now).now ≡ None) }
        ensures not_exists { IsErrOf result DirFault.Exists → ⊥ }
        ensures faults { CountsFaults (faults self.old) (faults self.new) result }
        ensures plans { FailsByPlans (plans self.old) (plans self.new) result };

    /// Writes a file that does not exist. Its bytes are not synced.
    fn write_new(&mut self, name: &FileName, bytes: Bytes) -> Result<(), DirFault>
        ensures cells { cells self.new ≡ after_write (cells self.old) name.now bytes result }
        ensures not_missing { IsErrOf result DirFault.Missing → ⊥ }
        ensures exists { IsErrOf result DirFault.Exists ↔ IsSome (cells self.old name.now).now }
        ensures faults { CountsFaults (faults self.old) (faults self.new) result }
        ensures plans { FailsByPlans (plans self.old) (plans self.new) result };

    /// Syncs the bytes of files.
    fn sync(&mut self, names: &[FileName]) -> Result<(), DirFault>
        ensures cells { cells self.new ≡ after_sync (cells self.old) names.now result }
        ensures missing { IsErrOf result DirFault.Missing
            ↔ Any (λ q. (cells self.old q).now ≡ None) names.now }
        ensures not_exists { IsErrOf result DirFault.Exists → ⊥ }
        ensures memory { IsErrOf result DirFault.Memory → ⊥ }
        ensures faults { CountsFaults (faults self.old) (faults self.new) result }
        ensures plans { FailsByPlans (plans self.old) (plans self.new) result };

    /// Syncs the names: what was written, renamed and removed stays so.
    fn sync_names(&mut self) -> Result<(), DirFault>
        ensures cells { cells self.new ≡ after_sync_names (cells self.old) result }
        ensures only_failed { OnErr result (IsErrOf result DirFault.Failed) }
        ensures faults { CountsFaults (faults self.old) (faults self.new) result }
        ensures plans { FailsByPlans (plans self.old) (plans self.new) result };

    /// Gives a file another name, under which no file exists.
    fn rename(&mut self, from: &FileName, to: &FileName) -> Result<(), DirFault>
        ensures cells { cells self.new ≡ after_rename (cells self.old) from.now to.now result }
        ensures missing { IsErrOf result DirFault.Missing ↔ ((cells self.old from.now).now ≡ None) }
        ensures exists { IsErrOf result DirFault.Exists ↔ BothRead (cells self.old) from.now to.now }
        ensures faults { CountsFaults (faults self.old) (faults self.new) result }
        ensures plans { FailsByPlans (plans self.old) (plans self.new) result };

    /// Removes a file. Takes no memory.
    fn remove(&mut self, name: &FileName) -> Result<(), DirFault>
        ensures cells { cells self.new ≡ after_remove (cells self.old) name.now result }
        ensures missing { IsErrOf result DirFault.Missing ↔ ((cells self.old name.now).now ≡ None) }
        ensures not_exists { IsErrOf result DirFault.Exists → ⊥ }
        ensures memory { IsErrOf result DirFault.Memory → ⊥ }
        ensures faults { CountsFaults (faults self.old) (faults self.new) result }
        ensures plans { FailsByPlans (plans self.old) (plans self.new) result };

    /// How often the disk has failed. It never falls, and stays at 2^64 - 1.
    fn faults(&self) -> u64
        ensures { result ≡ faults self.now };
}

/// A directory whose faults are planned. It fails exactly by its plans.
///
/// `has` and `faults` are not counted, nor is a call that is refused Missing, Exists or Memory. A plan is met only
/// while there are fewer than 2^64 - 2 faults.
pub trait FaultDir: Dir {
    /// The plans.
    ghost planned: { Self → Plans };

    /// The image that a crash with this number leaves.
    ghost leaves: { Self → ℕ → Image };

    /// The names of the files that exist, in ascending order.
    ghost names: { Self → List (List ℕ) };

    /// They are those of the files that read.
    fn is_named(&self)
        ensures { AreNamesOf (Self.cells self.now) (names self.now) };

    /// The k-th counted call from now fails once. This takes the place of the plan before.
    fn plan(&mut self, k: u64)
        requires { 0 < k }
        ensures plans { planned self.new ≡ record (planned self.old) { once = k } }
        ensures faults { Self.faults self.new ≡ Self.faults self.old }
        ensures cells { Self.cells self.new ≡ Self.cells self.old };

    /// The k-th counted call from now and every later one fail, until a crash or the next stop. This ends a stop that is in force.
    fn stop_at(&mut self, k: u64)
        requires { 0 < k }
        ensures plans { planned self.new ≡ record (planned self.old) { stop = k } }
        ensures faults { Self.faults self.new ≡ Self.faults self.old }
        ensures cells { Self.cells self.new ≡ Self.cells self.old };

    /// How many faults were met by `plan`, and how many by `stop_at`. Their sum is `faults`.
    fn kinds(&self) -> (u64, u64)
        ensures { result ≡ ((planned self.now).met_once, (planned self.now).met_stop) };

    /// A crash leaves an image, and ends the plans. The number picks among the images.
    fn crash(&mut self, pick: u64) -> Result<(), NoMemory>
        ensures image { OnOk result (HasCrashed (Self.cells self.old) (Self.cells self.new)) }
        ensures picked { OnOk result (Self.cells self.new ≡ restarted (leaves self.old pick)) }
        ensures plans { OnOk result (planned self.new ≡ ended (planned self.old)) }
        ensures faults { Self.faults self.new ≡ Self.faults self.old }
        ensures refused { OnErr result (Self.cells self.new ≡ Self.cells self.old) }
        ensures refused_plans { OnErr result (planned self.new ≡ planned self.old) };

    /// The plans are known.
    ghost known: { (dir : Self) → Self.plans dir ≡ Some (planned dir) };

    /// The plans met every fault.
    ghost all_met: { (dir : Self) → Self.faults dir ≡ faults_met (planned dir) };
}

/// The first of the names that the directory lacks.
pub fn first_missing<D: Dir>(names: &[FileName], dir: &D) -> Option<FileName>
    ensures { result ≡ first_missing (reads_of (D.cells dir.now)) names.now }
{
    names.iter().copied().find(|name| !dir.has(name))
}

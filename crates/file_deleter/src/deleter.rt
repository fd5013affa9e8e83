//! The deleter, which counts the holders of files and removes those that nobody holds.

ghost use Rattle.std.specs.Prelude.{◌≡◌, ◌+◌, ◌-◌, false, ◌<◌, ◌≤◌, ◌^◌, ◌↔◌, ◌&&◌, ℕ, List, [], ◌∷◌, not, Some, None, Ok, Err, OnOk, OnErr, IfOk, IfErr, IsErrOf, IsSome, length, min, max};
ghost use Rattle.std.specs.Cmp.Lexicographic.{slice_cmp};
ghost use Rattle.std.specs.Ordering.{nat_cmp};
ghost use Rattle.std.specs.List.Sorted.{IsStrictlySortedBy};
ghost use Rattle.disk_model.specs.Given.{Rose};
ghost use Rattle.disk_model.specs.Disk.{is_among, reads_of, first_missing, after_write, after_rename};
ghost use Rattle.disk_model.specs.Faults.{FailsByPlans, IsMemoryOrFailed};
ghost use Rattle.file_deleter.specs.Holdings.{Holdings, count_of, is_due, is_known, times, IsDueBut, IsInTheWay, IsWhole, AreThere, AreCounted};
ghost use Rattle.file_deleter.specs.Removals.{directory_of, Removals, RemovesInOrder};
ghost use Rattle.file_deleter.specs.Moves.{HoldsFiles, Releases, LetsGo, Creates, RenamesCount, Renames};

use crate::tally::Tally;
use bytes::Bytes;
use disk_model::{Dir, DirFault, FileName, NoMemory, first_missing};
use std::alloc::Global;
use std::marker::Model;
use thiserror::Error;

/// Why names are not counted.
#[derive(Clone, Copy, Debug, PartialEq, Eq, Error)]
pub enum HoldFault {
    /// Out of memory, or a count would pass the end of its type. All is as before.
    #[error("out of memory")]
    Memory,
    /// The directory lacks this name, the first such in order. All is as before.
    #[error("the file {0} does not exist")]
    Absent(FileName),
}

impl From<NoMemory> for HoldFault {
    ghost use Rattle.file_deleter.specs.declared.deleter.HoldFault.TheVariants.{Memory};

    ghost from_gives = { λ _ e. e ≡ Memory };

    fn from(_: NoMemory) -> Self {
        HoldFault::Memory
    }
}

/// Counts the holders of each file of a directory, and removes a file whose last count goes. It is seen as the counted
/// names with their counts, and the names whose removal is due because it failed.
#[derive(Drop)]
pub struct FileDeleter {
    tally: Tally,
}

impl Model for FileDeleter {
    ghost use Rattle.file_deleter.specs.Holdings.{Holdings};
    ghost use Rattle.file_deleter.specs.Tally.{holdings_of, IsTallySound};

    ghost Value = { Holdings };

    ghost view = { λ a. holdings_of a.tally };

    ghost invariant = { λ a. IsTallySound a.tally };
}

impl FileDeleter {
    /// A deleter that counts nothing.
    pub fn new(alloc: Global) -> Result<Self, NoMemory>
        ensures { IfOk result (λ deleter. deleter ≡ record { counts = []; due = []; room = 0 }) }
    {
        Ok(FileDeleter {
            tally: Tally::new(alloc),
        })
    }

    /// Counts each name once more, as often as it is named, if the directory has them all. A name whose removal was
    /// due is due no longer. It makes the room that `release` and `sweep` need, and that of as many calls of
    /// `written` and `renamed` as it has names.
    pub fn hold<D: Dir>(&mut self, names: &[FileName], dir: &D) -> Result<(), HoldFault>
        ensures holds { OnOk result (HoldsFiles names.now self.old self.new (D.cells dir.now)) }
        ensures due { OnOk result (IsDueBut names.now self.old self.new) }
        ensures room { OnOk result (self.new.room ≡ max self.old.room (length names.now)) }
        ensures absent { (q : List ℕ) → IsErrOf result (HoldFault.Absent q)
            ↔ (first_missing (reads_of (D.cells dir.now)) names.now ≡ Some q) }
        ensures there { OnOk result (AreThere (D.cells dir.now) names.now) }
        ensures err { OnErr result (self.new ≡ self.old) }
    {
        if let Some(name) = first_missing(names, dir) {
            return Err(HoldFault::Absent(name));
        }
        self.tally.hold(names)?;
        Ok(())
    }

    /// Counts each name once more, as `hold` does, where the directory has them all; so only memory can be wanting. The
    /// directory is not asked.
    pub fn hold_there<D: Dir>(&mut self, names: &[FileName], _dir: &D) -> Result<(), NoMemory>
        requires { AreThere (D.cells _dir.now) names.now }
        ensures holds { OnOk result (HoldsFiles names.now self.old self.new (D.cells _dir.now)) }
        ensures due { OnOk result (IsDueBut names.now self.old self.new) }
        ensures room { OnOk result (self.new.room ≡ max self.old.room (length names.now)) }
        ensures err { OnErr result (self.new ≡ self.old) }
    {
        self.tally.hold(names)?;
        Ok(())
    }

    /// Counts each name once less, as often as it is named. Then it tries removals: first those of the names that are
    /// counted no more, ascending, then those that were due, ascending. Answers how many failed, or the greatest
    /// number of its type; these are due. Takes no memory.
    pub fn release<D: Dir>(&mut self, names: &[FileName], dir: &mut D) -> u32
        requires { AreCounted names.now self.old }
        ensures releases { Releases names.now self.old self.new (D.cells dir.old) (D.cells dir.new) }
        ensures order { RemovesInOrder names.now self.old self.new
            (directory_of D.cells D.plans D.faults dir.old)
            (directory_of D.cells D.plans D.faults dir.new) }
        ensures number { result ≡ min (length self.new.due) (2 ^ 32 - 1) }
        ensures room { self.new.room ≡ self.old.room }

        // In the words that callers carry, and the cause of a due removal.
        ensures lets_go { LetsGo names.now self.old self.new (D.cells dir.old) (D.cells dir.new) }
        ensures cause { 0 < length self.new.due → Rose (D.faults dir.old) (D.faults dir.new) }
        ensures later { D.faults dir.old ≤ D.faults dir.new }
    {
        self.tally.release(names, dir)
    }

    /// Tries the due removals again, ascending. Answers how many failed, or the greatest number of its type; these
    /// stay due. Takes no memory.
    pub fn sweep<D: Dir>(&mut self, dir: &mut D) -> u32
        ensures removals { Removals self.old.due self.new.due
            (directory_of D.cells D.plans D.faults dir.old)
            (directory_of D.cells D.plans D.faults dir.new) }
        ensures number { result ≡ min (length self.new.due) (2 ^ 32 - 1) }
        ensures counts { self.new ≡ record self.old { due = self.new.due } }

        // In the words that callers carry, and the cause of a due removal.
        ensures lets_go { LetsGo [] self.old self.new (D.cells dir.old) (D.cells dir.new) }
        ensures cause { 0 < length self.new.due → Rose (D.faults dir.old) (D.faults dir.new) }
        ensures later { D.faults dir.old ≤ D.faults dir.new }
    {
        self.tally.sweep(dir)
    }

    /// Makes room for as many calls of `written` and `renamed`.
    pub fn make_room(&mut self, places: usize) -> Result<(), NoMemory>
        ensures ok { OnOk result (self.new ≡ record self.old { room = max self.old.room places }) }
        ensures err { OnErr result (self.new ≡ self.old) }
    {
        self.tally.make_room(places)?;
        Ok(())
    }

    /// Counts a file once that was written. Takes no memory: `hold` and `make_room` make the room.
    pub fn written(&mut self, name: FileName)
        requires room { 0 < self.old.room }
        requires free { count_of self.old name ≡ 0 }
        requires clear { is_due self.old name ≡ false }
        ensures counts { (q : List ℕ) → count_of self.new q
            ≡ count_of self.old q + times (name ∷ []) q }
        ensures due { (q : List ℕ) → is_due self.new q ≡ is_due self.old q }
        ensures room { self.new.room + 1 ≡ self.old.room }
    {
        self.tally.written(name);
    }

    /// MovesCounts the count of a name whose file was renamed to the new name. Takes no memory: `hold` and `make_room` make
    /// the room.
    pub fn renamed(&mut self, from: &FileName, to: &FileName)
        requires room { 0 < self.old.room }
        requires counted { 0 < count_of self.old from.now }
        requires free { count_of self.old to.now ≡ 0 }
        requires clear { is_due self.old to.now ≡ false }
        ensures moves { RenamesCount from.now to.now self.old self.new }
        ensures due { self.new.due ≡ self.old.due }
        ensures room { self.new.room + 1 ≡ self.old.room }
    {
        self.tally.renamed(from, to);
    }

    /// How often the name is counted.
    pub fn count(&self, name: &FileName) -> u64
        ensures { result ≡ count_of self.now name.now }
    {
        self.tally.count(name)
    }

    /// The names whose removal is due, ascending.
    pub fn pending(&self, alloc: Global) -> Result<Vec<FileName>, NoMemory>
        ensures names { IfOk result (λ names. names.items ≡ self.now.due) }
        ensures ascending { IfOk result (λ names. IsStrictlySortedBy (slice_cmp nat_cmp) names.items) }
    {
        self.tally.due(alloc)
    }

    /// The names that are counted or whose removal is due, ascending.
    pub fn names(&self, alloc: Global) -> Result<Vec<FileName>, NoMemory>
        ensures names { IfOk result (λ names. (q : List ℕ)
            → is_among names.items q ≡ is_known self.now q) }
        ensures ascending { IfOk result (λ names. IsStrictlySortedBy (slice_cmp nat_cmp) names.items) }
    {
        self.tally.names(alloc)
    }

    /// Writes a file of a name that is not counted, and counts it once. Room is made first; a due removal of the name
    /// is tried before the write, and where it fails again so does the call. In a whole directory Exists never comes.
    pub fn create<D: Dir>(
        &mut self,
        name: FileName,
        bytes: Bytes,
        dir: &mut D,
    ) -> Result<(), DirFault>
        requires { count_of self.old name ≡ 0 }
        ensures creates { Creates name bytes self.old self.new (D.cells dir.old) (D.cells dir.new) result }
        ensures direct { is_due self.old name ≡ false
            → D.cells dir.new ≡ after_write (D.cells dir.old) name bytes result }
        ensures plans { is_due self.old name ≡ false
            → FailsByPlans (D.plans dir.old) (D.plans dir.new) result }
        ensures room { self.new.room ≡ self.old.room }
        ensures not_missing { IsErrOf result DirFault.Missing → ⊥ }
        ensures exists { IsErrOf result DirFault.Exists → IsInTheWay (D.cells dir.old) self.old name }
        ensures in_whole { IsWhole (D.cells dir.old) self.old → IfErr result IsMemoryOrFailed }
        ensures failed { IsErrOf result DirFault.Failed → Rose (D.faults dir.old) (D.faults dir.new) }
        ensures later { D.faults dir.old ≤ D.faults dir.new }
    {
        self.tally.create(name, bytes, dir)
    }

    /// Renames a counted file to a name that is not counted, and moves its count. Room is made first; a due removal
    /// of the new name is tried before the rename, and where it fails again so does the call. In a whole directory
    /// Missing and Exists never come.
    pub fn rename<D: Dir>(
        &mut self,
        from: &FileName,
        to: &FileName,
        dir: &mut D,
    ) -> Result<(), DirFault>
        requires counted { 0 < count_of self.old from.now }
        requires free { count_of self.old to.now ≡ 0 }
        ensures renames { Renames from.now to.now self.old self.new
            (D.cells dir.old) (D.cells dir.new) result }
        ensures direct { is_due self.old to.now ≡ false
            → D.cells dir.new ≡ after_rename (D.cells dir.old) from.now to.now result }
        ensures plans { is_due self.old to.now ≡ false
            → FailsByPlans (D.plans dir.old) (D.plans dir.new) result }
        ensures room { self.new.room ≡ self.old.room }
        ensures missing { IsErrOf result DirFault.Missing → (D.cells dir.old from.now).now ≡ None }
        ensures exists { IsErrOf result DirFault.Exists → IsInTheWay (D.cells dir.old) self.old to.now }
        ensures in_whole { IsWhole (D.cells dir.old) self.old → IfErr result IsMemoryOrFailed }
        ensures failed { IsErrOf result DirFault.Failed → Rose (D.faults dir.old) (D.faults dir.new) }
        ensures later { D.faults dir.old ≤ D.faults dir.new }
    {
        self.tally.rename(from, to, dir)
    }
}

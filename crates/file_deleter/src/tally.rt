//! The deleter's tables.

ghost use Rattle.std.specs.Prelude.{◌≡◌, ◌+◌, ◌-◌, ◌<◌, ◌≤◌, ◌^◌, ℕ, List, [], ◌∷◌, false, All, Some, None, Ok, Err, OnOk, OnErr, IsOk, IfOk, IsErrOf, MatchOption, IsSome, slice_index_or, length, min, max};
ghost use Rattle.std.specs.Cmp.Lexicographic.{slice_cmp};
ghost use Rattle.std.specs.Ordering.{nat_cmp};
ghost use Rattle.std.specs.List.Sorted.{IsStrictlySortedBy};
ghost use Rattle.disk_model.specs.Given.{Rose};
ghost use Rattle.disk_model.specs.Disk.{is_among, after_write, after_rename};
ghost use Rattle.disk_model.specs.Faults.{FailsByPlans};
ghost use Rattle.file_deleter.specs.Holdings.{count_of, is_due, is_known, IsInTheWay, AreCounted};
ghost use Rattle.file_deleter.specs.Removals.{directory_of, Removals};
ghost use Rattle.file_deleter.specs.Moves.{Creates, RenamesCount, Renames};
ghost use Rattle.file_deleter.specs.Tally.{holdings_of, IsInOrder, HasRoom, IsTallySound, Adds, Retried, Released};

use crate::counts::{self, Counts};
use crate::removals::{drop_counted, merge, stays, try_each};
use bytes::Bytes;
use disk_model::{Dir, DirFault, FileName, NoMemory};
use indexmap::IndexMap;
use std::alloc::{AllocError, Global};

/// The counted names with their counts; the names whose removal is due, ascending; within a release those whose
/// count fell to 0; and how often there is room for one more name or a rename.
#[derive(Drop)]
pub(crate) struct Tally {
    pub(crate) counts: Counts,
    pub(crate) due: Vec<FileName>,
    pub(crate) fallen: Vec<FileName>,
    pub(crate) places: usize,
}

impl Tally {
    pub(crate) fn new(alloc: Global) -> Self
        ensures sound { IsTallySound result }
        ensures holdings { holdings_of result ≡ record { counts = []; due = []; room = 0 } }
    {
        Tally {
            counts: IndexMap::new(alloc),
            due: Vec::new(alloc),
            fallen: Vec::new(alloc),
            places: 0,
        }
    }

    /// How often the name is counted.
    pub(crate) fn count(&self, name: &FileName) -> u64
        ensures { result ≡ count_of (holdings_of self.now) name.now }
    {
        counts::count(&self.counts, name)
    }

    // Makes room for more names beside the places that there are.
    fn reserve(&mut self, names: usize, places: usize) -> Result<(), NoMemory>
        requires sound { IsTallySound self.old }
        ensures sound { IsTallySound self.new }
        ensures holdings { holdings_of self.new ≡ holdings_of self.old }
        ensures room { OnOk result (HasRoom self.new (names + places)) }
    {
        let Some(more) = names.checked_add(places) else {
            return Err(AllocError);
        };
        let Some(space) = self.counts.len().checked_add(more) else {
            return Err(AllocError);
        };
        self.counts.reserve(more)?;
        self.due.reserve(space)?;
        self.fallen.reserve(space)
    }

    /// Makes room for as many more names or renames.
    pub(crate) fn make_room(&mut self, places: usize) -> Result<(), NoMemory>
        requires sound { IsTallySound self.old }
        ensures sound { IsTallySound self.new }
        ensures counts { self.new.counts.entries ≡ self.old.counts.entries }
        ensures due { self.new.due.items ≡ self.old.due.items }
        ensures room { OnOk result (self.new.places ≡ max self.old.places places) }
        ensures err { OnErr result (holdings_of self.new ≡ holdings_of self.old) }
    {
        let places = self.places.max(places);
        self.reserve(0, places)?;
        self.places = places;
        Ok(())
    }

    // Counts each name once more. There is room for them and for the places.
    fn add(&mut self, names: &[FileName], places: usize)
        requires order { IsInOrder self.old.counts.entries self.old.due.items }
        requires room { HasRoom self.old (length names.now + places) }
        requires fallen { self.old.fallen.items ≡ [] }
        requires fits { All
            (λ q. count_of (holdings_of self.old) q + length names.now < 2 ^ 64) names.now }
        ensures sound { IsTallySound self.new }
        ensures adds { Adds names.now (holdings_of self.old) (holdings_of self.new) }
        ensures room { self.new.places ≡ places }
    {
        counts::add_all(&mut self.counts, names);
        drop_counted(&mut self.due, &self.counts);
        self.places = places;
    }

    /// Counts each name once more, and makes room for as many more names or renames.
    pub(crate) fn hold(&mut self, names: &[FileName]) -> Result<(), NoMemory>
        requires sound { IsTallySound self.old }
        ensures sound { IsTallySound self.new }
        ensures adds { OnOk result (Adds names.now (holdings_of self.old) (holdings_of self.new)) }
        ensures room { OnOk result (self.new.places ≡ max self.old.places (length names.now)) }
        ensures err { OnErr result (holdings_of self.new ≡ holdings_of self.old) }
    {
        if !counts::fit(&self.counts, names) {
            return Err(AllocError);
        }
        let places = self.places.max(names.len());
        self.reserve(names.len(), places)?;
        self.add(names, places);
        Ok(())
    }

    // The place of a name among those that are due.
    fn place_of(&self, name: &FileName) -> Option<usize>
        requires { IsStrictlySortedBy (slice_cmp nat_cmp) self.now.due.items }
        ensures { MatchOption result (is_among self.now.due.items name.now ≡ false)
            (λ place. (place < length self.now.due.items)
            × (name.now ≡ slice_index_or self.now.due.items place name.now)) }
    {
        match self.due.binary_search(name) {
            Ok(place) => Some(place),
            Err(_) => None,
        }
    }

    // Tries the removal of a name again, if it is due.
    fn retry<D: Dir>(&mut self, name: &FileName, dir: &mut D) -> Result<(), DirFault>
        requires sound { IsTallySound self.old }
        ensures sound { IsTallySound self.new }
        ensures room { (places : ℕ) → HasRoom self.old places → HasRoom self.new places }
        ensures places { self.new.places ≡ self.old.places }
        ensures retried { Retried name.now (holdings_of self.old) (holdings_of self.new)
            (D.cells dir.old) (D.cells dir.new) }
        ensures done { OnOk result (is_due (holdings_of self.new) name.now ≡ false) }
        ensures idle { is_due (holdings_of self.old) name.now ≡ false
            → IsOk result × (D.cells dir.new ≡ D.cells dir.old) × (D.plans dir.new ≡ D.plans dir.old) }
        ensures only { OnErr result (IsErrOf result DirFault.Failed) }
        ensures failed { IsErrOf result DirFault.Failed → Rose (D.faults dir.old) (D.faults dir.new) }
        ensures later { D.faults dir.old ≤ D.faults dir.new }
    {
        let Some(place) = self.place_of(name) else {
            return Ok(());
        };
        if stays(name, dir) {
            return Err(DirFault::Failed);
        }
        self.due.remove(place);
        Ok(())
    }

    /// Writes a file and counts it once.
    pub(crate) fn create<D: Dir>(
        &mut self,
        name: FileName,
        bytes: Bytes,
        dir: &mut D,
    ) -> Result<(), DirFault>
        requires sound { IsTallySound self.old }
        requires free { count_of (holdings_of self.old) name ≡ 0 }
        ensures sound { IsTallySound self.new }
        ensures creates { Creates name bytes (holdings_of self.old) (holdings_of self.new)
            (D.cells dir.old) (D.cells dir.new) result }
        ensures direct { is_due (holdings_of self.old) name ≡ false
            → D.cells dir.new ≡ after_write (D.cells dir.old) name bytes result }
        ensures plans { is_due (holdings_of self.old) name ≡ false
            → FailsByPlans (D.plans dir.old) (D.plans dir.new) result }
        ensures room { self.new.places ≡ self.old.places }
        ensures not_missing { IsErrOf result DirFault.Missing → ⊥ }
        ensures exists { IsErrOf result DirFault.Exists
            → IsInTheWay (D.cells dir.old) (holdings_of self.old) name }
        ensures failed { IsErrOf result DirFault.Failed → Rose (D.faults dir.old) (D.faults dir.new) }
        ensures later { D.faults dir.old ≤ D.faults dir.new }
    {
        let places = self.places;
        self.reserve(1, places)?;
        self.retry(&name, dir)?;
        match dir.write_new(&name, bytes) {
            Ok(()) => {
                self.add(&[name], places);
                Ok(())
            }
            Err(fault) => Err(fault),
        }
    }

    /// Counts a file once that was written. There is room.
    pub(crate) fn written(&mut self, name: FileName)
        requires sound { IsTallySound self.old }
        requires room { 0 < self.old.places }
        requires free { count_of (holdings_of self.old) name ≡ 0 }
        requires clear { is_due (holdings_of self.old) name ≡ false }
        ensures sound { IsTallySound self.new }
        ensures adds { Adds (name ∷ []) (holdings_of self.old) (holdings_of self.new) }
        ensures room { self.new.places + 1 ≡ self.old.places }
    {
        let places = self.places - 1;
        self.add(&[name], places);
    }

    // MovesCounts the count of a name to another, and leaves these places.
    fn shift(&mut self, from: &FileName, to: &FileName, places: usize)
        requires order { IsInOrder self.old.counts.entries self.old.due.items }
        requires room { HasRoom self.old (1 + places) }
        requires fallen { self.old.fallen.items ≡ [] }
        requires counted { 0 < count_of (holdings_of self.old) from.now }
        requires free { count_of (holdings_of self.old) to.now ≡ 0 }
        requires clear { is_due (holdings_of self.old) to.now ≡ false }
        ensures sound { IsTallySound self.new }
        ensures moves { RenamesCount from.now to.now (holdings_of self.old) (holdings_of self.new) }
        ensures due { self.new.due.items ≡ self.old.due.items }
        ensures room { self.new.places ≡ places }
    {
        let count = counts::count(&self.counts, from);
        counts::forget(&mut self.counts, from);
        // There is room, so this takes no memory.
        let _ = self.counts.insert(*to, count);
        self.places = places;
    }

    /// Renames a file and moves its count.
    pub(crate) fn rename<D: Dir>(
        &mut self,
        from: &FileName,
        to: &FileName,
        dir: &mut D,
    ) -> Result<(), DirFault>
        requires sound { IsTallySound self.old }
        requires counted { 0 < count_of (holdings_of self.old) from.now }
        requires free { count_of (holdings_of self.old) to.now ≡ 0 }
        ensures sound { IsTallySound self.new }
        ensures renames { Renames from.now to.now (holdings_of self.old) (holdings_of self.new)
            (D.cells dir.old) (D.cells dir.new) result }
        ensures direct { is_due (holdings_of self.old) to.now ≡ false
            → D.cells dir.new ≡ after_rename (D.cells dir.old) from.now to.now result }
        ensures plans { is_due (holdings_of self.old) to.now ≡ false
            → FailsByPlans (D.plans dir.old) (D.plans dir.new) result }
        ensures room { self.new.places ≡ self.old.places }
        ensures missing { IsErrOf result DirFault.Missing → (D.cells dir.old from.now).now ≡ None }
        ensures exists { IsErrOf result DirFault.Exists
            → IsInTheWay (D.cells dir.old) (holdings_of self.old) to.now }
        ensures failed { IsErrOf result DirFault.Failed → Rose (D.faults dir.old) (D.faults dir.new) }
        ensures later { D.faults dir.old ≤ D.faults dir.new }
    {
        let places = self.places;
        self.reserve(1, places)?;
        self.retry(to, dir)?;
        match dir.rename(from, to) {
            Ok(()) => {
                self.shift(from, to, places);
                Ok(())
            }
            Err(fault) => Err(fault),
        }
    }

    /// MovesCounts the count of a name whose file was renamed.
    pub(crate) fn renamed(&mut self, from: &FileName, to: &FileName)
        requires sound { IsTallySound self.old }
        requires room { 0 < self.old.places }
        requires counted { 0 < count_of (holdings_of self.old) from.now }
        requires free { count_of (holdings_of self.old) to.now ≡ 0 }
        requires clear { is_due (holdings_of self.old) to.now ≡ false }
        ensures sound { IsTallySound self.new }
        ensures moves { RenamesCount from.now to.now (holdings_of self.old) (holdings_of self.new) }
        ensures due { self.new.due.items ≡ self.old.due.items }
        ensures room { self.new.places + 1 ≡ self.old.places }
    {
        let places = self.places - 1;
        self.shift(from, to, places);
    }

    // How many removals are due, or the greatest number of its type.
    fn failures(&self) -> u32
        ensures { result ≡ min (length self.now.due.items) (2 ^ 32 - 1) }
    {
        u32::try_from(self.due.len()).unwrap_or(u32::MAX)
    }

    /// Counts each name once less, and tries the removals that are then due.
    pub(crate) fn release<D: Dir>(&mut self, names: &[FileName], dir: &mut D) -> u32
        requires sound { IsTallySound self.old }
        requires counted { AreCounted names.now (holdings_of self.old) }
        ensures sound { IsTallySound self.new }
        ensures released { Released names.now (holdings_of self.old) (holdings_of self.new)
            (directory_of D.cells D.plans D.faults dir.old)
            (directory_of D.cells D.plans D.faults dir.new) }
        ensures number { result ≡ min (length self.new.due.items) (2 ^ 32 - 1) }
        ensures room { self.new.places ≡ self.old.places }
    {
        counts::take_all(&mut self.counts, names, &mut self.fallen);
        self.fallen.sort_unstable();
        try_each(&mut self.fallen, dir);
        try_each(&mut self.due, dir);
        merge(&mut self.due, &mut self.fallen);
        self.failures()
    }

    /// Tries the due removals again.
    pub(crate) fn sweep<D: Dir>(&mut self, dir: &mut D) -> u32
        requires sound { IsTallySound self.old }
        ensures sound { IsTallySound self.new }
        ensures removals { Removals self.old.due.items self.new.due.items
            (directory_of D.cells D.plans D.faults dir.old)
            (directory_of D.cells D.plans D.faults dir.new) }
        ensures number { result ≡ min (length self.new.due.items) (2 ^ 32 - 1) }
        ensures counts { self.new.counts.entries ≡ self.old.counts.entries }
        ensures room { self.new.places ≡ self.old.places }
    {
        try_each(&mut self.due, dir);
        self.failures()
    }

    /// The names whose removal is due.
    pub(crate) fn due(&self, alloc: Global) -> Result<Vec<FileName>, NoMemory>
        ensures { IfOk result (λ names. names.items ≡ self.now.due.items) }
    {
        Vec::from_slice(alloc, self.due.as_slice())
    }

    /// The counted and the due names.
    pub(crate) fn names(&self, alloc: Global) -> Result<Vec<FileName>, NoMemory>
        requires order { IsInOrder self.now.counts.entries self.now.due.items }
        ensures names { IfOk result (λ names. (q : List ℕ)
            → is_among names.items q ≡ is_known (holdings_of self.now) q) }
        ensures ascending { IfOk result (λ names. IsStrictlySortedBy (slice_cmp nat_cmp) names.items) }
    {
        let mut names = counts::names(&self.counts, alloc)?;
        names.extend_from_slice(self.due.as_slice())?;
        names.sort_unstable();
        // No name is both counted and due, so this takes none out.
        names.dedup();
        Ok(names)
    }
}

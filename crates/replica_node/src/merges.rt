//! The copies of merged segments.

ghost use Rattle.std.specs.Prelude.{◌≡◌, ◌<◌, ◌≤◌, ◌++◌, ◌∷◌, [], true, is_some, Some, IfSome, IfErr, IsErrOf, OnOk, OnErr, slice_get, length};
ghost use Rattle.std.specs.Option.{option_map};
ghost use Rattle.std.specs.List.{remove};
ghost use Rattle.nrt_base.specs.Causes.{Rose};
ghost use Rattle.file_deleter.specs.Holdings.{AreCounted, AreThere, IsWhole};
ghost use Rattle.file_deleter.specs.Moves.{MovesCounts, HoldsFiles};
ghost use Rattle.copy_job.specs.Parts.{ArePlaceable};
ghost use Rattle.copy_job.specs.Placing.{IsPlacingFault};
ghost use Rattle.replica_node.specs.Merges.{copy_at, copies_without, copy_place, running_names, CanTakePart};
ghost use Rattle.replica_node.specs.Moving.{PartComes, PartsPlaced, SetsCopy, ChangesCopy};

use crate::job::told;
use copy_job::{CopyJob, JobFault, Part};
use disk_model::Dir;
use file_deleter::FileDeleter;
use merge_precopy::Precopies;
use nrt_base::NoMemory;
use std::alloc::Global;
use std::marker::Model;

/// Copies of merged segments that run, in the order in which they began.
#[derive(Drop)]
pub struct RunningCopies {
    items: Vec<CopyJob>,
}

impl Model for RunningCopies {
    ghost use Rattle.std.specs.Prelude.{List};
    ghost use Rattle.copy_job.specs.Jobs.{Job};

    ghost Value = { List Job };

    ghost view = { λ c. c.items.items };
}

/// The copies of merged segments to a replica: those that run, and the files that have come and belong to no point yet.
#[derive(Drop)]
pub struct MergeCopies {
    pub running: RunningCopies,
    pub pending: Precopies,
}

// The place of the copy with this number, or the length.
fn place_of(copies: &[CopyJob], number: u64) -> usize
    ensures { result ≡ copy_place number copies.now }
{
    let mut i = 0;
    while i < copies.len() {
        if copies[i].number() == number {
            return i;
        }
        i += 1;
    }
    i
}

// The copy at a place.
fn copy_at_place(copies: &[CopyJob], at: usize) -> Option<&CopyJob>
    ensures { option_map (λ c. c.now) result ≡ slice_get copies.now at }
{
    copies.get(at)
}

// Takes the copy at a place out.
fn take_at(copies: &mut Vec<CopyJob>, at: usize) -> CopyJob
    requires { at < length copies.old.items }
    ensures rest { copies.new.items ≡ remove copies.old.items at }
    ensures copy { Some result ≡ slice_get copies.old.items at }
{
    copies.remove(at)
}

// Writes a part of the copy at this place.
fn arrive_at<D: Dir>(
    copies: &mut [CopyJob],
    at: usize,
    part: Part,
    files: &mut FileDeleter,
    dir: &mut D,
) -> Result<(), JobFault>
    requires within { at < length copies.old }
    requires takes { IfSome (slice_get copies.old at) (CanTakePart part files.old) }
    requires whole { IsWhole (D.cells dir.old) files.old }
    ensures copy { IfSome (slice_get copies.old at) (λ c.
        SetsCopy (λ k. PartComes c k part.name part.bytes files.old files.new
        (D.cells dir.old) (D.cells dir.new) result) at copies.old copies.new) }
    ensures fault { IfErr result IsPlacingFault }
    ensures failed { IsErrOf result JobFault.DirFailed → Rose (D.faults dir.old) (D.faults dir.new) }
    ensures later { D.faults dir.old ≤ D.faults dir.new }
{
    let result = copies[at].arrived(part, files, dir);
    told(&copies[at]);
    result
}

// Gives the parts of the copy at this place their own names.
fn place_at<D: Dir>(
    copies: &mut [CopyJob],
    at: usize,
    files: &mut FileDeleter,
    dir: &mut D,
) -> Result<(), JobFault>
    requires within { at < length copies.old }
    requires placeable { IfSome (slice_get copies.old at) (λ c. ArePlaceable files.old c.parts) }
    requires whole { IsWhole (D.cells dir.old) files.old }
    ensures copy { IfSome (slice_get copies.old at) (λ c.
        SetsCopy (λ k. PartsPlaced c k files.old files.new
        (D.cells dir.old) (D.cells dir.new) result) at copies.old copies.new) }
    ensures fault { IfErr result IsPlacingFault }
    ensures failed { IsErrOf result JobFault.DirFailed → Rose (D.faults dir.old) (D.faults dir.new) }
    ensures later { D.faults dir.old ≤ D.faults dir.new }
{
    let result = copies[at].place(files, dir);
    told(&copies[at]);
    result
}

// Writes a part of the copy with this number.
fn arrive_in<D: Dir>(
    copies: &mut Vec<CopyJob>,
    number: u64,
    part: Part,
    files: &mut FileDeleter,
    dir: &mut D,
) -> Result<(), JobFault>
    requires runs { is_some (copy_at number copies.old.items) ≡ true }
    requires takes { IfSome (copy_at number copies.old.items) (CanTakePart part files.old) }
    requires whole { IsWhole (D.cells dir.old) files.old }
    ensures copy { IfSome (copy_at number copies.old.items) (λ c.
        ChangesCopy (λ k. PartComes c k part.name part.bytes files.old files.new
        (D.cells dir.old) (D.cells dir.new) result) number copies.old.items copies.new.items) }
    ensures fault { IfErr result IsPlacingFault }
    ensures failed { IsErrOf result JobFault.DirFailed → Rose (D.faults dir.old) (D.faults dir.new) }
    ensures later { D.faults dir.old ≤ D.faults dir.new }
{
    let at = place_of(copies.as_slice(), number);
    arrive_at(copies.as_mut_slice(), at, part, files, dir)
}

// Gives the parts of the copy with this number their own names.
fn place_in<D: Dir>(
    copies: &mut Vec<CopyJob>,
    number: u64,
    files: &mut FileDeleter,
    dir: &mut D,
) -> Result<(), JobFault>
    requires runs { is_some (copy_at number copies.old.items) ≡ true }
    requires placeable { IfSome (copy_at number copies.old.items) (λ c.
        ArePlaceable files.old c.parts) }
    requires whole { IsWhole (D.cells dir.old) files.old }
    ensures copy { IfSome (copy_at number copies.old.items) (λ c.
        ChangesCopy (λ k. PartsPlaced c k files.old files.new
        (D.cells dir.old) (D.cells dir.new) result) number copies.old.items copies.new.items) }
    ensures fault { IfErr result IsPlacingFault }
    ensures failed { IsErrOf result JobFault.DirFailed → Rose (D.faults dir.old) (D.faults dir.new) }
    ensures later { D.faults dir.old ≤ D.faults dir.new }
{
    let at = place_of(copies.as_slice(), number);
    place_at(copies.as_mut_slice(), at, files, dir)
}

// Ends each copy, the last one first.
fn end_each<D: Dir>(copies: &mut Vec<CopyJob>, files: &mut FileDeleter, dir: &mut D)
    requires { AreCounted (running_names copies.old.items) files.old }
    ensures none { copies.new.items ≡ [] }
    ensures moves { MovesCounts [] (running_names copies.old.items) [] files.old files.new
        (D.cells dir.old) (D.cells dir.new) }
    ensures later { D.faults dir.old ≤ D.faults dir.new }
{
    while let Some(copy) = copies.pop() {
        copy.end(files, dir);
    }
}

impl RunningCopies {
    /// No copy runs.
    pub fn new(alloc: Global) -> Self
        ensures { result ≡ [] }
    {
        RunningCopies {
            items: Vec::new(alloc),
        }
    }

    /// The copies, in the order in which they began.
    pub fn items(&self) -> &[CopyJob]
        ensures { result.now ≡ self.now }
    {
        self.items.as_slice()
    }

    /// The copy with this number.
    pub fn copy(&self, number: u64) -> Option<&CopyJob>
        ensures { option_map (λ c. c.now) result ≡ copy_at number self.now }
    {
        let items = self.items.as_slice();
        let at = place_of(items, number);
        copy_at_place(items, at)
    }

    /// Takes the copy with this number out.
    #[tactic(auto, using(crate::proofs::Merging::copy_places))]
    pub fn take(&mut self, number: u64) -> CopyJob
        requires { is_some (copy_at number self.old) ≡ true }
        ensures rest { self.new ≡ copies_without number self.old }
        ensures copy { Some result ≡ copy_at number self.old }
    {
        let at = place_of(self.items.as_slice(), number);
        take_at(&mut self.items, at)
    }

    /// Adds a copy that begins, and counts the files that it reuses once more.
    pub fn begin<D: Dir>(
        &mut self,
        alloc: Global,
        copy: CopyJob,
        files: &mut FileDeleter,
        dir: &D,
    ) -> Result<(), NoMemory>
        requires { AreThere (D.cells dir.now) copy.reused }
        ensures ok { OnOk result (self.new ≡ self.old ++ copy ∷ []) }
        ensures holds { OnOk result (HoldsFiles copy.reused files.old files.new (D.cells dir.now)) }
        ensures err { OnErr result ((self.new ≡ self.old) × (files.new ≡ files.old)) }
    {
        let mut reused = Vec::new(alloc);
        reused.extend_from_slice(copy.reused())?;
        self.items.push(copy)?;
        match files.hold_there(reused.as_slice(), dir) {
            Ok(()) => Ok(()),
            Err(fault) => {
                self.items.pop();
                Err(fault)
            }
        }
    }

    /// Writes a part of the copy with this number under its temporary name. After a refusal it is still missing.
    pub fn arrived<D: Dir>(
        &mut self,
        number: u64,
        part: Part,
        files: &mut FileDeleter,
        dir: &mut D,
    ) -> Result<(), JobFault>
        requires runs { is_some (copy_at number self.old) ≡ true }
        requires takes { IfSome (copy_at number self.old) (CanTakePart part files.old) }
        requires whole { IsWhole (D.cells dir.old) files.old }
        ensures copy { IfSome (copy_at number self.old) (λ c.
            ChangesCopy (λ k. PartComes c k part.name part.bytes files.old files.new
            (D.cells dir.old) (D.cells dir.new) result) number self.old self.new) }

        // The causes of a refusal.
        ensures fault { IfErr result IsPlacingFault }
        ensures failed { IsErrOf result JobFault.DirFailed
            → Rose (D.faults dir.old) (D.faults dir.new) }
        ensures later { D.faults dir.old ≤ D.faults dir.new }
    {
        arrive_in(&mut self.items, number, part, files, dir)
    }

    /// Gives the parts of the copy with this number their own names, in order, and ends at the first rename that is refused.
    pub fn place<D: Dir>(
        &mut self,
        number: u64,
        files: &mut FileDeleter,
        dir: &mut D,
    ) -> Result<(), JobFault>
        requires runs { is_some (copy_at number self.old) ≡ true }
        requires placeable { IfSome (copy_at number self.old) (λ c. ArePlaceable files.old c.parts) }
        requires whole { IsWhole (D.cells dir.old) files.old }
        ensures copy { IfSome (copy_at number self.old) (λ c.
            ChangesCopy (λ k. PartsPlaced c k files.old files.new
            (D.cells dir.old) (D.cells dir.new) result) number self.old self.new) }

        // The causes of a refusal.
        ensures fault { IfErr result IsPlacingFault }
        ensures failed { IsErrOf result JobFault.DirFailed
            → Rose (D.faults dir.old) (D.faults dir.new) }
        ensures later { D.faults dir.old ≤ D.faults dir.new }
    {
        place_in(&mut self.items, number, files, dir)
    }

    /// Ends each copy, and gives back what it held. Takes no memory.
    pub fn end_all<D: Dir>(&mut self, files: &mut FileDeleter, dir: &mut D)
        requires { AreCounted (running_names self.old) files.old }
        ensures none { self.new ≡ [] }
        ensures moves { MovesCounts [] (running_names self.old) [] files.old files.new
            (D.cells dir.old) (D.cells dir.new) }
        ensures later { D.faults dir.old ≤ D.faults dir.new }
    {
        end_each(&mut self.items, files, dir);
    }
}

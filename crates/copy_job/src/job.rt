//! A job: the files of a point that are copied, and those that need not be.

ghost use Rattle.std.specs.Prelude.{filter, not, ◌≡◌, ◌≤◌, ◌<◌, ◌⊎◌, ◌+◌, ℕ, List, [], ◌∷◌, ◌++◌, length, Some, Ok, Err, IfOk, IfErr, OnOk, OnErr, IsErrOf};
ghost use Rattle.std.specs.Vec.{vec_capacity};
ghost use Rattle.nrt_base.specs.Causes.{Rose};
ghost use Rattle.file_names.specs.Names.{temp_name_of};
ghost use Rattle.disk_model.specs.Disk.{same};
ghost use Rattle.disk_model.specs.Faults.{IsMemoryOrFailed};
ghost use Rattle.file_deleter.specs.Holdings.{count_of, times, IsWhole, AreCounted};
ghost use Rattle.file_deleter.specs.Moves.{MovesCounts, LetsGo};
ghost use Rattle.std.specs.List.Sorted.{IsStrictlySortedBy};
ghost use Rattle.std.specs.Ordering.{nat_cmp};
ghost use Rattle.std.specs.Cmp.Lexicographic.{slice_cmp};
ghost use Rattle.copy_state.specs.States.{meta_names, meta_in, IsCopyState};
ghost use Rattle.copy_job.specs.Parts.{ArePlaceable, own_names};
ghost use Rattle.copy_job.specs.Placing.{Places, IsPlacingFault};
ghost use Rattle.copy_job.specs.Jobs.{IsJob, job_names, begun_job, with_part, taken_over, AreAgreed, IsBeginningFault};

use crate::copying::Part;
use crate::fault::JobFault;
use crate::part::{JobKind, JobPart, put_part};
use crate::placing::place;
use crate::sorting::{Sorted, sort_out};
use crate::takeover::{Wants, strike_own, take_parts};
use copy_state::{CopyState, FileMetaData};
use disk_model::{Dir, DirFault};
use file_deleter::FileDeleter;
use file_names::{FileName, temp_name};
use nrt_base::{List, NoMemory};
use std::alloc::Global;
use std::marker::Model;

/// A copy of a point, or of a merged segment, to a node.
#[derive(Drop)]
pub struct CopyJob {
    number: u64,
    kind: JobKind,
    want: CopyState,
    missing: Vec<FileName>,
    parts: Vec<JobPart>,
    reused: List<FileName>,
    // What the job holds: the files that it reuses, and then its parts under the names that they have
    // now. There is room for what is missing in the parts and here.
    names: Vec<FileName>,
}

impl Model for CopyJob {
    ghost use Rattle.std.specs.Prelude.{◌≡◌, ◌≤◌, ◌+◌, ◌++◌, length};
    ghost use Rattle.std.specs.Vec.{vec_capacity};
    ghost use Rattle.copy_job.specs.Jobs.{Job, IsJob};
    ghost use Rattle.copy_job.specs.Parts.{present_names};

    ghost Value = { Job };

    ghost view = { λ j. record {
      number = j.number;
      kind = j.kind;
      want = j.want;
      missing = j.missing.items;
      parts = j.parts.items;
      reused = j.reused;
    } };

    ghost invariant = { λ j. (j.names.items ≡ j.reused ++ present_names j.parts.items)
        × IsJob (record {
          number = j.number;
          kind = j.kind;
          want = j.want;
          missing = j.missing.items;
          parts = j.parts.items;
          reused = j.reused;
        })
        × (length j.missing.items + length j.parts.items ≤ vec_capacity j.parts)
        × (length j.missing.items + length j.names.items ≤ vec_capacity j.names) };
}

// Takes a name out, wherever it stands.
fn strike(names: &mut Vec<FileName>, name: &FileName)
    ensures { names.new.items ≡ filter (λ q. not (same q name.now)) names.old.items }
{
    names.retain(|q| q != name);
}

// The names, and room for as many more.
fn names_with_room(
    alloc: Global,
    names: &[FileName],
    more: usize,
) -> Result<Vec<FileName>, NoMemory>
    ensures items { IfOk result (λ v. v.items ≡ names.now) }
    ensures room { IfOk result (λ v. more + length v.items ≤ vec_capacity v) }
{
    let mut copies = Vec::new(alloc);
    copies.extend_from_slice(names)?;
    copies.reserve(more)?;
    Ok(copies)
}

// The fault of a job whose part is not written.
fn unwritten(fault: DirFault) -> JobFault
    requires { IsMemoryOrFailed fault }
    ensures fault { IsPlacingFault result }
    ensures failed { result ≡ JobFault.DirFailed → fault ≡ DirFault.Failed }
{
    match fault {
        DirFault::Memory => JobFault::Memory,
        DirFault::Failed => JobFault::DirFailed,
        DirFault::Missing | DirFault::Exists => unreachable!(),
    }
}

impl CopyJob {
    /// A job that lacks the files of a state that are not held, and reuses those that are held with the
    /// same metadata. The held files ascend. A file that is held with other metadata, the first in the
    /// order of the state, is a clash.
    pub fn begin(
        alloc: Global,
        number: u64,
        kind: JobKind,
        want: CopyState,
        held: &[(FileName, FileMetaData)],
    ) -> Result<CopyJob, JobFault>
        requires state { IsCopyState want }
        requires held { IsStrictlySortedBy (slice_cmp nat_cmp) (meta_names held.now) }

        ensures job { IfOk result (λ j. j ≡ begun_job number kind want held.now) }
        ensures agreed { OnOk result (AreAgreed held.now want.files) }
        ensures fault { IfErr result (IsBeginningFault held.now want.files) }
    {
        let Sorted { missing, reused } = sort_out(alloc, want.files.as_slice(), held)?;
        let missing = missing.into_vec();
        let parts = Vec::with_capacity(alloc, missing.as_slice().len())?;
        let names = names_with_room(alloc, reused.as_slice(), missing.as_slice().len())?;
        Ok(CopyJob {
            number,
            kind,
            want,
            missing,
            parts,
            reused,
            names,
        })
    }

    pub fn number(&self) -> u64
        ensures { result ≡ self.now.number }
    {
        self.number
    }

    pub fn kind(&self) -> JobKind
        ensures { result ≡ self.now.kind }
    {
        self.kind
    }

    /// The state that the job was begun with.
    pub fn want(&self) -> &CopyState
        ensures { result.now ≡ self.now.want }
    {
        &self.want
    }

    /// The files that are still to come, ascending.
    pub fn missing(&self) -> &[FileName]
        ensures names { result.now ≡ self.now.missing }
        ensures job { IsJob self.now }
    {
        self.missing.as_slice()
    }

    /// The finished parts, ascending by their own names.
    pub fn parts(&self) -> &[JobPart]
        ensures parts { result.now ≡ self.now.parts }
        ensures ascending { IsStrictlySortedBy (slice_cmp nat_cmp) (own_names self.now.parts) }
    {
        self.parts.as_slice()
    }

    /// The files that were held already.
    pub fn reused(&self) -> &[FileName]
        ensures { result.now ≡ self.now.reused }
    {
        self.reused.as_slice()
    }

    /// Writes a file that arrived under its temporary name. After a refusal it is still missing.
    pub fn arrived<D: Dir>(
        &mut self,
        part: Part,
        files: &mut FileDeleter,
        dir: &mut D,
    ) -> Result<(), JobFault>
        requires missing { 0 < times self.old.missing part.name }
        requires meta { meta_in self.old.want.files part.name ≡ Some part.meta }
        requires free { count_of files.old (temp_name_of part.name self.old.number) ≡ 0 }
        requires whole { IsWhole (D.cells dir.old) files.old }

        ensures ok { OnOk result (self.new ≡ with_part self.old part.name) }
        ensures err { OnErr result (self.new ≡ self.old) }
        ensures reads { OnOk result
            ((D.cells dir.new (temp_name_of part.name self.old.number)).now ≡ Some part.bytes) }
        ensures moves { MovesCounts (temp_name_of part.name self.old.number ∷ [])
            (job_names self.old) (job_names self.new)
            files.old files.new (D.cells dir.old) (D.cells dir.new) }

        // The causes of a refusal.
        ensures fault { IfErr result IsPlacingFault }
        ensures failed { IsErrOf result JobFault.DirFailed
            → Rose (D.faults dir.old) (D.faults dir.new) }
        ensures later { D.faults dir.old ≤ D.faults dir.new }
    {
        let Part { name, bytes, .. } = part;
        let arrived = JobPart {
            own: name,
            now: temp_name(&name, self.number),
        };
        match files.create(arrived.now, bytes, dir) {
            Ok(()) => {
                put_part(&mut self.parts, &mut self.names, arrived);
                strike(&mut self.missing, &name);
                Ok(())
            }
            Err(fault) => Err(unwritten(fault)),
        }
    }

    /// Takes over the finished parts of an older job that this one lacks and wants with the same metadata, and
    /// gives back all else that the older job holds, by one release. Takes no memory.
    pub fn transfer<D: Dir>(&mut self, old: CopyJob, files: &mut FileDeleter, dir: &mut D)
        requires none { self.old.parts ≡ [] }
        requires counted { AreCounted (job_names self.old ++ job_names old) files.old }
        ensures job { self.new ≡ taken_over self.old old }
        ensures moves { MovesCounts [] (job_names self.old ++ job_names old) (job_names self.new)
            files.old files.new (D.cells dir.old) (D.cells dir.new) }
        ensures later { D.faults dir.old ≤ D.faults dir.new }
    {
        let CopyJob {
            want,
            parts,
            mut names,
            ..
        } = old;
        let wants = Wants {
            missing: self.missing.as_slice(),
            had: want.files.as_slice(),
            wanted: self.want.files.as_slice(),
        };
        let kept = take_parts(
            wants,
            parts.as_slice(),
            &mut self.parts,
            &mut self.names,
            &mut names,
        );
        strike_own(&mut self.missing, self.parts.as_slice());
        names.truncate(kept);
        files.release(names.as_slice(), dir);
    }

    /// Gives each part its own name, in order, and ends at the first rename that is refused; the parts
    /// before have their own names then, and the others their temporary ones.
    pub fn place<D: Dir>(&mut self, files: &mut FileDeleter, dir: &mut D) -> Result<(), JobFault>
        requires placeable { ArePlaceable files.old self.old.parts }
        requires whole { IsWhole (D.cells dir.old) files.old }

        ensures ok { OnOk result (Places (length self.old.parts) self.old.parts self.new.parts
            files.old files.new (D.cells dir.old) (D.cells dir.new)) }
        ensures err { OnErr result ((count : ℕ) × Places count self.old.parts self.new.parts
            files.old files.new (D.cells dir.old) (D.cells dir.new)) }
        ensures others { self.new ≡ record self.old { parts = self.new.parts } }
        ensures able { ArePlaceable files.new self.new.parts }

        // The causes of a refusal.
        ensures fault { IfErr result IsPlacingFault }
        ensures failed { IsErrOf result JobFault.DirFailed
            → Rose (D.faults dir.old) (D.faults dir.new) }
        ensures later { D.faults dir.old ≤ D.faults dir.new }
    {
        place(&mut self.parts, &mut self.names, files, dir)
    }

    /// Gives back all that the job holds, by one release. Takes no memory.
    pub fn end<D: Dir>(self, files: &mut FileDeleter, dir: &mut D)
        requires { AreCounted (job_names self) files.old }
        ensures lets_go { LetsGo (job_names self) files.old files.new
            (D.cells dir.old) (D.cells dir.new) }
        ensures later { D.faults dir.old ≤ D.faults dir.new }
    {
        files.release(self.names.as_slice(), dir);
    }
}

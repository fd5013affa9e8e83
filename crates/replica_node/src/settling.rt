//! Copies of merged segments of which nothing is missing.

ghost use Rattle.std.specs.Prelude.{◌≡◌, ◌<◌, ◌≤◌, [], true, is_some, Some, IfSome, IfOk, OnOk, OnErr, IsErrOf, IfErr, length};
ghost use Rattle.nrt_base.specs.Causes.{Rose};
ghost use Rattle.nrt_base.specs.declared.numbers.SegNo.{SegNo};
ghost use Rattle.disk_model.specs.Disk.{Name, reads_of};
ghost use Rattle.file_deleter.specs.Holdings.{times};
ghost use Rattle.searcher_switch.specs.Node.{KeepsBytes};
ghost use Rattle.searcher_switch.specs.Appearing.{AppearsOnly};
ghost use Rattle.copy_state.specs.States.{meta_names};
ghost use Rattle.copy_job.specs.Parts.{placed_to};
ghost use Rattle.copy_job.specs.Placing.{IsPlacingFault};
ghost use Rattle.copy_job.specs.Jobs.{reads_under};
ghost use Rattle.replica_node.specs.Merges.{copy_at};
ghost use Rattle.replica_node.specs.Sources.{KeepsSource, HoldsOnlyWanted};
ghost use Rattle.replica_node.specs.Replica.{IsWholeReplica, AreStanding};
ghost use Rattle.replica_node.specs.Ending.{GivesFilesBack};
ghost use Rattle.replica_node.specs.Settling.{PlacesCopy, SettlesCopy, EndsCopy, StillCopies};

use crate::ends::end_copy;
use crate::held::note_wanted;
use crate::parts::ReplicaParts;
use crate::replica::Replica;
use copy_job::JobFault;
use copy_state::FileMetaData;
use disk_model::Dir;
use file_names::{FileName, segment_of_file};
use nrt_base::{NoMemory, SegNo, Share};
use std::alloc::Global;

// The files with their metadata, once more.
fn shared_files(
    alloc: Global,
    files: &[(FileName, FileMetaData)],
) -> Result<Vec<(FileName, FileMetaData)>, NoMemory>
    ensures { IfOk result (λ again. again.items ≡ files.now) }
{
    let mut again = Vec::new(alloc);
    for file in files {
        let meta = file.1.share(alloc)?;
        again.push((file.0, meta))?;
    }
    Ok(again)
}

// The files of a copy's state, and its segment.
fn wanted_of<D: Dir>(
    alloc: Global,
    parts: &ReplicaParts<D>,
    job: u64,
) -> Result<(SegNo, Vec<(FileName, FileMetaData)>), NoMemory>
    requires whole { IsWholeReplica D.cells parts.now }
    requires runs { is_some (copy_at job parts.now.copies.running) ≡ true }
    ensures { IfOk result (λ w. IfSome (copy_at job parts.now.copies.running) (λ c.
        w.1.items ≡ c.want.files)) }
{
    let Some(copy) = parts.copies.running.copy(job) else {
        unreachable!();
    };
    let files = shared_files(alloc, copy.want().files.as_slice())?;
    let Some(first) = files.first() else {
        unreachable!();
    };
    let Some(seg) = segment_of_file(&first.0) else {
        unreachable!();
    };
    Ok((seg, files))
}

// Gives the parts of a copy their own names, in order, and ends at the first rename that is refused.
fn place_copy<D: Dir>(alloc: Global, parts: &mut ReplicaParts<D>, job: u64) -> Result<(), JobFault>
    requires whole { IsWholeReplica D.cells parts.old }
    requires runs { is_some (copy_at job parts.old.copies.running) ≡ true }
    requires complete { IfSome (copy_at job parts.old.copies.running) (λ c. c.missing ≡ []) }
    ensures whole { IsWholeReplica D.cells parts.new }
    ensures standing { AreStanding D.cells parts.old → AreStanding D.cells parts.new }
    ensures sourced { KeepsSource D.cells parts.old parts.new }
    ensures held { IfSome (copy_at job parts.old.copies.running) (λ c.
        HoldsOnlyWanted c.want parts.old parts.new) }
    ensures places { IfSome (copy_at job parts.old.copies.running) (λ c.
        PlacesCopy D.cells job c parts.old parts.new result) }
    ensures stays { KeepsBytes parts.old.files parts.new.files
        (D.cells parts.old.dir) (D.cells parts.new.dir) }
    ensures appears { IfSome (copy_at job parts.old.copies.running) (λ c.
        AppearsOnly (λ q. 0 < times (meta_names c.want.files) q)
        (D.cells parts.old.dir) (D.cells parts.new.dir)) }
    ensures fault { IfErr result IsPlacingFault }
    ensures failed { IsErrOf result JobFault.DirFailed
        → Rose (D.faults parts.old.dir) (D.faults parts.new.dir) }
    ensures later { D.faults parts.old.dir ≤ D.faults parts.new.dir }
    ensures others { parts.new ≡ record parts.old {
      dir = parts.new.dir;
      files = parts.new.files;
      copies = parts.new.copies;
      known = parts.new.known;
    } }
{
    let Some(copy) = parts.copies.running.copy(job) else {
        unreachable!();
    };
    let Ok(()) = note_wanted(alloc, copy.want().files.as_slice(), &mut parts.known) else {
        return Err(JobFault::Memory);
    };
    match parts
        .copies
        .running
        .place(job, &mut parts.files, &mut parts.dir)
    {
        Ok(()) => Ok(()),
        Err(fault) => Err(fault),
    }
}

// The files of a copy whose parts have their own names are pending from now on. After a refusal all is as before.
fn settle_copy<D: Dir>(
    parts: &mut ReplicaParts<D>,
    job: u64,
    seg: SegNo,
    files: Vec<(FileName, FileMetaData)>,
) -> Result<(), NoMemory>
    requires whole { IsWholeReplica D.cells parts.old }
    requires runs { is_some (copy_at job parts.old.copies.running) ≡ true }
    requires complete { IfSome (copy_at job parts.old.copies.running) (λ c. c.missing ≡ []) }
    requires own { IfSome (copy_at job parts.old.copies.running) (λ c.
        c.parts ≡ placed_to (length c.parts) c.parts) }
    requires files { IfSome (copy_at job parts.old.copies.running) (λ c.
        files.items ≡ c.want.files) }
    ensures whole { IsWholeReplica D.cells parts.new }
    ensures standing { AreStanding D.cells parts.old → AreStanding D.cells parts.new }
    ensures sourced { KeepsSource D.cells parts.old parts.new }
    ensures ok { OnOk result (IfSome (copy_at job parts.old.copies.running) (λ c.
        SettlesCopy job c parts.old parts.new)) }
    ensures err { OnErr result (parts.new.copies ≡ parts.old.copies) }
    ensures others { parts.new ≡ record parts.old { copies = parts.new.copies } }
{
    parts.copies.pending.expect(seg)?;
    match parts.copies.pending.done(seg, files) {
        Ok(()) => {
            drop(parts.copies.running.take(job));
            Ok(())
        }
        Err(fault) => {
            parts.copies.pending.forget(seg);
            Err(fault)
        }
    }
}

// Ends the copy where the disk failed. Out of memory it runs on.
fn give_up<D: Dir>(parts: &mut ReplicaParts<D>, job: u64, fault: JobFault) -> JobFault
    requires whole { IsWholeReplica D.cells parts.old }
    requires runs { is_some (copy_at job parts.old.copies.running) ≡ true }
    requires fault { IsPlacingFault fault }
    ensures same { result ≡ fault }
    ensures failed { fault ≡ JobFault.DirFailed → EndsCopy job parts.old parts.new }
    ensures memory { fault ≡ JobFault.Memory → parts.new ≡ parts.old }
    ensures back { GivesFilesBack D.cells D.faults parts.old parts.new }
    ensures others { parts.new ≡ record parts.old {
      dir = parts.new.dir;
      files = parts.new.files;
      copies = parts.new.copies;
    } }
{
    match fault {
        JobFault::Memory => JobFault::Memory,
        JobFault::DirFailed => {
            end_copy(parts, job);
            JobFault::DirFailed
        }
        JobFault::LinkFailed | JobFault::Damaged { .. } | JobFault::NameClash { .. } => {
            unreachable!()
        }
    }
}

impl<D: Dir> Replica<D> {
    /// The files of a copy of a merged segment, of which nothing is missing, get their own names and are pending from now on.
    /// Where the disk fails the copy has ended, and its parts were given back; out of memory, it runs on with what it has.
    pub fn finish_precopy(&mut self, alloc: Global, job: u64) -> Result<(), JobFault>
        requires runs { is_some (copy_at job self.old.copies.running) ≡ true }
        requires complete { IfSome (copy_at job self.old.copies.running) (λ c. c.missing ≡ []) }
        ensures whole { IsWholeReplica D.cells self.new }
        ensures standing { AreStanding D.cells self.old → AreStanding D.cells self.new }
        ensures sourced { KeepsSource D.cells self.old self.new }
        ensures held { IfSome (copy_at job self.old.copies.running) (λ c.
            HoldsOnlyWanted c.want self.old self.new) }

        // What is pending, and what is left of the copy.
        ensures ok { OnOk result (IfSome (copy_at job self.old.copies.running) (λ c.
            SettlesCopy job c self.old self.new)) }
        ensures reads { OnOk result (IfSome (copy_at job self.old.copies.running) (λ c.
            (q : Name) → 0 < times (meta_names c.want.files) q → (D.cells self.new.dir q).now
            ≡ reads_under c.parts (reads_of (D.cells self.old.dir)) q)) }
        ensures failed_ends { IsErrOf result JobFault.DirFailed → EndsCopy job self.old self.new }
        ensures memory { IsErrOf result JobFault.Memory
            → IfSome (copy_at job self.old.copies.running) (λ c.
            StillCopies job c self.old self.new) }

        // What stays, and when the disk failed.
        ensures stays { KeepsBytes self.old.files self.new.files
            (D.cells self.old.dir) (D.cells self.new.dir) }
        ensures appears { IfSome (copy_at job self.old.copies.running) (λ c.
            AppearsOnly (λ q. 0 < times (meta_names c.want.files) q)
            (D.cells self.old.dir) (D.cells self.new.dir)) }
        ensures fault { IfErr result IsPlacingFault }
        ensures failed { IsErrOf result JobFault.DirFailed
            → Rose (D.faults self.old.dir) (D.faults self.new.dir) }
        ensures later { D.faults self.old.dir ≤ D.faults self.new.dir }
        ensures others { self.new ≡ record self.old {
          dir = self.new.dir;
          files = self.new.files;
          copies = self.new.copies;
          known = self.new.known;
        } }
    {
        let Ok((seg, files)) = wanted_of(alloc, &self.parts, job) else {
            return Err(JobFault::Memory);
        };
        match place_copy(alloc, &mut self.parts, job) {
            Ok(()) => {}
            Err(fault) => return Err(give_up(&mut self.parts, job, fault)),
        }
        match settle_copy(&mut self.parts, job, seg, files) {
            Ok(()) => {}
            Err(_) => return Err(JobFault::Memory),
        }
        Ok(())
    }
}

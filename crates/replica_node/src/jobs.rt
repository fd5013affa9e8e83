//! Calls of a job or of a copy of a merged segment, by its number.

ghost use Rattle.std.specs.Prelude.{◌≡◌, ◌<◌, ◌≤◌, ℕ, List, Some, None, IsSome, IfSome, OnOk, OnErr, IsErrOf, IfErr, true, if◌then◌else◌};
ghost use Rattle.nrt_base.specs.Causes.{Rose};
ghost use Rattle.disk_model.specs.Disk.{Name, Content};
ghost use Rattle.file_names.specs.Names.{temp_name_of};
ghost use Rattle.file_deleter.specs.Holdings.{count_of, times};
ghost use Rattle.searcher_switch.specs.Node.{KeepsBytes};
ghost use Rattle.searcher_switch.specs.Appearing.{AppearsOnly, NoneAppears};
ghost use Rattle.copy_state.specs.Meta.{IsMetaOf};
ghost use Rattle.copy_state.specs.States.{meta_in};
ghost use Rattle.copy_job.specs.Placing.{IsPlacingFault};
ghost use Rattle.copy_job.specs.Jobs.{with_part};
ghost use Rattle.replica_node.specs.Sources.{IsSourced, KeepsSource, HoldsOnly};
ghost use Rattle.replica_node.specs.Replica.{IsWholeReplica, AreStanding};
ghost use Rattle.std.specs.Option.{option_map};
ghost use Rattle.replica_node.specs.Jobs.{running_point};
ghost use Rattle.replica_node.specs.Running.{is_job_number, running_job, with_job, without_job};

use crate::ends::{end_copy, stop_job};
use crate::job::{PointJob, told};
use crate::parts::ReplicaParts;
use crate::precopy_arriving::arrived_copy;
use crate::replica::Replica;
use copy_job::{CopyJob, JobFault, Part};
use disk_model::Dir;

// The copy of a job of a newer point, where it runs.
fn copy_of(point: &PointJob) -> Option<&CopyJob>
    ensures { option_map (λ copy. copy.now) result
        ≡ (if point.now.stopped then None else Some point.now.copy) }
{
    if point.stopped {
        return None;
    }
    Some(&point.copy)
}

/// The job of a newer point, where one runs.
pub fn running_of(job: &Option<PointJob>) -> Option<&CopyJob>
    ensures { option_map (λ copy. copy.now) result
        ≡ option_map (λ j. j.copy) (running_point job.now) }
{
    match job {
        Some(point) => copy_of(point),
        None => None,
    }
}

// Whether the job of a newer point runs and has this number.
fn copies_point<D: Dir>(parts: &ReplicaParts<D>, job: u64) -> bool
    ensures { result ≡ is_job_number job parts.now.job }
{
    match &parts.job {
        Some(point) => !point.stopped && point.copy.number() == job,
        None => false,
    }
}

impl<D: Dir> Replica<D> {
    /// The job, where one runs.
    pub fn job(&self) -> Option<&CopyJob>
        ensures { option_map (λ copy. copy.now) result
            ≡ option_map (λ j. j.copy) (running_point self.now.job) }
    {
        running_of(&self.parts.job)
    }

    /// Writes a part of a job or of a copy of a merged segment under its temporary name. After a refusal it is still missing.
    pub fn arrived(&mut self, job: u64, part: Part) -> Result<(), JobFault>
        requires runs { IsSome (running_job job self.old) }
        requires missing { IfSome (running_job job self.old) (λ j. 0 < times j.missing part.name) }
        requires wanted { IfSome (running_job job self.old) (λ j.
            meta_in j.want.files part.name ≡ Some part.meta) }
        requires meta { IsMetaOf part.bytes part.meta }
        ensures whole { IsWholeReplica D.cells self.new }
        ensures standing { AreStanding D.cells self.old → AreStanding D.cells self.new }
        ensures sourced { (source : Name → Content) → source part.name ≡ Some part.bytes
            → IsSourced source D.cells self.old → IsSourced source D.cells self.new }
        ensures held { HoldsOnly self.old self.new }
        ensures ok { OnOk result (IfSome (running_job job self.old) (λ j.
            self.new ≡ record (with_job job (with_part j part.name) self.old) {
              dir = self.new.dir;
              files = self.new.files;
            })) }
        ensures reads { OnOk result
            ((D.cells self.new.dir (temp_name_of part.name job)).now ≡ Some part.bytes) }
        ensures err { OnErr result (self.new ≡ record self.old {
          dir = self.new.dir;
          files = self.new.files;
        }) }
        ensures stays { KeepsBytes self.old.files self.new.files
            (D.cells self.old.dir) (D.cells self.new.dir) }
        ensures appears { AppearsOnly (λ q. q ≡ temp_name_of part.name job)
            (D.cells self.old.dir) (D.cells self.new.dir) }
        ensures fault { IfErr result IsPlacingFault }
        ensures failed { IsErrOf result JobFault.DirFailed
            → Rose (D.faults self.old.dir) (D.faults self.new.dir) }
        ensures later { D.faults self.old.dir ≤ D.faults self.new.dir }
    {
        if !copies_point(&self.parts, job) {
            return arrived_copy(&mut self.parts, job, part);
        }
        let Some(
            PointJob {
                mut copy,
                infos,
                stopped,
            },
        ) = self.parts.job.take()
        else {
            unreachable!();
        };
        let arrived = copy.arrived(part, &mut self.parts.files, &mut self.parts.dir);
        told(&copy);
        self.parts.job = Some(PointJob {
            copy,
            infos,
            stopped,
        });
        arrived
    }

    /// Stops a job, which keeps what it has and makes no call of the disk, or ends a copy of a merged segment, which gives back
    /// what it held, by one release.
    pub fn fail(&mut self, job: u64)
        requires { IsSome (running_job job self.old) }
        ensures whole { IsWholeReplica D.cells self.new }
        ensures standing { AreStanding D.cells self.old → AreStanding D.cells self.new }
        ensures sourced { KeepsSource D.cells self.old self.new }
        ensures held { HoldsOnly self.old self.new }
        ensures gone { self.new ≡ record (without_job job self.old) {
          dir = self.new.dir;
          files = self.new.files;
        } }
        ensures kept { is_job_number job self.old.job ≡ true → self.new ≡ without_job job self.old }
        ensures fewer { (q : List ℕ) → count_of self.new.files q ≤ count_of self.old.files q }
        ensures stays { KeepsBytes self.old.files self.new.files
            (D.cells self.old.dir) (D.cells self.new.dir) }
        ensures appears { NoneAppears (D.cells self.old.dir) (D.cells self.new.dir) }
        ensures later { D.faults self.old.dir ≤ D.faults self.new.dir }
    {
        if copies_point(&self.parts, job) {
            stop_job(&mut self.parts);
        } else {
            end_copy(&mut self.parts, job);
        }
    }
}

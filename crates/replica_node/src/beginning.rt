//! Jobs that begin.

ghost use Rattle.std.specs.Prelude.{◌≡◌, ◌+◌, ◌<◌, ◌≤◌, ◌++◌, [], Some, IsSome, IfSome, OnOk, OnErr, IfOk, IfErr, Ok, ◌^◌};
ghost use Rattle.disk_model.specs.Disk.{reads_of};
ghost use Rattle.file_deleter.specs.Holdings.{AreCounted};
ghost use Rattle.file_deleter.specs.Moves.{MovesCounts};
ghost use Rattle.copy_job.specs.Jobs.{IsJob, job_names};
ghost use Rattle.searcher_switch.specs.Appearing.{NoneAppears};
ghost use Rattle.segment_infos.specs.declared.infos.Infos.{Infos};
ghost use Rattle.replica_node.specs.Replica.{IsPointState, IsWholeReplica, AreStanding, IsWanted, names_of_job};
ghost use Rattle.std.specs.List.{All};
ghost use Rattle.searcher_switch.specs.Node.{KeepsBytes};
ghost use Rattle.copy_state.specs.States.{meta_names, IsCopyState};
ghost use Rattle.replica_node.specs.Overlapping.{copies_beside};
ghost use Rattle.replica_node.specs.Jobs.{IsPointJob, job_taking, Agrees, IsStartingFault};
ghost use Rattle.replica_node.specs.Sources.{KeepsSource, HoldsOnly};

use crate::held::held_of;
use crate::job::{PointJob, told};
use crate::overlapping::end_overlapping;
use crate::replica::Replica;
use body_forms::ReadFault;
use copy_job::{CopyJob, JobFault, JobKind};
use copy_state::CopyState;
use disk_model::Dir;
use file_deleter::FileDeleter;
use nrt_base::NoMemory;
use segment_infos::{Infos, decode};
use std::alloc::{AllocError, Global};

// The infos that a copy state spells.
fn infos_of(alloc: Global, state: &CopyState) -> Result<Infos, NoMemory>
    requires { (infos : Infos) × IsPointState state.now infos }
    ensures { IfOk result (IsPointState state.now) }
{
    match decode(alloc, state.infos.as_slice()) {
        Ok(infos) => Ok(infos),
        Err(ReadFault::Memory) => Err(AllocError),
        Err(ReadFault::File(_)) => unreachable!(),
    }
}

// Takes over what a job that begins wants of an older one, where there is one.
fn take_over<D: Dir>(
    copy: &mut CopyJob,
    old: Option<PointJob>,
    files: &mut FileDeleter,
    dir: &mut D,
)
    requires none { copy.old.parts ≡ [] }
    requires counted { AreCounted (job_names copy.old ++ names_of_job old) files.old }
    ensures job { copy.new ≡ job_taking old copy.old }
    ensures is { IsJob copy.new }
    ensures moves { MovesCounts [] (job_names copy.old ++ names_of_job old) (job_names copy.new)
        files.old files.new (D.cells dir.old) (D.cells dir.new) }
    ensures later { D.faults dir.old ≤ D.faults dir.new }
{
    let Some(old) = old else {
        told(copy);
        return;
    };
    copy.transfer(old.copy, files, dir);
    told(copy);
}

impl<D: Dir> Replica<D> {
    /// Begins a job of a newer point, and answers its number. It takes the place of an older job, which runs or was stopped: it takes
    /// over the finished parts of it that it wants. It fetches the other files of the point that nobody holds, and reuses those that
    /// somebody does. Each copy of a merged segment that copies a file of the point ends. A file that is held with other metadata,
    /// the first in the order of the state, is a clash. After a refusal all is as before.
    pub fn start_job(&mut self, alloc: Global, state: CopyState) -> Result<u64, JobFault>
        requires few { self.old.jobs + 1 < 2 ^ 63 }
        requires state { IsCopyState state }
        requires wanted { IsWanted self.old state }

        // The job that begins.
        ensures whole { IsWholeReplica D.cells self.new }
        ensures number { IfOk result (λ number. number ≡ self.old.jobs + 1) }
        ensures jobs { OnOk result (self.new.jobs ≡ self.old.jobs + 1) }
        ensures begun { OnOk result (IfSome self.new.job
            (IsPointJob (self.old.jobs + 1) state self.old.files self.old.job)) }
        ensures some { OnOk result (IsSome self.new.job) }
        ensures copies { OnOk result (self.new.copies ≡ record self.old.copies {
          running = copies_beside (meta_names state.files) self.old.copies.running;
        }) }
        ensures agreed { OnOk result (All (Agrees (reads_of (D.cells self.old.dir)) self.old.files)
            state.files) }

        // Why none begins.
        ensures err { OnErr result (self.new ≡ self.old) }
        ensures fault { IfErr result (IsStartingFault (reads_of (D.cells self.old.dir))
            self.old.files state.files) }

        // What stays.
        ensures standing { AreStanding D.cells self.old → AreStanding D.cells self.new }
        ensures sourced { KeepsSource D.cells self.old self.new }
        ensures held { HoldsOnly self.old self.new }
        ensures stays { KeepsBytes self.old.files self.new.files
            (D.cells self.old.dir) (D.cells self.new.dir) }
        ensures appears { NoneAppears (D.cells self.old.dir) (D.cells self.new.dir) }
        ensures later { D.faults self.old.dir ≤ D.faults self.new.dir }
        ensures others { self.new ≡ record self.old {
          dir = self.new.dir;
          files = self.new.files;
          jobs = self.new.jobs;
          job = self.new.job;
          copies = self.new.copies;
        } }
    {
        let number = self.parts.jobs + 1;
        let Ok(infos) = infos_of(alloc, &state) else {
            drop(state);
            return Err(JobFault::Memory);
        };
        let Ok(held) = held_of(
            alloc,
            state.files.as_slice(),
            &self.parts.known,
            &self.parts.files,
        ) else {
            drop(state);
            drop(infos);
            return Err(JobFault::Memory);
        };
        let mut copy = match CopyJob::begin(alloc, number, JobKind::Point, state, held.as_slice()) {
            Ok(copy) => copy,
            Err(fault) => {
                drop(held);
                drop(infos);
                return Err(fault);
            }
        };
        drop(held);
        told(&copy);
        let Ok(()) = self.parts.files.hold_there(copy.reused(), &self.parts.dir) else {
            drop(copy);
            drop(infos);
            return Err(JobFault::Memory);
        };
        end_overlapping(
            &mut self.parts.copies.running,
            copy.want().files.as_slice(),
            &mut self.parts.files,
            &mut self.parts.dir,
        );
        take_over(
            &mut copy,
            self.parts.job.take(),
            &mut self.parts.files,
            &mut self.parts.dir,
        );
        self.parts.jobs = number;
        self.parts.job = Some(PointJob {
            copy,
            infos,
            stopped: false,
        });
        Ok(number)
    }
}

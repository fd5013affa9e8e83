//! Copies of merged segments that begin.

ghost use Rattle.std.specs.Prelude.{◌≡◌, ◌<◌, ◌+◌, ◌^◌, ◌++◌, ◌∷◌, [], IfOk, IfErr, OnOk, OnErr};
ghost use Rattle.std.specs.List.{All};
ghost use Rattle.std.specs.Option.{option_map};
ghost use Rattle.disk_model.specs.Disk.{reads_of};
ghost use Rattle.searcher_switch.specs.Node.{KeepsBytes};
ghost use Rattle.copy_state.specs.States.{IsCopyState};
ghost use Rattle.replica_node.specs.Merges.{copy_at};
ghost use Rattle.replica_node.specs.Jobs.{Agrees, IsStartingFault, merge_job_on};
ghost use Rattle.replica_node.specs.Sources.{KeepsSource, HoldsOnly};
ghost use Rattle.replica_node.specs.Replica.{IsWholeReplica, AreStanding, MayLaunch};

use crate::held::held_of;
use crate::job::told;
use crate::replica::Replica;
use copy_job::{CopyJob, JobFault, JobKind};
use copy_state::CopyState;
use disk_model::Dir;
use std::alloc::Global;

impl<D: Dir> Replica<D> {
    /// Begins a copy of a merged segment, and answers its number. It fetches the files of the segment that nobody holds, and
    /// reuses the others. A file that is held with other metadata, the first in the order of the state, is a clash.
    pub fn launch_precopy(&mut self, alloc: Global, state: CopyState) -> Result<u64, JobFault>
        requires few { self.old.jobs + 1 < 2 ^ 63 }
        requires state { IsCopyState state }
        requires launch { MayLaunch self.old state }

        // The copy that begins.
        ensures whole { IsWholeReplica D.cells self.new }
        ensures number { IfOk result (λ number. number ≡ self.old.jobs + 1) }
        ensures jobs { OnOk result (self.new.jobs ≡ self.old.jobs + 1) }
        ensures begun { OnOk result (self.new.copies ≡ record self.old.copies {
          running = self.old.copies.running
              ++ merge_job_on (self.old.jobs + 1) state self.old.files ∷ [];
        }) }
        ensures agreed { OnOk result (All (Agrees (reads_of (D.cells self.old.dir)) self.old.files)
            state.files) }

        // Why none begins.
        ensures err { OnErr result (self.new ≡ self.old) }
        ensures fault { IfErr result (IsStartingFault (reads_of (D.cells self.old.dir))
            self.old.files state.files) }

        // What stays.
        ensures standing { AreStanding D.cells self.old → AreStanding D.cells self.new }
        ensures sourced { KeepsSource D.cells self.old self.new }
        ensures held { HoldsOnly self.old self.new }
        ensures stays { KeepsBytes self.old.files self.new.files
            (D.cells self.old.dir) (D.cells self.new.dir) }
        ensures others { self.new ≡ record self.old {
          files = self.new.files;
          jobs = self.new.jobs;
          copies = self.new.copies;
        } }
    {
        let Ok(held) = held_of(
            alloc,
            state.files.as_slice(),
            &self.parts.known,
            &self.parts.files,
        ) else {
            return Err(JobFault::Memory);
        };
        let number = self.parts.jobs + 1;
        let copy = match CopyJob::begin(alloc, number, JobKind::Merge, state, held.as_slice()) {
            Ok(copy) => copy,
            Err(fault) => return Err(fault),
        };
        told(&copy);
        let Ok(()) = self
            .parts
            .copies
            .running
            .begin(alloc, copy, &mut self.parts.files, &self.parts.dir)
        else {
            return Err(JobFault::Memory);
        };
        self.parts.jobs = number;
        Ok(number)
    }

    /// The copy of a merged segment with this number, where it runs.
    pub fn precopy(&self, job: u64) -> Option<&CopyJob>
        ensures { option_map (λ c. c.now) result ≡ copy_at job self.now.copies.running }
    {
        self.parts.copies.running.copy(job)
    }
}

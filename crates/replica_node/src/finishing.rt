//! Jobs whose point is searched.

ghost use Rattle.std.specs.Prelude.{◌≡◌, ◌<◌, ◌≤◌, List, Some, None, IsSome, IfSome, OnOk, OnErr, IfOk, IfErr, IsErrOf, Ok, [], IsSomeAnd, true};
ghost use Rattle.nrt_base.specs.Causes.{Rose};
ghost use Rattle.disk_model.specs.Disk.{reads_of};
ghost use Rattle.copy_job.specs.Placing.{IsPlacingFault};
ghost use Rattle.copy_job.specs.Jobs.{reads_under};
ghost use Rattle.replica_node.specs.Replica.{IsWholeReplica, AreStanding};
ghost use Rattle.seg_reader.specs.Stands.{StandsFor};
ghost use Rattle.nrt_base.specs.declared.doc.Doc.{Doc};
ghost use Rattle.searcher_switch.specs.Node.{KeepsBytes};
ghost use Rattle.searcher_switch.specs.Standing.{StandsForSome};
ghost use Rattle.searcher_switch.specs.Appearing.{AppearsOnly};
ghost use Rattle.copy_state.specs.States.{meta_names};
ghost use Rattle.replica_node.specs.Parting.{pending_after};
ghost use Rattle.replica_node.specs.Sources.{KeepsSource, HoldsOnly, IsWantedName, IsStillCopying};

use crate::advancing::advance;
use crate::held::note_wanted;
use crate::job::{PointJob, told};
use crate::parting::{Left, part_pending};
use crate::replica::Replica;
use copy_job::JobFault;
use disk_model::Dir;
use nrt_base::Version;
use std::alloc::Global;

impl<D: Dir> Replica<D> {
    /// Searches the point of the job, of which nothing is missing, and ends the job. After a refusal the job holds what it
    /// has, the renamed parts under their own names, and the point is as before; where the disk failed, the job is stopped. A
    /// pending file that the point names belongs to the point, and one that is completed and not named is given back.
    pub fn finish(&mut self, alloc: Global, job: u64) -> Result<Version, JobFault>
        requires runs { IfSome self.old.job (λ j. j.copy.number ≡ job) }
        requires some { IsSome self.old.job }
        requires complete { IfSome self.old.job (λ j. j.copy.missing ≡ []) }
        requires standing { IfSome self.old.job (λ j.
            StandsForSome (reads_under j.copy.parts (reads_of (D.cells self.old.dir))) j.infos) }
        ensures whole { IsWholeReplica D.cells self.new }
        ensures standing { AreStanding D.cells self.old → AreStanding D.cells self.new }
        ensures sourced { KeepsSource D.cells self.old self.new }
        ensures held { HoldsOnly self.old self.new }

        // What is searched.
        ensures infos { OnOk result (IfSome self.old.job (λ j. self.new.infos ≡ j.infos)) }
        ensures version { IfOk result (λ version. version ≡ self.new.searchers.point.version) }
        ensures job { OnOk result (self.new.job ≡ None) }
        ensures pending { OnOk result (IfSome self.old.job (λ j.
            self.new.copies ≡ record self.old.copies {
              pending = pending_after (meta_names j.copy.want.files) j.copy.want.completed
                  self.old.copies.pending;
            })) }
        ensures tickets { self.new.searchers.tickets ≡ self.old.searchers.tickets }
        ensures stands { OnOk result (IfSome self.old.job (λ j. (docs : List Doc)
            → StandsFor (reads_under j.copy.parts (reads_of (D.cells self.old.dir))) j.infos docs
            → StandsFor (reads_of (D.cells self.new.dir)) self.new.infos docs)) }
        ensures err { OnErr result (IfSome self.old.job (IsStillCopying self.old self.new)) }
        ensures stops { IsErrOf result JobFault.DirFailed
            → IsSomeAnd self.new.job (λ j. j.stopped ≡ true) }

        // What stays, and when the disk failed.
        ensures stays { KeepsBytes self.old.files self.new.files
            (D.cells self.old.dir) (D.cells self.new.dir) }
        ensures appears { AppearsOnly (IsWantedName self.old.job)
            (D.cells self.old.dir) (D.cells self.new.dir) }
        ensures fault { IfErr result IsPlacingFault }
        ensures failed { IsErrOf result JobFault.DirFailed
            → Rose (D.faults self.old.dir) (D.faults self.new.dir) }
        ensures later { D.faults self.old.dir ≤ D.faults self.new.dir }
        ensures others { self.new ≡ record self.old {
          dir = self.new.dir;
          files = self.new.files;
          searchers = self.new.searchers;
          infos = self.new.infos;
          segs = self.new.segs;
          job = self.new.job;
          copies = self.new.copies;
          known = self.new.known;
        } }
    {
        let Some(job) = &self.parts.job else {
            unreachable!();
        };
        let Ok(()) = note_wanted(
            alloc,
            job.copy.want().files.as_slice(),
            &mut self.parts.known,
        ) else {
            return Err(JobFault::Memory);
        };
        let Ok(left) = part_pending(alloc, &self.parts.copies.pending, job.copy.want()) else {
            return Err(JobFault::Memory);
        };
        let Left { pending, dropped } = left;
        let Some(
            PointJob {
                mut copy,
                infos,
                ..
            },
        ) = self.parts.job.take()
        else {
            unreachable!();
        };
        let searchers = &self.parts.searchers;
        match advance(
            alloc,
            &mut copy,
            &infos,
            &self.parts.infos,
            &searchers.point,
            dropped.as_slice(),
            &mut self.parts.files,
            &mut self.parts.dir,
        ) {
            Ok(point) => {
                let version = infos.version;
                self.parts
                    .searchers
                    .replace(version, point.names, point.readers);
                self.parts
                    .files
                    .release(point.gone.as_slice(), &mut self.parts.dir);
                self.parts.known.keep_held(&self.parts.files);
                drop(point.gone);
                drop(dropped);
                drop(copy);
                self.parts.copies.pending = pending;
                self.parts.segs = point.segs;
                self.parts.infos = infos;
                Ok(version)
            }
            Err(fault) => {
                told(&copy);
                drop(dropped);
                drop(pending);
                self.parts.job = Some(PointJob {
                    copy,
                    infos,
                    stopped: true,
                });
                Err(fault)
            }
        }
    }
}

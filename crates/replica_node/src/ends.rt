//! What a replica is told of points, and how its copies and it end.

ghost use Rattle.std.specs.Prelude.{◌≡◌, ◌≤◌, ℕ, nat_lt, if◌then◌else◌, List, None, max, true, false, is_some};
ghost use Rattle.disk_model.specs.Disk.{reads_of, Name, Content};
ghost use Rattle.nrt_base.specs.declared.doc.Doc.{Doc};
ghost use Rattle.file_deleter.specs.Holdings.{count_of};
ghost use Rattle.segment_infos.specs.Infos.{CanSpell};
ghost use Rattle.segment_infos.specs.Files.{AreFilesOf};
ghost use Rattle.seg_reader.specs.Stands.{StandsFor, StandsWith};
ghost use Rattle.searcher_switch.specs.Node.{IsWholeNode, KeepsBytes};
ghost use Rattle.searcher_switch.specs.Standing.{IsStanding};
ghost use Rattle.searcher_switch.specs.Appearing.{NoneAppears};
ghost use Rattle.searcher_switch.specs.Searching.{searcher_names};
ghost use Rattle.std.specs.Option.{option_map};
ghost use Rattle.replica_node.specs.Jobs.{stopped_job, running_point, job_seen};
ghost use Rattle.replica_node.specs.Answers.{point_answer};
ghost use Rattle.replica_node.specs.Merges.{copy_at, copies_without, no_copies, copies_seen};
ghost use Rattle.replica_node.specs.Ending.{GivesFilesBack};
ghost use Rattle.replica_node.specs.Sources.{HeldReadAs, IsSourced, KeepsSource, HoldsOnly, IsTakenApart};
ghost use Rattle.replica_node.specs.Replica.{IsWholeReplica, AreStanding};

use crate::answer::PointAnswer;
use crate::job::PointJob;
use crate::parts::ReplicaParts;
use crate::replica::Replica;
use crate::taking::NodeParts;
use disk_model::Dir;
use nrt_base::{Gen, Version};

/// Ends the job, if there is one, and gives back what it held, by one release.
pub fn end_job<D: Dir>(parts: &mut ReplicaParts<D>)
    requires whole { IsWholeReplica D.cells parts.old }
    ensures job { parts.new.job ≡ None }
    ensures back { GivesFilesBack D.cells D.faults parts.old parts.new }
    ensures others { parts.new ≡ record parts.old {
      dir = parts.new.dir;
      files = parts.new.files;
      job = parts.new.job;
    } }
{
    let Some(job) = parts.job.take() else {
        return;
    };
    job.copy.end(&mut parts.files, &mut parts.dir);
}

/// Stops the job, if there is one: it does not go on, and keeps its parts and what it reuses for the next one. Takes no
/// memory, and makes no call of the disk.
pub fn stop_job<D: Dir>(parts: &mut ReplicaParts<D>)
    requires whole { IsWholeReplica D.cells parts.old }
    ensures whole { IsWholeReplica D.cells parts.new }
    ensures standing { AreStanding D.cells parts.old → AreStanding D.cells parts.new }
    ensures sourced { KeepsSource D.cells parts.old parts.new }
    ensures stopped { parts.new ≡ record parts.old {
      job = option_map stopped_job parts.old.job;
    } }
{
    let Some(PointJob { copy, infos, .. }) = parts.job.take() else {
        return;
    };
    parts.job = Some(PointJob {
        copy,
        infos,
        stopped: true,
    });
}

// Whether there is a job that does not run.
fn is_stopped(job: &Option<PointJob>) -> bool
    ensures { running_point job.now ≡ (if result then None else job.now) }
{
    match job {
        Some(job) => job.stopped,
        None => false,
    }
}

// Ends the job where it is stopped, and gives back what it held. Takes no memory.
fn end_stopped<D: Dir>(parts: &mut ReplicaParts<D>)
    requires whole { IsWholeReplica D.cells parts.old }
    ensures job { parts.new.job ≡ running_point parts.old.job }
    ensures back { GivesFilesBack D.cells D.faults parts.old parts.new }
    ensures others { parts.new ≡ record parts.old {
      dir = parts.new.dir;
      files = parts.new.files;
      job = parts.new.job;
    } }
{
    if !is_stopped(&parts.job) {
        return;
    }
    end_job(parts);
}

/// Ends a copy of a merged segment, and gives back what it held, by one release. Takes no memory.
pub fn end_copy<D: Dir>(parts: &mut ReplicaParts<D>, job: u64)
    requires whole { IsWholeReplica D.cells parts.old }
    requires runs { is_some (copy_at job parts.old.copies.running) ≡ true }
    ensures copies { parts.new.copies ≡ record parts.old.copies {
      running = copies_without job parts.old.copies.running;
    } }
    ensures back { GivesFilesBack D.cells D.faults parts.old parts.new }
    ensures others { parts.new ≡ record parts.old {
      dir = parts.new.dir;
      files = parts.new.files;
      copies = parts.new.copies;
    } }
{
    let copy = parts.copies.running.take(job);
    copy.end(&mut parts.files, &mut parts.dir);
}

/// Ends each copy of a merged segment, and gives every pending file back. Takes no memory.
pub fn end_copies<D: Dir>(parts: &mut ReplicaParts<D>)
    requires { IsWholeReplica D.cells parts.old }
    ensures copies { parts.new.copies ≡ no_copies }
    ensures back { GivesFilesBack D.cells D.faults parts.old parts.new }
    ensures others { parts.new ≡ record parts.old {
      dir = parts.new.dir;
      files = parts.new.files;
      copies = parts.new.copies;
    } }
{
    parts
        .copies
        .running
        .end_all(&mut parts.files, &mut parts.dir);
    let names = parts.copies.pending.discard_all();
    parts.files.release(names.as_slice(), &mut parts.dir);
}

// Notes the generation, which is none below the greatest seen; where it is above that, a stopped job and the copies of merged
// segments end, and the pending files are given back.
fn enter<D: Dir>(parts: &mut ReplicaParts<D>, generation: Gen)
    requires whole { IsWholeReplica D.cells parts.old }
    requires not_below { parts.old.seen.0 ≤ generation.0 }
    ensures seen { parts.new.seen ≡ generation }
    ensures copies { parts.new.copies
        ≡ copies_seen parts.old.seen.0 generation.0 parts.old.copies }
    ensures job { parts.new.job ≡ job_seen parts.old.seen.0 generation.0 parts.old.job }
    ensures quiet { nat_lt parts.old.seen.0 generation.0 ≡ false → parts.new ≡ parts.old }
    ensures back { GivesFilesBack D.cells D.faults parts.old parts.new }
    ensures others { parts.new ≡ record parts.old {
      dir = parts.new.dir;
      files = parts.new.files;
      seen = parts.new.seen;
      job = parts.new.job;
      copies = parts.new.copies;
    } }
{
    if generation == parts.seen {
        return;
    }
    end_stopped(parts);
    end_copies(parts);
    parts.seen = generation;
}

impl<D: Dir> Replica<D> {
    /// What to do with a point of this generation and version. On a higher generation than was seen a stopped job and each copy of
    /// a merged segment end, and every pending file is given back. Takes no memory.
    pub fn new_point(&mut self, generation: Gen, version: Version) -> PointAnswer
        ensures whole { IsWholeReplica D.cells self.new }
        ensures answer { result ≡ point_answer self.old.seen.0 self.old.searchers.point.version.0
            generation.0 version.0 }
        ensures seen { self.new.seen.0 ≡ max self.old.seen.0 generation.0 }
        ensures copies { self.new.copies
            ≡ copies_seen self.old.seen.0 generation.0 self.old.copies }
        ensures job { self.new.job ≡ job_seen self.old.seen.0 generation.0 self.old.job }

        // What stays.
        ensures standing { AreStanding D.cells self.old → AreStanding D.cells self.new }
        ensures sourced { KeepsSource D.cells self.old self.new }
        ensures held { HoldsOnly self.old self.new }
        ensures fewer { (q : List ℕ) → count_of self.new.files q ≤ count_of self.old.files q }
        ensures stays { KeepsBytes self.old.files self.new.files
            (D.cells self.old.dir) (D.cells self.new.dir) }
        ensures appears { NoneAppears (D.cells self.old.dir) (D.cells self.new.dir) }
        ensures later { D.faults self.old.dir ≤ D.faults self.new.dir }
        ensures quiet { nat_lt self.old.seen.0 generation.0 ≡ false → self.new ≡ self.old }
        ensures others { self.new ≡ record self.old {
          dir = self.new.dir;
          files = self.new.files;
          seen = self.new.seen;
          job = self.new.job;
          copies = self.new.copies;
        } }
    {
        if generation < self.parts.seen {
            return PointAnswer::OldGen(self.parts.seen);
        }
        enter(&mut self.parts, generation);
        let searched = self.parts.searchers.version();
        if version == searched {
            PointAnswer::Same(searched)
        } else if version < searched {
            PointAnswer::Older(searched)
        } else {
            PointAnswer::Start
        }
    }

    /// The parts of a replica that becomes another node. Its copies are ended, and its pending files given back. Takes no memory.
    pub fn take_apart(self) -> NodeParts<D>
        ensures node { IsWholeNode (D.cells result.dir) result.files
            (searcher_names result.searchers) result.commits }
        ensures standing { AreStanding D.cells self
            → IsStanding (reads_of (D.cells result.dir)) result.commits }
        ensures spelled { CanSpell result.infos }
        ensures names { AreFilesOf result.infos result.searchers.point.names }
        ensures stands { (docs : List Doc) → StandsFor (reads_of (D.cells self.dir)) self.infos docs
            → StandsWith (reads_of (D.cells result.dir)) result.infos result.segs docs }

        // What stays.
        ensures same { IsTakenApart self result }
        ensures sourced { (source : Name → Content) → IsSourced source D.cells self
            → HeldReadAs source (D.cells result.dir) result.files }
        ensures fewer { (q : List ℕ) → count_of result.files q ≤ count_of self.files q }
        ensures stays { KeepsBytes self.files result.files (D.cells self.dir) (D.cells result.dir) }
        ensures appears { NoneAppears (D.cells self.dir) (D.cells result.dir) }
        ensures later { D.faults self.dir ≤ D.faults result.dir }
    {
        let Replica { mut parts } = self;
        end_job(&mut parts);
        end_copies(&mut parts);
        let ReplicaParts {
            dir,
            files,
            searchers,
            commits,
            infos,
            segs,
            seen: _,
            jobs: _,
            job: _,
            copies: _,
            known: _,
        } = parts;
        NodeParts {
            dir,
            files,
            searchers,
            commits,
            infos,
            segs,
        }
    }
}

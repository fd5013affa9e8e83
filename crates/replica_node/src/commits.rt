//! Commits of a replica.

ghost use Rattle.std.specs.Prelude.{◌≡◌, ◌<◌, ◌≤◌, None, IsSome, IfSome, OnOk, OnErr, IfOk, IsErrOf, Ok, true, ◌^◌};
ghost use Rattle.nrt_base.specs.Causes.{Rose};
ghost use Rattle.replica_node.specs.Replica.{IsWholeReplica, AreStanding};
ghost use Rattle.searcher_switch.specs.Node.{KeepsBytes};
ghost use Rattle.searcher_switch.specs.Appearing.{AppearsOnly, IsNameInFlight};
ghost use Rattle.commit_steps.specs.Commits.{ImagesAre, ImagesHave};
ghost use Rattle.file_deleter.specs.Removals.{directory_of};
ghost use Rattle.commit_steps.specs.StepCalls.{StepCalls};
ghost use Rattle.commit_steps.specs.Book.{commit_of, shown_by, book_after, is_last_step, HasBegun};
ghost use Rattle.replica_node.specs.Sources.{KeepsSource, HoldsOnly};

use crate::replica::Replica;
use commit_steps::{CommitBook, CommitFault};
use disk_model::Dir;
use nrt_base::NoMemory;
use std::alloc::Global;

impl<D: Dir> Replica<D> {
    /// The commits: the last one, and the one in flight.
    pub fn commits(&self) -> &CommitBook
        ensures { result.now ≡ self.now.commits }
    {
        &self.parts.commits
    }

    /// Begins a commit of the point that is searched.
    pub fn commit_begin(&mut self, alloc: Global) -> Result<(), NoMemory>
        requires none { self.old.commits.stage ≡ None }
        requires below { self.old.commits.next < 2 ^ 62 }
        ensures whole { IsWholeReplica D.cells self.new }
        ensures standing { AreStanding D.cells self.old → AreStanding D.cells self.new }
        ensures sourced { KeepsSource D.cells self.old self.new }
        ensures held { HoldsOnly self.old self.new }
        ensures begun { OnOk result (HasBegun self.old.infos self.old.commits self.new.commits) }
        ensures err { OnErr result ((self.new.commits ≡ self.old.commits)
            × (self.new.files ≡ self.old.files)) }
        ensures stays { KeepsBytes self.old.files self.new.files
            (D.cells self.old.dir) (D.cells self.new.dir) }
        ensures others { self.new ≡ record self.old {
          files = self.new.files;
          commits = self.new.commits;
        } }
    {
        self.parts.commits.begin(
            alloc,
            &self.parts.infos,
            &mut self.parts.files,
            &self.parts.dir,
        )
    }

    /// Makes the next call of the directory for the commit in flight, and answers whether the commit is made.
    pub fn commit_step(&mut self, alloc: Global) -> Result<bool, CommitFault>
        requires in_flight { IsSome self.old.commits.stage }
        ensures whole { IsWholeReplica D.cells self.new }
        ensures standing { AreStanding D.cells self.old → AreStanding D.cells self.new }
        ensures sourced { KeepsSource D.cells self.old self.new }
        ensures held { HoldsOnly self.old self.new }
        ensures ok { OnOk result (self.new.commits ≡ book_after self.old.commits) }
        ensures done { IfOk result (λ done. done ≡ is_last_step self.old.commits.stage) }
        ensures made { result ≡ Ok true → IfSome self.old.commits.stage (λ stage.
            ImagesHave (D.cells self.new.dir) (commit_of stage)) }
        ensures err { OnErr result (self.new.commits ≡ self.old.commits) }
        ensures images { ImagesAre (D.cells self.new.dir)
            self.new.commits.last (shown_by self.new.commits.stage) }
        ensures stays { KeepsBytes self.old.files self.new.files
            (D.cells self.old.dir) (D.cells self.new.dir) }
        ensures appears { AppearsOnly (IsNameInFlight self.old.commits.stage)
            (D.cells self.old.dir) (D.cells self.new.dir) }
        ensures calls { StepCalls self.old.commits.last self.old.files self.new.files
            (directory_of D.cells D.plans D.faults self.old.dir)
            (directory_of D.cells D.plans D.faults self.new.dir) result }
        ensures failed { IsErrOf result CommitFault.Failed
            → Rose (D.faults self.old.dir) (D.faults self.new.dir) }
        ensures later { D.faults self.old.dir ≤ D.faults self.new.dir }
        ensures others { self.new ≡ record self.old {
          dir = self.new.dir;
          files = self.new.files;
          commits = self.new.commits;
        } }
    {
        self.parts
            .commits
            .step(alloc, &mut self.parts.files, &mut self.parts.dir)
    }
}

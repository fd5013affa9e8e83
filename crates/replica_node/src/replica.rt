//! The replica.

ghost use Rattle.std.specs.Prelude.{◌≡◌, ◌++◌, ◌<◌, ◌≤◌, ℕ, List, None, Ok, IfOk, IfErr, MatchResult, is_some};
ghost use Rattle.disk_model.specs.Disk.{Name, reads_of, is_among};
ghost use Rattle.std.specs.Cmp.Lexicographic.{slice_cmp};
ghost use Rattle.std.specs.Ordering.{nat_cmp};
ghost use Rattle.std.specs.List.Sorted.{IsStrictlySortedBy};
ghost use Rattle.searcher_switch.specs.Node.{IsWholeNode};
ghost use Rattle.searcher_switch.specs.Searching.{searcher_names};
ghost use Rattle.replica_opening.specs.declared.fault.StartFault.{StartFault};
ghost use Rattle.replica_opening.specs.Opening.{FindsPoint, number_of_last, IsStartRefusal, IsStartCutOff, IsCutOffOr, CanOpen};
ghost use Rattle.replica_opening.specs.Opened.{IsSettledOn, IsNodeOpened, IsHandedBack};
ghost use Rattle.replica_node.specs.Starting.{OpensOn};
ghost use Rattle.replica_node.specs.Refusals.{IsHandedOut};
ghost use Rattle.replica_node.specs.Replica.{IsWholeReplica};

use crate::merges::{MergeCopies, RunningCopies};
use crate::parts::ReplicaParts;
use disk_model::{Dir, FaultDir};
use file_names::FileName;
use merge_precopy::Precopies;
use nrt_base::{Gen, NoMemory, Version};
use replica_opening::{Opened, StartFault, open, open_empty};
use std::alloc::Global;
use std::marker::Model;

/// No replica was opened: the directory is handed back.
#[derive(Drop)]
pub struct Refused<D> {
    pub dir: D,
    pub fault: StartFault,
}

/// A replica over a directory, seen as its parts, and whole by its type.
#[derive(Drop)]
pub struct Replica<D: Dir> {
    pub(crate) parts: ReplicaParts<D>,
}

impl<D: Dir> Model for Replica<D> {
    ghost use Rattle.replica_node.specs.declared.parts.ReplicaParts.{ReplicaParts};
    ghost use Rattle.replica_node.specs.Replica.{IsWholeReplica};

    ghost Value = { ReplicaParts D };

    ghost view = { λ r. r.parts };

    ghost invariant = { λ r. IsWholeReplica D.cells r.parts };
}

impl<D: Dir> Replica<D> {
    ghost use Rattle.disk_model.specs.Disk.{Name};
    ghost use Rattle.commit_steps.specs.Book.{shown_by, book_names};
    ghost use Rattle.replica_node.specs.Sources.{KeepsSource, HoldsOnly};
    ghost use Rattle.replica_node.specs.Replica.{IsWholeReplica, AreStanding};
    ghost use Rattle.searcher_switch.specs.Standing.{ImagesStand};

    /// Opens a replica on a directory, at the commit that it shows, or at the opening point where it shows none. Every other
    /// file is removed. Each image of the directory must show what the directory shows, as after a crash.
    pub fn start_from(alloc: Global, dir: D) -> Result<Replica<D>, Refused<D>>
        requires { IsSettledOn (D.cells dir) }
        ensures opened { IfOk result (OpensOn D.cells dir) }

        // Each refusal, in both directions.
        ensures refused { IfErr result (IsHandedOut D.cells D.faults dir) }
        ensures exact { (due : StartFault) → IsStartRefusal (reads_of (D.cells dir)) due
            → MatchResult result (λ _. ⊥) (λ r. IsCutOffOr due r.fault) }
        ensures opens { CanOpen (reads_of (D.cells dir)) → IfErr result (λ r. IsStartCutOff r.fault) }

        // No fault is forgotten.
        ensures later { IfOk result (λ p. D.faults dir ≤ D.faults p.dir) }
        ensures later_refused { IfErr result (λ r. D.faults dir ≤ D.faults r.dir) }
    {
        let mut dir = dir;
        match open(alloc, &mut dir) {
            Ok(opened) => Ok(Replica::of_opened(alloc, dir, opened)),
            Err(fault) => Err(Refused { dir, fault }),
        }
    }

    // The replica of a node that was opened on its directory.
    fn of_opened(alloc: Global, dir: D, opened: Opened) -> Replica<D>
        requires opened { IsNodeOpened (reads_of (D.cells dir)) opened }
        requires node { IsWholeNode (D.cells dir) opened.files (searcher_names opened.searchers)
            opened.commits }
        requires names { (q : Name) → is_some (D.cells dir q).now
            ≡ is_among (searcher_names opened.searchers ++ book_names opened.commits) q }
        ensures dir { result.dir ≡ dir }
        ensures opens { (was : D) → IsHandedBack (D.cells was) (D.cells dir)
            → FindsPoint (reads_of (D.cells was)) (number_of_last opened.commits.last) opened.infos
            → OpensOn D.cells was result }
    {
        let seen = opened.infos.generation;
        let parts = ReplicaParts {
            dir,
            files: opened.files,
            searchers: opened.searchers,
            commits: opened.commits,
            infos: opened.infos,
            segs: opened.segs,
            seen,
            jobs: 0,
            job: None,
            copies: MergeCopies {
                running: RunningCopies::new(alloc),
                pending: Precopies::none(alloc),
            },
            known: opened.known,
        };
        Replica { parts }
    }

    /// The version that is searched.
    pub fn version(&self) -> Version
        ensures version { result ≡ self.now.searchers.point.version }
        ensures whole { IsWholeReplica D.cells self.now }
    {
        self.parts.searchers.version()
    }

    /// The greatest generation that was seen.
    pub fn seen(&self) -> Gen
        ensures { result ≡ self.now.seen }
    {
        self.parts.seen
    }

    /// The number of the last job.
    pub fn jobs(&self) -> u64
        ensures { result ≡ self.now.jobs }
    {
        self.parts.jobs
    }

    /// The number that the next commit gets.
    pub fn next_commit(&self) -> u64
        ensures { result ≡ self.now.commits.next }
    {
        self.parts.commits.next
    }

    /// The names that its directory has, ascending. It makes no disk call.
    pub fn names(&self, alloc: Global) -> Result<Vec<FileName>, NoMemory>
        ensures names { IfOk result (λ names. (q : List ℕ)
            → is_among names.items q ≡ is_some (D.cells self.now.dir q).now) }
        ensures ascending { IfOk result (λ names. IsStrictlySortedBy (slice_cmp nat_cmp) names.items) }
    {
        self.parts.files.names(alloc)
    }

    /// Each image of the directory shows the last commit or the one in flight, of the documents that the directory has of it
    /// now, or nothing where there is no last one.
    #[tactic(auto, using(searcher_switch::proofs::Standing::images_stand))]
    pub fn images(&self)
        requires { AreStanding D.cells self.now }
        ensures { ImagesStand (D.cells self.now.dir) self.now.commits.last
            (shown_by self.now.commits.stage) }
    {
        let _parts = &self.parts;
    }

    /// The directory of a replica that ends.
    pub fn into_dir(self) -> D
        ensures { result ≡ self.dir }
    {
        let Replica { parts } = self;
        let ReplicaParts {
            dir,
            files,
            searchers,
            commits,
            infos,
            segs,
            seen: _,
            jobs: _,
            job,
            copies,
            known,
        } = parts;
        drop(files);
        drop(searchers);
        drop(commits);
        drop(infos);
        drop(segs);
        drop(job);
        drop(copies);
        drop(known);
        dir
    }
}

impl<D: Dir + Drop> Replica<D> {
    /// Opens a replica on a directory that has no file: it stands at the opening point. It makes no call of the disk.
    pub fn start_empty(alloc: Global, dir: D) -> Result<Replica<D>, NoMemory>
        requires empty { (q : Name) → (D.cells dir q).now ≡ None }
        requires settled { IsSettledOn (D.cells dir) }
        ensures opened { IfOk result (OpensOn D.cells dir) }
        ensures dir { IfOk result (λ p. p.dir ≡ dir) }
    {
        match open_empty(alloc, &dir) {
            Ok(opened) => Ok(Replica::of_opened(alloc, dir, opened)),
            Err(fault) => {
                drop(dir);
                Err(fault)
            }
        }
    }
}

impl<D: FaultDir> Replica<D> {
    ghost use Rattle.disk_model.specs.Listed.{AreNamesOf};
    ghost use Rattle.replica_node.specs.Sources.{KeepsSource, HoldsOnly};
    ghost use Rattle.replica_node.specs.Replica.{IsWholeReplica, AreStanding};

    /// The names of its directory are those of the files that read. It changes nothing.
    pub fn is_named(&self)
        ensures { AreNamesOf (D.cells self.now.dir) (D.names self.now.dir) }
    {
        self.parts.dir.is_named();
    }

    /// The k-th counted call of the directory from now fails once.
    pub fn plan(&mut self, k: u64)
        requires some { 0 < k }
        ensures whole { IsWholeReplica D.cells self.new }
        ensures standing { AreStanding D.cells self.old → AreStanding D.cells self.new }
        ensures sourced { KeepsSource D.cells self.old self.new }
        ensures held { HoldsOnly self.old self.new }
        ensures plans { D.planned self.new.dir ≡ record (D.planned self.old.dir) { once = k } }
        ensures cells { D.cells self.new.dir ≡ D.cells self.old.dir }
        ensures faults { D.faults self.new.dir ≡ D.faults self.old.dir }
        ensures others { self.new ≡ record self.old { dir = self.new.dir } }
    {
        self.parts.dir.plan(k);
    }

    /// The k-th counted call of the directory from now and every later one fail.
    pub fn stop_at(&mut self, k: u64)
        requires some { 0 < k }
        ensures whole { IsWholeReplica D.cells self.new }
        ensures standing { AreStanding D.cells self.old → AreStanding D.cells self.new }
        ensures sourced { KeepsSource D.cells self.old self.new }
        ensures held { HoldsOnly self.old self.new }
        ensures plans { D.planned self.new.dir ≡ record (D.planned self.old.dir) { stop = k } }
        ensures cells { D.cells self.new.dir ≡ D.cells self.old.dir }
        ensures faults { D.faults self.new.dir ≡ D.faults self.old.dir }
        ensures others { self.new ≡ record self.old { dir = self.new.dir } }
    {
        self.parts.dir.stop_at(k);
    }

    /// How many faults of the directory were met by `plan`, and how many by `stop_at`.
    pub fn kinds(&self) -> (u64, u64)
        ensures { result ≡ ((D.planned self.now.dir).met_once, (D.planned self.now.dir).met_stop) }
    {
        self.parts.dir.kinds()
    }
}

//! The primary, whole by its type.

ghost use Rattle.std.specs.Prelude.{◌≡◌, ◌+◌, ◌<◌, ◌^◌, ℕ, List, [], ◌∷◌, ◌++◌, None, false, is_some, OnOk, OnErr, IfOk, Ok, Err};
ghost use Rattle.std.specs.Cmp.Lexicographic.{slice_cmp};
ghost use Rattle.std.specs.List.Sorted.{IsStrictlySortedBy};
ghost use Rattle.std.specs.Ordering.{nat_cmp};
ghost use Rattle.disk_model.specs.Disk.{is_among, reads_of};
ghost use Rattle.commit_steps.specs.Book.{shown_by};
ghost use Rattle.searcher_switch.specs.Node.{IsWholeNode};
ghost use Rattle.searcher_switch.specs.Standing.{IsStanding, ImagesStand};

use crate::opens::open;
use crate::parts::PrimaryParts;
use commit_steps::CommitBook;
use disk_model::{Dir, FaultDir};
use documents::Op;
use file_deleter::FileDeleter;
use file_names::FileName;
use nrt_base::{List, NoMemory};
use searcher_switch::Searchers;
use seg_reader::Segment;
use segment_infos::Infos;
use std::alloc::Global;
use std::marker::Model;

/// A primary over a directory, seen as its parts. Its counts are those of its holders, the names of the directory are just
/// the counted ones and those whose removal is due, and each point and commit stands for documents.
#[derive(Drop)]
pub struct Primary<D: Dir> {
    pub(crate) parts: PrimaryParts<D>,
}

impl<D: Dir> Model for Primary<D> {
    ghost use Rattle.index_primary.specs.declared.parts.PrimaryParts.{PrimaryParts};
    ghost use Rattle.index_primary.specs.Primary.{IsPrimary};

    ghost Value = { PrimaryParts D };

    ghost view = { λ p. p.parts };

    ghost invariant = { λ p. IsPrimary D.cells p.parts };
}

impl<D: Dir> Primary<D> {
    ghost use Rattle.index_primary.specs.Primary.{IsPrimary};
    ghost use Rattle.index_primary.specs.Held.{IsHeld, AreUndrawn, AreNumbered};
    ghost use Rattle.index_primary.specs.Calls.{IsOpenedOn};
    ghost use Rattle.searcher_switch.specs.Searching.{searcher_names};

    /// The primary of a directory, whose deleter counts just the files of the searchers and of the commits, and whose
    /// searchers have the files of these infos. It searches the infos from now on, at their version. The directory is not
    /// called.
    pub fn from_parts(
        alloc: Global,
        dir: D,
        files: FileDeleter,
        searchers: Searchers<Segment>,
        commits: CommitBook,
        infos: Infos,
        segs: List<Segment>,
    ) -> Result<Self, NoMemory>
    where
        D: Drop,
        requires node { IsWholeNode (D.cells dir) files (searcher_names searchers) commits }
        requires standing { IsStanding (reads_of (D.cells dir)) commits }
        requires held { IsHeld (reads_of (D.cells dir)) infos segs searchers.point.names }
        requires undrawn { AreUndrawn files infos [] [] }
        requires numbered { AreNumbered infos [] }
        ensures whole { IfOk result (IsPrimary D.cells) }
        ensures opened { IfOk result (IsOpenedOn dir searchers commits infos segs) }
    {
        let point_infos = Infos {
            generation: infos.generation,
            version: infos.version,
            counter: infos.counter,
            segs: List::new(alloc),
        };
        let mut parts = PrimaryParts {
            dir,
            files,
            searchers,
            commits,
            point_infos,
            infos,
            segs,
            names: List::new(alloc),
            states: List::new(alloc),
            merges: List::new(alloc),
            waiting: List::new(alloc),
            accepted: 0,
            publish: None,
            has_cut_over: false,
            completed: List::new(alloc),
        };
        match open(alloc, &mut parts) {
            Ok(()) => Ok(Primary { parts }),
            Err(fault) => {
                drop(parts);
                Err(fault)
            }
        }
    }

    /// Accepts an operation. Answers its place in this generation, from 1.
    pub fn accept(&mut self, op: Op) -> Result<u32, NoMemory>
        requires below { self.old.accepted + 1 < 2 ^ 32 }
        ensures place { IfOk result (λ place. place ≡ self.old.accepted + 1) }
        ensures waits { OnOk result (self.new ≡ record self.old {
          waiting = self.old.waiting ++ op ∷ [];
          accepted = self.old.accepted + 1;
        }) }
        ensures err { OnErr result (self.new ≡ self.old) }
        ensures whole { IsPrimary D.cells self.new }
    {
        self.parts.waiting.push(op)?;
        self.parts.accepted += 1;
        Ok(self.parts.accepted)
    }

    /// The names of the directory's files, ascending. The directory is not called.
    pub fn names(&self, alloc: Global) -> Result<Vec<FileName>, NoMemory>
        ensures names { IfOk result (λ names. (q : List ℕ)
            → is_among names.items q ≡ is_some (D.cells self.now.dir q).now) }
        ensures ascending { IfOk result (λ names. IsStrictlySortedBy (slice_cmp nat_cmp) names.items) }
    {
        self.parts.files.names(alloc)
    }

    /// The number that the next commit gets.
    pub fn next_commit(&self) -> u64
        ensures { result ≡ self.now.commits.next }
    {
        self.parts.commits.next
    }

    /// Each image of the directory shows the last commit or the one in flight, of the documents that the directory has of it
    /// now, or nothing where there is no last one.
    #[tactic(auto, using(searcher_switch::proofs::Standing::images_stand))]
    pub fn images(&self)
        ensures { ImagesStand (D.cells self.now.dir) self.now.commits.last
            (shown_by self.now.commits.stage) }
    {
        let _parts = &self.parts;
    }

    /// The directory, as it stands.
    pub fn into_dir(self) -> D
        ensures { result ≡ self.dir }
    {
        let Primary { parts } = self;
        let PrimaryParts {
            dir,
            files,
            searchers,
            commits,
            point_infos,
            infos,
            segs,
            names,
            states,
            merges,
            waiting,
            accepted: _,
            publish,
            has_cut_over: _,
            completed,
        } = parts;
        // What goes by a call takes the check a second; left to the end of the body, all this takes a minute.
        drop(files);
        drop(searchers);
        drop(commits);
        drop(point_infos);
        drop(infos);
        drop(segs);
        drop(names);
        drop(states);
        drop(merges);
        drop(waiting);
        drop(publish);
        drop(completed);
        dir
    }
}

impl<D: FaultDir> Primary<D> {
    ghost use Rattle.disk_model.specs.Listed.{AreNamesOf};
    ghost use Rattle.index_primary.specs.Primary.{IsPrimary};

    /// The names of its directory are those of the files that read. It changes nothing.
    pub fn is_named(&self)
        ensures { AreNamesOf (D.cells self.now.dir) (D.names self.now.dir) }
    {
        self.parts.dir.is_named();
    }

    /// The k-th counted call of the directory from now fails once.
    pub fn plan(&mut self, k: u64)
        requires { 0 < k }
        ensures plans { D.planned self.new.dir ≡ record (D.planned self.old.dir) { once = k } }
        ensures cells { D.cells self.new.dir ≡ D.cells self.old.dir }
        ensures faults { D.faults self.new.dir ≡ D.faults self.old.dir }
        ensures others { self.new ≡ record self.old { dir = self.new.dir } }
        ensures whole { IsPrimary D.cells self.new }
    {
        self.parts.dir.plan(k);
    }

    /// The k-th counted call of the directory from now and every later one fail.
    pub fn stop_at(&mut self, k: u64)
        requires { 0 < k }
        ensures plans { D.planned self.new.dir ≡ record (D.planned self.old.dir) { stop = k } }
        ensures cells { D.cells self.new.dir ≡ D.cells self.old.dir }
        ensures faults { D.faults self.new.dir ≡ D.faults self.old.dir }
        ensures others { self.new ≡ record self.old { dir = self.new.dir } }
        ensures whole { IsPrimary D.cells self.new }
    {
        self.parts.dir.stop_at(k);
    }

    /// How many faults of the directory were met by `plan`, and how many by `stop_at`.
    pub fn kinds(&self) -> (u64, u64)
        ensures { result ≡ ((D.planned self.now.dir).met_once, (D.planned self.now.dir).met_stop) }
    {
        self.parts.dir.kinds()
    }
}

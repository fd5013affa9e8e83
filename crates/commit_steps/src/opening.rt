//! How a book is opened, and how a commit begins.

ghost use Rattle.std.specs.Prelude.{◌≡◌, ◌+◌, ◌<◌, ◌^◌, [], None, Some, IsSome, IfSome, Ok, Err, IfOk, OnOk, OnErr};
ghost use Rattle.disk_model.specs.Disk.{reads_of};
ghost use Rattle.file_names.specs.Names.{commit_name_of, pending_name_of};
ghost use Rattle.file_deleter.specs.Holdings.{IsDueBut};
ghost use Rattle.file_deleter.specs.Moves.{HoldsFiles, MovesCounts};
ghost use Rattle.segment_infos.specs.Infos.{CanSpell};
ghost use Rattle.commit_steps.specs.Found.{ShowsCommit};
ghost use Rattle.commit_steps.specs.Flights.{IsCommit, IsFlight};
ghost use Rattle.commit_steps.specs.Commits.{HasFilesOf, ImagesShow};
ghost use Rattle.commit_steps.specs.Calls.{IsFree};
ghost use Rattle.commit_steps.specs.Book.{book_names, IsBookSound, IsOpened, HasBegun};

use crate::stage::{CommitBook, Stage};
use crate::states::{Begun, Commit, Flight};
use disk_model::Dir;
use file_deleter::FileDeleter;
use file_names::commit_name;
use nrt_base::{List, NoMemory, Share};
use segment_infos::{Infos, encode, files_of};
use std::alloc::Global;

// The commit of these infos with this number.
fn commit_with(alloc: Global, number: u64, infos: &Infos) -> Result<Commit, NoMemory>
    requires some { 0 < number }
    requires below { number < 2 ^ 62 }
    ensures commit { IfOk result IsCommit }
    ensures number { IfOk result (λ commit. commit.number ≡ number) }
    ensures infos { IfOk result (λ commit. commit.infos ≡ infos.now) }
{
    let files = List::from_vec(files_of(alloc, infos)?);
    let mut names = files.share(alloc)?;
    names.push(commit_name(number))?;
    let infos = infos.share(alloc)?;
    Ok(Commit {
        number,
        infos,
        files,
        names,
    })
}

// What a commit of these infos with this number begins with: the commit, and the bytes of its file.
fn flight_with(alloc: Global, number: u64, infos: &Infos) -> Result<Flight, NoMemory>
    requires some { 0 < number }
    requires below { number < 2 ^ 62 }
    requires spelled { CanSpell infos.now }
    ensures flight { IfOk result IsFlight }
    ensures number { IfOk result (λ flight. flight.commit.number ≡ number) }
    ensures infos { IfOk result (λ flight. flight.commit.infos ≡ infos.now) }
{
    let bytes = encode(alloc, infos)?;
    let commit = commit_with(alloc, number, infos)?;
    Ok(Flight { commit, bytes })
}

// The same, and its files are held.
#[tactic(auto, using(crate::proofs::Beginning::files_there))]
fn flight_held<D: Dir>(
    alloc: Global,
    number: u64,
    infos: &Infos,
    files: &mut FileDeleter,
    dir: &D,
) -> Result<Flight, NoMemory>
    requires some { 0 < number }
    requires below { number < 2 ^ 62 }
    requires spelled { CanSpell infos.now }
    requires there { HasFilesOf (D.cells dir.now) infos.now }
    ensures flight { IfOk result IsFlight }
    ensures number { IfOk result (λ flight. flight.commit.number ≡ number) }
    ensures infos { IfOk result (λ flight. flight.commit.infos ≡ infos.now) }
    ensures holds { IfOk result (λ flight.
        HoldsFiles flight.commit.files files.old files.new (D.cells dir.now)) }
    ensures due { IfOk result (λ flight. IsDueBut flight.commit.files files.old files.new) }
    ensures err { OnErr result (files.new ≡ files.old) }
{
    let flight = flight_with(alloc, number, infos)?;
    match files.hold_there(flight.commit.files.as_slice(), dir) {
        Ok(()) => Ok(flight),
        Err(fault) => {
            drop(flight);
            Err(fault)
        }
    }
}

impl CommitBook {
    /// The book of a directory whose last commit is `segments_N` with these infos. It holds that file and those that the
    /// infos name, which must exist; the next commit's number must be above N.
    #[tactic(auto, using(crate::proofs::Beginning::names_there))]
    pub fn opened<D: Dir>(
        alloc: Global,
        number: u64,
        infos: &Infos,
        next: u64,
        files: &mut FileDeleter,
        dir: &D,
    ) -> Result<CommitBook, NoMemory>
        requires shown { ShowsCommit (reads_of (D.cells dir.now)) number infos.now }
        requires there { HasFilesOf (D.cells dir.now) infos.now }
        requires next { number < next }
        ensures book { IfOk result (IsOpened number infos.now next) }
        ensures holds { IfOk result (λ book.
            HoldsFiles (book_names book) files.old files.new (D.cells dir.now)) }
        ensures sound { ImagesShow (D.cells dir.now) number infos.now
            → IfOk result (IsBookSound (D.cells dir.now) files.new) }
        ensures err { OnErr result (files.new ≡ files.old) }
    {
        let commit = commit_with(alloc, number, infos)?;
        match files.hold_there(commit.names.as_slice(), dir) {
            Ok(()) => Ok(CommitBook {
                last: Some(commit),
                stage: None,
                next,
            }),
            Err(fault) => {
                drop(commit);
                Err(fault)
            }
        }
    }

    /// Begins a commit of these infos with the next number. It holds the files that they name, which must exist. Nothing may
    /// be in flight, and no file may have a name of that number.
    pub fn begin<D: Dir>(
        &mut self,
        alloc: Global,
        infos: &Infos,
        files: &mut FileDeleter,
        dir: &D,
    ) -> Result<(), NoMemory>
        requires none { self.old.stage ≡ None }
        requires spelled { CanSpell infos.now }
        requires there { HasFilesOf (D.cells dir.now) infos.now }
        requires below { self.old.next < 2 ^ 62 }
        requires pending { IsFree (D.cells dir.now) files.old (pending_name_of self.old.next) }
        requires own { IsFree (D.cells dir.now) files.old (commit_name_of self.old.next) }
        requires sound { IsBookSound (D.cells dir.now) files.old self.old }
        ensures book { OnOk result (HasBegun infos.now self.old self.new) }
        ensures moves { OnOk result (MovesCounts [] (book_names self.old) (book_names self.new)
            files.old files.new (D.cells dir.now) (D.cells dir.now)) }
        ensures sound { IsBookSound (D.cells dir.now) files.new self.new }
        ensures err { OnErr result ((self.new ≡ self.old) × (files.new ≡ files.old)) }
    {
        let flight = flight_held(alloc, self.next, infos, files, dir)?;
        self.put(Stage::Begun(Begun(flight)));
        self.next += 1;
        Ok(())
    }
}

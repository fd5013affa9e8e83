//! Opening a node on a directory.

ghost use Rattle.std.specs.Prelude.{◌≡◌, ◌≤◌, ◌<◌, ℕ, List, [], Some, None, IfSome, Contains, IfOk, IfErr, OnOk, OnErr, IsErrOf, MatchResult, is_some};
ghost use Rattle.std.specs.List.{All, flat_map};
ghost use Rattle.nrt_base.specs.Causes.{Rose};
ghost use Rattle.disk_model.specs.Disk.{is_among, reads_of};
ghost use Rattle.file_deleter.specs.Holdings.{IsThere};
ghost use Rattle.file_deleter.specs.Moves.{HoldsFiles};
ghost use Rattle.segment_infos.specs.Infos.{IsRecord, RecordFits};
ghost use Rattle.segment_infos.specs.Files.{files_of_segment};
ghost use Rattle.seg_reader.specs.declared.parts.SegFault.{SegFault};
ghost use Rattle.seg_reader.specs.Shown.{Shown};
ghost use Rattle.seg_reader.specs.Stands.{IsSegmentIn};
ghost use Rattle.commit_steps.specs.Flights.{IsCommit};
ghost use Rattle.commit_steps.specs.Book.{book_names, IsBookSound};
ghost use Rattle.commit_steps.specs.Recovery.{IsWholeCommit};
ghost use Rattle.replica_opening.specs.declared.fault.StartFault.{StartFault};
ghost use Rattle.replica_opening.specs.Readers.{AreReaders, IsRefusedIn, IsFirstRefusedSegment};
ghost use Rattle.replica_opening.specs.Opening.{IsReadNext, IsRefusedNext, IsRefusedAmong, IsOfFirstRefused, IsRecovered, IsRecoveredBefore, CanOpen, RecoversOpen, start_fault_of, opening_infos, FindsPoint, number_of_last, IsDiskFault, IsStartCutOff, IsStartRefusal, IsCutOffOr, IsStartFaultOf};
ghost use Rattle.replica_opening.specs.Known.{KnowsFiles, LearnsFiles};
ghost use Rattle.replica_opening.specs.Opened.{IsOpeningPoint, IsFoundPoint, IsSettledOn, OpensNode, IsCounted, IsTaken, IsHandedBack};

use crate::clearing::clear;
use crate::fault::StartFault;
use crate::known::{Known, note_parts};
use crate::reading::{LoadFault, SegmentRead, read_segment};
use commit_steps::{CommitBook, RecoverFault, recover};
use disk_model::{Dir, DirFault};
use file_deleter::FileDeleter;
use file_names::FileName;
use nrt_base::{Gen, List, NoMemory, Share, Version};
use searcher_switch::Searchers;
use seg_reader::Segment;
use segment_infos::{Infos, SegRecord, files_of, next_commit};
use std::alloc::Global;

/// The segments of a point, and what is known of their files.
#[derive(Drop)]
pub struct PointRead {
    pub segs: List<Segment>,
    pub known: Known,
}

/// What a directory shows: the number of its last commit, the infos of its point, the names of their files, and their segments.
#[derive(Drop)]
pub struct Found {
    pub number: Option<u64>,
    pub infos: Infos,
    pub names: List<FileName>,
    pub read: PointRead,
}

/// What an opened node has beside its directory: the counts of its files, the point that it searches, its commits, the infos
/// of the point with its segments once more, and what is known of its files.
#[derive(Drop)]
pub struct Opened {
    pub files: FileDeleter,
    pub searchers: Searchers<Segment>,
    pub commits: CommitBook,
    pub infos: Infos,
    pub segs: List<Segment>,
    pub known: Known,
}

// The next segment of a point. What its files are known by is noted.
fn read_next<D: Dir>(
    alloc: Global,
    record: &SegRecord,
    point: &mut PointRead,
    dir: &mut D,
) -> Result<(), StartFault>
    requires record { IsRecord record.now }
    requires fits { RecordFits record.now }
    requires there { (q : List ℕ) → Contains (files_of_segment record.now) q
        → IsThere (D.cells dir.old) q }
    ensures read { OnOk result (IsReadNext (reads_of (D.cells dir.old)) record.now
        point.old.segs point.new.segs) }
    ensures known { OnOk result (LearnsFiles (reads_of (D.cells dir.old))
        (files_of_segment record.now) point.old.known point.new.known) }
    ensures err { IfErr result (IsRefusedNext (reads_of (D.cells dir.old)) record.now) }
    ensures shown { (shown : Shown) → IsSegmentIn (reads_of (D.cells dir.old)) record.now shown
        → IfErr result IsStartCutOff }
    ensures refused { (fault : SegFault) → IsRefusedIn (reads_of (D.cells dir.old)) record.now fault
        → MatchResult result (λ _. ⊥) (IsCutOffOr (StartFault.Segment record.now.seg fault)) }
    ensures cells { D.cells dir.new ≡ D.cells dir.old }
    ensures failed { IsErrOf result StartFault.Failed → Rose (D.faults dir.old) (D.faults dir.new) }
    ensures later { D.faults dir.old ≤ D.faults dir.new }
{
    match read_segment(alloc, record, dir) {
        Ok(SegmentRead { segment, parts }) => {
            let Ok(()) = note_parts(alloc, record, &parts, &mut point.known) else {
                return Err(StartFault::Memory);
            };
            match point.segs.push(segment) {
                Ok(()) => Ok(()),
                Err(_) => Err(StartFault::Memory),
            }
        }
        Err(LoadFault::Memory) => Err(StartFault::Memory),
        Err(LoadFault::Failed) => Err(StartFault::Failed),
        Err(LoadFault::Refused(fault)) => Err(StartFault::Segment(record.seg, fault)),
    }
}

// The segments of a point.
fn read_all<D: Dir>(
    alloc: Global,
    records: &[SegRecord],
    dir: &mut D,
) -> Result<PointRead, StartFault>
    requires records { All IsRecord records.now }
    requires fit { All RecordFits records.now }
    requires there { (q : List ℕ) → Contains (flat_map files_of_segment records.now) q
        → IsThere (D.cells dir.old) q }
    ensures readers { IfOk result (λ point.
        AreReaders (reads_of (D.cells dir.old)) records.now point.segs) }
    ensures known { IfOk result (λ point. KnowsFiles (reads_of (D.cells dir.old))
        (flat_map files_of_segment records.now) point.known) }
    ensures err { IfErr result (IsRefusedAmong (reads_of (D.cells dir.old)) records.now) }
    ensures refused { (r : SegRecord) (fault : SegFault)
        → IsFirstRefusedSegment (reads_of (D.cells dir.old)) records.now r fault
        → MatchResult result (λ _. ⊥) (IsCutOffOr (StartFault.Segment r.seg fault)) }
    ensures opens { (segs : List Shown)
        → AreReaders (reads_of (D.cells dir.old)) records.now segs → IfErr result IsStartCutOff }
    ensures cells { D.cells dir.new ≡ D.cells dir.old }
    ensures failed { IsErrOf result StartFault.Failed → Rose (D.faults dir.old) (D.faults dir.new) }
    ensures later { D.faults dir.old ≤ D.faults dir.new }
{
    let mut point = PointRead {
        segs: List::new(alloc),
        known: Known::new(alloc),
    };
    for record in records {
        if let Err(fault) = read_next(alloc, record, &mut point, dir) {
            return Err(fault);
        }
    }
    Ok(point)
}

// The opening point.
fn opening_point(alloc: Global) -> Found
    ensures { IsOpeningPoint result }
{
    Found {
        number: None,
        infos: Infos {
            generation: Gen(1),
            version: Version(1),
            counter: 0,
            segs: List::new(alloc),
        },
        names: List::new(alloc),
        read: PointRead {
            segs: List::new(alloc),
            known: Known::new(alloc),
        },
    }
}

// The point of a commit that is whole.
fn committed_point<D: Dir>(
    alloc: Global,
    number: u64,
    infos: Infos,
    dir: &mut D,
) -> Result<Found, StartFault>
    requires { IsWholeCommit (reads_of (D.cells dir.old)) number infos }
    ensures found { IfOk result (IsFoundPoint (reads_of (D.cells dir.old))) }
    ensures err { IfErr result (IsRefusedAmong (reads_of (D.cells dir.old)) infos.segs) }
    ensures refused { (r : SegRecord) (fault : SegFault)
        → IsFirstRefusedSegment (reads_of (D.cells dir.old)) infos.segs r fault
        → MatchResult result (λ _. ⊥) (IsCutOffOr (StartFault.Segment r.seg fault)) }
    ensures opens { (segs : List Shown)
        → AreReaders (reads_of (D.cells dir.old)) infos.segs segs → IfErr result IsStartCutOff }
    ensures cells { D.cells dir.new ≡ D.cells dir.old }
    ensures failed { IsErrOf result StartFault.Failed → Rose (D.faults dir.old) (D.faults dir.new) }
    ensures later { D.faults dir.old ≤ D.faults dir.new }
{
    let names = match files_of(alloc, &infos) {
        Ok(names) => List::from_vec(names),
        Err(_) => return Err(StartFault::Memory),
    };
    match read_all(alloc, infos.segs.as_slice(), dir) {
        Ok(read) => Ok(Found {
            number: Some(number),
            infos,
            names,
            read,
        }),
        Err(fault) => Err(fault),
    }
}

// Why no commit is recovered, as a fault of an opening.
fn start_fault(fault: RecoverFault) -> StartFault
    ensures { result ≡ start_fault_of fault }
{
    match fault {
        RecoverFault::Memory => StartFault::Memory,
        fault => StartFault::Recover(fault),
    }
}

// The commit that a directory shows, if it shows one.
fn recovered<D: Dir>(alloc: Global, dir: &mut D) -> Result<Option<(u64, Infos)>, StartFault>
    ensures found { IfOk result (IsRecovered (reads_of (D.cells dir.old))) }
    ensures err { IfErr result (IsStartFaultOf (reads_of (D.cells dir.old))) }
    ensures refused { (due : StartFault) → IsStartRefusal (reads_of (D.cells dir.old)) due
        → IsRecoveredBefore (reads_of (D.cells dir.old)) due result }
    ensures opens { CanOpen (reads_of (D.cells dir.old))
        → RecoversOpen (reads_of (D.cells dir.old)) result }
    ensures cells { D.cells dir.new ≡ D.cells dir.old }
    ensures failed { IfErr result (λ fault.
        IsDiskFault fault → Rose (D.faults dir.old) (D.faults dir.new)) }
    ensures later { D.faults dir.old ≤ D.faults dir.new }
{
    match recover(alloc, dir) {
        Ok(found) => Ok(found),
        Err(fault) => Err(start_fault(fault)),
    }
}

// The point that a directory shows.
fn found_point<D: Dir>(alloc: Global, dir: &mut D) -> Result<Found, StartFault>
    ensures found { IfOk result (IsFoundPoint (reads_of (D.cells dir.old))) }
    ensures err { IfErr result (IsStartFaultOf (reads_of (D.cells dir.old))) }
    ensures refused { (due : StartFault) → IsStartRefusal (reads_of (D.cells dir.old)) due
        → MatchResult result (λ _. ⊥) (IsCutOffOr due) }
    ensures opens { CanOpen (reads_of (D.cells dir.old)) → IfErr result IsStartCutOff }
    ensures cells { D.cells dir.new ≡ D.cells dir.old }
    ensures failed { IfErr result (λ fault.
        IsDiskFault fault → Rose (D.faults dir.old) (D.faults dir.new)) }
    ensures later { D.faults dir.old ≤ D.faults dir.new }
{
    match recovered(alloc, dir) {
        Ok(None) => Ok(opening_point(alloc)),
        Ok(Some((number, infos))) => match committed_point(alloc, number, infos, dir) {
            Ok(found) => Ok(found),
            Err(fault) => Err(fault),
        },
        Err(fault) => Err(fault),
    }
}

// The names of a directory.
fn listed<D: Dir>(dir: &mut D) -> Result<List<FileName>, StartFault>
    ensures names { IfOk result (λ names. (q : List ℕ)
        → is_among names q ≡ is_some (D.cells dir.old q).now) }
    ensures err { IfErr result IsStartCutOff }
    ensures cells { D.cells dir.new ≡ D.cells dir.old }
    ensures failed { IfErr result (λ fault.
        IsDiskFault fault → Rose (D.faults dir.old) (D.faults dir.new)) }
    ensures later { D.faults dir.old ≤ D.faults dir.new }
{
    match dir.list() {
        Ok(names) => Ok(List::from_vec(names)),
        Err(DirFault::Memory) => Err(StartFault::Memory),
        Err(DirFault::Failed) => Err(StartFault::Failed),
        Err(DirFault::Missing | DirFault::Exists) => unreachable!(),
    }
}

// The book of what was found.
fn open_book<D: Dir>(
    alloc: Global,
    number: Option<u64>,
    infos: &Infos,
    next: u64,
    files: &mut FileDeleter,
    dir: &D,
) -> Result<CommitBook, NoMemory>
    requires finds { FindsPoint (reads_of (D.cells dir.now)) number infos.now }
    requires there { (q : List ℕ) → Contains (flat_map files_of_segment infos.now.segs) q
        → IsThere (D.cells dir.now) q }
    requires above { IfSome number (λ n. n < next) }
    requires some { 0 < next }
    ensures holds { IfOk result (λ book.
        HoldsFiles (book_names book) files.old files.new (D.cells dir.now)) }
    ensures last { IfOk result (λ book. number_of_last book.last ≡ number) }
    ensures commit { IfOk result (λ book.
        IfSome book.last (λ c. IsCommit c × (c.infos ≡ infos.now))) }
    ensures none { IfOk result (λ book. book.stage ≡ None) }
    ensures next { IfOk result (λ book. book.next ≡ next) }
    ensures sound { IsSettledOn (D.cells dir.now)
        → IfOk result (IsBookSound (D.cells dir.now) files.new) }
{
    match number {
        None => Ok(CommitBook::new(next)),
        Some(number) => match CommitBook::opened(alloc, number, infos, next, files, dir) {
            Ok(book) => Ok(book),
            Err(fault) => Err(fault),
        },
    }
}

/// An opened node, and the names that its directory has, which are all held once more.
#[derive(Drop)]
pub struct Taken {
    pub opened: Opened,
    pub listed: List<FileName>,
}

/// The counts of a node's files, and its commits.
#[derive(Drop)]
pub struct FilesAndCommits {
    pub files: FileDeleter,
    pub commits: CommitBook,
}

// Holds all files of a directory, and those of the point and of the commit that was found.
fn count_found<D: Dir>(
    alloc: Global,
    found: &Found,
    listed: &[FileName],
    dir: &D,
) -> Result<FilesAndCommits, NoMemory>
    requires found { IsFoundPoint (reads_of (D.cells dir.now)) found.now }
    requires listed { (q : List ℕ) → is_among listed.now q ≡ is_some (D.cells dir.now q).now }
    ensures { IfOk result (IsCounted (D.cells dir.now) found.now listed.now) }
{
    let mut files = FileDeleter::new(alloc)?;
    files.hold_there(listed, dir)?;
    files.hold_there(found.names.as_slice(), dir)?;
    let next = next_commit(listed);
    let commits = open_book(alloc, found.number, &found.infos, next, &mut files, dir)?;
    Ok(FilesAndCommits { files, commits })
}

// Searchers of the point that was found.
fn searchers_of(alloc: Global, found: &Found) -> Result<Searchers<Segment>, NoMemory>
    ensures point { IfOk result (λ s. s.point ≡ record {
      version = found.now.infos.version;
      names = found.now.names;
      readers = found.now.read.segs;
    }) }
    ensures tickets { IfOk result (λ s. s.tickets ≡ []) }
{
    let names = found.names.share(alloc)?;
    let readers = found.read.segs.share(alloc)?;
    match Searchers::new(alloc, found.infos.version, names, readers) {
        Ok(searchers) => Ok(searchers),
        Err(fault) => Err(fault),
    }
}

// What is held of a point that was found, and of the names that its directory has, and what searches it.
fn held_of<D: Dir>(
    alloc: Global,
    found: &Found,
    listed: &[FileName],
    dir: &D,
) -> Result<(FilesAndCommits, Searchers<Segment>), NoMemory>
    requires found { IsFoundPoint (reads_of (D.cells dir.now)) found.now }
    requires listed { (q : List ℕ) → is_among listed.now q ≡ is_some (D.cells dir.now q).now }
    ensures counted { IfOk result (λ held. IsCounted (D.cells dir.now) found.now listed.now held.0) }
    ensures point { IfOk result (λ held. held.1.point ≡ record {
      version = found.now.infos.version;
      names = found.now.names;
      readers = found.now.read.segs;
    }) }
    ensures tickets { IfOk result (λ held. held.1.tickets ≡ []) }
{
    let counted = count_found(alloc, found, listed, dir)?;
    match searchers_of(alloc, found) {
        Ok(searchers) => Ok((counted, searchers)),
        Err(fault) => {
            drop(counted);
            Err(fault)
        }
    }
}

// Holds all files of a directory, and those of the point that was found, and searches that.
fn hold_found<D: Dir>(
    alloc: Global,
    found: Found,
    listed: List<FileName>,
    dir: &D,
) -> Result<Taken, NoMemory>
    requires found { IsFoundPoint (reads_of (D.cells dir.now)) found }
    requires listed { (q : List ℕ) → is_among listed q ≡ is_some (D.cells dir.now q).now }
    ensures { IfOk result (IsTaken (D.cells dir.now)) }
{
    let (counted, searchers) = match held_of(alloc, &found, listed.as_slice(), dir) {
        Ok(held) => held,
        Err(fault) => {
            drop(listed);
            drop(found);
            return Err(fault);
        }
    };
    let FilesAndCommits { files, commits } = counted;
    let Found {
        number: _,
        infos,
        names,
        read: PointRead { segs, known },
    } = found;
    drop(names);
    Ok(Taken {
        opened: Opened {
            files,
            searchers,
            commits,
            infos,
            segs,
            known,
        },
        listed,
    })
}

/// Opens a node on a directory. It finds the point that the directory shows, holds its files, and removes every other file,
/// in ascending order, ending at the first removal that fails.
pub fn open<D: Dir>(alloc: Global, dir: &mut D) -> Result<Opened, StartFault>
    // What is answered.
    ensures opened { IfOk result (OpensNode (D.cells dir.old) (D.cells dir.new)) }
    ensures found { IfOk result (λ o.
        FindsPoint (reads_of (D.cells dir.old)) (number_of_last o.commits.last) o.infos) }

    // Each refusal, in both directions.
    ensures fault { IfErr result (IsStartFaultOf (reads_of (D.cells dir.old))) }
    ensures refused { (due : StartFault) → IsStartRefusal (reads_of (D.cells dir.old)) due
        → MatchResult result (λ _. ⊥) (IsCutOffOr due) }
    ensures opens { CanOpen (reads_of (D.cells dir.old)) → IfErr result IsStartCutOff }

    // What the directory shows stays, whatever is answered.
    ensures kept { IsHandedBack (D.cells dir.old) (D.cells dir.new) }

    // When the disk failed.
    ensures failed { IfErr result (λ fault.
        IsDiskFault fault → Rose (D.faults dir.old) (D.faults dir.new)) }
    ensures later { D.faults dir.old ≤ D.faults dir.new }
{
    let found = match found_point(alloc, dir) {
        Ok(found) => found,
        Err(fault) => return Err(fault),
    };
    let listed = match listed(dir) {
        Ok(listed) => listed,
        Err(fault) => {
            drop(found);
            return Err(fault);
        }
    };
    let Ok(taken) = hold_found(alloc, found, listed, dir) else {
        return Err(StartFault::Memory);
    };
    let Taken { mut opened, listed } = taken;
    match clear(listed.as_slice(), &mut opened.files, dir) {
        Ok(()) => {
            drop(listed);
            Ok(opened)
        }
        Err(fault) => {
            drop(listed);
            drop(opened);
            Err(fault)
        }
    }
}

/// Opens a node on a directory that has no file: it stands at the opening point. It makes no call of the disk.
pub fn open_empty<D: Dir>(alloc: Global, dir: &D) -> Result<Opened, NoMemory>
    requires { (q : List ℕ) → (D.cells dir.now q).now ≡ None }
    ensures { IfOk result (OpensNode (D.cells dir.now) (D.cells dir.now)) }
{
    let found = opening_point(alloc);
    let taken = hold_found(alloc, found, List::new(alloc), dir)?;
    Ok(taken.opened)
}

//! A directory with its deleter and its book.

ghost use Rattle.std.specs.Prelude.{◌≡◌, ◌<◌, true, [], Ok, IfOk, OnOk};
ghost use Rattle.disk_model.specs.Disk.{reads_of};
ghost use Rattle.file_names.specs.Names.{commit_name_of, pending_name_of};
ghost use Rattle.segment_infos.specs.Infos.{CanSpell};
ghost use Rattle.disk_memory.specs.Table.{cells_of};
ghost use Rattle.disk_memory.specs.Memory.{table_of};
ghost use Rattle.file_deleter.specs.Holdings.{AreCounted};
ghost use Rattle.commit_steps.specs.Commits.{ImagesShowNothing};
ghost use Rattle.commit_steps.specs.Recovery.{IsWholeCommit};
ghost use Rattle.commit_steps.specs.Calls.{IsFree};
ghost use Rattle.commit_steps.specs.Book.{book_names, IsBookSound};

use commit_steps::{CommitBook, CommitFault};
use disk_memory::MemDir;
use disk_model::{Dir, FaultDir};
use file_deleter::FileDeleter;
use file_names::{FileName, commit_name, pending_name};
use nrt_base::{Gen, List, NoMemory, Version};
use segment_infos::Infos;
use std::alloc::Global;
use std::test::Fail;

// Infos without a segment.
fn infos_at(alloc: Global, version: u64) -> Infos
    requires { 0 < version }
    ensures spelled { CanSpell result }
    ensures none { result.segs ≡ [] }
{
    Infos {
        generation: Gen(1),
        version: Version(version),
        counter: 0,
        segs: List::from_vec(Vec::new(alloc)),
    }
}

/// A directory in memory without a file.
pub fn empty_dir(alloc: Global) -> Result<MemDir, NoMemory>
    ensures { IfOk result (λ dir. ImagesShowNothing (cells_of (table_of dir))) }
{
    let dir = MemDir::new(alloc)?;
    Ok(dir)
}

/// A directory, with its deleter and its book.
#[derive(Drop)]
pub struct Site<D> {
    pub dir: D,
    pub files: FileDeleter,
    pub book: CommitBook,
}

impl<D: FaultDir + Drop> Site<D> {
    /// A site on a directory without a commit.
    pub fn new(alloc: Global, dir: D) -> Result<Site<D>, NoMemory>
        requires { ImagesShowNothing (D.cells dir) }
        ensures sound { IfOk result (λ site. IsBookSound (D.cells site.dir) site.files site.book) }
        ensures counted { IfOk result (λ site. AreCounted (book_names site.book) site.files) }
    {
        let files = FileDeleter::new(alloc)?;
        let book = CommitBook::new(1);
        Ok(Site { dir, files, book })
    }

    // Whether neither the directory nor the deleter knows the name.
    fn is_free(&self, alloc: Global, name: &FileName) -> Result<bool, NoMemory>
        ensures { result ≡ Ok true → IsFree (D.cells self.now.dir) self.now.files name.now }
    {
        let pending = self.files.pending(alloc)?;
        Ok(pending.is_empty() && self.files.count(name) == 0 && !self.dir.has(name))
    }

    // Refuses a number whose names are not free.
    fn free_names(&self, alloc: Global, number: u64) -> Result<(), Fail>
        ensures pending { OnOk result
            (IsFree (D.cells self.now.dir) self.now.files (pending_name_of number)) }
        ensures own { OnOk result (IsFree (D.cells self.now.dir) self.now.files (commit_name_of number)) }
    {
        let pending = self.is_free(alloc, &pending_name(number))?;
        let own = self.is_free(alloc, &commit_name(number))?;
        if !pending || !own {
            return Err(Fail::new("a name is not free"));
        }
        Ok(())
    }

    /// Begins a commit of infos without a segment.
    pub fn begin(&mut self, alloc: Global, version: u64) -> Result<(), Fail>
        requires some { 0 < version }
        requires sound { IsBookSound (D.cells self.old.dir) self.old.files self.old.book }
        requires counted { AreCounted (book_names self.old.book) self.old.files }
        ensures sound { IsBookSound (D.cells self.new.dir) self.new.files self.new.book }
        ensures counted { AreCounted (book_names self.new.book) self.new.files }
    {
        let number = self.book.next;
        if number >= 1 << 62 || self.book.in_flight() {
            return Err(Fail::new("no commit can begin"));
        }
        self.free_names(alloc, number)?;
        let infos = infos_at(alloc, version);
        self.book.begin(alloc, &infos, &mut self.files, &self.dir)?;
        Ok(())
    }

    // A step of the commit in flight.
    fn step(&mut self, alloc: Global) -> Result<bool, CommitFault>
        requires sound { IsBookSound (D.cells self.old.dir) self.old.files self.old.book }
        requires counted { AreCounted (book_names self.old.book) self.old.files }
        ensures sound { IsBookSound (D.cells self.new.dir) self.new.files self.new.book }
        ensures counted { AreCounted (book_names self.new.book) self.new.files }
    {
        if !self.book.in_flight() {
            return Ok(false);
        }
        self.book.step(alloc, &mut self.files, &mut self.dir)
    }

    /// How many steps make the commit in flight, or 0 where six do not.
    pub fn commit(&mut self, alloc: Global) -> Result<u32, CommitFault>
        requires sound { IsBookSound (D.cells self.old.dir) self.old.files self.old.book }
        requires counted { AreCounted (book_names self.old.book) self.old.files }
        ensures sound { IsBookSound (D.cells self.new.dir) self.new.files self.new.book }
        ensures counted { AreCounted (book_names self.new.book) self.new.files }
    {
        for count in 1..=6 {
            if self.step(alloc)? {
                return Ok(count);
            }
        }
        Ok(0)
    }

    /// Plans that the k-th call of the directory and each later one fail.
    pub fn stop_at(&mut self, k: u64)
        requires some { 0 < k }
        requires sound { IsBookSound (D.cells self.old.dir) self.old.files self.old.book }
        requires counted { AreCounted (book_names self.old.book) self.old.files }
        ensures sound { IsBookSound (D.cells self.new.dir) self.new.files self.new.book }
        ensures counted { AreCounted (book_names self.new.book) self.new.files }
    {
        self.dir.stop_at(k);
    }
}

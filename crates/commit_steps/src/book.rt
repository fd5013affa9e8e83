//! The calls of the book.

ghost use Rattle.std.specs.Prelude.{◌≡◌, ◌+◌, ◌<◌, ◌≤◌, ℕ, List, true, is_some, None, Some, IsSome, IfSome, Ok, Err, IfOk, OnOk, OnErr, IsErrOf};
ghost use Rattle.std.specs.Option.{option_map};
ghost use Rattle.nrt_base.specs.Causes.{Rose};
ghost use Rattle.disk_model.specs.Disk.{Cells, is_among};
ghost use Rattle.disk_model.specs.Faults.{CountsFaults};
ghost use Rattle.file_deleter.specs.Holdings.{Holdings, AreCounted};
ghost use Rattle.file_deleter.specs.Moves.{LetsGo};
ghost use Rattle.file_deleter.specs.Removals.{directory_of};
ghost use Rattle.commit_steps.specs.Commits.{ImagesHave, ImagesShowNothing};
ghost use Rattle.commit_steps.specs.StepCalls.{RemovesLast, StepCalls};
ghost use Rattle.commit_steps.specs.Book.{commit_of, last_names, book_names, IsBookSound, IsBookStep, book_after, is_last_step};

use crate::advance::advance;
use crate::stage::{CommitBook, Progress, Stage};
use crate::states::{Commit, CommitFault};
use disk_model::Dir;
use file_deleter::FileDeleter;
use nrt_base::NoMemory;
use std::alloc::Global;

impl CommitBook {
    /// The book of a directory without a commit. The first commit's number is `next`.
    pub fn new(next: u64) -> CommitBook
        requires { 0 < next }
        ensures book { result ≡ record { last = None; stage = None; next = next } }
        ensures sound { (cells : Cells) (holdings : Holdings)
            → ImagesShowNothing cells → IsBookSound cells holdings result }
    {
        CommitBook {
            last: None,
            stage: None,
            next,
        }
    }

    /// Whether a commit is in flight.
    pub fn in_flight(&self) -> bool
        ensures { result ≡ is_some self.now.stage }
    {
        self.stage.is_some()
    }

    /// The number of the last commit.
    pub fn last(&self) -> Option<u64>
        ensures { result ≡ option_map (λ c. c.number) self.now.last }
    {
        self.last.as_ref().map(|commit| commit.number)
    }

    // The commit is the last one now, and the one before gives its names back.
    #[tactic(auto, using(crate::proofs::Books::lets_nothing))]
    fn make<D: Dir>(&mut self, commit: Commit, files: &mut FileDeleter, dir: &mut D)
        requires { AreCounted (last_names self.old.last) files.old }
        ensures book { self.new ≡ record self.old { last = Some commit } }
        ensures lets { LetsGo (last_names self.old.last) files.old files.new
            (D.cells dir.old) (D.cells dir.new) }
        ensures removals { RemovesLast self.old.last files.old files.new
            (directory_of D.cells D.plans D.faults dir.old)
            (directory_of D.cells D.plans D.faults dir.new) }
        ensures later { D.faults dir.old ≤ D.faults dir.new }
    {
        if let Some(old) = self.last.replace(commit) {
            files.release(old.names.as_slice(), dir);
            drop(old);
        }
    }

    // The commit is in flight.
    pub(crate) fn put(&mut self, stage: Stage)
        ensures { self.new ≡ record self.old { stage = Some stage } }
    {
        let old = self.stage.replace(stage);
        drop(old);
    }

    // One call of the directory for the commit in flight.
    #[tactic(auto, using(crate::proofs::Books::step_refused, crate::proofs::Books::stands_now, crate::proofs::Books::last_counted))]
    fn step_on<D: Dir>(
        &mut self,
        alloc: Global,
        files: &mut FileDeleter,
        dir: &mut D,
    ) -> Result<bool, CommitFault>
        requires in_flight { IsSome self.old.stage }
        requires sound { IsBookSound (D.cells dir.old) files.old self.old }
        requires counted { AreCounted (book_names self.old) files.old }
        ensures step { IsBookStep (D.cells dir.old) (D.cells dir.new) files.old files.new
            self.old self.new }
        ensures made { result ≡ Ok true
            → IfSome self.old.stage (λ stage. ImagesHave (D.cells dir.new) (commit_of stage)) }
        ensures ok { OnOk result (self.new ≡ book_after self.old) }
        ensures done { IfOk result (λ done. done ≡ is_last_step self.old.stage) }
        ensures err { OnErr result (self.new ≡ self.old) }
        ensures calls { StepCalls self.old.last files.old files.new
            (directory_of D.cells D.plans D.faults dir.old)
            (directory_of D.cells D.plans D.faults dir.new) result }
        ensures failed { IsErrOf result CommitFault.Failed → Rose (D.faults dir.old) (D.faults dir.new) }
        ensures later { D.faults dir.old ≤ D.faults dir.new }
    {
        files.make_room(1)?;
        let Some(stage) = self.stage.take() else {
            unreachable!();
        };
        match advance(alloc, stage, files, dir) {
            Ok(Progress::Going(stage)) => {
                self.put(stage);
                Ok(false)
            }
            Ok(Progress::Made(commit)) => {
                self.make(commit, files, dir);
                Ok(true)
            }
            Err(stopped) => {
                self.put(stopped.state);
                Err(stopped.fault)
            }
        }
    }

    /// Makes the next call of the directory for the commit in flight. Answers whether the commit is made; then it is the
    /// last one, and the one before is given back. A call that is refused leaves the commit in flight in its state.
    ///
    /// At each answer each image of the directory shows the last commit or the one in flight, or nothing where there is no
    /// last one; and what the book holds before and after reads the same.
    #[tactic(auto, using(crate::proofs::Beside::reads_held))]
    pub fn step<D: Dir>(
        &mut self,
        alloc: Global,
        files: &mut FileDeleter,
        dir: &mut D,
    ) -> Result<bool, CommitFault>
        requires in_flight { IsSome self.old.stage }
        requires sound { IsBookSound (D.cells dir.old) files.old self.old }
        requires counted { AreCounted (book_names self.old) files.old }

        // What is answered.
        ensures ok { OnOk result (self.new ≡ book_after self.old) }
        ensures done { IfOk result (λ done. done ≡ is_last_step self.old.stage) }
        ensures made { result ≡ Ok true
            → IfSome self.old.stage (λ stage. ImagesHave (D.cells dir.new) (commit_of stage)) }
        ensures err { OnErr result (self.new ≡ self.old) }
        ensures failed { IsErrOf result CommitFault.Failed → Rose (D.faults dir.old) (D.faults dir.new) }

        // The calls of the directory, as plans count them.
        ensures calls { StepCalls self.old.last files.old files.new
            (directory_of D.cells D.plans D.faults dir.old)
            (directory_of D.cells D.plans D.faults dir.new) result }

        // At each answer.
        ensures step { IsBookStep (D.cells dir.old) (D.cells dir.new) files.old files.new
            self.old self.new }
        ensures reads { (q : List ℕ)
            → is_among (book_names self.old) q ≡ true → is_among (book_names self.new) q ≡ true
            → (D.cells dir.new q).now ≡ (D.cells dir.old q).now }
        ensures later { D.faults dir.old ≤ D.faults dir.new }
    {
        self.step_on(alloc, files, dir)
    }
}

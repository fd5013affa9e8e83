//! The six calls of a commit.

ghost use Rattle.std.specs.Prelude.{◌≡◌, None, Some, IsSome, Ok, Err, [], ◌∷◌, IfOk, IfErr, OnErr, Any};
ghost use Rattle.disk_model.specs.Disk.{after_sync, after_write, after_rename, after_sync_names};
ghost use Rattle.disk_model.specs.Faults.{CountsFaults, FailsByPlans, IsMemoryOrFailed};
ghost use Rattle.file_deleter.specs.Holdings.{AreThere};
ghost use Rattle.commit_steps.specs.Flights.{own_name, pending_name, fault_of, call_answer};

use crate::states::{Begun, CommitFault, Done, Named, Pending, Renamed, Stopped, Synced, Written};
use disk_model::{Dir, DirFault};
use file_names::{FileName, commit_name, pending_name};
use nrt_base::Share;
use std::alloc::Global;

// The fault of a commit that a fault of the directory is.
fn fault_of(fault: DirFault) -> CommitFault
    requires { IsMemoryOrFailed fault }
    ensures { fault_of result ≡ fault }
{
    match fault {
        DirFault::Memory => CommitFault::Memory,
        DirFault::Failed => CommitFault::Failed,
        DirFault::Missing | DirFault::Exists => unreachable!(),
    }
}

impl Begun {
    /// Syncs the files that the infos name. They must exist.
    #[tactic(auto, using(crate::proofs::Answers::there_not_missing))]
    pub fn sync_files<D: Dir>(self, dir: &mut D) -> Result<Synced, Stopped<Begun>>
        requires { AreThere (D.cells dir.old) self.0.commit.files }
        ensures ok { IfOk result (λ synced. synced.0 ≡ self.0) }
        ensures err { IfErr result
            (λ stopped. (stopped.state ≡ self) × (stopped.fault ≡ CommitFault.Failed)) }
        ensures cells { D.cells dir.new
            ≡ after_sync (D.cells dir.old) self.0.commit.files (call_answer result) }
        ensures faults { CountsFaults (D.faults dir.old) (D.faults dir.new) (call_answer result) }
        ensures plans { FailsByPlans (D.plans dir.old) (D.plans dir.new) (call_answer result) }
    {
        match dir.sync(self.0.commit.files.as_slice()) {
            Ok(()) => Ok(Synced(self.0)),
            Err(fault) => Err(Stopped {
                state: self,
                fault: fault_of(fault),
            }),
        }
    }
}

impl Synced {
    /// Writes the commit's file, under the name `pending_segments_N`, which no file must have.
    pub fn write_pending<D: Dir>(
        self,
        alloc: Global,
        dir: &mut D,
    ) -> Result<Written, Stopped<Synced>>
        requires { (D.cells dir.old (pending_name self.0.commit)).now ≡ None }
        ensures ok { IfOk result (λ written. written.0 ≡ self.0) }
        ensures err { IfErr result (λ stopped. stopped.state ≡ self) }
        ensures cells { D.cells dir.new ≡ after_write (D.cells dir.old)
            (pending_name self.0.commit) self.0.bytes (call_answer result) }
        ensures faults { CountsFaults (D.faults dir.old) (D.faults dir.new) (call_answer result) }
        ensures plans { FailsByPlans (D.plans dir.old) (D.plans dir.new) (call_answer result) }
    {
        let Ok(bytes) = self.0.bytes.share(alloc) else {
            return Err(Stopped {
                state: self,
                fault: CommitFault::Memory,
            });
        };
        match dir.write_new(&pending_name(self.0.commit.number), bytes) {
            Ok(()) => Ok(Written(self.0)),
            Err(fault) => Err(Stopped {
                state: self,
                fault: fault_of(fault),
            }),
        }
    }
}

// Syncs one file, which must exist.
#[tactic(auto, using(crate::proofs::Answers::one_not_missing))]
fn sync_one<D: Dir>(dir: &mut D, name: &FileName) -> Result<(), DirFault>
    requires { IsSome (D.cells dir.old name.now).now }
    ensures cells { D.cells dir.new ≡ after_sync (D.cells dir.old) (name.now ∷ []) result }
    ensures failed { IfErr result (λ fault. fault ≡ DirFault.Failed) }
    ensures faults { CountsFaults (D.faults dir.old) (D.faults dir.new) result }
    ensures plans { FailsByPlans (D.plans dir.old) (D.plans dir.new) result }
{
    dir.sync(&[*name])
}

impl Written {
    /// Syncs the commit's file, which must exist under the name `pending_segments_N`.
    pub fn sync_pending<D: Dir>(self, dir: &mut D) -> Result<Pending, Stopped<Written>>
        requires { IsSome (D.cells dir.old (pending_name self.0.commit)).now }
        ensures ok { IfOk result (λ pending. pending.0 ≡ self.0) }
        ensures err { IfErr result
            (λ stopped. (stopped.state ≡ self) × (stopped.fault ≡ CommitFault.Failed)) }
        ensures cells { D.cells dir.new ≡ after_sync (D.cells dir.old)
            (pending_name self.0.commit ∷ []) (call_answer result) }
        ensures faults { CountsFaults (D.faults dir.old) (D.faults dir.new) (call_answer result) }
        ensures plans { FailsByPlans (D.plans dir.old) (D.plans dir.new) (call_answer result) }
    {
        match sync_one(dir, &pending_name(self.0.commit.number)) {
            Ok(()) => Ok(Pending(self.0)),
            Err(fault) => Err(Stopped {
                state: self,
                fault: fault_of(fault),
            }),
        }
    }
}

impl Pending {
    /// Syncs the names. From here on a crash may show the commit.
    pub fn sync_names<D: Dir>(self, dir: &mut D) -> Result<Named, Stopped<Pending>>
        ensures ok { IfOk result (λ named. named.0 ≡ self.0) }
        ensures err { IfErr result
            (λ stopped. (stopped.state ≡ self) × (stopped.fault ≡ CommitFault.Failed)) }
        ensures cells { D.cells dir.new ≡ after_sync_names (D.cells dir.old) (call_answer result) }
        ensures faults { CountsFaults (D.faults dir.old) (D.faults dir.new) (call_answer result) }
        ensures plans { FailsByPlans (D.plans dir.old) (D.plans dir.new) (call_answer result) }
    {
        match dir.sync_names() {
            Ok(()) => Ok(Named(self.0)),
            Err(_) => Err(Stopped {
                state: self,
                fault: CommitFault::Failed,
            }),
        }
    }
}

impl Named {
    /// Gives the commit's file the name `segments_N`, which no file must have.
    pub fn rename<D: Dir>(self, dir: &mut D) -> Result<Renamed, Stopped<Named>>
        requires there { IsSome (D.cells dir.old (pending_name self.0.commit)).now }
        requires free { (D.cells dir.old (own_name self.0.commit)).now ≡ None }
        ensures ok { IfOk result (λ renamed. renamed.0 ≡ self.0) }
        ensures err { IfErr result (λ stopped. stopped.state ≡ self) }
        ensures cells { D.cells dir.new ≡ after_rename (D.cells dir.old)
            (pending_name self.0.commit) (own_name self.0.commit) (call_answer result) }
        ensures faults { CountsFaults (D.faults dir.old) (D.faults dir.new) (call_answer result) }
        ensures plans { FailsByPlans (D.plans dir.old) (D.plans dir.new) (call_answer result) }
    {
        let number = self.0.commit.number;
        match dir.rename(&pending_name(number), &commit_name(number)) {
            Ok(()) => Ok(Renamed(self.0)),
            Err(fault) => Err(Stopped {
                state: self,
                fault: fault_of(fault),
            }),
        }
    }
}

impl Renamed {
    /// Syncs the names. At `Ok` the commit is acknowledged: each image shows it.
    pub fn sync_names<D: Dir>(self, dir: &mut D) -> Result<Done, Stopped<Renamed>>
        ensures ok { IfOk result (λ done. done.0 ≡ self.0) }
        ensures err { IfErr result
            (λ stopped. (stopped.state ≡ self) × (stopped.fault ≡ CommitFault.Failed)) }
        ensures cells { D.cells dir.new ≡ after_sync_names (D.cells dir.old) (call_answer result) }
        ensures faults { CountsFaults (D.faults dir.old) (D.faults dir.new) (call_answer result) }
        ensures plans { FailsByPlans (D.plans dir.old) (D.plans dir.new) (call_answer result) }
    {
        match dir.sync_names() {
            Ok(()) => Ok(Done(self.0)),
            Err(_) => Err(Stopped {
                state: self,
                fault: CommitFault::Failed,
            }),
        }
    }
}

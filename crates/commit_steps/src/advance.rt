//! One call of the directory for the commit in flight.

ghost use Rattle.std.specs.Prelude.{◌≡◌, ◌<◌, ℕ, true, Ok, Err, IsSome};
ghost use Rattle.disk_model.specs.Disk.{after_sync_names};
ghost use Rattle.disk_model.specs.Faults.{CountsFaults, FailsByPlans};
ghost use Rattle.file_deleter.specs.Holdings.{Holdings, AreThere};
ghost use Rattle.commit_steps.specs.Flights.{pending_name, call_answer};
ghost use Rattle.commit_steps.specs.Calls.{StandsBegun, StandsSynced, StandsWritten, StandsPending, StandsNamed, StandsRenamed};
ghost use Rattle.commit_steps.specs.Book.{Stands, Advances, is_last_call};

use crate::stage::{Progress, Stage};
use crate::states::{Begun, Named, Pending, Renamed, Stopped, Synced, Written};
use disk_model::Dir;
use file_deleter::FileDeleter;
use file_names::{commit_name, pending_name};
use std::alloc::Global;

#[tactic(auto, using(crate::proofs::Advancing::begun_stops))]
fn sync_files<D: Dir>(state: Begun, dir: &mut D) -> Result<Progress, Stopped<Stage>>
    requires { AreThere (D.cells dir.old) state.0.commit.files }
    ensures advances { (holdings : Holdings) → StandsBegun (D.cells dir.old) holdings state.0
        → Advances (D.cells dir.old) (D.cells dir.new) holdings holdings (Stage.Begun state) result }
    ensures faults { CountsFaults (D.faults dir.old) (D.faults dir.new) (call_answer result) }
    ensures plans { FailsByPlans (D.plans dir.old) (D.plans dir.new) (call_answer result) }
{
    match state.sync_files(dir) {
        Ok(synced) => Ok(Progress::Going(Stage::Synced(synced))),
        Err(stopped) => Err(Stopped {
            state: Stage::Begun(stopped.state),
            fault: stopped.fault,
        }),
    }
}

// Writes the commit's file, and counts it.
fn write_pending<D: Dir>(
    alloc: Global,
    state: Synced,
    files: &mut FileDeleter,
    dir: &mut D,
) -> Result<Progress, Stopped<Stage>>
    requires room { 0 < files.old.room }
    requires stands { StandsSynced (D.cells dir.old) files.old state.0 }
    ensures advances { Advances (D.cells dir.old) (D.cells dir.new)
        files.old files.new (Stage.Synced state) result }
    ensures faults { CountsFaults (D.faults dir.old) (D.faults dir.new) (call_answer result) }
    ensures plans { FailsByPlans (D.plans dir.old) (D.plans dir.new) (call_answer result) }
{
    let name = pending_name(state.0.commit.number);
    match state.write_pending(alloc, dir) {
        Ok(written) => {
            files.written(name);
            Ok(Progress::Going(Stage::Written(written)))
        }
        Err(stopped) => Err(Stopped {
            state: Stage::Synced(stopped.state),
            fault: stopped.fault,
        }),
    }
}

#[tactic(auto, using(crate::proofs::Advancing::written_stops))]
fn sync_pending<D: Dir>(state: Written, dir: &mut D) -> Result<Progress, Stopped<Stage>>
    requires { IsSome (D.cells dir.old (pending_name state.0.commit)).now }
    ensures advances { (holdings : Holdings) → StandsWritten (D.cells dir.old) holdings state.0
        → Advances (D.cells dir.old) (D.cells dir.new) holdings holdings (Stage.Written state) result }
    ensures faults { CountsFaults (D.faults dir.old) (D.faults dir.new) (call_answer result) }
    ensures plans { FailsByPlans (D.plans dir.old) (D.plans dir.new) (call_answer result) }
{
    match state.sync_pending(dir) {
        Ok(pending) => Ok(Progress::Going(Stage::Pending(pending))),
        Err(stopped) => Err(Stopped {
            state: Stage::Written(stopped.state),
            fault: stopped.fault,
        }),
    }
}

#[tactic(auto, using(crate::proofs::Advancing::pending_stops))]
fn sync_first_names<D: Dir>(state: Pending, dir: &mut D) -> Result<Progress, Stopped<Stage>>
    ensures advances { (holdings : Holdings) → StandsPending (D.cells dir.old) holdings state.0
        → Advances (D.cells dir.old) (D.cells dir.new) holdings holdings (Stage.Pending state) result }
    ensures faults { CountsFaults (D.faults dir.old) (D.faults dir.new) (call_answer result) }
    ensures plans { FailsByPlans (D.plans dir.old) (D.plans dir.new) (call_answer result) }
{
    match state.sync_names(dir) {
        Ok(named) => Ok(Progress::Going(Stage::Named(named))),
        Err(stopped) => Err(Stopped {
            state: Stage::Pending(stopped.state),
            fault: stopped.fault,
        }),
    }
}

// Renames the commit's file, and moves its count.
fn rename<D: Dir>(
    state: Named,
    files: &mut FileDeleter,
    dir: &mut D,
) -> Result<Progress, Stopped<Stage>>
    requires room { 0 < files.old.room }
    requires stands { StandsNamed (D.cells dir.old) files.old state.0 }
    ensures advances { Advances (D.cells dir.old) (D.cells dir.new)
        files.old files.new (Stage.Named state) result }
    ensures faults { CountsFaults (D.faults dir.old) (D.faults dir.new) (call_answer result) }
    ensures plans { FailsByPlans (D.plans dir.old) (D.plans dir.new) (call_answer result) }
{
    let pending = pending_name(state.0.commit.number);
    let own = commit_name(state.0.commit.number);
    match state.rename(dir) {
        Ok(renamed) => {
            files.renamed(&pending, &own);
            Ok(Progress::Going(Stage::Renamed(renamed)))
        }
        Err(stopped) => Err(Stopped {
            state: Stage::Named(stopped.state),
            fault: stopped.fault,
        }),
    }
}

#[tactic(auto, using(crate::proofs::Advancing::renamed_stops))]
fn sync_last_names<D: Dir>(state: Renamed, dir: &mut D) -> Result<Progress, Stopped<Stage>>
    ensures advances { (holdings : Holdings) → StandsRenamed (D.cells dir.old) holdings state.0
        → Advances (D.cells dir.old) (D.cells dir.new) holdings holdings (Stage.Renamed state) result }
    ensures faults { CountsFaults (D.faults dir.old) (D.faults dir.new) (call_answer result) }
    ensures plans { FailsByPlans (D.plans dir.old) (D.plans dir.new) (call_answer result) }
    ensures cells { D.cells dir.new ≡ after_sync_names (D.cells dir.old) (call_answer result) }
{
    match state.sync_names(dir) {
        Ok(done) => Ok(Progress::Made(done.0.commit)),
        Err(stopped) => Err(Stopped {
            state: Stage::Renamed(stopped.state),
            fault: stopped.fault,
        }),
    }
}

// Makes the next call of the directory.
pub fn advance<D: Dir>(
    alloc: Global,
    stage: Stage,
    files: &mut FileDeleter,
    dir: &mut D,
) -> Result<Progress, Stopped<Stage>>
    requires room { 0 < files.old.room }
    requires stands { Stands (D.cells dir.old) files.old stage }
    ensures advances { Advances (D.cells dir.old) (D.cells dir.new) files.old files.new stage result }
    ensures faults { CountsFaults (D.faults dir.old) (D.faults dir.new) (call_answer result) }
    ensures plans { FailsByPlans (D.plans dir.old) (D.plans dir.new) (call_answer result) }
    ensures last { is_last_call stage ≡ true → (files.new ≡ files.old)
        × (D.cells dir.new ≡ after_sync_names (D.cells dir.old) (call_answer result)) }
{
    match stage {
        Stage::Begun(state) => sync_files(state, dir),
        Stage::Synced(state) => write_pending(alloc, state, files, dir),
        Stage::Written(state) => sync_pending(state, dir),
        Stage::Pending(state) => sync_first_names(state, dir),
        Stage::Named(state) => rename(state, files, dir),
        Stage::Renamed(state) => sync_last_names(state, dir),
    }
}

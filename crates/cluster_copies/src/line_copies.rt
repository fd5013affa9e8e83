//! Copies to replicas.

ghost use Rattle.std.specs.Prelude.{ℕ, ◌≡◌, ◌≢◌, ◌<◌, [], false, true, ◌↔◌, None, Some, IsTrue, OnOk, OnErr, IfOk, IfErr};
ghost use Rattle.copy_state.specs.Meta.{IsMetaOf};
ghost use Rattle.history_rules.specs.declared.entry.Event.{Event};
ghost use Rattle.history_rules.specs.Nodes.{IsNode, version_of, newest_version};
ghost use Rattle.history_rules.specs.Commits.{is_disk_fault};
ghost use Rattle.history_rules.specs.Lines.{entries_of_line, start_entry, before_start};
ghost use Rattle.history_rules.specs.Started.{is_lost};
ghost use Rattle.history_rules.specs.Legal.{KeepsRule};
ghost use Rattle.history_tables.specs.Begins.{open_line};
ghost use Rattle.history_book.specs.Log.{printed};
ghost use Rattle.history_book.specs.Told.{IsSo};
ghost use Rattle.history_book.specs.Jobs.{job_of};
ghost use Rattle.script_serving.specs.declared.script.LineCommand.TheVariants.{Copy};
ghost use Rattle.script_serving.specs.Refusals.{refusal};
ghost use Rattle.cluster_state.specs.Run.{KeepsRest, IsEnded};
ghost use Rattle.cluster_state.specs.Keeping.{KeepsButFiles, KeepsButBegun};
ghost use Rattle.cluster_state.specs.Copies.{JobRuns};
ghost use Rattle.cluster_state.specs.DueFaults.{MeetsFate, ArrivesBy};
ghost use Rattle.cluster_state.specs.FilesOut.{file_out};
ghost use Rattle.cluster_state.specs.Calls.{LineRefused};
ghost use Rattle.cluster_state.specs.CopyCalls.{IsBeingCopied, IsNotBeingCopied, CopyStarts, CopyStartsWhen, IsSourceFor, IsOpenJob, standing_of, MayEnd, TellsEnd, stopped_log, Stops, RunsOn, JobGoesOn, JobSteps, JobTakes, PartArrives};

use crate::copies::{begin_copy, note_copied};
use crate::met::{must_be_planned, note_disk_failed};
use crate::transfers::{go_on, refuse_part, source_of, starts_as_copy};
use cluster_nodes::{CopyTask, FileTask, Went, files_last, take_in};
use cluster_state::{ClusterState, Standing, Turn, met_before, refuse_turn, show_met};
use copy_job::{JobFault, Part};
use disk_model::FaultDir;
use history_book::{Book, JobRow};
use history_rules::{Cause, Event};
use nrt_base::{At, NoMemory, NodeNo};
use std::alloc::Global;

/// Whether a job for the newest version runs at the node.
pub fn is_being_copied(book: &Book, n: NodeNo) -> bool
    requires { IsNode book.now.nodes n.0 }
    ensures is { IsTrue result ↔ IsBeingCopied book.now.log n.0 }
    ensures none { result ≡ false → IsNotBeingCopied book.now.log n.0 }
{
    match book.job_at(n) {
        None => false,
        Some(job) => job.version.0 == book.newest(),
    }
}

// The source of a copy to the node, or why the copy is refused.
fn source_for<D: FaultDir + Drop>(state: &ClusterState<D>, n: NodeNo) -> Result<NodeNo, Cause>
    requires running { state.now.ended ≡ false }
    requires node { IsNode state.now.nodes n.0 }
    ensures source { IfOk result (IsSourceFor n state.now) }
    ensures cause { IfErr result (λ cause. (lane : ℕ)
        → refusal (Copy n) lane (printed state.now.log) ≡ Some cause) }
    ensures calm { IfErr result (λ cause. is_disk_fault cause ≡ false) }
{
    if !state.book().runs(n) {
        return Err(Cause::Down);
    }
    match state.primary() {
        None => Err(Cause::NoPrimary),
        Some(p) => {
            if p.0 == n.0 {
                Err(Cause::Primary)
            } else {
                Ok(p)
            }
        }
    }
}

// Whether the node is behind the newest version.
fn is_behind(book: &Book, n: NodeNo) -> bool
    requires { IsNode book.now.nodes n.0 }
    ensures behind { result ≡ true
        → version_of n.0 (printed book.now.log) < newest_version (printed book.now.log) }
    ensures reached { result ≡ false
        → version_of n.0 (printed book.now.log) ≡ newest_version (printed book.now.log) }
{
    book.is_legal();
    book.version(n) < book.newest()
}

/// Starts a copy to a node.
pub fn copy_start<D: FaultDir + Drop>(
    state: &mut ClusterState<D>,
    alloc: Global,
    at: At,
    n: NodeNo,
) -> Result<Turn<CopyTask>, NoMemory>
    requires running { state.old.ended ≡ false }
    requires fresh { entries_of_line at (printed state.old.log) ≡ [] }
    requires node { IsNode state.old.nodes n.0 }
    ensures ok { IfOk result (CopyStarts at n state.old state.new) }
    ensures exact { IfOk result (CopyStartsWhen at n state.old.log) }
    ensures rest { IfOk result (KeepsButBegun state.old state.new) }
    ensures err { OnErr result (IsEnded state.old state.new) }
{
    let p = match source_for(state, n) {
        Ok(p) => p,
        Err(cause) => return refuse_turn(state, at, cause),
    };
    if !is_behind(state.book(), n) {
        note_copied(state, at, n)?;
        return Ok(Turn::Done);
    }
    if is_being_copied(state.book(), n) {
        return Ok(Turn::Busy);
    }
    state.job_low(n);
    match begin_copy(alloc, state, at, p, n)? {
        Went::Done(task) => Ok(Turn::Work(task)),
        Went::Failed => Ok(Turn::Done),
    }
}

// Whether the line of a job is lost: its source has crashed, or where it is a copy its node.
fn is_line_lost(book: &Book, row: JobRow) -> bool
    requires row { job_of row.job.at.lane.0 book.now.log ≡ Some row }
    requires line { open_line row.job.at (printed book.now.log) ≢ None }
    ensures { (begun : Event) → start_entry row.job.at (printed book.now.log) ≡ Some begun
        → result ≡ is_lost (printed book.now.log)
        (before_start row.job.at (printed book.now.log)) begun }
{
    book.job_shows(row);
    let at = row.job.at;
    if book.source_survives(at) {
        starts_as_copy(book, at) && !book.node_survives(at, row.job.node)
    } else {
        true
    }
}

// Where a job stands: its line is refused where it is lost, or where a later job has overtaken this one; and a settle passes a node
// that has crashed.
fn standing(book: &Book, row: JobRow) -> Standing
    requires copies { IsOpenJob book.now.log row }
    ensures is { (begun : Event) → start_entry row.job.at (printed book.now.log) ≡ Some begun
        → result ≡ standing_of begun row (printed book.now.log) }
    ensures rule { MayEnd book.now.nodes (printed book.now.log) row.job.at result }
    ensures told { TellsEnd book.now.log row.job.at result }
    ensures runs { result ≡ Standing.Runs → JobRuns book.now.log row }
    ensures going { JobRuns book.now.log row → result ≡ Standing.Runs }
{
    book.is_legal();
    book.job_shows(row);
    if is_line_lost(book, row) {
        return Standing::Ends(Cause::Lost);
    }
    if !book.node_survives(row.job.at, row.job.node) {
        return Standing::Passed;
    }
    match row.later {
        None => Standing::Runs,
        Some(v) => Standing::Ends(Cause::Cancelled(v)),
    }
}

// Refuses the line of a job.
fn refuse_job<D: FaultDir + Drop>(
    state: &mut ClusterState<D>,
    row: JobRow,
    cause: Cause,
) -> Result<(), NoMemory>
    requires running { state.old.ended ≡ false }
    requires copies { IsOpenJob state.old.log row }
    requires rule { KeepsRule state.old.nodes (printed state.old.log) row.job.at
        (Event.Refused cause) }
    requires told { IsSo state.old.log row.job.at (Event.Refused cause) }
    ensures ok { OnOk result (LineRefused row.job.at cause state.old state.new) }
    ensures rest { OnOk result (KeepsRest state.old state.new) }
    ensures err { OnErr result (IsEnded state.old state.new) }
{
    state.book().job_shows(row);
    state.is_apart(row.job.at);
    state.has_no_commit(row.job.at);
    state.note(row.job.at, Event::Refused { cause })
}

// Whether a job was stopped. Where its line is to be refused, it is.
fn is_stopped<D: FaultDir + Drop>(
    state: &mut ClusterState<D>,
    row: JobRow,
) -> Result<bool, NoMemory>
    requires running { state.old.ended ≡ false }
    requires copies { IsOpenJob state.old.log row }
    ensures ok { IfOk result (λ stopped. (begun : Event)
        → start_entry row.job.at (printed state.old.log) ≡ Some begun
        → Stops (stopped_log begun row state.old.log) row state.old state.new stopped) }
    ensures runs { IfOk result (λ stopped. stopped ≡ false → RunsOn row state.old state.new) }
    ensures same { IfOk result (λ stopped. stopped ≡ false → state.new ≡ state.old) }
    ensures going { IfOk result (λ stopped. JobRuns state.old.log row → stopped ≡ false) }
    ensures rest { OnOk result (KeepsRest state.old state.new) }
    ensures err { OnErr result (IsEnded state.old state.new) }
{
    match standing(state.book(), row) {
        Standing::Runs => Ok(false),
        Standing::Passed => Ok(true),
        Standing::Ends(cause) => {
            refuse_job(state, row, cause)?;
            Ok(true)
        }
    }
}

/// Hands out the next file of a job, or ends it where none is missing, or where it was stopped.
pub fn copy_next<D: FaultDir + Drop>(
    state: &mut ClusterState<D>,
    alloc: Global,
    row: JobRow,
) -> Result<Turn<FileTask>, NoMemory>
    requires running { state.old.ended ≡ false }
    requires copies { IsOpenJob state.old.log row }
    ensures ok { IfOk result (λ turn. (begun : Event)
        → start_entry row.job.at (printed state.old.log) ≡ Some begun
        → JobSteps (stopped_log begun row state.old.log) row.job state.old state.new turn) }
    ensures goes { IfOk result (λ turn. JobRuns state.old.log row
        → JobGoesOn row.job state.old state.new turn) }
    ensures rest { OnOk result (KeepsButFiles row.job.node.0 state.old state.new) }
    ensures err { OnErr result (IsEnded state.old state.new) }
{
    if is_stopped(state, row)? {
        return Ok(Turn::Done);
    }
    match go_on(alloc, state, row)? {
        Went::Done(Some(file)) => Ok(Turn::Work(file)),
        Went::Done(None) => Ok(Turn::Done),
        Went::Failed => Ok(Turn::Done),
    }
}

/// Puts what arrived of a file into its job, or ends the job where it was stopped, and where not all of the file arrived.
pub fn copy_arrived<D: FaultDir + Drop>(
    state: &mut ClusterState<D>,
    alloc: Global,
    row: JobRow,
    file: &FileTask,
    arrived: Result<Part, JobFault>,
) -> Result<Turn<()>, NoMemory>
    requires running { state.old.ended ≡ false }
    requires copies { IsOpenJob state.old.log row }
    requires out { file_out row.job.at row.job.node.0 row.job.number file.now.name state.old.log
        ≡ Some file.now.source }
    requires meta { IsMetaOf file.now.source file.now.meta }
    requires met { MeetsFate file.now.fate row.job.at row.job.node.0 (printed state.old.log) }
    requires arrives { ArrivesBy file.now arrived }
    ensures ok { IfOk result (λ turn. (begun : Event)
        → start_entry row.job.at (printed state.old.log) ≡ Some begun
        → PartArrives row.job file.now (stopped_log begun row state.old.log)
        state.old state.new turn) }
    ensures goes { IfOk result (λ turn. JobRuns state.old.log row
        → JobTakes row.job file.now state.old state.new turn) }
    ensures rest { OnOk result (KeepsButFiles row.job.node.0 state.old state.new) }
    ensures err { OnErr result (IsEnded state.old state.new) }
{
    if is_stopped(state, row)? {
        return Ok(Turn::Done);
    }
    let part = match arrived {
        Ok(part) => part,
        Err(fault) => {
            refuse_part(alloc, state, row, file, fault)?;
            return Ok(Turn::Done);
        }
    };
    files_last();
    let p = source_of(state, row);
    state.ended = true;
    let before = met_before(alloc, &mut state.ledger, &state.places, 2)?;
    let met = before.as_slice();
    let taken = take_in(alloc, &mut state.places, p, row.job.node, part)?;
    must_be_planned(state.ledger.book(), met, &state.places)?;
    match taken {
        Went::Done(()) => {
            show_met(&mut state.ledger, row.job.at, met, &state.places);
            state.ended = false;
            Ok(Turn::Work(()))
        }
        Went::Failed => {
            note_disk_failed(&mut state.ledger, row, row.job.node, met, &state.places)?;
            state.ended = false;
            Ok(Turn::Done)
        }
    }
}

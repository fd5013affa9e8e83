//! Jobs that copy the primary's newest point to replicas: how they go on, file by file, and end.

ghost use Rattle.std.specs.Prelude.{◌≡◌, ◌≢◌, ◌≤◌, ◌<◌, false, None, Err, OnOk, OnErr, IfOk};
ghost use Rattle.history_rules.specs.Nodes.{version_of, newest_version};
ghost use Rattle.history_rules.specs.Lines.{start_entry, before_start, highest_switched};
ghost use Rattle.history_rules.specs.Commits.{is_passed};
ghost use Rattle.history_rules.specs.Rules.{IsLineWhole};
ghost use Rattle.history_tables.specs.Begins.{open_line};
ghost use Rattle.history_book.specs.Log.{printed};
ghost use Rattle.cluster_nodes.specs.JobPlaces.{CanFinish, CanRead, CanStop, FinishesIn, ReadsIn, StopsIn};
ghost use Rattle.cluster_nodes.specs.Went.{ByWent};
ghost use Rattle.cluster_state.specs.Copies.{is_copy_start, JobRuns, JobRefused, ended_log, GoesOn};
ghost use Rattle.cluster_state.specs.Run.{KeepsRest, IsEnded};
ghost use Rattle.cluster_state.specs.Keeping.{KeepsButFiles};
ghost use Rattle.cluster_state.specs.DueFaults.{MeetsFate, ArrivesBy, fate_cause};
ghost use Rattle.cluster_copies.specs.Going.{IsGoing, HasRoomToTell, met_since, HandsOut, RefusesForDisk};

use crate::met::{
    cause_of, must_be_next, must_be_planned, note_disk_failed, note_ended, note_file, note_refused,
};
use cluster_nodes::{
    FileTask, NodePlace, Went, files_last, finish_in, next_in, read_for_in, sourced_stands,
    stop_job_in,
};
use cluster_state::{ClusterState, met_before};
use copy_job::JobFault;
use copy_state::FileMetaData;
use disk_model::FaultDir;
use file_names::FileName;
use history_book::{Book, Inner, Job, JobRow, Start};
use history_rules::{Cause, Event};
use merge_tasks::Ledger;
use nrt_base::{At, NoMemory, NodeNo};
use std::alloc::{AllocError, Global};

// Whether an open line started as a copy.
pub(crate) fn starts_as_copy(book: &Book, at: At) -> bool
    requires { open_line at (printed book.now.log) ≢ None }
    ensures { result ≡ is_copy_start (start_entry at (printed book.now.log)) }
{
    book.is_legal();
    match book.line(at) {
        None => unreachable!(),
        Some(begun) => match begun.start {
            Start::Copying { .. } => true,
            Start::Publishing => false,
            Start::Settling { .. } => false,
            Start::Searching { .. } => false,
            Start::Asking { .. } => false,
            Start::Committing { .. } => false,
        },
    }
}

/// Appends the end of a job: its node switched to its version, and a copy has its reply.
pub(crate) fn show_end(ledger: &mut Ledger, row: JobRow)
    requires room { 3 ≤ ledger.old.room }
    requires runs { JobRuns ledger.old.log row }
    requires line { open_line row.job.at (printed ledger.old.log) ≢ None }
    requires below { version_of row.job.node.0 (printed ledger.old.log)
        < newest_version (before_start row.job.at (printed ledger.old.log)) }
    requires latest { is_passed row.job.node.0 row.job.version.0 (printed ledger.old.log) ≡ false }
    requires whole { IsLineWhole ledger.old.nodes (printed ledger.old.log) row.job.at }
    requires ordered { highest_switched row.job.at (printed ledger.old.log) < row.job.node.0 }
    ensures log { ledger.new.log
        ≡ ended_log row.job (start_entry row.job.at (printed ledger.old.log)) ledger.old.log }
    ensures nodes { ledger.new.nodes ≡ ledger.old.nodes }
    ensures cut { ledger.new.cut ≡ ledger.old.cut }
{
    let book = ledger.book();
    book.job_shows(row);
    book.job_switches(row);
    let Job {
        at,
        node: n,
        number: job,
        version: v,
    } = row.job;
    let line = at.line;
    let is_copy = starts_as_copy(book, at);
    ledger.show(at, Event::Switched { n, v });
    if !is_copy {
        ledger.keep(Inner::JobEnd { line, node: n, job });
        return;
    }
    ledger.show(at, Event::Copied { n, v });
    ledger.keep(Inner::JobEnd { line, node: n, job });
}

// An open line met no fault in a file. It never did so where its lane waits for each file, as the next one is not handed out then.
pub(crate) fn must_be_whole(book: &Book, at: At) -> Result<(), NoMemory>
    requires { open_line at (printed book.now.log) ≢ None }
    ensures { OnOk result (IsLineWhole book.now.nodes (printed book.now.log) at) }
{
    if book.is_whole(at) {
        Ok(())
    } else {
        Err(AllocError)
    }
}

/// The running primary, which is the source of a job that runs, and what is known of the job.
pub(crate) fn source_of<D: FaultDir + Drop>(cluster: &ClusterState<D>, row: JobRow) -> NodeNo
    requires running { cluster.now.ended ≡ false }
    requires runs { JobRuns cluster.now.log row }
    requires line { open_line row.job.at (printed cluster.now.log) ≢ None }
    requires ordered { highest_switched row.job.at (printed cluster.now.log) < row.job.node.0 }
    ensures { IsGoing row result cluster.now.nodes cluster.now.log }
{
    let book = cluster.ledger.book();
    book.is_legal();
    book.job_shows(row);
    book.job_replica(row);
    book.is_unanswered(row.job.at);
    match cluster.primary() {
        Some(p) => p,
        None => unreachable!(),
    }
}

// Lets the node of a job that lacks nothing search the job's point, and notes that the job has ended. Where the node's disk fails the job is
// stopped, and its line is refused.
fn finish<D: FaultDir + Drop>(
    alloc: Global,
    ledger: &mut Ledger,
    places: &mut Vec<Option<NodePlace<D>>>,
    row: JobRow,
    p: NodeNo,
    met: &[(u64, u64)],
) -> Result<Went<()>, NoMemory>
    requires going { IsGoing row p ledger.old.nodes ledger.old.log }
    requires room { HasRoomToTell 3 met.now places.old.items ledger.old }
    requires can { CanFinish D.cells p.0 row.job.node.0 places.old.items }
    requires below { version_of row.job.node.0 (printed ledger.old.log)
        < newest_version (before_start row.job.at (printed ledger.old.log)) }
    requires latest { is_passed row.job.node.0 row.job.version.0 (printed ledger.old.log) ≡ false }
    ensures went { IfOk result (ByWent
        (λ done. FinishesIn D.cells p.0 row.job.node.0 places.old.items places.new.items)
        (StopsIn D.cells None p.0 row.job.node.0 places.old.items places.new.items)) }
    ensures noted { IfOk result (ByWent (λ done. ledger.new.log ≡ ended_log row.job (start_entry
        row.job.at (printed ledger.old.log)) (met_since D.planned row.job.at met.now
        places.new.items ledger.old.log)) (RefusesForDisk D.planned row row.job.node met.now
        places.new.items ledger.old ledger.new)) }
    ensures err { OnErr result (ledger.new.log ≡ ledger.old.log) }
    ensures nodes { ledger.new.nodes ≡ ledger.old.nodes }
    ensures cut { ledger.new.cut ≡ ledger.old.cut }
{
    must_be_whole(ledger.book(), row.job.at)?;
    let finished = finish_in(alloc, places, p, row.job.node)?;
    must_be_planned(ledger.book(), met, places)?;
    match finished {
        Went::Done(()) => {
            note_ended(ledger, row, met, places);
            Ok(Went::Done(()))
        }
        Went::Failed => {
            note_disk_failed(ledger, row, row.job.node, met, places)?;
            Ok(Went::Failed)
        }
    }
}

// Reads a file for a job at its source, and notes that it is handed out. Where the source's disk fails the job is stopped, and its line is
// refused.
fn hand_out<D: FaultDir + Drop>(
    alloc: Global,
    ledger: &mut Ledger,
    places: &mut Vec<Option<NodePlace<D>>>,
    row: JobRow,
    p: NodeNo,
    file: (FileName, FileMetaData),
    met: &[(u64, u64)],
) -> Result<Went<FileTask>, NoMemory>
    requires going { IsGoing row p ledger.old.nodes ledger.old.log }
    requires room { HasRoomToTell 3 met.now places.old.items ledger.old }
    requires read { CanRead p.0 file.0 places.old.items }
    requires stop { CanStop p.0 row.job.node.0 places.old.items }
    ensures went { IfOk result (ByWent
        (λ task. ReadsIn D.cells p.0 file.0 task.source places.old.items places.new.items)
        (StopsIn D.cells None p.0 row.job.node.0 places.old.items places.new.items)) }
    ensures noted { IfOk result (ByWent
        (HandsOut D.planned row file met.now places.new.items ledger.old ledger.new)
        (RefusesForDisk D.planned row p met.now places.new.items ledger.old ledger.new)) }
    ensures err { OnErr result (ledger.new.log ≡ ledger.old.log) }
    ensures nodes { ledger.new.nodes ≡ ledger.old.nodes }
    ensures cut { ledger.new.cut ≡ ledger.old.cut }
{
    let read = read_for_in(alloc, places, p, row.job.node, &file.0)?;
    must_be_planned(ledger.book(), met, places)?;
    match read {
        Went::Done(source) => {
            let task = note_file(alloc, ledger, row, file, source, met, places)?;
            Ok(Went::Done(task))
        }
        Went::Failed => {
            note_disk_failed(ledger, row, p, met, places)?;
            Ok(Went::Failed)
        }
    }
}

/// Hands out the next file of a job that runs. Where none is missing the node switches to the job's point instead: the job has
/// ended, and where its line is a copy, that has its reply. Where a disk fails the job is stopped, and its line is refused.
pub fn go_on<D: FaultDir + Drop>(
    alloc: Global,
    cluster: &mut ClusterState<D>,
    row: JobRow,
) -> Result<Went<Option<FileTask>>, NoMemory>
    requires running { cluster.old.ended ≡ false }
    requires runs { JobRuns cluster.old.log row }
    requires line { open_line row.job.at (printed cluster.old.log) ≢ None }
    requires ordered { highest_switched row.job.at (printed cluster.old.log) < row.job.node.0 }
    ensures ok { IfOk result (ByWent (GoesOn row.job cluster.old cluster.new)
        (JobRefused row.job Cause.DiskFault cluster.old cluster.new)) }
    ensures rest { IfOk result (ByWent
        (λ file. KeepsButFiles row.job.node.0 cluster.old cluster.new)
        (KeepsRest cluster.old cluster.new)) }
    ensures err { OnErr result (IsEnded cluster.old cluster.new) }
{
    files_last();
    sourced_stands();
    let p = source_of(cluster, row);
    cluster.ended = true;
    let before = met_before(alloc, &mut cluster.ledger, &cluster.places, 3)?;
    let met = before.as_slice();
    match next_in(alloc, &cluster.places, row.job.node)? {
        None => {
            match finish(alloc, &mut cluster.ledger, &mut cluster.places, row, p, met)? {
                Went::Done(()) => {
                    cluster.ledger.book().is_legal();
                    cluster.ended = false;
                    Ok(Went::Done(None))
                }
                Went::Failed => {
                    cluster.ended = false;
                    Ok(Went::Failed)
                }
            }
        }
        Some(file) => {
            let handed = hand_out(
                alloc,
                &mut cluster.ledger,
                &mut cluster.places,
                row,
                p,
                file,
                met,
            )?;
            cluster.ended = false;
            match handed {
                Went::Done(task) => Ok(Went::Done(Some(task))),
                Went::Failed => Ok(Went::Failed),
            }
        }
    }
}

/// Refuses the line of a job that runs for what arrived of a file, which is not all of it, and stops the job.
pub fn refuse_part<D: FaultDir + Drop>(
    alloc: Global,
    cluster: &mut ClusterState<D>,
    row: JobRow,
    file: &FileTask,
    fault: JobFault,
) -> Result<(), NoMemory>
    requires running { cluster.old.ended ≡ false }
    requires runs { JobRuns cluster.old.log row }
    requires line { open_line row.job.at (printed cluster.old.log) ≢ None }
    requires ordered { highest_switched row.job.at (printed cluster.old.log) < row.job.node.0 }
    requires met { MeetsFate file.now.fate row.job.at row.job.node.0 (printed cluster.old.log) }
    requires arrives { ArrivesBy file.now (Err fault) }
    ensures ok { OnOk result (JobRefused row.job (fate_cause file.now.fate file.now.name)
        cluster.old cluster.new) }
    ensures rest { OnOk result (KeepsRest cluster.old cluster.new) }
    ensures err { OnErr result (IsEnded cluster.old cluster.new) }
{
    files_last();
    let p = source_of(cluster, row);
    let n = row.job.node;
    cluster.ended = true;
    let before = met_before(alloc, &mut cluster.ledger, &cluster.places, 2)?;
    let met = before.as_slice();
    let next = next_in(alloc, &cluster.places, n)?;
    must_be_next(next, &file.name)?;
    stop_job_in(alloc, &mut cluster.places, p, n)?;
    must_be_planned(cluster.ledger.book(), met, &cluster.places)?;
    let cause = cause_of(file, fault);
    note_refused(&mut cluster.ledger, row, cause, met, &cluster.places);
    cluster.ended = false;
    Ok(())
}

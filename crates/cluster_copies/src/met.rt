//! Faults of disks that copies meet, and the entries behind them.

ghost use Rattle.std.specs.Prelude.{◌≡◌, ◌≢◌, ◌≤◌, ◌<◌, ◌+◌, ◌*◌, ◌∷◌, ◌⊎◌, false, true, map, length, None, Some, Err, IsSomeAnd, IfOk, OnOk, OnErr};
ghost use Rattle.history_rules.specs.Nodes.{IsNode, is_running, version_of, newest_version};
ghost use Rattle.history_rules.specs.Lines.{start_entry, before_start, highest_switched};
ghost use Rattle.history_rules.specs.Commits.{is_passed};
ghost use Rattle.history_rules.specs.Rules.{IsLineWhole, fetches_at};
ghost use Rattle.history_rules.specs.Legal.{KeepsRule, IsLegalPast};
ghost use Rattle.history_tables.specs.Begins.{open_line};
ghost use Rattle.history_book.specs.Log.{printed, shown, kept};
ghost use Rattle.history_book.specs.Turns.{InTurn, AreInTurn};
ghost use Rattle.history_book.specs.Told.{IsSo};
ghost use Rattle.history_book.specs.Jobs.{IsInside};
ghost use Rattle.merge_tasks.specs.Fates.{fate_due};
ghost use Rattle.cluster_state.specs.Copies.{JobRuns, ended_log};
ghost use Rattle.cluster_state.specs.DueFaults.{ArrivesBy, fate_cause};
ghost use Rattle.cluster_state.specs.Met.{ArePlanned, met_in, has_risen as has_risen_at};
ghost use Rattle.cluster_copies.specs.Going.{met_since, CanTell, RefusesForDisk, HandsOut};

use crate::transfers::{must_be_whole, show_end};
use bytes::Bytes;
use cluster_nodes::{FileTask, NodePlace};
use cluster_state::{are_bytes, are_planned, comes_whole, has_risen, show_due, show_met};
use copy_job::JobFault;
use copy_state::FileMetaData;
use disk_model::FaultDir;
use file_names::FileName;
use history_book::{Book, Fate, Inner, Job, JobRow};
use history_rules::{Cause, Event};
use merge_tasks::Ledger;
use nrt_base::{At, NoMemory, NodeNo, Share, Version};
use std::alloc::{AllocError, Global};

/// Appends the faults that were met, and the beginning of a line's job.
pub(crate) fn note_job<D: FaultDir + Drop>(
    ledger: &mut Ledger,
    at: At,
    n: NodeNo,
    v: Version,
    job: u64,
    before: &[(u64, u64)],
    places: &Vec<Option<NodePlace<D>>>,
)
    requires tells { CanTell D.planned at 1 before.now places.now.items ledger.old }
    requires jobs { 1 ≤ ledger.old.jobs }
    requires inside { IsInside ledger.old.nodes
        (met_since D.planned at before.now places.now.items ledger.old.log)
        (Inner.JobBegun at.line n job (Some v) (Some at)) }
    ensures log { ledger.new.log ≡ kept (Inner.JobBegun at.line n job (Some v) (Some at))
        ∷ met_since D.planned at before.now places.now.items ledger.old.log }
    ensures nodes { ledger.new.nodes ≡ ledger.old.nodes }
    ensures cut { ledger.new.cut ≡ ledger.old.cut }
    ensures legal { IsLegalPast ledger.old.nodes (printed (met_since D.planned at before.now
        places.now.items ledger.old.log)) }
    ensures turns { AreInTurn (printed (met_since D.planned at before.now places.now.items
        ledger.old.log)) }
{
    show_met(ledger, at, before, places);
    ledger.book().is_legal();
    ledger.keep(Inner::JobBegun {
        line: at.line,
        node: n,
        job,
        version: Some(v),
        by: Some(at),
    });
}

/// Appends the faults that were met, and the start of a copy.
pub(crate) fn note_copying<D: FaultDir + Drop>(
    ledger: &mut Ledger,
    at: At,
    n: NodeNo,
    v: Version,
    before: &[(u64, u64)],
    places: &Vec<Option<NodePlace<D>>>,
)
    requires tells { CanTell D.planned at 2 before.now places.now.items ledger.old }
    requires line { 1 ≤ ledger.old.places }
    requires rule { KeepsRule ledger.old.nodes (printed (met_since D.planned at before.now
        places.now.items ledger.old.log)) at (Event.Copying n v) }
    requires turn { InTurn (printed (met_since D.planned at before.now places.now.items
        ledger.old.log)) at (Event.Copying n v) }
    ensures log { ledger.new.log ≡ shown at (Event.Copying n v)
        ∷ met_since D.planned at before.now places.now.items ledger.old.log }
    ensures nodes { ledger.new.nodes ≡ ledger.old.nodes }
    ensures cut { ledger.new.cut ≡ ledger.old.cut }
    ensures room { 1 ≤ ledger.new.room }
    ensures jobs { ledger.new.jobs ≡ ledger.old.jobs }
    ensures legal { IsLegalPast ledger.old.nodes (printed (met_since D.planned at before.now
        places.now.items ledger.old.log)) }
    ensures turns { AreInTurn (printed (met_since D.planned at before.now places.now.items
        ledger.old.log)) }
{
    show_met(ledger, at, before, places);
    ledger.show(at, Event::Copying { n, v });
}

/// Appends the faults that were met, and that the line is refused.
pub(crate) fn note_failed<D: FaultDir + Drop>(
    ledger: &mut Ledger,
    at: At,
    cause: Cause,
    before: &[(u64, u64)],
    places: &Vec<Option<NodePlace<D>>>,
)
    requires tells { CanTell D.planned at 1 before.now places.now.items ledger.old }
    requires rule { KeepsRule ledger.old.nodes (printed (met_since D.planned at before.now
        places.now.items ledger.old.log)) at (Event.Refused cause) }
    requires turn { InTurn (printed (met_since D.planned at before.now places.now.items
        ledger.old.log)) at (Event.Refused cause) }
    requires told { IsSo (met_since D.planned at before.now places.now.items ledger.old.log) at
        (Event.Refused cause) }
    ensures log { ledger.new.log ≡ shown at (Event.Refused cause)
        ∷ met_since D.planned at before.now places.now.items ledger.old.log }
    ensures nodes { ledger.new.nodes ≡ ledger.old.nodes }
    ensures cut { ledger.new.cut ≡ ledger.old.cut }
    ensures room { ledger.old.room ≤ ledger.new.room + 2 * length before.now + 1 }
    ensures legal { IsLegalPast ledger.old.nodes (printed (met_since D.planned at before.now
        places.now.items ledger.old.log)) }
    ensures turns { AreInTurn (printed (met_since D.planned at before.now places.now.items
        ledger.old.log)) }
{
    show_met(ledger, at, before, places);
    ledger.show(at, Event::Refused { cause });
}

/// Each fault of a disk that was met is planned. They are, where disks fail by their plans alone.
pub(crate) fn must_be_planned<D: FaultDir + Drop>(
    book: &Book,
    before: &[(u64, u64)],
    places: &Vec<Option<NodePlace<D>>>,
) -> Result<(), NoMemory>
    requires count { length before.now ≡ book.now.nodes }
    requires places { length places.now.items ≡ book.now.nodes }
    ensures { OnOk result
        (ArePlanned 1 before.now (map (met_in D.planned) places.now.items) (printed book.now.log)) }
{
    if are_planned(book, before, places) {
        Ok(())
    } else {
        Err(AllocError)
    }
}

/// A fault of a node's disk was met. One was, where a call of it failed.
pub(crate) fn must_have_risen<D: FaultDir + Drop>(
    n: NodeNo,
    before: &[(u64, u64)],
    places: &Vec<Option<NodePlace<D>>>,
) -> Result<(), NoMemory>
    requires { length places.now.items ≡ length before.now }
    ensures { OnOk result
        (has_risen_at n.0 1 before.now (map (met_in D.planned) places.now.items) ≡ true) }
{
    if has_risen(n, before, places) {
        Ok(())
    } else {
        Err(AllocError)
    }
}

/// Appends the faults that were met, and the end of a job: its node switched to its version, and a copy has its reply.
pub(crate) fn note_ended<D: FaultDir + Drop>(
    ledger: &mut Ledger,
    row: JobRow,
    before: &[(u64, u64)],
    places: &Vec<Option<NodePlace<D>>>,
)
    requires tells { CanTell D.planned row.job.at 3 before.now places.now.items ledger.old }
    requires runs { JobRuns ledger.old.log row }
    requires line { open_line row.job.at (printed ledger.old.log) ≢ None }
    requires below { version_of row.job.node.0 (printed ledger.old.log)
        < newest_version (before_start row.job.at (printed ledger.old.log)) }
    requires latest { is_passed row.job.node.0 row.job.version.0 (printed ledger.old.log) ≡ false }
    requires whole { IsLineWhole ledger.old.nodes (printed ledger.old.log) row.job.at }
    requires ordered { highest_switched row.job.at (printed ledger.old.log) < row.job.node.0 }
    ensures log { ledger.new.log ≡ ended_log row.job (start_entry row.job.at (printed
        ledger.old.log)) (met_since D.planned row.job.at before.now places.now.items
        ledger.old.log) }
    ensures nodes { ledger.new.nodes ≡ ledger.old.nodes }
    ensures cut { ledger.new.cut ≡ ledger.old.cut }
{
    show_met(ledger, row.job.at, before, places);
    show_end(ledger, row);
}

/// Appends the faults that were met, that the line of a job is refused, and that the job has ended.
pub(crate) fn note_refused<D: FaultDir + Drop>(
    ledger: &mut Ledger,
    row: JobRow,
    cause: Cause,
    before: &[(u64, u64)],
    places: &Vec<Option<NodePlace<D>>>,
)
    requires tells { CanTell D.planned row.job.at 2 before.now places.now.items ledger.old }
    requires rule { KeepsRule ledger.old.nodes (printed (met_since D.planned row.job.at before.now
        places.now.items ledger.old.log)) row.job.at (Event.Refused cause) }
    requires turn { InTurn (printed (met_since D.planned row.job.at before.now places.now.items
        ledger.old.log)) row.job.at (Event.Refused cause) }
    requires told { IsSo (met_since D.planned row.job.at before.now places.now.items ledger.old.log)
        row.job.at (Event.Refused cause) }
    ensures log { ledger.new.log ≡ kept (Inner.JobEnd row.job.at.line row.job.node row.job.number) ∷
        shown row.job.at (Event.Refused cause) ∷ met_since D.planned row.job.at before.now
        places.now.items ledger.old.log }
    ensures nodes { ledger.new.nodes ≡ ledger.old.nodes }
    ensures cut { ledger.new.cut ≡ ledger.old.cut }
    ensures legal { IsLegalPast ledger.old.nodes (printed (met_since D.planned row.job.at before.now
        places.now.items ledger.old.log)) }
    ensures turns { AreInTurn (printed (met_since D.planned row.job.at before.now places.now.items
        ledger.old.log)) }
{
    let Job {
        at,
        node,
        number: job,
        ..
    } = row.job;
    note_failed(ledger, at, cause, before, places);
    ledger.keep(Inner::JobEnd {
        line: at.line,
        node,
        job,
    });
}

/// Appends the faults that were met, that the line of a job is refused for the disk of this node, and that the job has ended. The disk met one of
/// them, as a call of it failed.
pub(crate) fn note_disk_failed<D: FaultDir + Drop>(
    ledger: &mut Ledger,
    row: JobRow,
    n: NodeNo,
    before: &[(u64, u64)],
    places: &Vec<Option<NodePlace<D>>>,
) -> Result<(), NoMemory>
    requires tells { CanTell D.planned row.job.at 2 before.now places.now.items ledger.old }
    requires rule { has_risen_at n.0 1 before.now (map (met_in D.planned) places.now.items) ≡ true
        → KeepsRule ledger.old.nodes (printed (met_since D.planned row.job.at before.now
        places.now.items ledger.old.log)) row.job.at (Event.Refused Cause.DiskFault) }
    requires turn { InTurn (printed (met_since D.planned row.job.at before.now places.now.items
        ledger.old.log)) row.job.at (Event.Refused Cause.DiskFault) }
    ensures ok { OnOk result (RefusesForDisk D.planned row n before.now places.now.items ledger.old
        ledger.new) }
    ensures err { OnErr result (ledger.new ≡ ledger.old) }
    ensures nodes { ledger.new.nodes ≡ ledger.old.nodes }
    ensures cut { ledger.new.cut ≡ ledger.old.cut }
{
    must_have_risen(n, before, places)?;
    note_refused(ledger, row, Cause::DiskFault, before, places);
    Ok(())
}

/// Why a line is refused for what arrived of a file, which is not all of it.
pub(crate) fn cause_of(file: &FileTask, fault: JobFault) -> Cause
    requires { ArrivesBy file.now (Err fault) }
    ensures { result ≡ fate_cause file.now.fate file.now.name }
{
    match fault {
        JobFault::LinkFailed => Cause::LinkFault,
        JobFault::Damaged { .. } => Cause::Damaged(file.name),
        JobFault::Memory => unreachable!(),
        JobFault::DirFailed => unreachable!(),
        JobFault::NameClash { .. } => unreachable!(),
    }
}

/// The file is the one that a job lacks next. It is where its lane waits for each file.
pub(crate) fn must_be_next(
    next: Option<(FileName, FileMetaData)>,
    name: &FileName,
) -> Result<(), NoMemory>
    ensures { OnOk result (IsSomeAnd next (λ f. f.0 ≡ name.now)) }
{
    match next {
        None => Err(AllocError),
        Some(first) => {
            if first.0 == *name {
                Ok(())
            } else {
                Err(AllocError)
            }
        }
    }
}

/// A file in which a fault is due is handed out to a line that has met none in a file. A line that has met one has its reply at once.
pub(crate) fn must_be_spared(ledger: &Ledger, row: JobRow) -> Result<(), NoMemory>
    requires node { IsNode ledger.now.nodes row.job.node.0 }
    requires line { open_line row.job.at (printed ledger.now.log) ≢ None }
    ensures { OnOk result ((fate_due row.job.node.0 ledger.now.log ≡ Fate.Whole)
        ⊎ IsLineWhole ledger.now.nodes (printed ledger.now.log) row.job.at) }
{
    if comes_whole(ledger, row.job.node) {
        return Ok(());
    }
    must_be_whole(ledger.book(), row.job.at)?;
    Ok(())
}

/// Appends the faults that were met, and that a file was handed out to a job, behind the faults that this meets: what its lane carries, and
/// what becomes of it.
pub(crate) fn note_file<D: FaultDir + Drop>(
    alloc: Global,
    ledger: &mut Ledger,
    row: JobRow,
    file: (FileName, FileMetaData),
    source: Bytes,
    before: &[(u64, u64)],
    places: &Vec<Option<NodePlace<D>>>,
) -> Result<FileTask, NoMemory>
    requires tells { CanTell D.planned row.job.at 3 before.now places.now.items ledger.old }
    requires node { IsNode ledger.old.nodes row.job.node.0 }
    requires line { open_line row.job.at (printed ledger.old.log) ≢ None }
    requires fetched { fetches_at ledger.old.nodes row.job.at (printed (met_since D.planned
        row.job.at before.now places.now.items ledger.old.log)) row.job.node.0 ≡ true }
    requires alive { is_running row.job.node.0 (printed ledger.old.log) ≡ true }
    ensures ok { IfOk result (HandsOut D.planned row file before.now places.now.items ledger.old
        ledger.new) }
    ensures source { IfOk result (λ task. task.source ≡ source) }
    ensures err { OnErr result (ledger.new ≡ ledger.old) }
    ensures nodes { ledger.new.nodes ≡ ledger.old.nodes }
    ensures cut { ledger.new.cut ≡ ledger.old.cut }
{
    let Job {
        at,
        node,
        number: job,
        ..
    } = row.job;
    are_bytes(source.as_slice());
    let copy = source.share(alloc)?;
    must_be_spared(ledger, row)?;
    show_met(ledger, at, before, places);
    let fate = show_due(ledger, false, at, node);
    ledger.keep(Inner::FileOut {
        line: at.line,
        node,
        job,
        name: file.0,
        source: copy,
        fate,
        by: Some(at),
    });
    Ok(FileTask {
        name: file.0,
        source,
        meta: file.1,
        fate,
    })
}

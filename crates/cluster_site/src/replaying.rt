//! Operations that are accepted again behind a promotion: those of the log that its point lacks.

ghost use Rattle.std.specs.Prelude.{◌≡◌, ◌≤◌, ◌⊎◌, ◌+◌, ◌∷◌, [], true, false, is_some, IfOk, OnOk, OnErr, reverse, drop, length};
ghost use Rattle.std.specs.Option.{option_map};
ghost use Rattle.history_rules.specs.Nodes.{accepted_count};
ghost use Rattle.history_rules.specs.Points.{operations_at};
ghost use Rattle.history_book.specs.Log.{printed, shown};
ghost use Rattle.cluster_state.specs.Run.{IsNow, IsEnded};
ghost use Rattle.cluster_site.specs.Sites.{LogGoesOn, LogStands, operations_in, records_of};
ghost use Rattle.script_serving.specs.declared.script.Force.{Force};
ghost use Rattle.script_serving.specs.declared.script.LineCommand.TheVariants.{Promote};
ghost use Rattle.lane_threads.specs.Owes.{GoesByLine};
ghost use Rattle.cluster_site.specs.Replays.{version_promoted, newest_promoted, Lacks, MayAcceptAgain, OwesLacking, ReplaysTo, AcceptsLacking};

use crate::accepting::memory_alone;
use cluster_core::Cluster;
use disk_model::{Dir, FaultDir};
use documents::Op;
use history_facts::operation_count;
use history_rules::{Entry, Event};
use nrt_base::{At, NoMemory, NodeNo, Share, Version};
use std::alloc::Global;
use trans_log::{LogOp, TransLog};

// The version of the point that an event promotes a node to, where it is a promotion.
fn version_of_promotion(event: &Event) -> Option<Version>
    ensures { option_map (λ v. v.0) result ≡ version_promoted event.now }
{
    match event {
        Event::Promoted { v, .. } => Some(*v),
        Event::Accepted { .. }
        | Event::Publishing
        | Event::Published { .. }
        | Event::Copying { .. }
        | Event::Switched { .. }
        | Event::Copied { .. }
        | Event::Settling { .. }
        | Event::Settled { .. }
        | Event::Opened { .. }
        | Event::Asking { .. }
        | Event::Answered { .. }
        | Event::Closed { .. }
        | Event::Committing { .. }
        | Event::Committed { .. }
        | Event::Crashed { .. }
        | Event::Reopened { .. }
        | Event::Merging { .. }
        | Event::Drained { .. }
        | Event::Files { .. }
        | Event::Planned { .. }
        | Event::Fault { .. }
        | Event::Refused { .. } => None,
    }
}

// The same of the newest entry.
fn newest_promotion(entries: &[Entry]) -> Option<Version>
    ensures { option_map (λ v. v.0) result ≡ newest_promoted (reverse entries.now) }
{
    match entries.split_last() {
        None => None,
        Some((entry, _)) => version_of_promotion(&entry.event),
    }
}

// The count, or how many there are where these are less.
fn at_most(count: usize, len: u32) -> u32
    ensures count { (result ≡ count) ⊎ ((len ≤ count) × (result ≡ len)) }
    ensures within { result ≤ len }
{
    if count < len as usize {
        count as u32
    } else {
        len
    }
}

// The records of a log that goes on which the point of a version lacks.
fn records_behind<D: Dir>(
    log: &mut TransLog<D>,
    entries: &[Entry],
    v: Version,
) -> Result<Vec<LogOp>, NoMemory>
    requires { LogGoesOn D.cells D.plans log.old }
    ensures records { IfOk result (λ found.
        found.items ≡ drop (length (operations_at (reverse entries.now) v.0)) log.old.records.items) }
    ensures same { log.new ≡ log.old }
{
    let count = operation_count(entries, v);
    let from = at_most(count, log.len());
    match log.suffix(from) {
        Ok(found) => Ok(found),
        Err(fault) => Err(memory_alone(fault)),
    }
}

// The records to accept again: those that the point lacks which the newest entry promoted a node to. None where there is no log, or the
// newest entry is no promotion.
fn lacking<D: Dir>(
    log: &mut Option<TransLog<D>>,
    entries: &[Entry],
) -> Result<Option<Vec<LogOp>>, NoMemory>
    requires { LogStands D.cells D.plans log.old }
    ensures lacks { IfOk result (λ found. Lacks (records_of log.old) (reverse entries.now)
        (option_map (λ records. records.items) found)) }
    ensures same { log.new ≡ log.old }
{
    match log {
        None => Ok(None),
        Some(log) => match newest_promotion(entries) {
            None => Ok(None),
            Some(v) => match records_behind(log, entries, v) {
                Ok(found) => Ok(Some(found)),
                Err(fault) => Err(fault),
            },
        },
    }
}

// Accepts one operation again.
fn accept_one<D: FaultDir + Drop>(
    cluster: &mut Cluster<D>,
    alloc: Global,
    at: At,
    op: &Op,
) -> Result<(), NoMemory>
    requires running { cluster.old.ended ≡ false }
    requires may { MayAcceptAgain at (printed cluster.old.log) }
    ensures ok { OnOk result (IsNow cluster.old cluster.new (shown at
        (Event.Accepted (accepted_count (printed cluster.old.log) + 1) op.now) ∷ cluster.old.log)) }
    ensures rest { OnOk result (cluster.new.rest ≡ cluster.old.rest) }
    ensures err { OnErr result (IsEnded cluster.old cluster.new) }
{
    match op.share(alloc) {
        Ok(copy) => cluster.accept_again(alloc, at, copy),
        Err(fault) => {
            cluster.end();
            Err(fault)
        }
    }
}

// Accepts the operations of these records again, which are due.
fn replay<D: FaultDir + Drop>(
    cluster: &mut Cluster<D>,
    alloc: Global,
    at: At,
    records: &[LogOp],
) -> Result<(), NoMemory>
    requires running { cluster.old.ended ≡ false }
    requires begun { ReplaysTo at cluster.old.log cluster.old.log (operations_in records.now) }
    ensures running { OnOk result (cluster.new.ended ≡ false) }
    ensures ended { OnErr result (cluster.new.ended ≡ true) }
    ensures nodes { cluster.new.nodes ≡ cluster.old.nodes }
    ensures rest { OnOk result (cluster.new.rest ≡ cluster.old.rest) }
    ensures done { OnOk result (ReplaysTo at cluster.old.log cluster.new.log []) }
    ensures goes { OnErr result ((n : NodeNo) (force : Force)
        → GoesByLine true (Promote n force) at cluster.old.log cluster.new.log) }
{
    for entry in records {
        accept_one(cluster, alloc, at, &entry.op)?;
    }
    Ok(())
}

/// Accepts again, behind a promotion, what the log has and the point lacks. Where there is no log, or the newest entry is no promotion, nothing
/// changes.
pub fn accept_lacking<D: FaultDir + Drop>(
    cluster: &mut Cluster<D>,
    log: &mut Option<TransLog<D>>,
    alloc: Global,
    at: At,
) -> Result<(), NoMemory>
    requires running { cluster.old.ended ≡ false }
    requires stands { LogStands D.cells D.plans log.old }
    requires owes { OwesLacking at (printed cluster.old.log) (records_of log.old) }
    ensures same { log.new ≡ log.old }
    ensures nodes { cluster.new.nodes ≡ cluster.old.nodes }
    ensures running { OnOk result (cluster.new.ended ≡ false) }
    ensures ended { OnErr result (cluster.new.ended ≡ true) }
    ensures rest { OnOk result (cluster.new.rest ≡ cluster.old.rest) }
    ensures done { OnOk result (AcceptsLacking at cluster.old.log cluster.new.log
        (records_of log.old)) }
    ensures goes { OnErr result ((n : NodeNo) (force : Force)
        → GoesByLine (is_some (records_of log.old)) (Promote n force) at
        cluster.old.log cluster.new.log) }
{
    match lacking(log, cluster.entries()) {
        Ok(None) => Ok(()),
        Ok(Some(records)) => replay(cluster, alloc, at, &records),
        Err(fault) => {
            cluster.end();
            Err(fault)
        }
    }
}

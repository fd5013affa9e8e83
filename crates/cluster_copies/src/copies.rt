//! Jobs that copy the primary's newest point to replicas, for copies and settles: how they begin.

ghost use Rattle.std.specs.Prelude.{◌≡◌, ◌≢◌, ◌<◌, ◌∷◌, [], false, None, Some, OnOk, OnErr, IfOk};
ghost use Rattle.history_rules.specs.Nodes.{version_of, newest_version, IsNode, IsReplica, primary_of};
ghost use Rattle.history_rules.specs.Lines.{start_entry, entries_of_line, SourceSurvives};
ghost use Rattle.history_tables.specs.Begins.{open_line};
ghost use Rattle.history_book.specs.Log.{printed, shown};
ghost use Rattle.history_book.specs.Jobs.{job_at, IsOlder};
ghost use Rattle.cluster_state.specs.Run.{IsNow, KeepsRest, IsEnded};
ghost use Rattle.cluster_nodes.specs.Went.{ByWent};
ghost use Rattle.cluster_state.specs.Copies.{newest_of, BeginsJob, BeginsNoJob};
ghost use Rattle.cluster_state.specs.Keeping.{KeepsButJob};
ghost use Rattle.cluster_state.specs.CopyCalls.{copying_log};
ghost use Rattle.cluster_state.specs.GivesUp.{met_log};
ghost use Rattle.cluster_state.specs.Settles.{WaitsFor};

use crate::met::{must_be_planned, must_have_risen, note_copying, note_failed, note_job};
use cluster_nodes::{CopyTask, Went, begin_in, files_last};
use cluster_state::{ClusterState, met_before};
use disk_model::FaultDir;
use history_book::Inner;
use history_rules::{Cause, Event};
use nrt_base::{At, NoMemory, NodeNo, Version};
use std::alloc::Global;

/// A copy to a replica that searches the newest version: it starts, and has its reply.
pub fn note_copied<D: FaultDir + Drop>(
    cluster: &mut ClusterState<D>,
    at: At,
    n: NodeNo,
) -> Result<(), NoMemory>
    requires running { cluster.old.ended ≡ false }
    requires fresh { entries_of_line at (printed cluster.old.log) ≡ [] }
    requires source { primary_of (printed cluster.old.log) ≢ None }
    requires node { IsNode cluster.old.nodes n.0 }
    requires replica { IsReplica (printed cluster.old.log) n.0 }
    requires reached { version_of n.0 (printed cluster.old.log)
        ≡ newest_version (printed cluster.old.log) }
    ensures ok { OnOk result (IsNow cluster.old cluster.new
        (shown at (Event.Copied n (newest_of (printed cluster.old.log)))
        ∷ shown at (Event.Copying n (newest_of (printed cluster.old.log))) ∷ cluster.old.log)) }
    ensures rest { OnOk result (KeepsRest cluster.old cluster.new) }
    ensures err { OnErr result (IsEnded cluster.old cluster.new) }
{
    let book = cluster.ledger.book();
    book.is_fresh(at);
    book.is_legal();
    let v = Version(book.newest());
    cluster.ended = true;
    cluster.ledger.reserve(2)?;
    cluster.ledger.show(at, Event::Copying { n, v });
    cluster.ledger.show(at, Event::Copied { n, v });
    cluster.ended = false;
    Ok(())
}

/// Starts a copy to a replica that is behind the newest version, and begins its job. A job for an older version there ends. Where the disk of the
/// source fails no job begins, and the copy is refused.
pub fn begin_copy<D: FaultDir + Drop>(
    alloc: Global,
    cluster: &mut ClusterState<D>,
    at: At,
    p: NodeNo,
    n: NodeNo,
) -> Result<Went<CopyTask>, NoMemory>
    requires running { cluster.old.ended ≡ false }
    requires fresh { entries_of_line at (printed cluster.old.log) ≡ [] }
    requires source { IsNode cluster.old.nodes p.0 }
    requires primary { primary_of (printed cluster.old.log) ≡ Some p }
    requires node { IsNode cluster.old.nodes n.0 }
    requires replica { IsReplica (printed cluster.old.log) n.0 }
    requires behind { version_of n.0 (printed cluster.old.log)
        < newest_version (printed cluster.old.log) }
    requires older { IsOlder (newest_version (printed cluster.old.log))
        (job_at n.0 cluster.old.log) }
    ensures ok { IfOk result (ByWent
        (BeginsJob at n cluster.old cluster.new (copying_log at n cluster.old cluster.new))
        (BeginsNoJob at n cluster.old cluster.new (copying_log at n cluster.old cluster.new))) }
    ensures rest { IfOk result (ByWent (λ task. KeepsButJob n.0 cluster.old cluster.new)
        (KeepsRest cluster.old cluster.new)) }
    ensures err { OnErr result (IsEnded cluster.old cluster.new) }
{
    let book = cluster.ledger.book();
    book.is_fresh(at);
    files_last();
    let v = Version(book.newest());
    cluster.ended = true;
    let before = met_before(alloc, &mut cluster.ledger, &cluster.places, 2)?;
    let met = before.as_slice();
    let begun = begin_in(alloc, &mut cluster.places, p, n)?;
    must_be_planned(cluster.ledger.book(), met, &cluster.places)?;
    match begun {
        Went::Done(job) => {
            note_copying(&mut cluster.ledger, at, n, v, met, &cluster.places);
            cluster.ledger.keep(Inner::JobBegun {
                line: at.line,
                node: n,
                job,
                version: Some(v),
                by: Some(at),
            });
            cluster.ended = false;
            Ok(Went::Done(CopyTask {
                node: n,
                job,
                line: at.line,
            }))
        }
        Went::Failed => {
            must_have_risen(p, met, &cluster.places)?;
            note_copying(&mut cluster.ledger, at, n, v, met, &cluster.places);
            let cause = Cause::DiskFault;
            cluster.ledger.show(at, Event::Refused { cause });
            cluster.ended = false;
            Ok(Went::Failed)
        }
    }
}

/// Begins a job of a settle at a replica that it waits for, which is behind the newest version. A job for an older version there
/// ends. Where the disk of the source fails no job begins, and the settle is refused.
pub fn begin_settling<D: FaultDir + Drop>(
    alloc: Global,
    cluster: &mut ClusterState<D>,
    at: At,
    p: NodeNo,
    n: NodeNo,
    v: Version,
) -> Result<Went<CopyTask>, NoMemory>
    requires running { cluster.old.ended ≡ false }
    requires started { start_entry at (printed cluster.old.log) ≡ Some (Event.Settling v) }
    requires line { open_line at (printed cluster.old.log) ≢ None }
    requires source { IsNode cluster.old.nodes p.0 }
    requires primary { primary_of (printed cluster.old.log) ≡ Some p }
    requires survives { SourceSurvives (printed cluster.old.log) at }
    requires waits { WaitsFor cluster.old.nodes (printed cluster.old.log) at v.0 n }
    requires older { IsOlder (newest_version (printed cluster.old.log))
        (job_at n.0 cluster.old.log) }
    ensures ok { IfOk result (ByWent
        (BeginsJob at n cluster.old cluster.new (met_log at cluster.old cluster.new))
        (BeginsNoJob at n cluster.old cluster.new (met_log at cluster.old cluster.new))) }
    ensures rest { IfOk result (ByWent (λ task. KeepsButJob n.0 cluster.old cluster.new)
        (KeepsRest cluster.old cluster.new)) }
    ensures err { OnErr result (IsEnded cluster.old cluster.new) }
{
    let book = cluster.ledger.book();
    book.is_legal();
    book.is_unanswered(at);
    files_last();
    let newest = Version(book.newest());
    cluster.ended = true;
    let before = met_before(alloc, &mut cluster.ledger, &cluster.places, 1)?;
    let met = before.as_slice();
    let begun = begin_in(alloc, &mut cluster.places, p, n)?;
    must_be_planned(cluster.ledger.book(), met, &cluster.places)?;
    match begun {
        Went::Done(job) => {
            note_job(
                &mut cluster.ledger,
                at,
                n,
                newest,
                job,
                met,
                &cluster.places,
            );
            cluster.ended = false;
            Ok(Went::Done(CopyTask {
                node: n,
                job,
                line: at.line,
            }))
        }
        Went::Failed => {
            must_have_risen(p, met, &cluster.places)?;
            note_failed(
                &mut cluster.ledger,
                at,
                Cause::DiskFault,
                met,
                &cluster.places,
            );
            cluster.ended = false;
            Ok(Went::Failed)
        }
    }
}

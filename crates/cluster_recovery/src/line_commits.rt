//! Commits of nodes.

ghost use Rattle.std.specs.Prelude.{◌≡◌, ◌≢◌, [], false, ◌==◌, None, Some, OnOk, OnErr, IfOk};
ghost use Rattle.history_rules.specs.Nodes.{IsNode, crashes};
ghost use Rattle.history_rules.specs.Lines.{entries_of_line, last_of_line, start_entry, before_start};
ghost use Rattle.history_tables.specs.Begins.{open_line};
ghost use Rattle.history_book.specs.Log.{printed};
ghost use Rattle.cluster_state.specs.Run.{KeepsRest, IsEnded};
ghost use Rattle.cluster_state.specs.Keeping.{KeepsButCommit};
ghost use Rattle.cluster_state.specs.Calls.{LineRefused};
ghost use Rattle.cluster_state.specs.LifeCalls.{CommitStarts, CommitSteps};
ghost use Rattle.cluster_recovery.specs.Commits.{turned};

use crate::commits::{begin_commit, step_commit};
use cluster_nodes::{CommitTask, Went};
use cluster_state::{ClusterState, Turn, refuse_turn};
use disk_model::FaultDir;
use history_rules::{Cause, Event};
use nrt_base::{At, NoMemory, NodeNo, Version};
use std::alloc::Global;

/// Starts a commit of the point that a node searches.
pub fn commit_start<D: FaultDir + Drop>(
    state: &mut ClusterState<D>,
    alloc: Global,
    at: At,
    n: NodeNo,
) -> Result<Turn<CommitTask>, NoMemory>
    requires running { state.old.ended ≡ false }
    requires fresh { entries_of_line at (printed state.old.log) ≡ [] }
    requires node { IsNode state.old.nodes n.0 }
    ensures ok { IfOk result (CommitStarts at n state.old state.new) }
    ensures rest { OnOk result (KeepsButCommit n.0 state.old state.new) }
    ensures err { OnErr result (IsEnded state.old state.new) }
{
    if !state.book().runs(n) {
        return refuse_turn(state, at, Cause::Down);
    }
    if state.book().committing(n).is_some() {
        return Ok(Turn::Busy);
    }
    let task = begin_commit(alloc, state, at, n)?;
    Ok(Turn::Work(task))
}

/// Makes the next disk call of a commit, and acknowledges it after the last one; or refuses the line: as lost where the node has
/// crashed since, or where the disk failed.
pub fn commit_step<D: FaultDir + Drop>(
    state: &mut ClusterState<D>,
    alloc: Global,
    at: At,
    n: NodeNo,
    v: Version,
) -> Result<Turn<()>, NoMemory>
    requires running { state.old.ended ≡ false }
    requires started { last_of_line at (printed state.old.log) ≡ Some (Event.Committing n v) }
    ensures ok { IfOk result (CommitSteps at n v state.old state.new) }
    ensures rest { OnOk result (KeepsButCommit n.0 state.old state.new) }
    ensures err { OnErr result (IsEnded state.old state.new) }
{
    state.book().is_started(at, &Event::Committing { n, v });
    state.book().start_kept(at, &Event::Committing { n, v });
    if !state.book().node_survives(at, n) {
        lose_commit(state, at, n, v)?;
        return Ok(Turn::Done);
    }
    state.book().commit_flies(at, n, v);
    let went = step_commit(alloc, state, at, n, v)?;
    Ok(turn_of(went))
}

// What a line hands out whose call for a commit went so: it comes again, or it has its reply.
fn turn_of(went: Went<bool>) -> Turn<()>
    ensures { result ≡ turned went }
{
    match went {
        Went::Done(true) => Turn::Done,
        Went::Done(false) => Turn::Work(()),
        Went::Failed => Turn::Done,
    }
}

// Refuses a commit whose node has crashed since.
fn lose_commit<D: FaultDir + Drop>(
    state: &mut ClusterState<D>,
    at: At,
    n: NodeNo,
    v: Version,
) -> Result<(), NoMemory>
    requires running { state.old.ended ≡ false }
    requires started { start_entry at (printed state.old.log) ≡ Some (Event.Committing n v) }
    requires line { open_line at (printed state.old.log) ≢ None }
    requires lost { (crashes n.0 (printed state.old.log)
        == crashes n.0 (before_start at (printed state.old.log))) ≡ false }
    ensures ok { OnOk result (LineRefused at Cause.Lost state.old state.new) }
    ensures plans { OnOk result (state.new.rest.plans ≡ state.old.rest.plans) }
    ensures names { OnOk result (state.new.rest.names ≡ state.old.rest.names) }
    ensures rest { OnOk result (KeepsRest state.old state.new) }
    ensures err { OnErr result (IsEnded state.old state.new) }
{
    state.book().is_legal();
    state.is_apart(at);
    let cause = Cause::Lost;
    state.note(at, Event::Refused { cause })
}

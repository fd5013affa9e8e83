//! Drains: how many tasks count for a line, and its reply.

ghost use Rattle.std.specs.Prelude.{◌≡◌, ◌≤◌, [], false, IfOk, OnOk, OnErr};
ghost use Rattle.history_rules.specs.Lines.{entries_of_line};
ghost use Rattle.history_book.specs.Log.{printed};
ghost use Rattle.history_book.specs.Told.{counted_for};
ghost use Rattle.cluster_state.specs.Run.{IsEnded};
ghost use Rattle.cluster_merges.specs.TaskCalls.{DrainTurns};
ghost use Rattle.cluster_merges.specs.MergesKept.{KeepsButTasks};

use crate::drains::note_drained;
use cluster_state::{ClusterState, Turn};
use disk_model::FaultDir;
use nrt_base::{At, NoMemory};

/// How many tasks count for a line of which nothing stands there.
pub fn counted<D: FaultDir + Drop>(state: &ClusterState<D>, at: At) -> u32
    requires running { state.now.ended ≡ false }
    requires fresh { entries_of_line at (printed state.now.log) ≡ [] }
    ensures { result ≡ counted_for at state.now.log }
{
    state.tasks.counted(at)
}

/// Ends a drain, where as many tasks count for it as it asks for, or no task is posted. Else it is Busy.
pub fn drained<D: FaultDir + Drop>(
    state: &mut ClusterState<D>,
    at: At,
    most: u32,
) -> Result<Turn<()>, NoMemory>
    requires running { state.old.ended ≡ false }
    requires fresh { entries_of_line at (printed state.old.log) ≡ [] }
    requires few { counted_for at state.old.log ≤ most }
    ensures ok { IfOk result (DrainTurns at most state.old state.new) }
    ensures rest { OnOk result (KeepsButTasks state.old state.new) }
    ensures err { OnErr result (IsEnded state.old state.new) }
{
    let done = counted(state, at);
    if done < most && !state.tasks.is_idle() {
        return Ok(Turn::Busy);
    }
    note_drained(state, at, done, most)?;
    Ok(Turn::Done)
}

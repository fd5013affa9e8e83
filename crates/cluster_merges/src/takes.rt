//! Tasks that are taken.

ghost use Rattle.std.specs.Prelude.{◌≡◌, false, IfOk, OnOk, OnErr};
ghost use Rattle.cluster_state.specs.Run.{IsEnded};
ghost use Rattle.cluster_merges.specs.MergePaths.{TakesTask};
ghost use Rattle.cluster_merges.specs.MergesKept.{KeepsButTasks};

use cluster_state::ClusterState;
use disk_model::FaultDir;
use history_book::Inner;
use merge_tasks::{Posted, Task, step_of};
use nrt_base::{At, NoMemory};

/// Takes the task that was posted first, for a drain line or for none.
pub fn take_task<D: FaultDir + Drop>(
    cluster: &mut ClusterState<D>,
    by: Option<At>,
) -> Result<Option<Task>, NoMemory>
    requires running { cluster.old.ended ≡ false }
    ensures ok { IfOk result (TakesTask by cluster.old cluster.new) }
    ensures rest { OnOk result (KeepsButTasks cluster.old cluster.new) }
    ensures err { OnErr result (IsEnded cluster.old cluster.new) }
{
    cluster.ended = true;
    cluster.ledger.reserve(1)?;
    match cluster.tasks.take() {
        None => {
            cluster.ended = false;
            Ok(None)
        }
        Some(posted) => {
            let Posted { seg, line, kind } = posted;
            let step = step_of(&kind);
            cluster.ledger.keep(Inner::TaskOut {
                line,
                seg,
                by,
                step,
            });
            cluster.ended = false;
            Ok(Some(Task {
                line,
                seg,
                by,
                kind,
            }))
        }
    }
}

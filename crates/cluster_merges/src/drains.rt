//! Drains that have their reply.

ghost use Rattle.std.specs.Prelude.{◌≡◌, ◌∷◌, [], false, OnOk, OnErr};
ghost use Rattle.history_rules.specs.Lines.{entries_of_line};
ghost use Rattle.history_book.specs.Log.{printed, shown};
ghost use Rattle.history_book.specs.Told.{counted_for};
ghost use Rattle.cluster_state.specs.Run.{IsEnded};
ghost use Rattle.cluster_merges.specs.MergePaths.{IsBoard};
ghost use Rattle.cluster_merges.specs.MergesKept.{KeepsButTasks};

use cluster_state::ClusterState;
use disk_model::FaultDir;
use history_rules::Event;
use nrt_base::{At, NoMemory};

/// A drain has its reply: so many tasks count for it.
pub fn note_drained<D: FaultDir + Drop>(
    cluster: &mut ClusterState<D>,
    at: At,
    done: u32,
    most: u32,
) -> Result<(), NoMemory>
    requires running { cluster.old.ended ≡ false }
    requires fresh { entries_of_line at (printed cluster.old.log) ≡ [] }
    requires done { done ≡ counted_for at cluster.old.log }
    ensures ok { OnOk result (IsBoard cluster.old cluster.new
        (shown at (Event.Drained done most) ∷ cluster.old.log)
        cluster.old.rest.tasks.rows cluster.old.rest.tasks.posted) }
    ensures rest { OnOk result (KeepsButTasks cluster.old cluster.new) }
    ensures err { OnErr result (IsEnded cluster.old cluster.new) }
{
    let book = cluster.ledger.book();
    book.is_fresh(at);
    book.is_legal();
    cluster.ended = true;
    cluster.ledger.reserve(1)?;
    cluster.tasks.drain(at);
    cluster.ledger.show(at, Event::Drained { done, most });
    cluster.ended = false;
    Ok(())
}

//! Lists of files.

ghost use Rattle.std.specs.Prelude.{◌≡◌, [], false, OnOk, OnErr};
ghost use Rattle.history_rules.specs.Nodes.{IsNode};
ghost use Rattle.history_rules.specs.Lines.{entries_of_line};
ghost use Rattle.history_book.specs.Log.{printed};
ghost use Rattle.cluster_state.specs.Run.{KeepsRest, IsEnded};
ghost use Rattle.cluster_state.specs.Calls.{ListsFiles};

use crate::lists::list_files;
use cluster_state::{ClusterState, refuse};
use disk_model::FaultDir;
use history_rules::Cause;
use nrt_base::{At, NoMemory, NodeNo};
use std::alloc::Global;

/// Lists the files of a node.
pub fn files<D: FaultDir + Drop>(
    state: &mut ClusterState<D>,
    alloc: Global,
    at: At,
    n: NodeNo,
) -> Result<(), NoMemory>
    requires running { state.old.ended ≡ false }
    requires fresh { entries_of_line at (printed state.old.log) ≡ [] }
    requires node { IsNode state.old.nodes n.0 }
    ensures ok { OnOk result (ListsFiles at n state.old state.new) }
    ensures plans { OnOk result (state.new.rest.plans ≡ state.old.rest.plans) }
    ensures names { OnOk result (state.new.rest.names ≡ state.old.rest.names) }
    ensures rest { OnOk result (KeepsRest state.old state.new) }
    ensures err { OnErr result (IsEnded state.old state.new) }
{
    if !state.book().runs(n) {
        return refuse(state, at, Cause::Down);
    }
    list_files(alloc, state, at, n)
}

//! The directories of nodes.

ghost use Rattle.std.specs.Prelude.{◌≡◌, false};
ghost use Rattle.disk_model.specs.Disk.{reads_of};
ghost use Rattle.history_rules.specs.Nodes.{IsNode, is_running};
ghost use Rattle.history_book.specs.Log.{printed};
ghost use Rattle.cluster_state.specs.NodeDirs.{IsNodeDir, FindsVersion};

use cluster_nodes::{dir_in, take};
use cluster_state::{ClusterState, NodePlace};
use disk_model::FaultDir;
use nrt_base::NodeNo;

/// The directory of a node, once no other call is to be made. No call of a disk is made.
pub fn into_dir<D: FaultDir + Drop>(state: ClusterState<D>, n: NodeNo) -> D
    requires running { state.ended ≡ false }
    requires node { IsNode state.nodes n.0 }
    ensures is { IsNodeDir D.cells D.names state n.0 result }
    ensures down { is_running n.0 (printed state.log) ≡ false
        → FindsVersion (printed state.log) n.0 (reads_of (D.cells result)) }
{
    let ClusterState { places, .. } = state;
    let mut places = places;
    let NodePlace { node, .. } = take(&mut places, n);
    dir_in(node)
}

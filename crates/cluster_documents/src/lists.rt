//! The names of the files of nodes, told in a line.

ghost use Rattle.std.specs.Prelude.{◌≡◌, [], false, true, OnOk, OnErr};
ghost use Rattle.history_rules.specs.Nodes.{IsNode, is_running};
ghost use Rattle.history_rules.specs.Lines.{entries_of_line};
ghost use Rattle.history_book.specs.Log.{printed};
ghost use Rattle.cluster_state.specs.Run.{KeepsRest, IsEnded};
ghost use Rattle.cluster_nodes.specs.Listed.{AreNamesAt};
ghost use Rattle.cluster_nodes.specs.Places.{place_of, IsSlot, HasRunning};
ghost use Rattle.cluster_state.specs.Lists.{TellsFiles};
ghost use Rattle.cluster_state.specs.NamesIn.{place_names};

use cluster_nodes::{Node, NodePlace, names_in};
use cluster_state::ClusterState;
use disk_model::FaultDir;
use history_rules::Event;
use nrt_base::{At, NoMemory, NodeNo};
use std::alloc::Global;

// The names of the running node in this place are those of the files that read. A law.
fn are_named<D: FaultDir + Drop>(places: &Vec<Option<NodePlace<D>>>, n: NodeNo)
    requires slot { IsSlot places.now.items n.0 }
    requires runs { HasRunning (place_of places.now.items n.0) }
    ensures { AreNamesAt D.cells (place_of places.now.items n.0)
        (place_names D.names (place_of places.now.items n.0)) }
{
    match &places[n.0 as usize - 1] {
        Some(place) => match &place.node {
            Node::Primary(primary) => primary.is_named(),
            Node::Replica(replica) => replica.is_named(),
            Node::Down(_) => unreachable!(),
        },
        None => unreachable!(),
    }
}

/// Appends `Files` with the names in the directory of the running node `n`, ascending. The directory is not called. It
/// fails when out of memory: the cluster has ended, and its log is as before.
pub fn list_files<D: FaultDir + Drop>(
    alloc: Global,
    cluster: &mut ClusterState<D>,
    at: At,
    n: NodeNo,
) -> Result<(), NoMemory>
    requires running { cluster.old.ended ≡ false }
    requires fresh { entries_of_line at (printed cluster.old.log) ≡ [] }
    requires node { IsNode cluster.old.nodes n.0 }
    requires up { is_running n.0 (printed cluster.old.log) ≡ true }
    ensures ok { OnOk result (TellsFiles at n cluster.old cluster.new) }
    ensures plans { OnOk result (cluster.new.rest.plans ≡ cluster.old.rest.plans) }
    ensures names { OnOk result (cluster.new.rest.names ≡ cluster.old.rest.names) }
    ensures rest { OnOk result (KeepsRest cluster.old cluster.new) }
    ensures err { OnErr result (IsEnded cluster.old cluster.new) }
{
    let book = cluster.ledger.book();
    book.is_fresh(at);
    cluster.is_apart(at);
    cluster.has_no_commit(at);
    are_named(&cluster.places, n);
    let names = match names_in(alloc, &cluster.places, n) {
        Ok(names) => names,
        Err(fault) => {
            cluster.ended = true;
            return Err(fault);
        }
    };
    cluster.note(at, Event::Files { n, names })?;
    Ok(())
}

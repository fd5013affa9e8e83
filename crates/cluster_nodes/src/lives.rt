//! Crashes and reopenings of nodes in their places.

ghost use Rattle.std.specs.Prelude.{◌≡◌, ◌≢◌, true, false, None, Some, OnOk, IfOk};
ghost use Rattle.disk_model.specs.Disk.{reads_of};
ghost use Rattle.cluster_nodes.specs.declared.nodes.NodePlace.{NodePlace};
ghost use Rattle.replica_opening.specs.Opening.{IsDiskFault, IsStartCutOff, CanOpen};
ghost use Rattle.replica_opening.specs.Opened.{IsSettledOn};
ghost use Rattle.cluster_nodes.specs.Places.{place_of, dir_of, IsSlot};
ghost use Rattle.cluster_nodes.specs.Lives.{CrashesIn, EndsPlansIn, CrashesByPick, ReopensIn, StaysDownIn};
ghost use Rattle.cluster_nodes.specs.Went.{ByWent};

use crate::nodes::{Node, NodePlace, put, take};
use crate::went::Went;
use commit_steps::RecoverFault;
use disk_model::{Dir, FaultDir};
use nrt_base::{NoMemory, NodeNo, Version};
use replica_node::{Refused, Replica, StartFault};
use std::alloc::{AllocError, Global};

/// The directory of a node.
pub fn dir_in<D: Dir + Drop>(node: Node<D>) -> D
    ensures { result ≡ dir_of node }
{
    match node {
        Node::Primary(primary) => primary.into_dir(),
        Node::Replica(replica) => replica.into_dir(),
        Node::Down(dir) => dir,
    }
}

/// Crashes a node, of which nothing is left at the others. The number picks among what a crash may leave of its directory.
pub fn crash_in<D: FaultDir + Drop>(
    alloc: Global,
    places: &mut Vec<Option<NodePlace<D>>>,
    n: NodeNo,
    pick: u64,
) -> Result<(), NoMemory>
    requires slot { IsSlot places.old.items n.0 }
    requires there { place_of places.old.items n.0 ≢ None }
    ensures crashes { OnOk result (CrashesIn D.cells n.0 places.old.items places.new.items) }
    ensures plans { OnOk result (EndsPlansIn D.planned n.0 places.old.items places.new.items) }
    ensures picked { OnOk result (CrashesByPick D.cells D.leaves n.0 pick
        places.old.items places.new.items) }
{
    let NodePlace {
        node,
        held: tickets,
    } = take(places, n);
    drop(tickets);
    let mut dir = dir_in(node);
    let crashed = dir.crash(pick);
    let node = Node::Down(dir);
    let held = Vec::new(alloc);
    put(places, n, NodePlace { node, held });
    crashed
}

// Whether the disk failed where an opening was cut off: else no memory was found.
fn has_disk_failed(fault: StartFault) -> bool
    requires { IsStartCutOff fault }
    ensures failed { result ≡ true → IsDiskFault fault }
    ensures memory { result ≡ false → fault ≡ StartFault.Memory }
{
    match fault {
        StartFault::Memory => false,
        StartFault::Failed => true,
        StartFault::Recover(RecoverFault::Failed) => true,
        StartFault::Recover(_) => unreachable!(),
        StartFault::Segment(_, _) => unreachable!(),
    }
}

/// Opens a replica on the directory of a node that is down, and answers the version that it searches. Where its disk fails the node stays
/// down, and its directory shows what it showed. It fails when out of memory.
pub fn reopen_in<D: Dir + Drop>(
    alloc: Global,
    places: &mut Vec<Option<NodePlace<D>>>,
    n: NodeNo,
) -> Result<Went<Version>, NoMemory>
    requires slot { IsSlot places.old.items n.0 }
    requires there { place_of places.old.items n.0 ≢ None }
    requires settled { (place : NodePlace D) → place_of places.old.items n.0 ≡ Some place
        → IsSettledOn (D.cells (dir_of place.node)) }
    requires opens { (place : NodePlace D) → place_of places.old.items n.0 ≡ Some place
        → CanOpen (reads_of (D.cells (dir_of place.node))) }
    ensures { IfOk result (ByWent
        (λ v. ReopensIn D.cells n.0 v places.old.items places.new.items)
        (StaysDownIn D.cells D.faults n.0 places.old.items places.new.items)) }
{
    let NodePlace { node, held } = take(places, n);
    let dir = dir_in(node);
    match Replica::start_from(alloc, dir) {
        Ok(replica) => {
            let version = replica.version();
            let node = Node::Replica(replica);
            put(places, n, NodePlace { node, held });
            Ok(Went::Done(version))
        }
        Err(refused) => {
            let Refused { dir, fault } = refused;
            let node = Node::Down(dir);
            put(places, n, NodePlace { node, held });
            if !has_disk_failed(fault) {
                return Err(AllocError);
            }
            Ok(Went::Failed)
        }
    }
}

//! Faults that are planned for the disks of nodes.

ghost use Rattle.std.specs.Prelude.{◌≡◌, ◌<◌};
ghost use Rattle.cluster_nodes.specs.Places.{dir_of};
ghost use Rattle.cluster_nodes.specs.Replanned.{KeepsButDir};

use crate::nodes::{Node, NodePlace};
use disk_model::FaultDir;

/// The k-th counted call of the disk of a node from now fails once, also where the node is down.
pub fn plan_in<D: FaultDir + Drop>(place: &mut NodePlace<D>, k: u64)
    requires { 0 < k }
    ensures keeps { KeepsButDir D.cells place.old.node place.new.node }
    ensures held { place.new.held ≡ place.old.held }
    ensures plans { D.planned (dir_of place.new.node)
        ≡ record (D.planned (dir_of place.old.node)) { once = k } }
{
    match &mut place.node {
        Node::Primary(primary) => primary.plan(k),
        Node::Replica(replica) => replica.plan(k),
        Node::Down(dir) => dir.plan(k),
    }
}

/// The k-th counted call of the disk of a node from now and every later one fail, also where the node is down.
pub fn stop_in<D: FaultDir + Drop>(place: &mut NodePlace<D>, k: u64)
    requires { 0 < k }
    ensures keeps { KeepsButDir D.cells place.old.node place.new.node }
    ensures held { place.new.held ≡ place.old.held }
    ensures plans { D.planned (dir_of place.new.node)
        ≡ record (D.planned (dir_of place.old.node)) { stop = k } }
{
    match &mut place.node {
        Node::Primary(primary) => primary.stop_at(k),
        Node::Replica(replica) => replica.stop_at(k),
        Node::Down(dir) => dir.stop_at(k),
    }
}

//! What nodes search.

ghost use Rattle.std.specs.Prelude.{Some};
ghost use Rattle.cluster_nodes.specs.Places.{place_of, IsSlot, HasRunning, AreReadersAt};

use crate::nodes::{Node, NodePlace};
use disk_model::Dir;
use nrt_base::NodeNo;
use seg_reader::Segment;

// The segments that a running node searches.
fn readers_of<D: Dir + Drop>(place: &NodePlace<D>) -> &[Segment]
    requires { HasRunning (Some place.now) }
    ensures { AreReadersAt (Some place.now) result.now }
{
    match &place.node {
        Node::Primary(primary) => primary.readers(),
        Node::Replica(replica) => replica.readers(),
        Node::Down(_) => unreachable!(),
    }
}

/// The segments that the running node in this place searches.
pub fn readers_in<D: Dir + Drop>(places: &Vec<Option<NodePlace<D>>>, n: NodeNo) -> &[Segment]
    requires slot { IsSlot places.now.items n.0 }
    requires runs { HasRunning (place_of places.now.items n.0) }
    ensures { AreReadersAt (place_of places.now.items n.0) result.now }
{
    match &places[n.0 as usize - 1] {
        Some(place) => readers_of(place),
        None => unreachable!(),
    }
}

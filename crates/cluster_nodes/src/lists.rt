//! The names of the files of nodes.

ghost use Rattle.std.specs.Prelude.{◌≡◌, IfOk};
ghost use Rattle.cluster_nodes.specs.Places.{place_of, IsSlot, HasRunning};
ghost use Rattle.cluster_nodes.specs.Listed.{AreNamesAt};

use crate::nodes::{Node, NodePlace};
use disk_model::Dir;
use file_names::FileName;
use nrt_base::{List, NoMemory, NodeNo};
use std::alloc::Global;

// The names in the directory of a running node, ascending.
fn names_of<D: Dir + Drop>(alloc: Global, place: &NodePlace<D>) -> Result<List<FileName>, NoMemory>
    requires { HasRunning (Some place.now) }
    ensures { IfOk result (AreNamesAt D.cells (Some place.now)) }
{
    match &place.node {
        Node::Primary(primary) => {
            let names = primary.names(alloc)?;
            Ok(List::from_vec(names))
        }
        Node::Replica(replica) => {
            let names = replica.names(alloc)?;
            Ok(List::from_vec(names))
        }
        Node::Down(_) => unreachable!(),
    }
}

/// The names in the directory of the running node in this place, ascending.
pub fn names_in<D: Dir + Drop>(
    alloc: Global,
    places: &Vec<Option<NodePlace<D>>>,
    n: NodeNo,
) -> Result<List<FileName>, NoMemory>
    requires slot { IsSlot places.now.items n.0 }
    requires runs { HasRunning (place_of places.now.items n.0) }
    ensures { IfOk result (AreNamesAt D.cells (place_of places.now.items n.0)) }
{
    match &places[n.0 as usize - 1] {
        Some(place) => names_of(alloc, place),
        None => unreachable!(),
    }
}

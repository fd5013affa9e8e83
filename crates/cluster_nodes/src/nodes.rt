//! The nodes, and what goes with each.

ghost use Rattle.std.specs.Prelude.{ℕ, ◌≡◌, ◌≢◌, ◌==◌, if◌then◌else◌, None, Some, length};
ghost use Rattle.cluster_nodes.specs.Places.{place_of, IsSlot, HasPrimary};

use crate::held::HeldTicket;
use disk_model::Dir;
use index_primary::Primary;
use nrt_base::NodeNo;
use replica_node::Replica;
use std::mem::replace;

/// A node: the primary, a replica, or the directory of one that is down.
#[derive(Drop)]
pub enum Node<D: Dir> {
    Primary(Primary<D>),
    Replica(Replica<D>),
    Down(D),
}

/// A node with the tickets of it that are held. They are gone with it at a crash.
#[derive(Drop)]
pub struct NodePlace<D: Dir> {
    pub node: Node<D>,
    pub held: Vec<HeldTicket>,
}

/// Takes a node out of its place.
pub fn take<D: Dir + Drop>(places: &mut Vec<Option<NodePlace<D>>>, n: NodeNo) -> NodePlace<D>
    requires slot { IsSlot places.old.items n.0 }
    requires there { place_of places.old.items n.0 ≢ None }
    ensures place { place_of places.old.items n.0 ≡ Some result }
    ensures count { length places.new.items ≡ length places.old.items }
    ensures places { (m : ℕ) → place_of places.new.items m
        ≡ (if n.0 == m then None else place_of places.old.items m) }
{
    let slot = &mut places[n.0 as usize - 1];
    slot.take().unwrap()
}

/// Puts a node in its place.
pub fn put<D: Dir + Drop>(places: &mut Vec<Option<NodePlace<D>>>, n: NodeNo, place: NodePlace<D>)
    requires slot { IsSlot places.old.items n.0 }
    ensures count { length places.new.items ≡ length places.old.items }
    ensures places { (m : ℕ) → place_of places.new.items m
        ≡ (if n.0 == m then Some place else place_of places.old.items m) }
{
    drop(replace(&mut places[n.0 as usize - 1], Some(place)));
}

/// The primary that is in this place.
pub fn primary_in<D: Dir + Drop>(place: NodePlace<D>) -> (Primary<D>, Vec<HeldTicket>)
    requires { HasPrimary (Some place) }
    ensures { place ≡ record { node = Node.Primary result.0; held = result.1 } }
{
    let NodePlace { node, held } = place;
    match node {
        Node::Primary(primary) => (primary, held),
        Node::Replica(_) => unreachable!(),
        Node::Down(_) => unreachable!(),
    }
}

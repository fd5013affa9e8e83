//! What ends at the other nodes where one crashes: with the primary the jobs of all replicas stop, and with a replica the copy state
//! of its job ends.

ghost use Rattle.std.specs.Prelude.{ℕ, ◌≡◌, ◌==◌, false, Some, length, IfOk, OnOk};
ghost use Rattle.std.specs.Option.{option_map};
ghost use Rattle.index_primary.specs.States.{out_of};
ghost use Rattle.cluster_nodes.specs.Outs.{want_at};
ghost use Rattle.cluster_nodes.specs.Places.{place_of, IsSlot};
ghost use Rattle.cluster_nodes.specs.Ends.{StopsNodeJob, StopsPlaceJob, CanTakeBack, TakesBackIn};

use crate::jobs::stop_job;
use crate::nodes::{Node, NodePlace, primary_in, put, take};
use crate::states::state_of;
use copy_state::CopyState;
use disk_model::Dir;
use nrt_base::{NoMemory, NodeNo};
use std::alloc::Global;

// Stops the job of a node that copies a point, where it is a replica and has one.
fn stop_node_job<D: Dir + Drop>(node: &mut Node<D>)
    ensures { StopsNodeJob D.cells node.old node.new }
{
    match node {
        Node::Primary(_) => (),
        Node::Replica(replica) => stop_job(replica),
        Node::Down(_) => (),
    }
}

// The same of the node that is there.
fn stop_place_job<D: Dir + Drop>(slot: &mut Option<NodePlace<D>>)
    ensures { StopsPlaceJob D.cells slot.old slot.new }
{
    match slot {
        None => (),
        Some(place) => stop_node_job(&mut place.node),
    }
}

// The same of the node in a place.
fn stop_job_at<D: Dir + Drop>(places: &mut Vec<Option<NodePlace<D>>>, n: usize)
    requires { IsSlot places.old.items n }
    ensures count { length places.new.items ≡ length places.old.items }
    ensures stops { StopsPlaceJob D.cells (place_of places.old.items n) (place_of places.new.items n) }
    ensures others { (m : ℕ) → (n == m) ≡ false
        → place_of places.new.items m ≡ place_of places.old.items m }
{
    stop_place_job(&mut places[n - 1]);
}

/// Stops the job of each replica, as the primary crashes. Takes no memory.
pub fn stop_jobs<D: Dir + Drop>(places: &mut Vec<Option<NodePlace<D>>>)
    ensures count { length places.new.items ≡ length places.old.items }
    ensures each { (m : ℕ)
        → StopsPlaceJob D.cells (place_of places.old.items m) (place_of places.new.items m) }
{
    for k in 0..places.len() {
        stop_job_at(places, k + 1);
    }
}

// A second value of the copy state that the job of the node that is there was begun with, where one runs.
fn state_at<D: Dir + Drop>(
    alloc: Global,
    place: &NodePlace<D>,
) -> Result<Option<CopyState>, NoMemory>
    ensures { IfOk result (λ state. option_map out_of state ≡ want_at (Some place.now)) }
{
    match &place.node {
        Node::Primary(_) => Ok(None),
        Node::Replica(replica) => state_of(alloc, replica),
        Node::Down(_) => Ok(None),
    }
}

// The same of the node in a place.
fn state_in<D: Dir + Drop>(
    alloc: Global,
    places: &Vec<Option<NodePlace<D>>>,
    n: NodeNo,
) -> Result<Option<CopyState>, NoMemory>
    requires { IsSlot places.now.items n.0 }
    ensures { IfOk result (λ state.
        option_map out_of state ≡ want_at (place_of places.now.items n.0)) }
{
    match &places[n.0 as usize - 1] {
        None => Ok(None),
        Some(place) => state_at(alloc, place),
    }
}

/// Gives the copy state of a node's job back at the primary, as the node crashes. It fails when out of memory.
pub fn take_back<D: Dir + Drop>(
    alloc: Global,
    places: &mut Vec<Option<NodePlace<D>>>,
    p: NodeNo,
    n: NodeNo,
) -> Result<(), NoMemory>
    requires slot { IsSlot places.old.items n.0 }
    requires can { CanTakeBack p.0 n.0 places.old.items }
    ensures { OnOk result (TakesBackIn D.cells p.0 n.0 places.old.items places.new.items) }
{
    let Some(state) = state_in(alloc, places, n)? else {
        return Ok(());
    };
    let (mut primary, held) = primary_in(take(places, p));
    primary.give_back(state);
    let node = Node::Primary(primary);
    put(places, p, NodePlace { node, held });
    Ok(())
}

//! What ends where a node crashes: the jobs and the merges of the primary, or the copy state of a replica's job.

ghost use Rattle.std.specs.Prelude.{ℕ, ◌≡◌, ◌==◌, true, false, None, length, OnOk};
ghost use Rattle.replica_node.specs.Merges.{copy_at};
ghost use Rattle.cluster_nodes.specs.Ends.{CanEnd};
ghost use Rattle.cluster_nodes.specs.Places.{place_of, IsSlot};
ghost use Rattle.merge_tasks.specs.Board.{is_sent_in};
ghost use Rattle.cluster_recovery.specs.Falls.{LosesCopies, EndsSent, EndsSpread, EndsCopies, NodeLoses, PlaceLoses, AllLose, EndsAll};

use cluster_nodes::{stop_jobs, take_back};
use cluster_state::{Node, NodePlace, Replica};
use disk_model::Dir;
use merge_tasks::{OpenMerge, Sent, Spread, Tasks};
use node_merges::drop_copy;
use nrt_base::{NoMemory, NodeNo};
use std::alloc::Global;

// Ends a copy that was sent to this replica, where it runs.
fn drop_one<D: Dir + Drop>(replica: &mut Replica<D>, n: usize, sent: &Sent)
    ensures { EndsSent D.cells n sent.now replica.old replica.new }
{
    replica.version();
    if sent.node.0 as usize != n {
        return;
    }
    let Some(_) = replica.precopy(sent.job) else {
        return;
    };
    drop_copy(replica, sent.job);
}

// Ends those of these copies that were sent to this replica and run.
fn drop_sent<D: Dir + Drop>(replica: &mut Replica<D>, n: usize, left: &[Sent])
    ensures loses { LosesCopies D.cells replica.old replica.new }
    ensures gone { (k : ℕ) → is_sent_in n k left.now ≡ true
        → copy_at k replica.new.copies.running ≡ None }
{
    replica.version();
    for sent in left {
        drop_one(replica, n, sent);
    }
}

// Ends the copies that a merge sent to this replica and that run.
fn drop_spread<D: Dir + Drop>(replica: &mut Replica<D>, n: usize, spread: &Option<Spread>)
    ensures { EndsSpread D.cells n spread.now replica.old replica.new }
{
    replica.version();
    if let Some(spread) = spread {
        drop_sent(replica, n, spread.left.as_slice());
    }
}

// Ends the copies that these merges sent to this replica and that run.
fn drop_copies<D: Dir + Drop>(replica: &mut Replica<D>, n: usize, rows: &[OpenMerge])
    ensures { EndsCopies D.cells n rows.now replica.old replica.new }
{
    replica.version();
    for row in rows {
        drop_spread(replica, n, &row.spread);
    }
}

// The same of a node, where it is a replica.
fn drop_at_node<D: Dir + Drop>(node: &mut Node<D>, n: usize, rows: &[OpenMerge])
    ensures { NodeLoses D.cells n rows.now node.old node.new }
{
    match node {
        Node::Primary(_) => (),
        Node::Replica(replica) => drop_copies(replica, n, rows),
        Node::Down(_) => (),
    }
}

// The same of the node that is there.
fn drop_at_place<D: Dir + Drop>(slot: &mut Option<NodePlace<D>>, n: usize, rows: &[OpenMerge])
    ensures { PlaceLoses D.cells n rows.now slot.old slot.new }
{
    match slot {
        None => (),
        Some(place) => drop_at_node(&mut place.node, n, rows),
    }
}

// The same of the node in a place.
fn drop_at<D: Dir + Drop>(places: &mut Vec<Option<NodePlace<D>>>, n: usize, rows: &[OpenMerge])
    requires { IsSlot places.old.items n }
    ensures count { length places.new.items ≡ length places.old.items }
    ensures loses { PlaceLoses D.cells n rows.now
        (place_of places.old.items n) (place_of places.new.items n) }
    ensures others { (m : ℕ) → (n == m) ≡ false
        → place_of places.new.items m ≡ place_of places.old.items m }
{
    drop_at_place(&mut places[n - 1], n, rows);
}

// Ends each copy of these merges, where it runs.
fn drop_all<D: Dir + Drop>(places: &mut Vec<Option<NodePlace<D>>>, rows: &[OpenMerge])
    ensures { AllLose D.cells rows.now places.old.items places.new.items }
{
    for k in 0..places.len() {
        drop_at(places, k + 1, rows);
    }
}

/// Ends all that ends where a node crashes, before its disk does, by the running primary. With the primary the jobs of all replicas stop, the
/// copies of merged segments end at all nodes, and the merges in flight and the tasks that are posted are gone. With a replica the primary takes back
/// the copy state of its job. A publish or a commit in flight at the node itself goes with it. It fails when out of memory.
pub fn end_all<D: Dir + Drop>(
    alloc: Global,
    places: &mut Vec<Option<NodePlace<D>>>,
    tasks: &mut Tasks,
    primary: Option<NodeNo>,
    n: NodeNo,
) -> Result<(), NoMemory>
    requires slot { IsSlot places.old.items n.0 }
    requires can { CanEnd primary n.0 places.old.items }
    ensures { OnOk result (EndsAll D.cells primary n.0 tasks.old tasks.new
        places.old.items places.new.items) }
{
    let Some(p) = primary else { return Ok(()) };
    if p.0 != n.0 {
        return take_back(alloc, places, p, n);
    }
    stop_jobs(places);
    drop_all(places, tasks.rows());
    tasks.clear();
    Ok(())
}

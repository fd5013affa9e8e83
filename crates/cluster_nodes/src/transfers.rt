//! Jobs that copy the primary's point to a replica, in the terms of places.

ghost use Rattle.std.specs.Prelude.{ℕ, ◌≡◌, ◌==◌, Some, None, IfOk, OnOk, length, if◌then◌else◌};
ghost use Rattle.copy_state.specs.Meta.{IsMetaOf};
ghost use Rattle.cluster_nodes.specs.Places.{place_of, IsSlot, HasPrimary};
ghost use Rattle.cluster_nodes.specs.JobChanges.{HasReplica, HasJob, HasNextFile};
ghost use Rattle.cluster_nodes.specs.JobPlaces.{AltersIn, CanBegin, BeginsIn, CanFinish, CanStop, StopsIn, FinishesIn, CanRead, ReadsIn, CanTake, TakesIn};
ghost use Rattle.cluster_nodes.specs.Went.{ByWent};

use crate::failed::{is_dir_failed, is_failed};
use crate::held::HeldTicket;
use crate::jobs::{begin_job, finish_job, read_for, stop_for};
use crate::nodes::{Node, NodePlace, primary_in, put, take};
use crate::states::{lacks, next_lacking};
use crate::went::Went;
use bytes::Bytes;
use copy_job::Part;
use copy_state::FileMetaData;
use disk_model::Dir;
use file_names::FileName;
use index_primary::Primary;
use nrt_base::{NoMemory, NodeNo};
use replica_node::Replica;
use replica_node::laws::point_runs;
use std::alloc::Global;

// The replica that is in this place.
fn replica_in<D: Dir + Drop>(place: NodePlace<D>) -> (Replica<D>, Vec<HeldTicket>)
    requires { HasReplica (Some place) }
    ensures { place ≡ record { node = Node.Replica result.0; held = result.1 } }
{
    let NodePlace { node, held } = place;
    match node {
        Node::Replica(replica) => (replica, held),
        Node::Primary(_) => unreachable!(),
        Node::Down(_) => unreachable!(),
    }
}

/// Takes the primary out of its place.
pub fn take_primary<D: Dir + Drop>(
    places: &mut Vec<Option<NodePlace<D>>>,
    p: NodeNo,
) -> (Primary<D>, Vec<HeldTicket>)
    requires slot { IsSlot places.old.items p.0 }
    requires there { HasPrimary (place_of places.old.items p.0) }
    ensures place { place_of places.old.items p.0
        ≡ Some (record { node = Node.Primary result.0; held = result.1 }) }
    ensures count { length places.new.items ≡ length places.old.items }
    ensures places { (m : ℕ) → place_of places.new.items m
        ≡ (if p.0 == m then None else place_of places.old.items m) }
{
    primary_in(take(places, p))
}

/// Takes a replica out of its place.
pub fn take_replica<D: Dir + Drop>(
    places: &mut Vec<Option<NodePlace<D>>>,
    n: NodeNo,
) -> (Replica<D>, Vec<HeldTicket>)
    requires slot { IsSlot places.old.items n.0 }
    requires there { HasReplica (place_of places.old.items n.0) }
    ensures place { place_of places.old.items n.0
        ≡ Some (record { node = Node.Replica result.0; held = result.1 }) }
    ensures count { length places.new.items ≡ length places.old.items }
    ensures places { (m : ℕ) → place_of places.new.items m
        ≡ (if n.0 == m then None else place_of places.old.items m) }
{
    replica_in(take(places, n))
}

/// Begins a job of the primary's point at a replica, and answers its number. Where the primary's disk fails none begins.
pub fn begin_in<D: Dir + Drop>(
    alloc: Global,
    places: &mut Vec<Option<NodePlace<D>>>,
    p: NodeNo,
    n: NodeNo,
) -> Result<Went<u64>, NoMemory>
    requires { CanBegin p.0 n.0 places.old.items }
    ensures count { length places.new.items ≡ length places.old.items }
    ensures went { IfOk result (ByWent
        (λ number. BeginsIn D.cells p.0 n.0 number places.old.items places.new.items)
        (AltersIn D.cells p.0 places.old.items places.new.items)) }
{
    let (mut primary, primary_held) = take_primary(places, p);
    let (mut replica, held) = take_replica(places, n);
    let begun = begin_job(alloc, &mut primary, &mut replica);
    put_both(places, p, n, primary, primary_held, replica, held);
    begun
}

// Puts the primary and a replica in their places.
fn put_both<D: Dir + Drop>(
    places: &mut Vec<Option<NodePlace<D>>>,
    p: NodeNo,
    n: NodeNo,
    primary: Primary<D>,
    primary_held: Vec<HeldTicket>,
    replica: Replica<D>,
    held: Vec<HeldTicket>,
)
    requires slot_primary { IsSlot places.old.items p.0 }
    requires slot_replica { IsSlot places.old.items n.0 }
    ensures count { length places.new.items ≡ length places.old.items }
    ensures places { (m : ℕ) → place_of places.new.items m
        ≡ (if n.0 == m then Some (record { node = Node.Replica replica; held = held })
        else if p.0 == m then Some (record { node = Node.Primary primary; held = primary_held })
        else place_of places.old.items m) }
{
    let node = Node::Primary(primary);
    put(
        places,
        p,
        NodePlace {
            node,
            held: primary_held,
        },
    );
    let node = Node::Replica(replica);
    put(places, n, NodePlace { node, held });
}

/// Searches the point of a replica's job, of which nothing is missing. The job has ended. Where the replica's disk fails the job is stopped.
pub fn finish_in<D: Dir + Drop>(
    alloc: Global,
    places: &mut Vec<Option<NodePlace<D>>>,
    p: NodeNo,
    n: NodeNo,
) -> Result<Went<()>, NoMemory>
    requires { CanFinish D.cells p.0 n.0 places.old.items }
    ensures count { length places.new.items ≡ length places.old.items }
    ensures went { IfOk result (ByWent
        (λ done. FinishesIn D.cells p.0 n.0 places.old.items places.new.items)
        (StopsIn D.cells None p.0 n.0 places.old.items places.new.items)) }
{
    let (mut primary, primary_held) = take_primary(places, p);
    let (mut replica, held) = take_replica(places, n);
    let finished = finish_job(alloc, &mut primary, &mut replica);
    put_both(places, p, n, primary, primary_held, replica, held);
    finished
}

/// Stops the job of a replica, which runs.
pub fn stop_job_in<D: Dir + Drop>(
    alloc: Global,
    places: &mut Vec<Option<NodePlace<D>>>,
    p: NodeNo,
    n: NodeNo,
) -> Result<(), NoMemory>
    requires { CanStop p.0 n.0 places.old.items }
    ensures count { length places.new.items ≡ length places.old.items }
    ensures stopped { OnOk result (StopsIn D.cells None p.0 n.0 places.old.items places.new.items) }
{
    let (mut primary, primary_held) = take_primary(places, p);
    let (mut replica, held) = take_replica(places, n);
    let stopped = stop_for(alloc, &mut primary, &mut replica);
    put_both(places, p, n, primary, primary_held, replica, held);
    stopped
}

/// The bytes of a file that a copy state which is out names.
pub fn read_in<D: Dir + Drop>(
    places: &mut Vec<Option<NodePlace<D>>>,
    p: NodeNo,
    name: &FileName,
) -> Result<Went<Bytes>, NoMemory>
    requires { CanRead p.0 name.now places.old.items }
    ensures count { length places.new.items ≡ length places.old.items }
    ensures went { IfOk result (ByWent
        (λ bytes. ReadsIn D.cells p.0 name.now bytes places.old.items places.new.items)
        (AltersIn D.cells p.0 places.old.items places.new.items)) }
{
    let (mut primary, held) = take_primary(places, p);
    let read = primary.source(name);
    let node = Node::Primary(primary);
    put(places, p, NodePlace { node, held });
    match read {
        Ok(bytes) => Ok(Went::Done(bytes)),
        Err(fault) => {
            is_failed(fault)?;
            Ok(Went::Failed)
        }
    }
}

/// The same for the job of a replica, which runs. Where the primary's disk fails the job is stopped.
pub fn read_for_in<D: Dir + Drop>(
    alloc: Global,
    places: &mut Vec<Option<NodePlace<D>>>,
    p: NodeNo,
    n: NodeNo,
    name: &FileName,
) -> Result<Went<Bytes>, NoMemory>
    requires read { CanRead p.0 name.now places.old.items }
    requires stop { CanStop p.0 n.0 places.old.items }
    ensures count { length places.new.items ≡ length places.old.items }
    ensures went { IfOk result (ByWent
        (λ bytes. ReadsIn D.cells p.0 name.now bytes places.old.items places.new.items)
        (StopsIn D.cells None p.0 n.0 places.old.items places.new.items)) }
{
    let (mut primary, primary_held) = take_primary(places, p);
    let (mut replica, held) = take_replica(places, n);
    let read = read_for(alloc, &mut primary, &mut replica, name);
    put_both(places, p, n, primary, primary_held, replica, held);
    read
}

/// Puts a part into the job of a replica, where the job lacks it still. Where the replica's disk fails the job is stopped.
pub fn take_in<D: Dir + Drop>(
    alloc: Global,
    places: &mut Vec<Option<NodePlace<D>>>,
    p: NodeNo,
    n: NodeNo,
    part: Part,
) -> Result<Went<()>, NoMemory>
    requires can { CanTake n.0 part places.old.items }
    requires stop { CanStop p.0 n.0 places.old.items }
    requires meta { IsMetaOf part.bytes part.meta }
    ensures count { length places.new.items ≡ length places.old.items }
    ensures went { IfOk result (ByWent
        (λ done. TakesIn D.cells n.0 part places.old.items places.new.items)
        (StopsIn D.cells (Some part) p.0 n.0 places.old.items places.new.items)) }
{
    let (mut replica, held) = take_replica(places, n);
    let Some(job) = replica.job() else {
        unreachable!()
    };
    if !lacks(job, &part.name) {
        let node = Node::Replica(replica);
        put(places, n, NodePlace { node, held });
        return Ok(Went::Done(()));
    }
    let number = job.number();
    point_runs::<D>();
    let arrived = replica.arrived(number, part);
    let node = Node::Replica(replica);
    put(places, n, NodePlace { node, held });
    match arrived {
        Ok(()) => Ok(Went::Done(())),
        Err(fault) => {
            is_dir_failed(fault)?;
            stop_job_in(alloc, places, p, n)?;
            Ok(Went::Failed)
        }
    }
}

// The next file that the job of this replica lacks.
fn next_of<D: Dir + Drop>(
    alloc: Global,
    place: &NodePlace<D>,
) -> Result<Option<(FileName, FileMetaData)>, NoMemory>
    requires { HasJob (Some place.now) }
    ensures { IfOk result (HasNextFile (Some place.now)) }
{
    match &place.node {
        Node::Replica(replica) => next_lacking(alloc, replica),
        Node::Primary(_) => unreachable!(),
        Node::Down(_) => unreachable!(),
    }
}

/// The next file that the job of the replica in this place lacks, with the metadata that is wanted of it.
pub fn next_in<D: Dir + Drop>(
    alloc: Global,
    places: &Vec<Option<NodePlace<D>>>,
    n: NodeNo,
) -> Result<Option<(FileName, FileMetaData)>, NoMemory>
    requires slot { IsSlot places.now.items n.0 }
    requires job { HasJob (place_of places.now.items n.0) }
    ensures { IfOk result (HasNextFile (place_of places.now.items n.0)) }
{
    match &places[n.0 as usize - 1] {
        Some(place) => next_of(alloc, place),
        None => unreachable!(),
    }
}

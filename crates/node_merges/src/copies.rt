//! The copies of a merged segment at a replica.

ghost use Rattle.std.specs.Prelude.{◌≡◌, ◌<◌, ◌+◌, ◌^◌, true, false, None, Some, IsSome, IfSome, IfOk, OnOk, ⊤};
ghost use Rattle.copy_state.specs.Meta.{IsMetaOf};
ghost use Rattle.copy_state.specs.States.{IsCopyState};
ghost use Rattle.replica_node.specs.Merges.{copy_at};
ghost use Rattle.cluster_nodes.specs.Places.{place_of, IsSlot};
ghost use Rattle.cluster_nodes.specs.JobChanges.{HasReplica};
ghost use Rattle.cluster_nodes.specs.Went.{ByWent};
ghost use Rattle.node_merges.specs.MergeChanges.{is_copy_of, MaySend, SendsMerged, IsStepOf, MayTakeMerged, TakesMerged, MaySettle, SettlesMerged, LosesMerged, DropsMerged};
ghost use Rattle.node_merges.specs.MergePlaces.{IsReplicaIn, MovesReplica, IsStepAt, RunsCopyOf};

use cluster_nodes::{
    Node, NodePlace, Replica, Went, copy_runs, is_dir_failed, lacks, next_file, put, share_state,
    take_replica,
};
use copy_job::{CopyJob, Part};
use copy_state::{CopyState, FileMetaData};
use disk_model::Dir;
use file_names::{FileName, SegPart, part_name};
use nrt_base::{NoMemory, NodeNo, SegNo};
use std::alloc::{AllocError, Global};

/// What is next to do for a copy of a merged segment.
#[derive(Debug, Drop)]
pub enum CopyStep {
    /// It does not run any more.
    Gone,
    /// It misses a file, and lets the job of a point go before.
    Waits,
    /// It misses nothing.
    Complete,
    /// It misses this file, of which it wants this metadata.
    Wants(FileName, FileMetaData),
}

// Begins a copy of a merged segment at a replica, and answers its number.
fn send<D: Dir + Drop>(
    alloc: Global,
    replica: &mut Replica<D>,
    state: &CopyState,
) -> Result<u64, NoMemory>
    requires copy { IsCopyState state.now }
    requires may { MaySend state.now replica.old }
    ensures { IfOk result (λ job. SendsMerged D.cells state.now job replica.old replica.new) }
{
    let begun = replica.jobs();
    if begun >= (1 << 63) - 1 {
        return Err(AllocError);
    }
    let copy = share_state(alloc, state)?;
    replica.new_point(state.primary_gen, state.version);
    let Ok(job) = replica.launch_precopy(alloc, copy) else {
        return Err(AllocError);
    };
    Ok(job)
}

/// Begins a copy of a merged segment at the replica in this place, and answers its number. It fails when out of memory, or out of numbers
/// below 2^63.
pub fn send_in<D: Dir + Drop>(
    alloc: Global,
    places: &mut Vec<Option<NodePlace<D>>>,
    n: NodeNo,
    state: &CopyState,
) -> Result<u64, NoMemory>
    requires copy { IsCopyState state.now }
    requires may { IsReplicaIn (MaySend state.now) n.0 places.old.items }
    ensures { IfOk result (λ job. MovesReplica (SendsMerged D.cells state.now job) n.0
        places.old.items places.new.items) }
{
    let (mut replica, held) = take_replica(places, n);
    let sent = send(alloc, &mut replica, state);
    let node = Node::Replica(replica);
    put(places, n, NodePlace { node, held });
    sent
}

// Whether a copy is of this segment.
fn is_copy_of(copy: &CopyJob, seg: SegNo) -> bool
    ensures { result ≡ is_copy_of seg.0 copy.now }
{
    match copy.want().files.as_slice().first() {
        None => false,
        Some(file) => file.0 == part_name(seg, SegPart::Docs),
    }
}

// What is next to do for a copy of this segment at a replica.
fn step_of<D: Dir + Drop>(
    alloc: Global,
    replica: &Replica<D>,
    job: u64,
    seg: SegNo,
) -> Result<CopyStep, NoMemory>
    ensures { IfOk result (IsStepOf seg.0 job replica.now) }
{
    let Some(copy) = replica.precopy(job) else {
        return Ok(CopyStep::Gone);
    };
    if !is_copy_of(copy, seg) {
        return Ok(CopyStep::Gone);
    }
    match next_file(alloc, copy)? {
        None => Ok(CopyStep::Complete),
        Some(file) => {
            if replica.job().is_some() {
                Ok(CopyStep::Waits)
            } else {
                Ok(CopyStep::Wants(file.0, file.1))
            }
        }
    }
}

/// What is next to do for a copy of this segment at the node in this place.
pub fn step_in<D: Dir + Drop>(
    alloc: Global,
    places: &Vec<Option<NodePlace<D>>>,
    n: NodeNo,
    job: u64,
    seg: SegNo,
) -> Result<CopyStep, NoMemory>
    requires { IsSlot places.now.items n.0 }
    ensures { IfOk result (IsStepAt seg.0 job (place_of places.now.items n.0)) }
{
    match &places[n.0 as usize - 1] {
        None => Ok(CopyStep::Gone),
        Some(place) => match &place.node {
            Node::Replica(replica) => step_of(alloc, replica, job, seg),
            Node::Primary(_) => Ok(CopyStep::Gone),
            Node::Down(_) => Ok(CopyStep::Gone),
        },
    }
}

/// Whether a copy of this segment runs at the node in this place, under this number.
pub fn runs_in<D: Dir + Drop>(
    places: &Vec<Option<NodePlace<D>>>,
    n: NodeNo,
    job: u64,
    seg: SegNo,
) -> bool
    requires { IsSlot places.now.items n.0 }
    ensures runs { result ≡ true → RunsCopyOf seg.0 job (place_of places.now.items n.0) }
    ensures gone { result ≡ false → IsStepAt seg.0 job (place_of places.now.items n.0) CopyStep.Gone }
{
    match &places[n.0 as usize - 1] {
        None => false,
        Some(place) => match &place.node {
            Node::Replica(replica) => match replica.precopy(job) {
                None => false,
                Some(copy) => is_copy_of(copy, seg),
            },
            Node::Primary(_) => false,
            Node::Down(_) => false,
        },
    }
}

/// Ends a copy of a merged segment. Takes no memory.
pub fn drop_copy<D: Dir + Drop>(replica: &mut Replica<D>, job: u64)
    requires { IsSome (copy_at job replica.old.copies.running) }
    ensures { DropsMerged D.cells job replica.old replica.new }
{
    replica.version();
    copy_runs::<D>();
    replica.fail(job);
}

// Puts a part into a copy of a merged segment, where it lacks it still. Where the disk fails the copy has ended.
fn take_merged<D: Dir + Drop>(
    replica: &mut Replica<D>,
    job: u64,
    part: Part,
) -> Result<Went<()>, NoMemory>
    requires may { MayTakeMerged job part replica.old }
    requires meta { IsMetaOf part.bytes part.meta }
    ensures { IfOk result (ByWent (λ done. TakesMerged D.cells job part replica.old replica.new)
        (LosesMerged D.cells (λ source. source part.name ≡ Some part.bytes) job
        replica.old replica.new)) }
{
    replica.version();
    copy_runs::<D>();
    let Some(copy) = replica.precopy(job) else {
        unreachable!()
    };
    if !lacks(copy, &part.name) {
        return Ok(Went::Done(()));
    }
    match replica.arrived(job, part) {
        Ok(()) => Ok(Went::Done(())),
        Err(fault) => {
            is_dir_failed(fault)?;
            drop_copy(replica, job);
            Ok(Went::Failed)
        }
    }
}

/// Puts a part into a copy of a merged segment at the replica in this place, where it lacks it still. Where the disk fails the copy has
/// ended.
pub fn take_merged_in<D: Dir + Drop>(
    places: &mut Vec<Option<NodePlace<D>>>,
    n: NodeNo,
    job: u64,
    part: Part,
) -> Result<Went<()>, NoMemory>
    requires may { IsReplicaIn (MayTakeMerged job part) n.0 places.old.items }
    requires meta { IsMetaOf part.bytes part.meta }
    ensures { IfOk result (ByWent (λ done. MovesReplica (TakesMerged D.cells job part) n.0
        places.old.items places.new.items)
        (MovesReplica (LosesMerged D.cells (λ source. source part.name ≡ Some part.bytes) job) n.0
        places.old.items places.new.items)) }
{
    let (mut replica, held) = take_replica(places, n);
    let taken = take_merged(&mut replica, job, part);
    let node = Node::Replica(replica);
    put(places, n, NodePlace { node, held });
    taken
}

// The files of a copy of which nothing is missing are pending from now on. Where the disk fails the copy has ended.
fn settle<D: Dir + Drop>(
    alloc: Global,
    replica: &mut Replica<D>,
    job: u64,
) -> Result<Went<()>, NoMemory>
    requires { MaySettle job replica.old }
    ensures { IfOk result (ByWent (λ done. SettlesMerged D.cells job replica.old replica.new)
        (LosesMerged D.cells (λ source. ⊤) job replica.old replica.new)) }
{
    match replica.finish_precopy(alloc, job) {
        Ok(()) => Ok(Went::Done(())),
        Err(fault) => {
            is_dir_failed(fault)?;
            Ok(Went::Failed)
        }
    }
}

/// The files of a copy at the replica in this place, of which nothing is missing, are pending from now on. Where the disk fails the copy
/// has ended.
pub fn settle_in<D: Dir + Drop>(
    alloc: Global,
    places: &mut Vec<Option<NodePlace<D>>>,
    n: NodeNo,
    job: u64,
) -> Result<Went<()>, NoMemory>
    requires { IsReplicaIn (MaySettle job) n.0 places.old.items }
    ensures { IfOk result (ByWent (λ done. MovesReplica (SettlesMerged D.cells job) n.0
        places.old.items places.new.items)
        (MovesReplica (LosesMerged D.cells (λ source. ⊤) job) n.0
        places.old.items places.new.items)) }
{
    let (mut replica, held) = take_replica(places, n);
    let settled = settle(alloc, &mut replica, job);
    let node = Node::Replica(replica);
    put(places, n, NodePlace { node, held });
    settled
}

/// Ends a copy of a merged segment at the replica in this place. Takes no memory.
pub fn drop_in<D: Dir + Drop>(places: &mut Vec<Option<NodePlace<D>>>, n: NodeNo, job: u64)
    requires { IsReplicaIn (λ r. IsSome (copy_at job r.copies.running)) n.0 places.old.items }
    ensures { MovesReplica (DropsMerged D.cells job) n.0 places.old.items places.new.items }
{
    let (mut replica, held) = take_replica(places, n);
    drop_copy(&mut replica, job);
    let node = Node::Replica(replica);
    put(places, n, NodePlace { node, held });
}

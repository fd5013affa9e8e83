//! Commits of nodes in their places.

ghost use Rattle.std.specs.Prelude.{◌≡◌, None, Some, OnOk, IfOk, IsSome, IsSomeAnd};
ghost use Rattle.commit_steps.specs.Book.{commit_of, HasBegun};
ghost use Rattle.cluster_nodes.specs.Places.{place_of, disk_of, IsSlot};
ghost use Rattle.cluster_nodes.specs.Commits.{HasStage, HasStageAt, committing, committing_there, KeepsBook, StepsBook, AltersCommits, CommitsIn};
ghost use Rattle.cluster_nodes.specs.Went.{ByWent};

use crate::failed::is_commit_failed;
use crate::nodes::{Node, NodePlace, put, take};
use crate::went::Went;
use commit_steps::{CommitBook, Stage};
use disk_model::Dir;
use nrt_base::{NoMemory, NodeNo, Version};
use searcher_switch::laws::holds_no_more;
use std::alloc::{AllocError, Global};

// Begins a commit of the point that a node searches. It fails when out of memory, or out of numbers below 2^62.
fn begin_at<D: Dir + Drop>(alloc: Global, node: &mut Node<D>) -> Result<(), NoMemory>
    requires { HasStage (λ stage. stage ≡ None) (disk_of node.old).book }
    ensures { OnOk result (AltersCommits HasBegun D.cells node.old node.new) }
{
    holds_no_more();
    match node {
        Node::Primary(primary) => {
            if primary.next_commit() >= 1 << 62 {
                return Err(AllocError);
            }
            primary.commit_begin(alloc)?;
            Ok(())
        }
        Node::Replica(replica) => {
            if replica.next_commit() >= 1 << 62 {
                return Err(AllocError);
            }
            replica.commit_begin(alloc)?;
            Ok(())
        }
        Node::Down(_) => unreachable!(),
    }
}

// Makes the next call of the directory for the commit in flight of a node, and answers whether the commit is made, or that the
// disk failed. It fails when out of memory.
fn step_at<D: Dir + Drop>(alloc: Global, node: &mut Node<D>) -> Result<Went<bool>, NoMemory>
    requires { HasStage IsSome (disk_of node.old).book }
    ensures { IfOk result (ByWent
        (λ done. AltersCommits (StepsBook done) D.cells node.old node.new)
        (AltersCommits KeepsBook D.cells node.old node.new)) }
{
    holds_no_more();
    match node {
        Node::Primary(primary) => {
            match primary.commit_step(alloc) {
                Ok(done) => Ok(Went::Done(done)),
                Err(fault) => {
                    is_commit_failed(fault)?;
                    Ok(Went::Failed)
                }
            }
        }
        Node::Replica(replica) => {
            match replica.commit_step(alloc) {
                Ok(done) => Ok(Went::Done(done)),
                Err(fault) => {
                    is_commit_failed(fault)?;
                    Ok(Went::Failed)
                }
            }
        }
        Node::Down(_) => unreachable!(),
    }
}

// The version of a commit in flight.
fn version_of(stage: &Stage) -> Version
    ensures { result ≡ (commit_of stage.now).infos.version }
{
    match stage {
        Stage::Begun(state) => state.0.commit.infos.version,
        Stage::Synced(state) => state.0.commit.infos.version,
        Stage::Written(state) => state.0.commit.infos.version,
        Stage::Pending(state) => state.0.commit.infos.version,
        Stage::Named(state) => state.0.commit.infos.version,
        Stage::Renamed(state) => state.0.commit.infos.version,
    }
}

// The version of the commit in flight in a book.
fn version_in(book: &CommitBook) -> Option<Version>
    ensures { result ≡ committing (Some book.now) }
{
    match &book.stage {
        None => None,
        Some(stage) => Some(version_of(stage)),
    }
}

// The version of the commit in flight of a node.
fn version_at<D: Dir + Drop>(node: &Node<D>) -> Option<Version>
    ensures { result ≡ committing (disk_of node.now).book }
{
    match node {
        Node::Primary(primary) => version_in(primary.commits()),
        Node::Replica(replica) => version_in(replica.commits()),
        Node::Down(_) => None,
    }
}

/// The version of the commit in flight of the node in a place.
pub fn committing_in<D: Dir + Drop>(
    places: &Vec<Option<NodePlace<D>>>,
    n: NodeNo,
) -> Option<Version>
    requires { IsSlot places.now.items n.0 }
    ensures { result ≡ committing_there (place_of places.now.items n.0) }
{
    match &places[n.0 as usize - 1] {
        Some(place) => version_at(&place.node),
        None => None,
    }
}

/// Begins a commit of the point that the node in a place searches. It fails when out of memory, or out of numbers below 2^62.
pub fn begin_commit_in<D: Dir + Drop>(
    alloc: Global,
    places: &mut Vec<Option<NodePlace<D>>>,
    n: NodeNo,
) -> Result<(), NoMemory>
    requires slot { IsSlot places.old.items n.0 }
    requires none { HasStageAt (λ stage. stage ≡ None) (place_of places.old.items n.0) }
    ensures { OnOk result (CommitsIn HasBegun D.cells n.0 places.old.items places.new.items) }
{
    let mut place = take(places, n);
    let begun = begin_at(alloc, &mut place.node);
    put(places, n, place);
    begun?;
    Ok(())
}

/// Makes the next call of the directory for the commit in flight of the node in a place, and answers whether the commit is made, or
/// that the disk failed: the commits are then as before. It fails when out of memory.
pub fn step_commit_in<D: Dir + Drop>(
    alloc: Global,
    places: &mut Vec<Option<NodePlace<D>>>,
    n: NodeNo,
) -> Result<Went<bool>, NoMemory>
    requires slot { IsSlot places.old.items n.0 }
    requires in_flight { HasStageAt IsSome (place_of places.old.items n.0) }
    ensures { IfOk result (ByWent
        (λ done. CommitsIn (StepsBook done) D.cells n.0 places.old.items places.new.items)
        (CommitsIn KeepsBook D.cells n.0 places.old.items places.new.items)) }
{
    let mut place = take(places, n);
    let stepped = step_at(alloc, &mut place.node);
    put(places, n, place);
    match stepped? {
        Went::Done(done) => Ok(Went::Done(done)),
        Went::Failed => Ok(Went::Failed),
    }
}

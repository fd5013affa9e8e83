//! A cluster that has just started.

ghost use Rattle.std.specs.Prelude.{◌≡◌, ◌≤◌, [], false, None, ℕ, IfOk, IsSomeAnd, length};
ghost use Rattle.std.specs.List.{All};
ghost use Rattle.history_rules.specs.Nodes.{IsNode};
ghost use Rattle.cluster_nodes.specs.Places.{place_of};
ghost use Rattle.cluster_state.specs.Starting.{IsEmptyDir, IsUncommitted, IsOpening, OpensPlace};
ghost use Rattle.cluster_state.specs.State.{PrimaryShows};
ghost use Rattle.cluster_state.specs.Files.{PrimaryFiles};
ghost use Rattle.cluster_state.specs.Names.{NamesShow};

use cluster_nodes::{Node, NodeParts, NodePlace, Primary, Replica};
use cluster_state::ClusterState;
use disk_model::{Dir, FaultDir};
use merge_tasks::{Ledger, Tasks};
use nrt_base::NoMemory;
use std::alloc::Global;

// A replica on an empty directory.
fn open_replica<D: Dir + Drop>(alloc: Global, dir: D) -> Result<Replica<D>, NoMemory>
    requires { IsEmptyDir (D.cells dir) }
    ensures { IfOk result (IsOpening D.cells) }
{
    match Replica::start_empty(alloc, dir) {
        Ok(replica) => Ok(replica),
        Err(fault) => Err(fault),
    }
}

// The first primary, which was a replica on an empty directory.
fn first_primary<D: Dir + Drop>(alloc: Global, replica: Replica<D>) -> Result<Primary<D>, NoMemory>
    requires { IsOpening D.cells replica }
    ensures shows { IfOk result (PrimaryShows D.cells [] 1) }
    ensures files { IfOk result (PrimaryFiles (λ q. None) D.cells [] (λ s. 0)) }
    ensures names { IfOk result (λ p. NamesShow D.cells [] (Node.Primary p)) }
    ensures commits { IfOk result (λ p. IsUncommitted p.commits) }
{
    let NodeParts {
        dir,
        files,
        searchers,
        commits,
        infos,
        segs,
    } = replica.take_apart();
    Primary::from_parts(alloc, dir, files, searchers, commits, infos, segs)
}

// A node on an empty directory.
fn first_place<D: Dir + Drop>(alloc: Global, n: usize, dir: D) -> Result<NodePlace<D>, NoMemory>
    requires empty { IsEmptyDir (D.cells dir) }
    ensures { IfOk result (OpensPlace D.cells n) }
{
    let replica = open_replica(alloc, dir)?;
    let node = if n == 1 {
        Node::Primary(first_primary(alloc, replica)?)
    } else {
        Node::Replica(replica)
    };
    let held = Vec::new(alloc);
    Ok(NodePlace { node, held })
}

// The nodes on these directories, in order.
fn first_places<D: Dir + Drop>(
    alloc: Global,
    dirs: Vec<D>,
) -> Result<Vec<Option<NodePlace<D>>>, NoMemory>
    requires { All (λ dir. IsEmptyDir (D.cells dir)) dirs.items }
    ensures count { IfOk result (λ places. length places.items ≡ length dirs.items) }
    ensures each { IfOk result (λ places. (n : ℕ) → IsNode (length dirs.items) n
        → IsSomeAnd (place_of places.items n) (OpensPlace D.cells n)) }
{
    let mut places = Vec::new(alloc);
    for dir in dirs {
        let place = first_place(alloc, places.len() + 1, dir)?;
        places.push(Some(place))?;
    }
    Ok(places)
}

/// A cluster over these directories, where nothing stands: node n is on the n-th of them, from 1. Node 1 is the primary, and
/// the others are replicas. It fails when out of memory.
pub fn start_cluster<D: FaultDir + Drop>(
    alloc: Global,
    dirs: Vec<D>,
) -> Result<ClusterState<D>, NoMemory>
    requires some { 1 ≤ length dirs.items }
    requires few { length dirs.items ≤ 16 }
    requires empty { All (λ dir. IsEmptyDir (D.cells dir)) dirs.items }
    ensures running { IfOk result (λ c. c.ended ≡ false) }
    ensures nodes { IfOk result (λ c. c.nodes ≡ length dirs.items) }
    ensures log { IfOk result (λ c. c.log ≡ []) }
{
    let ledger = Ledger::new(alloc, dirs.len() as u8)?;
    let places = first_places(alloc, dirs)?;
    let ended = false;
    Ok(ClusterState {
        ledger,
        tasks: Tasks::new(alloc),
        places,
        carries: [false; 255],
        ended,
    })
}

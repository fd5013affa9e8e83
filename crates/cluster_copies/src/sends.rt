//! What a copy to a node takes: the state of the primary's point, and its files that the node lacks.

ghost use Rattle.std.specs.Prelude.{◌≡◌, false, is_none, None, Some, Ok, IfOk, IfSome, filter};
ghost use Rattle.disk_model.specs.Disk.{reads_of};
ghost use Rattle.copy_state.specs.States.{IsCopyState, meta_names};
ghost use Rattle.history_rules.specs.Nodes.{IsNode, IsReplica, primary_of};
ghost use Rattle.history_book.specs.Log.{printed};
ghost use Rattle.cluster_copies.specs.Sends.{IsStateNow, HasNoSource, Takes, AreOfCluster, IsSend};

use cluster_nodes::{NodePlace, Primary, dir_in, take, take_primary};
use cluster_state::ClusterState;
use copy_state::CopyState;
use disk_model::{Dir, FaultDir};
use file_names::FileName;
use index_primary::PrimaryFault;
use nrt_base::{NoMemory, NodeNo};
use std::alloc::{AllocError, Global};

/// What a copy of the newest point to a node takes.
#[derive(Drop)]
pub struct Sending<D: Dir> {
    /// The copy state of the primary's point.
    pub state: CopyState,
    /// The names of its files that the node lacks, ascending.
    pub lacking: Vec<FileName>,
    /// The primary's directory, which has their bytes. What was planned for its disk is put off.
    pub dir: D,
}

// The running primary, where the node is a replica of it.
fn source_of<D: FaultDir + Drop>(cluster: &ClusterState<D>, n: NodeNo) -> Option<NodeNo>
    requires running { cluster.now.ended ≡ false }
    requires node { IsNode cluster.now.nodes n.0 }
    ensures node { IfSome result (λ p. IsNode cluster.now.nodes p.0) }
    ensures primary { IfSome result (λ p. primary_of (printed cluster.now.log) ≡ Some p) }
    ensures replica { IfSome result (λ p. IsReplica (printed cluster.now.log) n.0) }
    ensures none { result ≡ None → HasNoSource (printed cluster.now.log) n.0 }
{
    let p = match cluster.primary() {
        None => return None,
        Some(p) => p,
    };
    if p.0 == n.0 {
        return None;
    }
    if cluster.book().runs(n) {
        Some(p)
    } else {
        None
    }
}

// The copy state of a primary's point. What is planned for the primary's disk is put off first, so no fault of it is met.
fn state_of<D: FaultDir + Drop>(
    alloc: Global,
    primary: &mut Primary<D>,
) -> Result<CopyState, NoMemory>
    ensures state { IfOk result (IsStateNow D.cells primary.old) }
    ensures copy { IfOk result IsCopyState }
    ensures cells { D.cells primary.new.dir ≡ D.cells primary.old.dir }
{
    primary.plan(u64::MAX);
    primary.stop_at(u64::MAX);
    match primary.take_state(alloc) {
        Ok(state) => Ok(state),
        Err(PrimaryFault::Memory) => Err(AllocError),
        Err(PrimaryFault::Failed) => unreachable!(),
    }
}

// The names of a state's files that a directory does not have.
fn lacking_of<D: Dir>(alloc: Global, state: &CopyState, dir: &D) -> Result<Vec<FileName>, NoMemory>
    ensures { IfOk result (λ names. names.items
        ≡ filter (λ q. is_none (reads_of (D.cells dir.now) q)) (meta_names state.now.files)) }
{
    let mut names = Vec::new(alloc);
    for (name, _) in state.files.as_slice() {
        if !dir.has(name) {
            names.push(*name)?;
        }
    }
    Ok(names)
}

// What a copy of a primary's point to a node takes, by the directory that the node has.
fn sending_of<D: FaultDir + Drop>(
    alloc: Global,
    primary: Primary<D>,
    theirs: &D,
) -> Result<Sending<D>, NoMemory>
    ensures { IfOk result (λ s. Takes D.cells primary theirs.now s.state s.lacking.items s.dir) }
{
    let mut primary = primary;
    let taken = state_of(alloc, &mut primary);
    let dir = primary.into_dir();
    let state = taken?;
    let lacking = lacking_of(alloc, &state, theirs)?;
    Ok(Sending {
        state,
        lacking,
        dir,
    })
}

// The primary and the directory of a replica, taken out of a cluster.
fn both_of<D: FaultDir + Drop>(cluster: ClusterState<D>, p: NodeNo, n: NodeNo) -> (Primary<D>, D)
    requires running { cluster.ended ≡ false }
    requires source { IsNode cluster.nodes p.0 }
    requires primary { primary_of (printed cluster.log) ≡ Some p }
    requires node { IsNode cluster.nodes n.0 }
    requires replica { IsReplica (printed cluster.log) n.0 }
    ensures { AreOfCluster D.cells D.names cluster p.0 n.0 result.0 result.1 }
{
    let ClusterState { places, .. } = cluster;
    let mut places = places;
    let (primary, _) = take_primary(&mut places, p);
    let NodePlace { node, .. } = take(&mut places, n);
    (primary, dir_in(node))
}

/// What a copy of the newest point to a node takes, once no other call is to be made; none where none can begin: no primary runs, or the
/// node is down or is the primary. What is planned for the primary's disk is put off.
pub fn into_send<D: FaultDir + Drop>(
    alloc: Global,
    cluster: ClusterState<D>,
    n: NodeNo,
) -> Result<Option<Sending<D>>, NoMemory>
    requires running { cluster.ended ≡ false }
    requires node { IsNode cluster.nodes n.0 }
    ensures sending { IfOk result (λ sending. IfSome sending (λ s.
        IsSend D.cells D.names cluster n.0 s.state s.lacking.items s.dir)) }
    ensures none { result ≡ Ok None → HasNoSource (printed cluster.log) n.0 }
{
    match source_of(&cluster, n) {
        None => {
            drop(cluster);
            Ok(None)
        }
        Some(p) => {
            let (primary, theirs) = both_of(cluster, p, n);
            let sending = sending_of(alloc, primary, &theirs)?;
            Ok(Some(sending))
        }
    }
}

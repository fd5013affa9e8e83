//! The cluster.

use cluster_recovery::{into_dir, start_cluster};
use cluster_state::ClusterState;
use disk_model::FaultDir;
use history_rules::{Entry, History};
use nrt_base::{NoMemory, NodeNo};
use std::alloc::Global;
use std::marker::Model;

/// All nodes of a cluster and what happened in it.
///
/// A call that takes `at` is the next one of that line: the first where no entry of the line stands there, and a later one where the
/// line's newest entry is its start. Where a call finds no memory the cluster has ended, with the history that it had.
#[derive(Drop)]
pub struct Cluster<D: FaultDir> {
    pub(crate) state: ClusterState<D>,
}

impl<D: FaultDir> Model for Cluster<D> {
    ghost use Rattle.cluster_state.specs.Run.{Run};
    ghost use Rattle.documents.specs.contracts.query.Query as query;
    ghost use Rattle.std.specs.Coded.{codes};

    ghost Value = { Run };

    ghost coded = { Prim.hlevel (codes, query.the_row.coded) };

    ghost view = { λ c. c.state };
}

impl<D: FaultDir + Drop> Cluster<D> {
    ghost use Rattle.std.specs.Prelude.{◌≡◌, ◌≤◌, [], false, IfOk, length, reverse};
    ghost use Rattle.std.specs.List.{All};
    ghost use Rattle.disk_model.specs.Disk.{reads_of};
    ghost use Rattle.history_rules.specs.Nodes.{IsNode, is_running};
    ghost use Rattle.history_rules.specs.Legal.{IsLegal, IsLegalPast};
    ghost use Rattle.history_book.specs.Log.{printed, FaultsFollow};
    ghost use Rattle.history_book.specs.Turns.{AreInTurn};
    ghost use Rattle.history_book.specs.Told.{IsTold};
    ghost use Rattle.cluster_state.specs.Starting.{IsEmptyDir};
    ghost use Rattle.cluster_state.specs.Run.{IsEnded};
    ghost use Rattle.cluster_state.specs.NodeDirs.{IsNodeDir, FindsVersion};

    /// A cluster over these empty directories. Node 1 is the primary, and the others are replicas.
    pub fn start(alloc: Global, dirs: Vec<D>) -> Result<Self, NoMemory>
        requires some { 2 ≤ length dirs.items }
        requires few { length dirs.items ≤ 16 }
        requires empty { All (λ dir. IsEmptyDir (D.cells dir)) dirs.items }
        ensures running { IfOk result (λ c. c.ended ≡ false) }
        ensures nodes { IfOk result (λ c. c.nodes ≡ length dirs.items) }
        ensures log { IfOk result (λ c. c.log ≡ []) }
    {
        let state = start_cluster(alloc, dirs)?;
        Ok(Cluster { state })
    }

    /// Whether the cluster has ended. Its history is legal also then.
    pub fn ended(&self) -> bool
        ensures is { result ≡ self.now.ended }
        ensures legal { IsLegalPast self.now.nodes (printed self.now.log) }
        ensures turns { AreInTurn (printed self.now.log) }
        ensures faults { FaultsFollow self.now.log }
        ensures told { IsTold self.now.log }
    {
        self.state.book().is_legal();
        self.state.has_ended()
    }

    /// How many nodes it has.
    pub fn node_count(&self) -> u8
        ensures { result ≡ self.now.nodes }
    {
        self.state.book().node_count()
    }

    /// Ends it, for a caller that found no memory.
    pub fn end(&mut self)
        ensures { IsEnded self.old self.new }
    {
        self.state.end();
    }

    /// The printed entries, in order.
    pub fn entries(&self) -> &[Entry]
        ensures { reverse result.now ≡ printed self.now.log }
    {
        self.state.book().entries()
    }

    /// What happened.
    pub fn into_history(self) -> History
        ensures entries { reverse result.entries ≡ printed self.log }
        ensures nodes { result.nodes ≡ self.nodes }
        ensures legal { IsLegal result }
    {
        let book = self.state.into_book();
        book.is_legal();
        book.into_history()
    }

    /// The directory of a node, once no other call is to be made. No call of a disk is made.
    pub fn into_dir(self, n: NodeNo) -> D
        requires running { self.ended ≡ false }
        requires node { IsNode self.nodes n.0 }
        ensures is { IsNodeDir D.cells D.names self n.0 result }
        ensures down { is_running n.0 (printed self.log) ≡ false
            → FindsVersion (printed self.log) n.0 (reads_of (D.cells result)) }
    {
        into_dir(self.state, n)
    }

    /// The state of the cluster, once no other call is to be made.
    pub fn into_state(self) -> ClusterState<D>
        ensures { result ≡ self }
    {
        self.state
    }
}

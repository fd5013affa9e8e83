//! A cluster and its log, as lanes share them under the lock.

ghost use Rattle.std.specs.Prelude.{reverse};
ghost use Rattle.history_book.specs.Log.{name_of};
ghost use Rattle.cluster_site.specs.Sites.{is_logged};

use crate::opening::empty_log;
use cluster_core::Cluster;
use disk_model::FaultDir;
use hist_lock::Grows;
use history_book::Mark;
use lane_threads::{LaneRun, Setup};
use nrt_base::NoMemory;
use std::alloc::Global;
use std::marker::Model;
use trans_log::TransLog;

/// A cluster, and the log of the operations that it accepts, where it has one.
///
/// While the cluster has not ended, the records have just the operations that were accepted as the replies of their lines, in order, and
/// none is left to accept again; the files of the log's directory are these records, and each crash leaves them. Where a call finds no
/// memory the cluster has ended, and its log with it.
#[derive(Drop)]
pub struct Site<D: FaultDir> {
    pub(crate) cluster: Cluster<D>,
    pub(crate) log: Option<TransLog<D>>,
}

impl<D: FaultDir> Model for Site<D> {
    ghost use Rattle.cluster_site.specs.Sites.{SiteRun, SiteStands, records_of};
    ghost use Rattle.documents.specs.contracts.query.Query as query;
    ghost use Rattle.std.specs.Coded.{codes};

    ghost Value = { SiteRun };

    ghost coded = { Prim.hlevel (codes, query.the_row.coded) };

    ghost view = { λ s. record { run = s.cluster; kept = records_of s.log } };

    ghost invariant = { λ s. SiteStands D.cells D.plans s.cluster s.log };
}

impl<D: FaultDir> Grows for Site<D> {
    type Entry = Mark;

    ghost history = { λ s. reverse s.run.log };

    ghost names = { name_of };
}

impl<D: FaultDir + Drop> LaneRun for Site<D> {
    ghost use Rattle.std.specs.Prelude.{refl};

    ghost log = { λ s. s.run.log };

    ghost ended = { λ s. s.run.ended };

    ghost set_up = { λ s. record { nodes = s.run.nodes; log = is_logged s } };

    fn has_ended(&self) -> bool {
        self.ended()
    }

    fn setup(&self) -> Setup {
        Setup {
            nodes: self.cluster.node_count(),
            log: self.log.is_some(),
        }
    }

    ghost in_order = { λ s. refl };

    ghost named = { refl };
}

impl<D: FaultDir + Drop> Site<D> {
    ghost use Rattle.std.specs.Prelude.{◌≡◌, ◌≤◌, [], None, Some, false, IfOk, length};
    ghost use Rattle.std.specs.List.{All};
    ghost use Rattle.history_rules.specs.Legal.{IsLegalPast};
    ghost use Rattle.history_book.specs.Log.{printed};
    ghost use Rattle.history_book.specs.Turns.{AreInTurn};
    ghost use Rattle.history_book.specs.Told.{IsTold};
    ghost use Rattle.lane_threads.specs.Owes.{FaultsFit};
    ghost use Rattle.cluster_state.specs.Starting.{IsEmptyDir};
    ghost use Rattle.trans_log.specs.Logs.{SameLogs, IsCalm};
    ghost use Rattle.cluster_site.specs.Sites.{IsInStep};

    /// A cluster over these empty directories, without a log. Node 1 is the primary, and the others are replicas.
    pub fn start(alloc: Global, dirs: Vec<D>) -> Result<Self, NoMemory>
        requires some { 2 ≤ length dirs.items }
        requires few { length dirs.items ≤ 16 }
        requires empty { All (λ dir. IsEmptyDir (D.cells dir)) dirs.items }
        ensures running { IfOk result (λ s. s.run.ended ≡ false) }
        ensures nodes { IfOk result (λ s. s.run.nodes ≡ length dirs.items) }
        ensures log { IfOk result (λ s. s.run.log ≡ []) }
        ensures kept { IfOk result (λ s. s.kept ≡ None) }
    {
        let cluster = Cluster::start(alloc, dirs)?;
        Ok(Site { cluster, log: None })
    }

    /// The same with a log in another empty directory, for which no fault is planned.
    pub fn start_with_log(alloc: Global, dirs: Vec<D>, dir: D) -> Result<Self, NoMemory>
        requires some { 2 ≤ length dirs.items }
        requires few { length dirs.items ≤ 16 }
        requires empty { All (λ dir. IsEmptyDir (D.cells dir)) dirs.items }
        requires log { IsEmptyDir (D.cells dir) }
        requires same { SameLogs (D.cells dir) }
        requires calm { IsCalm (D.plans dir) }
        ensures running { IfOk result (λ s. s.run.ended ≡ false) }
        ensures nodes { IfOk result (λ s. s.run.nodes ≡ length dirs.items) }
        ensures log { IfOk result (λ s. s.run.log ≡ []) }
        ensures kept { IfOk result (λ s. s.kept ≡ Some []) }
    {
        let log = empty_log(alloc, dir)?;
        let cluster = Cluster::start(alloc, dirs)?;
        Ok(Site {
            cluster,
            log: Some(log),
        })
    }

    /// Whether it has ended. Its history is legal also then; and while it has not, the log is in step with it.
    pub fn ended(&self) -> bool
        ensures is { result ≡ self.now.run.ended }
        ensures legal { IsLegalPast self.now.run.nodes (printed self.now.run.log) }
        ensures turns { AreInTurn (printed self.now.run.log) }
        ensures told { IsTold self.now.run.log }
        ensures faults { FaultsFit (is_logged self.now) self.now.run.log }
        ensures in_step { result ≡ false
            → IsInStep self.now.kept (printed self.now.run.log) }
    {
        self.cluster.ended()
    }

    /// The cluster, once no other call is to be made.
    pub fn into_cluster(self) -> Cluster<D>
        ensures { result ≡ self.run }
    {
        let Site { cluster, .. } = self;
        cluster
    }
}

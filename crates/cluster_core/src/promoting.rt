//! The call of a line that promotes a node.

use crate::cluster::Cluster;
use cluster_recovery::promote;
use disk_model::FaultDir;
use nrt_base::{At, NoMemory, NodeNo};
use script_serving::Force;
use std::alloc::Global;

impl<D: FaultDir + Drop> Cluster<D> {
    ghost use Rattle.std.specs.Prelude.{◌≡◌, ◌∷◌, [], false, OnOk, OnErr};
    ghost use Rattle.history_rules.specs.Nodes.{IsNode};
    ghost use Rattle.history_rules.specs.Lines.{entries_of_line};
    ghost use Rattle.history_book.specs.Log.{printed, shown};
    ghost use Rattle.script_serving.specs.declared.script.LineCommand.TheVariants.{Promote};
    ghost use Rattle.script_serving.specs.Refusals.{refusal};
    ghost use Rattle.cluster_state.specs.GivesUp.{met_log};
    ghost use Rattle.cluster_state.specs.Run.{IsNow, IsEnded};
    ghost use Rattle.cluster_core.specs.Doing.{Does, IsReplied};
    ghost use Rattle.cluster_recovery.specs.PromoteCalls.{promote_event};
    ghost use Rattle.cluster_recovery.specs.Promotions.{PromoteTells};

    /// Promotes a node that runs, where no primary does: it begins the next generation, with a point one version above the forced one,
    /// of the documents that it searches. The line is refused where the node is down, a primary runs, or the forced version is 2^62 or
    /// more, or below the newest, in this order.
    pub fn promote(
        &mut self,
        alloc: Global,
        at: At,
        n: NodeNo,
        force: Force,
    ) -> Result<(), NoMemory>
        requires running { self.old.ended ≡ false }
        requires fresh { entries_of_line at (printed self.old.log) ≡ [] }
        requires node { IsNode self.old.nodes n.0 }
        ensures ok { OnOk result (IsNow self.old self.new
            (shown at (promote_event at.lane.0 n force (printed self.old.log))
            ∷ met_log at self.old self.new)) }
        ensures rest { OnOk result (PromoteTells D.cells
            (refusal (Promote n force) at.lane.0 (printed self.old.log)) n.0 self.old self.new) }
        ensures tasks { OnOk result (self.new.rest.tasks ≡ self.old.rest.tasks) }
        ensures err { OnErr result (IsEnded self.old self.new) }

        // what the line is owed
        ensures does { OnOk result (Does (Promote n force) at self.old self.new) }
        ensures replied { OnOk result (IsReplied at self.new) }
    {
        promote(&mut self.state, alloc, at, n, force)
    }
}

//! At a cluster that may have a log: the call of a line that plans a fault.

use crate::site::Site;
use disk_model::FaultDir;
use history_rules::FaultPlan;
use nrt_base::{At, NoMemory, NodeNo};

impl<D: FaultDir + Drop> Site<D> {
    ghost use Rattle.std.specs.Prelude.{◌≡◌, [], true, false, OnOk, OnErr};
    ghost use Rattle.history_rules.specs.Nodes.{IsNode};
    ghost use Rattle.history_rules.specs.Lines.{entries_of_line};
    ghost use Rattle.history_book.specs.Log.{printed};
    ghost use Rattle.script_serving.specs.Form.{is_plan};
    ghost use Rattle.script_serving.specs.declared.script.LineCommand.TheVariants.{Fault};
    ghost use Rattle.cluster_state.specs.Run.{IsEnded};
    ghost use Rattle.cluster_core.specs.Given.{PlansFault};
    ghost use Rattle.cluster_core.specs.Doing.{IsReplied};
    ghost use Rattle.cluster_site.specs.Sites.{DoesAtSite};

    /// Plans a fault at a node, which may be down: of its disk, or of the link or the bytes of a file for it. A plan takes the place of the
    /// one of its kind. None is planned for the log.
    pub fn fault(&mut self, at: At, n: NodeNo, plan: FaultPlan) -> Result<(), NoMemory>
        requires running { self.old.run.ended ≡ false }
        requires fresh { entries_of_line at (printed self.old.run.log) ≡ [] }
        requires node { IsNode self.old.run.nodes n.0 }
        requires plan { is_plan plan ≡ true }
        ensures ok { OnOk result (PlansFault at n plan self.old.run self.new.run) }
        ensures err { OnErr result (IsEnded self.old.run self.new.run) }

        // what the line is owed
        ensures does { OnOk result (DoesAtSite (Fault n plan) at self.old self.new) }
        ensures replied { OnOk result (IsReplied at self.new.run) }
    {
        self.cluster.fault(at, n, plan)
    }
}

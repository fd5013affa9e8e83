//! At a cluster that may have a log: the call of a line that promotes a node.

use crate::replaying::accept_lacking;
use crate::site::Site;
use disk_model::FaultDir;
use nrt_base::{At, NoMemory, NodeNo};
use script_serving::Force;
use std::alloc::Global;

impl<D: FaultDir + Drop> Site<D> {
    ghost use Rattle.std.specs.Prelude.{◌≡◌, [], true, false, OnOk, OnErr};
    ghost use Rattle.history_rules.specs.Nodes.{IsNode};
    ghost use Rattle.history_rules.specs.Lines.{entries_of_line};
    ghost use Rattle.history_book.specs.Log.{printed};
    ghost use Rattle.script_serving.specs.declared.script.LineCommand.TheVariants.{Promote};
    ghost use Rattle.lane_threads.specs.Owes.{GoesByLine};
    ghost use Rattle.cluster_state.specs.Run.{IsNow};
    ghost use Rattle.cluster_core.specs.Doing.{IsReplied};
    ghost use Rattle.cluster_site.specs.Sites.{DoesAtSite, is_logged};
    ghost use Rattle.cluster_site.specs.Replays.{with_promotion, PromotesThen};

    /// Promotes a node that runs, where no primary does. With a log the line then accepts again, in order, what the log has and the node's
    /// point lacks.
    pub fn promote(
        &mut self,
        alloc: Global,
        at: At,
        n: NodeNo,
        force: Force,
    ) -> Result<(), NoMemory>
        requires running { self.old.run.ended ≡ false }
        requires fresh { entries_of_line at (printed self.old.run.log) ≡ [] }
        requires node { IsNode self.old.run.nodes n.0 }
        ensures ok { OnOk result (IsNow self.old.run self.new.run
            (with_promotion at n force (is_logged self.old) self.old.run self.new.run)) }
        ensures rest { OnOk result (PromotesThen D.cells at n force self.old.run self.new.run) }
        ensures err { OnErr result (self.new.run.ended ≡ true) }
        ensures nodes { self.new.run.nodes ≡ self.old.run.nodes }

        // what the line is owed
        ensures does { OnOk result (DoesAtSite (Promote n force) at self.old self.new) }
        ensures replied { OnOk result (IsReplied at self.new.run) }

        // what the line may add, also where memory runs out while it accepts again
        ensures goes { GoesByLine (is_logged self.old) (Promote n force) at self.old.run.log
            self.new.run.log }
    {
        self.cluster.promote(alloc, at, n, force)?;
        accept_lacking(&mut self.cluster, &mut self.log, alloc, at)
    }
}

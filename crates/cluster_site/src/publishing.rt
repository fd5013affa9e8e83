//! At a cluster that may have a log: the calls of lines that write and publish.

use crate::site::Site;
use cluster_state::Turn;
use disk_model::FaultDir;
use history_rules::Event;
use nrt_base::{At, NoMemory};
use segment_steps::{FlushTask, FlushWork};
use std::alloc::Global;

impl<D: FaultDir + Drop> Site<D> {
    ghost use Rattle.std.specs.Prelude.{◌≡◌, ◌+◌, ◌<◌, [], false, Some, OnOk, OnErr, IfOk};
    ghost use Rattle.history_rules.specs.Lines.{entries_of_line, last_of_line};
    ghost use Rattle.history_book.specs.Log.{printed};
    ghost use Rattle.script_serving.specs.declared.script.LineCommand.TheVariants.{Publish};
    ghost use Rattle.cluster_state.specs.Run.{KeepsRest, IsEnded};
    ghost use Rattle.cluster_state.specs.Keeping.{KeepsButPoint};
    ghost use Rattle.cluster_state.specs.Writes.{IsFlushed};
    ghost use Rattle.cluster_core.specs.Doing.{IsReplied, IsRepliedAtDone, IsBegunAtWork};
    ghost use Rattle.cluster_site.specs.Sites.{DoesAtSite};
    ghost use Rattle.cluster_state.specs.Calls.{PublishStarts};
    ghost use Rattle.cluster_state.specs.GivesUp.{EndsPublish};

    /// Starts a publish. Busy comes exactly where a primary runs and a publish is in flight.
    pub fn publish_start(&mut self, alloc: Global, at: At) -> Result<Turn<FlushTask>, NoMemory>
        requires running { self.old.run.ended ≡ false }
        requires fresh { entries_of_line at (printed self.old.run.log) ≡ [] }
        ensures ok { IfOk result (PublishStarts at self.old.run self.new.run) }
        ensures rest { OnOk result (KeepsRest self.old.run self.new.run) }
        ensures err { OnErr result (IsEnded self.old.run self.new.run) }

        // what the line is owed
        ensures does { OnOk result (DoesAtSite Publish at self.old self.new) }
        ensures replied { IfOk result (IsRepliedAtDone at self.new.run) }
        ensures begun { IfOk result (IsBegunAtWork at (λ task. Event.Publishing) self.new.run) }
    {
        self.cluster.publish_start(alloc, at)
    }

    /// Ends a publish with the work that was made for it: its point is there, or it is given up where a disk failed by a plan that the
    /// history shows. Exactly where the primary has crashed since, the line is refused as lost.
    pub fn publish_end(&mut self, alloc: Global, at: At, work: FlushWork) -> Result<(), NoMemory>
        requires running { self.old.run.ended ≡ false }
        requires started { last_of_line at (printed self.old.run.log) ≡ Some Event.Publishing }
        requires work { IsFlushed at self.old.run.log work }
        ensures ok { OnOk result (EndsPublish at self.old.run self.new.run) }
        ensures rest { OnOk result (KeepsButPoint self.old.run self.new.run) }
        ensures err { OnErr result (IsEnded self.old.run self.new.run) }

        // what the line is owed
        ensures does { OnOk result (DoesAtSite Publish at self.old self.new) }
        ensures replied { OnOk result (IsReplied at self.new.run) }
    {
        self.cluster.publish_end(alloc, at, work)
    }
}

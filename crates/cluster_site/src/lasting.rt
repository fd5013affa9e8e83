//! At a cluster that may have a log: the calls of lines that commit nodes, crash them and reopen them.

use crate::site::Site;
use cluster_state::{CommitTask, Turn};
use disk_model::FaultDir;
use history_rules::Event;
use nrt_base::{At, NoMemory, NodeNo};
use std::alloc::Global;

impl<D: FaultDir + Drop> Site<D> {
    ghost use Rattle.std.specs.Prelude.{ℕ, ◌≡◌, ◌==◌, ◌∷◌, [], false, Some, OnOk, OnErr, IfOk};
    ghost use Rattle.history_rules.specs.Nodes.{IsNode, is_running, is_at, primary_of};
    ghost use Rattle.history_rules.specs.Lines.{entries_of_line, last_of_line};
    ghost use Rattle.history_book.specs.Log.{printed, shown};
    ghost use Rattle.script_serving.specs.declared.script.LineCommand.TheVariants.{Commit, Crash, Reopen};
    ghost use Rattle.cluster_state.specs.GivesUp.{met_log};
    ghost use Rattle.cluster_state.specs.Run.{files_at, plans_at, names_at, IsNow, IsEnded};
    ghost use Rattle.cluster_state.specs.Keeping.{TellsSameOfOthers, KeepsButCommit, KeepsButNode};
    ghost use Rattle.cluster_core.specs.Doing.{IsReplied, IsRepliedAtDone, IsBegunAtWork};
    ghost use Rattle.cluster_site.specs.Sites.{DoesAtSite};
    ghost use Rattle.cluster_state.specs.LifeCalls.{CommitStarts, CommitSteps, crash_event, crashed_plans, CrashesDirBy, ReopensNode};
    ghost use Rattle.cluster_core.specs.Given.{CrashTells};

    /// Starts a commit of the point that a node searches. A commit that was stopped there is made first. Busy comes exactly where the node
    /// runs and another line's commit is in flight there.
    pub fn commit_start(
        &mut self,
        alloc: Global,
        at: At,
        n: NodeNo,
    ) -> Result<Turn<CommitTask>, NoMemory>
        requires running { self.old.run.ended ≡ false }
        requires fresh { entries_of_line at (printed self.old.run.log) ≡ [] }
        requires node { IsNode self.old.run.nodes n.0 }
        ensures ok { IfOk result (CommitStarts at n self.old.run self.new.run) }
        ensures rest { OnOk result (KeepsButCommit n.0 self.old.run self.new.run) }
        ensures err { OnErr result (IsEnded self.old.run self.new.run) }

        // what the line is owed
        ensures does { OnOk result (DoesAtSite (Commit n) at self.old self.new) }
        ensures replied { IfOk result (IsRepliedAtDone at self.new.run) }
        ensures begun { IfOk result (IsBegunAtWork at
            (λ task. Event.Committing n task.version) self.new.run) }
    {
        self.cluster.commit_start(alloc, at, n)
    }

    /// Makes the next disk call of a commit: of one that was stopped at the node before, as long as there is one. Done says that the line has
    /// its reply: it was the last call, and the commit is acknowledged; or the disk failed, by a plan that the history shows; or the line is
    /// refused as lost, exactly where the node has crashed since its start.
    pub fn commit_step(
        &mut self,
        alloc: Global,
        at: At,
        task: &CommitTask,
    ) -> Result<Turn<()>, NoMemory>
        requires running { self.old.run.ended ≡ false }
        requires started { last_of_line at (printed self.old.run.log)
            ≡ Some (Event.Committing task.now.node task.now.version) }
        ensures ok { IfOk result (CommitSteps at task.now.node task.now.version self.old.run self.new.run) }
        ensures rest { OnOk result (KeepsButCommit task.now.node.0 self.old.run self.new.run) }
        ensures err { OnErr result (IsEnded self.old.run self.new.run) }

        // what the line is owed
        ensures does { OnOk result (DoesAtSite (Commit task.now.node) at self.old self.new) }
        ensures replied { IfOk result (IsRepliedAtDone at self.new.run) }
    {
        self.cluster.commit_step(alloc, at, task)
    }

    /// Crashes a node, behind the faults that disks of other nodes met. The number picks what its disk keeps. Jobs at other nodes lack and
    /// have what they did: where the primary crashed they were stopped. No fault is planned for the node's disk then.
    pub fn crash(&mut self, alloc: Global, at: At, n: NodeNo, pick: u64) -> Result<(), NoMemory>
        requires running { self.old.run.ended ≡ false }
        requires fresh { entries_of_line at (printed self.old.run.log) ≡ [] }
        requires node { IsNode self.old.run.nodes n.0 }
        ensures ok { OnOk result (IsNow self.old.run self.new.run
            (shown at (crash_event n (printed self.old.run.log))
            ∷ met_log at self.old.run self.new.run)) }
        ensures stays { OnOk result ((m : ℕ) → (n.0 == m) ≡ false
            → files_at m self.new.run ≡ files_at m self.old.run) }
        ensures plans { OnOk result (plans_at n.0 self.new.run
            ≡ crashed_plans (is_running n.0 (printed self.old.run.log)) (plans_at n.0 self.old.run)) }
        ensures dir { OnOk result (CrashesDirBy (is_running n.0 (printed self.old.run.log))
            D.cells D.names D.leaves n.0 pick self.old.run self.new.run) }
        ensures rest { OnOk result (CrashTells (is_running n.0 (printed self.old.run.log))
            (is_at (primary_of (printed self.old.run.log)) n.0) n.0 self.old.run self.new.run) }
        ensures err { OnErr result (IsEnded self.old.run self.new.run) }

        // what the line is owed
        ensures does { OnOk result (DoesAtSite (Crash n pick) at self.old self.new) }
        ensures replied { OnOk result (IsReplied at self.new.run) }
    {
        self.cluster.crash(alloc, at, n, pick)
    }

    /// Reopens a node that is down, as a replica: at its last commit, or at the one that was in flight when it crashed. Where its disk failed,
    /// by a plan that the history shows, the line is refused, and the node stays down.
    pub fn reopen(&mut self, alloc: Global, at: At, n: NodeNo) -> Result<(), NoMemory>
        requires running { self.old.run.ended ≡ false }
        requires fresh { entries_of_line at (printed self.old.run.log) ≡ [] }
        requires node { IsNode self.old.run.nodes n.0 }
        ensures ok { OnOk result (ReopensNode at n self.old.run self.new.run) }
        ensures rest { OnOk result (KeepsButNode n.0 self.old.run self.new.run) }
        ensures disks { OnOk result (TellsSameOfOthers plans_at n.0 self.old.run self.new.run) }
        ensures names { OnOk result (TellsSameOfOthers names_at n.0 self.old.run self.new.run) }
        ensures err { OnErr result (IsEnded self.old.run self.new.run) }

        // what the line is owed
        ensures does { OnOk result (DoesAtSite (Reopen n) at self.old self.new) }
        ensures replied { OnOk result (IsReplied at self.new.run) }
    {
        self.cluster.reopen(alloc, at, n)
    }
}

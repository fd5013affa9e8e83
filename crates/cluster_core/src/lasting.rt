//! The calls of lines that commit nodes, crash them and reopen them.

use crate::cluster::Cluster;
use cluster_recovery::{commit_start, commit_step, crash, reopen};
use cluster_state::{CommitTask, Turn};
use disk_model::FaultDir;
use history_rules::Event;
use nrt_base::{At, NoMemory, NodeNo};
use std::alloc::Global;

impl<D: FaultDir + Drop> Cluster<D> {
    ghost use Rattle.std.specs.Prelude.{ℕ, ◌≡◌, ◌==◌, ◌∷◌, [], false, Some, OnOk, OnErr, IfOk};
    ghost use Rattle.history_rules.specs.Nodes.{IsNode, is_running, is_at, primary_of};
    ghost use Rattle.history_rules.specs.Lines.{entries_of_line, last_of_line};
    ghost use Rattle.history_book.specs.Log.{printed, shown};
    ghost use Rattle.script_serving.specs.declared.script.LineCommand.TheVariants.{Commit, Crash, Reopen};
    ghost use Rattle.cluster_state.specs.GivesUp.{met_log};
    ghost use Rattle.cluster_state.specs.Run.{files_at, plans_at, names_at, IsNow, IsEnded};
    ghost use Rattle.cluster_state.specs.Keeping.{TellsSameOfOthers, KeepsButCommit, KeepsButNode};
    ghost use Rattle.cluster_core.specs.Doing.{Does, IsReplied, IsRepliedAtDone, IsBegunAtWork};
    ghost use Rattle.cluster_state.specs.LifeCalls.{CommitStarts, CommitSteps, crash_event, crashed_plans, CrashesDirBy, ReopensNode};
    ghost use Rattle.cluster_recovery.specs.Crashes.{CrashTells};

    /// Starts a commit of the point that a node searches. A commit that was stopped there is made first. Busy comes exactly where the node
    /// runs and another line's commit is in flight there.
    pub fn commit_start(
        &mut self,
        alloc: Global,
        at: At,
        n: NodeNo,
    ) -> Result<Turn<CommitTask>, NoMemory>
        requires running { self.old.ended ≡ false }
        requires fresh { entries_of_line at (printed self.old.log) ≡ [] }
        requires node { IsNode self.old.nodes n.0 }
        ensures ok { IfOk result (CommitStarts at n self.old self.new) }
        ensures rest { OnOk result (KeepsButCommit n.0 self.old self.new) }
        ensures err { OnErr result (IsEnded self.old self.new) }

        // what the line is owed
        ensures does { OnOk result (Does (Commit n) at self.old self.new) }
        ensures replied { IfOk result (IsRepliedAtDone at self.new) }
        ensures begun { IfOk result (IsBegunAtWork at
            (λ task. Event.Committing n task.version) self.new) }
    {
        commit_start(&mut self.state, alloc, at, n)
    }

    /// Makes the next disk call of a commit: of one that was stopped at the node before, as long as there is one. Done says that the line has
    /// its reply: it was the last call, and the commit is acknowledged; or the disk failed, by a plan that the history shows; or the line is
    /// refused as lost, exactly where the node has crashed since its start.
    pub fn commit_step(
        &mut self,
        alloc: Global,
        at: At,
        task: &CommitTask,
    ) -> Result<Turn<()>, NoMemory>
        requires running { self.old.ended ≡ false }
        requires started { last_of_line at (printed self.old.log)
            ≡ Some (Event.Committing task.now.node task.now.version) }
        ensures ok { IfOk result (CommitSteps at task.now.node task.now.version self.old self.new) }
        ensures rest { OnOk result (KeepsButCommit task.now.node.0 self.old self.new) }
        ensures err { OnErr result (IsEnded self.old self.new) }

        // what the line is owed
        ensures does { OnOk result (Does (Commit task.now.node) at self.old self.new) }
        ensures replied { IfOk result (IsRepliedAtDone at self.new) }
    {
        self.state.book().is_legal();
        commit_step(&mut self.state, alloc, at, task.node, task.version)
    }

    /// Crashes a node, behind the faults that disks of other nodes met. The number picks what its disk keeps. Jobs at other nodes lack and
    /// have what they did: where the primary crashed they were stopped. No fault is planned for the node's disk then.
    pub fn crash(&mut self, alloc: Global, at: At, n: NodeNo, pick: u64) -> Result<(), NoMemory>
        requires running { self.old.ended ≡ false }
        requires fresh { entries_of_line at (printed self.old.log) ≡ [] }
        requires node { IsNode self.old.nodes n.0 }
        ensures ok { OnOk result (IsNow self.old self.new
            (shown at (crash_event n (printed self.old.log)) ∷ met_log at self.old self.new)) }
        ensures stays { OnOk result ((m : ℕ) → (n.0 == m) ≡ false
            → files_at m self.new ≡ files_at m self.old) }
        ensures plans { OnOk result (plans_at n.0 self.new
            ≡ crashed_plans (is_running n.0 (printed self.old.log)) (plans_at n.0 self.old)) }
        ensures dir { OnOk result (CrashesDirBy (is_running n.0 (printed self.old.log))
            D.cells D.names D.leaves n.0 pick self.old self.new) }
        ensures rest { OnOk result (CrashTells (is_running n.0 (printed self.old.log))
            (is_at (primary_of (printed self.old.log)) n.0) n.0 self.old self.new) }
        ensures err { OnErr result (IsEnded self.old self.new) }

        // what the line is owed
        ensures does { OnOk result (Does (Crash n pick) at self.old self.new) }
        ensures replied { OnOk result (IsReplied at self.new) }
    {
        crash(&mut self.state, alloc, at, n, pick)
    }

    /// Reopens a node that is down, as a replica: at its last commit, or at the one that was in flight when it crashed. Where its disk failed,
    /// by a plan that the history shows, the line is refused, and the node stays down.
    pub fn reopen(&mut self, alloc: Global, at: At, n: NodeNo) -> Result<(), NoMemory>
        requires running { self.old.ended ≡ false }
        requires fresh { entries_of_line at (printed self.old.log) ≡ [] }
        requires node { IsNode self.old.nodes n.0 }
        ensures ok { OnOk result (ReopensNode at n self.old self.new) }
        ensures rest { OnOk result (KeepsButNode n.0 self.old self.new) }
        ensures disks { OnOk result (TellsSameOfOthers plans_at n.0 self.old self.new) }
        ensures names { OnOk result (TellsSameOfOthers names_at n.0 self.old self.new) }
        ensures err { OnErr result (IsEnded self.old self.new) }

        // what the line is owed
        ensures does { OnOk result (Does (Reopen n) at self.old self.new) }
        ensures replied { OnOk result (IsReplied at self.new) }
    {
        reopen(&mut self.state, alloc, at, n)
    }
}

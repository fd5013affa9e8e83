//! At a cluster that may have a log: the calls of lines that merge and drain, and of the tasks of merges.

use crate::site::Site;
use cluster_state::{FileTask, Turn};
use copy_job::{JobFault, Part};
use disk_model::FaultDir;
use merge_tasks::{Sent, Task};
use nrt_base::{At, NoMemory};
use seg_merge::Merged;
use std::alloc::Global;

impl<D: FaultDir + Drop> Site<D> {
    ghost use Rattle.std.specs.Prelude.{◌≡◌, ◌≤◌, [], false, Some, IfOk, OnOk, OnErr};
    ghost use Rattle.copy_state.specs.Meta.{IsMetaOf};
    ghost use Rattle.history_rules.specs.Nodes.{IsNode};
    ghost use Rattle.history_rules.specs.Lines.{entries_of_line};
    ghost use Rattle.history_book.specs.Log.{printed};
    ghost use Rattle.script_serving.specs.declared.script.LineCommand.TheVariants.{Merge, Drain};
    ghost use Rattle.merge_tasks.specs.TaskLog.{carried_out};
    ghost use Rattle.history_book.specs.Told.{counted_for};
    ghost use Rattle.merge_tasks.specs.Board.{open_merge, is_unwritten};
    ghost use Rattle.cluster_state.specs.DueFaults.{ArrivesBy};
    ghost use Rattle.cluster_state.specs.Run.{IsEnded};
    ghost use Rattle.cluster_core.specs.Given.{KeepsBuilt, KeepsButSizes, KeepsButTasks, KeepsButCut, KeepsCopyTurn, KeepsButCopies, IsMergedOut, EndsBuild, TakesTask, MergeLine, PrecopyTurns, PartTurns, CutTurns, DrainTurns};
    ghost use Rattle.cluster_core.specs.Doing.{IsReplied, IsRepliedAtDone};
    ghost use Rattle.cluster_site.specs.Sites.{DoesAtSite, DoesTaskAtSite};

    /// Starts a merge. Its neighbours are chosen by their sizes; where none can be chosen, the line is refused.
    pub fn merge_start(&mut self, alloc: Global, at: At, factor: u32) -> Result<(), NoMemory>
        requires running { self.old.run.ended ≡ false }
        requires fresh { entries_of_line at (printed self.old.run.log) ≡ [] }
        requires factor { 2 ≤ factor }
        ensures ok { OnOk result (MergeLine at factor self.old.run self.new.run) }
        ensures rest { OnOk result (KeepsButSizes self.old.run self.new.run) }
        ensures err { OnErr result (IsEnded self.old.run self.new.run) }

        // what the line is owed
        ensures does { OnOk result (DoesAtSite (Merge factor) at self.old self.new) }
        ensures replied { OnOk result (IsReplied at self.new.run) }
    {
        self.cluster.merge_start(alloc, at, factor)
    }

    /// Takes the task that was posted first, for a drain line or for none. None comes exactly where none is posted.
    pub fn task_take(&mut self, by: Option<At>) -> Result<Option<Task>, NoMemory>
        requires running { self.old.run.ended ≡ false }
        ensures ok { IfOk result (TakesTask by self.old.run self.new.run) }
        ensures rest { OnOk result (KeepsButTasks self.old.run self.new.run) }
        ensures err { OnErr result (IsEnded self.old.run self.new.run) }

        // what its taker is owed
        ensures does { OnOk result (DoesTaskAtSite by self.old self.new) }
    {
        self.cluster.task_take(by)
    }

    /// Writes the merged segment of a task, and begins a copy of it to each replica that runs. Where the primary's disk fails, by a plan that
    /// the history shows, the merge is given up. Where the task has ended nothing changes.
    pub fn merge_ready(
        &mut self,
        alloc: Global,
        task: &Task,
        merged: Merged,
    ) -> Result<(), NoMemory>
        requires running { self.old.run.ended ≡ false }
        requires merged { IsMergedOut self.old.run.log task.now.seg merged }
        ensures ok { OnOk result (EndsBuild task.now.line task.now.seg task.now.by self.old.run self.new.run
            (is_unwritten (open_merge task.now.seg.0 self.old.run.rest.tasks.rows))) }
        ensures rest { OnOk result (KeepsBuilt task.now.seg self.old.run self.new.run) }
        ensures err { OnErr result (IsEnded self.old.run self.new.run) }

        // what its taker is owed
        ensures does { OnOk result (DoesTaskAtSite task.now.by self.old self.new) }
    {
        self.cluster.merge_ready(alloc, task, merged)
    }

    /// Hands out the next file of the copy of a task. Done says that the task has ended. Busy comes exactly where it has not, the copy
    /// misses a file, and the job of a point runs at its node, which goes before.
    pub fn precopy_next(
        &mut self,
        alloc: Global,
        task: &Task,
        copy: Sent,
    ) -> Result<Turn<FileTask>, NoMemory>
        requires running { self.old.run.ended ≡ false }
        requires node { IsNode self.old.run.nodes copy.node.0 }
        ensures ok { IfOk result (PrecopyTurns task.now.line task.now.seg task.now.by
            copy.node copy.job self.old.run self.new.run) }
        ensures rest { IfOk result (KeepsCopyTurn copy.node.0 copy.job self.old.run self.new.run) }
        ensures err { OnErr result (IsEnded self.old.run self.new.run) }

        // what its taker is owed
        ensures does { OnOk result (DoesTaskAtSite task.now.by self.old self.new) }
    {
        self.cluster.precopy_next(alloc, task, copy)
    }

    /// Puts what arrived of a file into the copy of a task. Done says that the task has ended, also where the link failed, the file was damaged or
    /// the disk of the node failed, by a plan that the history shows.
    pub fn precopy_arrived(
        &mut self,
        alloc: Global,
        task: &Task,
        copy: Sent,
        file: &FileTask,
        arrived: Result<Part, JobFault>,
    ) -> Result<Turn<()>, NoMemory>
        requires running { self.old.run.ended ≡ false }
        requires node { IsNode self.old.run.nodes copy.node.0 }
        requires out { carried_out file.now.name self.old.run.log ≡ Some file.now.source }
        requires meta { IsMetaOf file.now.source file.now.meta }
        requires arrives { ArrivesBy file.now arrived }
        ensures ok { IfOk result (PartTurns task.now.line task.now.seg task.now.by
            copy.node copy.job file.now.fate self.old.run self.new.run) }
        ensures rest { OnOk result (KeepsButCopies copy.node.0 copy.job self.old.run self.new.run) }
        ensures err { OnErr result (IsEnded self.old.run self.new.run) }

        // what its taker is owed
        ensures does { OnOk result (DoesTaskAtSite task.now.by self.old self.new) }
    {
        self.cluster
            .precopy_arrived(alloc, task, copy, file, arrived)
    }

    /// Cuts the merge of a task over, or gives it up where the primary's disk fails, by a plan that the history shows. Busy comes exactly where
    /// it is to be cut over and a publish is in flight; where the task has ended nothing changes.
    pub fn merge_cut(&mut self, alloc: Global, task: &Task) -> Result<Turn<()>, NoMemory>
        requires running { self.old.run.ended ≡ false }
        ensures ok { IfOk result (CutTurns task.now.line task.now.seg task.now.by
            self.old.run self.new.run) }
        ensures rest { OnOk result (KeepsButCut self.old.run self.new.run) }
        ensures err { OnErr result (IsEnded self.old.run self.new.run) }

        // what its taker is owed
        ensures does { OnOk result (DoesTaskAtSite task.now.by self.old self.new) }
    {
        self.cluster.merge_cut(alloc, task)
    }

    /// Ends a drain, which says how many tasks count for it. Busy comes exactly where that are fewer than these and a task is posted.
    pub fn drained(&mut self, at: At, most: u32) -> Result<Turn<()>, NoMemory>
        requires running { self.old.run.ended ≡ false }
        requires fresh { entries_of_line at (printed self.old.run.log) ≡ [] }
        requires few { counted_for at self.old.run.log ≤ most }
        ensures ok { IfOk result (DrainTurns at most self.old.run self.new.run) }
        ensures rest { OnOk result (KeepsButTasks self.old.run self.new.run) }
        ensures err { OnErr result (IsEnded self.old.run self.new.run) }

        // what the line is owed
        ensures does { OnOk result (DoesAtSite (Drain most) at self.old self.new) }
        ensures replied { IfOk result (IsRepliedAtDone at self.new.run) }
    {
        self.cluster.drained(at, most)
    }

    /// How many tasks count for a drain line.
    pub fn counted(&self, at: At) -> u32
        requires running { self.now.run.ended ≡ false }
        requires fresh { entries_of_line at (printed self.now.run.log) ≡ [] }
        ensures { result ≡ counted_for at self.now.run.log }
    {
        self.cluster.counted(at)
    }
}

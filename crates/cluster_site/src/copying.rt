//! At a cluster that may have a log: the calls of lines that copy and settle.

use crate::site::Site;
use cluster_state::{CopyTask, FileTask, SettleTask, Turn};
use copy_job::{JobFault, Part};
use disk_model::FaultDir;
use history_rules::Event;
use nrt_base::{At, LaneNo, NoMemory, NodeNo};
use std::alloc::Global;

impl<D: FaultDir + Drop> Site<D> {
    ghost use Rattle.std.specs.Prelude.{◌≡◌, [], false, Some, OnOk, OnErr, IfOk, ◌≢◌, ◌↔◌, None, IsTrue, IsSomeAnd};
    ghost use Rattle.copy_state.specs.Meta.{IsMetaOf};
    ghost use Rattle.history_rules.specs.declared.entry.Event.{Event};
    ghost use Rattle.history_rules.specs.Nodes.{IsNode};
    ghost use Rattle.history_rules.specs.Lines.{entries_of_line, start_entry};
    ghost use Rattle.history_tables.specs.declared.jobs.JobRow.{JobRow};
    ghost use Rattle.history_book.specs.Log.{Log, printed};
    ghost use Rattle.history_book.specs.Jobs.{job_of};
    ghost use Rattle.script_serving.specs.declared.script.LineCommand.{LineCommand};
    ghost use Rattle.script_serving.specs.declared.script.LineCommand.TheVariants.{Copy, Settle};
    ghost use Rattle.cluster_state.specs.Given.{SettleTask};
    ghost use Rattle.cluster_state.specs.Run.{KeepsRest, IsEnded};
    ghost use Rattle.cluster_state.specs.Keeping.{KeepsButFiles, KeepsButBegun};
    ghost use Rattle.cluster_state.specs.DueFaults.{MeetsFate, ArrivesBy};
    ghost use Rattle.cluster_state.specs.FilesOut.{file_out};
    ghost use Rattle.cluster_state.specs.Copies.{newest_of, IsCopying, JobRuns};
    ghost use Rattle.cluster_state.specs.Settles.{IsSettling};
    ghost use Rattle.cluster_state.specs.declared.turn.Turn.TheVariants.{Done};
    ghost use Rattle.cluster_core.specs.Doing.{IsRepliedAtDone, IsBegunAtWork};
    ghost use Rattle.cluster_site.specs.Sites.{DoesAtSite};
    ghost use Rattle.cluster_state.specs.CopyCalls.{CopiesFor, CopyStarts, CopyStartsWhen, stopped_log, StopsTurn, JobGoesOn, JobTakes, AreFrom, SettlesOn, SettleStarts, SettleGoesOn};
    ghost use Rattle.history_tables.specs.Begins.{open_line};

    /// Starts a copy of the newest point to a node. Busy comes exactly where the line is not refused and a job for the newest version
    /// runs at the node, which is behind that version. Where the disk of the source fails, by a plan that the history shows, the line is
    /// refused once it has started.
    pub fn copy_start(
        &mut self,
        alloc: Global,
        at: At,
        n: NodeNo,
    ) -> Result<Turn<CopyTask>, NoMemory>
        requires running { self.old.run.ended ≡ false }
        requires fresh { entries_of_line at (printed self.old.run.log) ≡ [] }
        requires node { IsNode self.old.run.nodes n.0 }
        ensures ok { IfOk result (CopyStarts at n self.old.run self.new.run) }
        ensures exact { IfOk result (CopyStartsWhen at n self.old.run.log) }
        ensures rest { IfOk result (KeepsButBegun self.old.run self.new.run) }
        ensures err { OnErr result (IsEnded self.old.run self.new.run) }

        // what the line is owed
        ensures does { OnOk result (DoesAtSite (Copy n) at self.old self.new) }
        ensures replied { IfOk result (IsRepliedAtDone at self.new.run) }
        ensures begun { IfOk result (IsBegunAtWork at
            (λ task. Event.Copying n (newest_of (printed self.old.run.log))) self.new.run) }
    {
        self.cluster.copy_start(alloc, at, n)
    }

    /// Hands out the next file of a job. Done says that the job has ended: no file was missing, and its node has switched; or the line
    /// was refused, also where a disk failed, by a plan that the history shows; or the line is a settle and the node has crashed.
    pub fn copy_next(
        &mut self,
        alloc: Global,
        at: At,
        task: &CopyTask,
    ) -> Result<Turn<FileTask>, NoMemory>
        requires running { self.old.run.ended ≡ false }
        requires copying { IsCopying at self.old.run.log task.now }

        // a job that runs, and one that was stopped
        ensures ok { IfOk result (λ turn. (row : JobRow) → JobRuns self.old.run.log row
            → row.job.at ≡ at → JobGoesOn row.job self.old.run self.new.run turn) }
        ensures stops { IfOk result (λ turn. (row : JobRow) (begun : Event) (log : Log)
            → job_of at.lane.0 self.old.run.log ≡ Some row
            → start_entry at (printed self.old.run.log) ≡ Some begun
            → stopped_log begun row self.old.run.log ≡ Some log
            → StopsTurn log self.old.run self.new.run turn) }
        ensures rest { OnOk result (KeepsButFiles task.now.node.0 self.old.run self.new.run) }
        ensures err { OnErr result (IsEnded self.old.run self.new.run) }

        // what the line is owed
        ensures does { (command : LineCommand) → CopiesFor command
            (start_entry at (printed self.old.run.log))
            → OnOk result (DoesAtSite command at self.old self.new) }

        // what a settle goes on with, while it has no reply
        ensures settling { (left : SettleTask)
            → IsSettling self.old.run.nodes (printed self.old.run.log) at left
            → AreFrom task.now.node left.left.items
            → OnOk result (SettlesOn at left self.new.run) }
    {
        self.cluster.asked_to_copy(at, task);
        self.cluster.copy_next(alloc, at, task)
    }

    /// Takes what arrived of a file that was handed out. Done says that the job has ended: the line was refused, also where the link failed, the
    /// file was damaged or a disk failed, by a plan that the history shows; or it is a settle and the node has crashed.
    pub fn copy_arrived(
        &mut self,
        alloc: Global,
        at: At,
        task: &CopyTask,
        file: &FileTask,
        arrived: Result<Part, JobFault>,
    ) -> Result<Turn<()>, NoMemory>
        requires running { self.old.run.ended ≡ false }
        requires copying { IsCopying at self.old.run.log task.now }
        requires out { file_out at task.now.node.0 task.now.job file.now.name self.old.run.log
            ≡ Some file.now.source }
        requires meta { IsMetaOf file.now.source file.now.meta }
        requires met { MeetsFate file.now.fate at task.now.node.0 (printed self.old.run.log) }
        requires arrives { ArrivesBy file.now arrived }

        // a job that runs, and one that was stopped
        ensures ok { IfOk result (λ turn. (row : JobRow) → JobRuns self.old.run.log row
            → row.job.at ≡ at → JobTakes row.job file.now self.old.run self.new.run turn) }
        ensures stops { IfOk result (λ turn. (row : JobRow) (begun : Event) (log : Log)
            → job_of at.lane.0 self.old.run.log ≡ Some row
            → start_entry at (printed self.old.run.log) ≡ Some begun
            → stopped_log begun row self.old.run.log ≡ Some log
            → StopsTurn log self.old.run self.new.run turn) }
        ensures rest { OnOk result (KeepsButFiles task.now.node.0 self.old.run self.new.run) }
        ensures err { OnErr result (IsEnded self.old.run self.new.run) }

        // what the line is owed
        ensures does { (command : LineCommand) → CopiesFor command
            (start_entry at (printed self.old.run.log))
            → OnOk result (DoesAtSite command at self.old self.new) }
    {
        self.cluster.asked_to_copy(at, task);
        self.cluster.copy_arrived(alloc, at, task, file, arrived)
    }

    /// Starts a settle.
    pub fn settle_start(&mut self, alloc: Global, at: At) -> Result<Turn<SettleTask>, NoMemory>
        requires running { self.old.run.ended ≡ false }
        requires fresh { entries_of_line at (printed self.old.run.log) ≡ [] }
        ensures ok { IfOk result (SettleStarts at self.old.run self.new.run) }
        ensures rest { OnOk result (KeepsRest self.old.run self.new.run) }
        ensures err { OnErr result (IsEnded self.old.run self.new.run) }

        // what the line is owed
        ensures does { OnOk result (DoesAtSite Settle at self.old self.new) }
        ensures replied { IfOk result (IsRepliedAtDone at self.new.run) }
        ensures begun { IfOk result (IsBegunAtWork at
            (λ task. Event.Settling (newest_of (printed self.old.run.log))) self.new.run) }
    {
        self.cluster.settle_start(alloc, at)
    }

    /// Begins the job of the next replica that a settle waits for. Where none is left the line has its reply, and where its source has
    /// crashed it is refused as lost. Busy comes exactly where the settle waits for a replica and a job for the newest version runs there.
    /// Where the disk of the source fails, by a plan that the history shows, the line is refused.
    pub fn settle_next(
        &mut self,
        alloc: Global,
        at: At,
        task: &mut SettleTask,
    ) -> Result<Turn<CopyTask>, NoMemory>
        requires running { self.old.run.ended ≡ false }
        requires settling { IsSettling self.old.run.nodes (printed self.old.run.log) at task.old }
        ensures ok { IfOk result (SettleGoesOn at self.old.run self.new.run task.new) }
        ensures version { task.new.version ≡ task.old.version }
        ensures rest { IfOk result (KeepsButBegun self.old.run self.new.run) }
        ensures err { OnErr result (IsEnded self.old.run self.new.run) }

        // what the line is owed
        ensures does { OnOk result (DoesAtSite Settle at self.old self.new) }
        ensures replied { IfOk result (IsRepliedAtDone at self.new.run) }
    {
        self.cluster.settle_next(alloc, at, task)
    }

    /// Whether the line has started and has no reply.
    pub fn is_open(&self, at: At) -> bool
        ensures { IsTrue result ↔ (open_line at (printed self.now.run.log) ≢ None) }
    {
        self.cluster.is_open(at)
    }

    /// Whether the last job that the lane began has no end.
    pub fn has_job(&self, lane: LaneNo) -> bool
        ensures { IsTrue result
            ↔ IsSomeAnd (job_of lane.0 self.now.run.log) (λ row. row.ended ≡ false) }
    {
        self.cluster.has_job(lane)
    }
}

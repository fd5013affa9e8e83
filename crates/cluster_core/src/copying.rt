//! The calls of lines that copy and settle.

use crate::cluster::Cluster;
use cluster_copies::{copy_arrived, copy_next, copy_start, settle_next, settle_start};
use cluster_state::{CopyTask, FileTask, SettleTask, Turn};
use copy_job::{JobFault, Part};
use disk_model::FaultDir;
use history_rules::Event;
use nrt_base::{At, NoMemory, NodeNo};
use std::alloc::Global;

impl<D: FaultDir + Drop> Cluster<D> {
    ghost use Rattle.std.specs.Prelude.{◌≡◌, ◌≢◌, [], false, true, ◌↔◌, None, Some, IsTrue, OnOk, OnErr, IfOk};
    ghost use Rattle.copy_state.specs.Meta.{IsMetaOf};
    ghost use Rattle.history_rules.specs.declared.entry.Event.{Event};
    ghost use Rattle.history_rules.specs.Nodes.{IsNode};
    ghost use Rattle.history_rules.specs.Lines.{entries_of_line, start_entry};
    ghost use Rattle.history_tables.specs.declared.jobs.JobRow.{JobRow};
    ghost use Rattle.history_tables.specs.Begins.{open_line};
    ghost use Rattle.history_book.specs.Log.{Log, printed};
    ghost use Rattle.history_book.specs.Jobs.{job_of};
    ghost use Rattle.script_serving.specs.declared.script.LineCommand.{LineCommand};
    ghost use Rattle.script_serving.specs.declared.script.LineCommand.TheVariants.{Copy, Settle};
    ghost use Rattle.cluster_state.specs.Given.{SettleTask};
    ghost use Rattle.cluster_state.specs.Run.{IsNow, KeepsRest, IsEnded};
    ghost use Rattle.cluster_state.specs.Keeping.{KeepsButFiles, KeepsButBegun};
    ghost use Rattle.cluster_state.specs.DueFaults.{MeetsFate, ArrivesBy};
    ghost use Rattle.cluster_state.specs.FilesOut.{file_out};
    ghost use Rattle.cluster_state.specs.Copies.{newest_of, IsCopying, JobRuns};
    ghost use Rattle.cluster_state.specs.Settles.{IsSettling};
    ghost use Rattle.cluster_state.specs.declared.turn.Turn.TheVariants.{Done};
    ghost use Rattle.cluster_core.specs.Doing.{Does, IsReplied, IsRepliedAtDone, IsBegunAtWork};
    ghost use Rattle.cluster_state.specs.CopyCalls.{CopiesFor, CopyStarts, CopyStartsWhen, stopped_log, StopsTurn, JobGoesOn, JobTakes, AreFrom, SettlesOn, SettleStarts, SettleGoesOn};

    /// Starts a copy of the newest point to a node. Busy comes exactly where the line is not refused and a job for the newest version
    /// runs at the node, which is behind that version. Where the disk of the source fails, by a plan that the history shows, the line is
    /// refused once it has started.
    pub fn copy_start(
        &mut self,
        alloc: Global,
        at: At,
        n: NodeNo,
    ) -> Result<Turn<CopyTask>, NoMemory>
        requires running { self.old.ended ≡ false }
        requires fresh { entries_of_line at (printed self.old.log) ≡ [] }
        requires node { IsNode self.old.nodes n.0 }
        ensures ok { IfOk result (CopyStarts at n self.old self.new) }
        ensures exact { IfOk result (CopyStartsWhen at n self.old.log) }
        ensures rest { IfOk result (KeepsButBegun self.old self.new) }
        ensures err { OnErr result (IsEnded self.old self.new) }

        // what the line is owed
        ensures does { OnOk result (Does (Copy n) at self.old self.new) }
        ensures replied { IfOk result (IsRepliedAtDone at self.new) }
        ensures begun { IfOk result (IsBegunAtWork at
            (λ task. Event.Copying n (newest_of (printed self.old.log))) self.new) }
    {
        copy_start(&mut self.state, alloc, at, n)
    }

    /// Hands out the next file of a job. Done says that the job has ended: no file was missing, and its node has switched; or the line
    /// was refused, also where a disk failed, by a plan that the history shows; or the line is a settle and the node has crashed.
    pub fn copy_next(
        &mut self,
        alloc: Global,
        at: At,
        task: &CopyTask,
    ) -> Result<Turn<FileTask>, NoMemory>
        requires running { self.old.ended ≡ false }
        requires copying { IsCopying at self.old.log task.now }

        // a job that runs, and one that was stopped
        ensures ok { IfOk result (λ turn. (row : JobRow) → JobRuns self.old.log row
            → row.job.at ≡ at → JobGoesOn row.job self.old self.new turn) }
        ensures stops { IfOk result (λ turn. (row : JobRow) (begun : Event) (log : Log)
            → job_of at.lane.0 self.old.log ≡ Some row
            → start_entry at (printed self.old.log) ≡ Some begun
            → stopped_log begun row self.old.log ≡ Some log
            → StopsTurn log self.old self.new turn) }
        ensures rest { OnOk result (KeepsButFiles task.now.node.0 self.old self.new) }
        ensures err { OnErr result (IsEnded self.old self.new) }

        // what the line is owed
        ensures does { (command : LineCommand) → CopiesFor command
            (start_entry at (printed self.old.log))
            → OnOk result (Does command at self.old self.new) }

        // what a settle goes on with, while it has no reply
        ensures settling { (left : SettleTask)
            → IsSettling self.old.nodes (printed self.old.log) at left
            → AreFrom task.now.node left.left.items
            → OnOk result (SettlesOn at left self.new) }
    {
        let Some(row) = self.state.book().job_of(at.lane) else {
            unreachable!()
        };
        self.state.book().is_legal();
        self.state.book().job_shows(row);
        copy_next(&mut self.state, alloc, row)
    }

    /// Takes what arrived of a file that was handed out. Done says that the job has ended: the line was refused, also where the link failed, the
    /// file was damaged or a disk failed, by a plan that the history shows; or it is a settle and the node has crashed.
    pub fn copy_arrived(
        &mut self,
        alloc: Global,
        at: At,
        task: &CopyTask,
        file: &FileTask,
        arrived: Result<Part, JobFault>,
    ) -> Result<Turn<()>, NoMemory>
        requires running { self.old.ended ≡ false }
        requires copying { IsCopying at self.old.log task.now }
        requires out { file_out at task.now.node.0 task.now.job file.now.name self.old.log
            ≡ Some file.now.source }
        requires meta { IsMetaOf file.now.source file.now.meta }
        requires met { MeetsFate file.now.fate at task.now.node.0 (printed self.old.log) }
        requires arrives { ArrivesBy file.now arrived }

        // a job that runs, and one that was stopped
        ensures ok { IfOk result (λ turn. (row : JobRow) → JobRuns self.old.log row
            → row.job.at ≡ at → JobTakes row.job file.now self.old self.new turn) }
        ensures stops { IfOk result (λ turn. (row : JobRow) (begun : Event) (log : Log)
            → job_of at.lane.0 self.old.log ≡ Some row
            → start_entry at (printed self.old.log) ≡ Some begun
            → stopped_log begun row self.old.log ≡ Some log
            → StopsTurn log self.old self.new turn) }
        ensures rest { OnOk result (KeepsButFiles task.now.node.0 self.old self.new) }
        ensures err { OnErr result (IsEnded self.old self.new) }

        // what the line is owed
        ensures does { (command : LineCommand) → CopiesFor command
            (start_entry at (printed self.old.log))
            → OnOk result (Does command at self.old self.new) }
    {
        let Some(row) = self.state.book().job_of(at.lane) else {
            unreachable!()
        };
        self.state.book().is_legal();
        copy_arrived(&mut self.state, alloc, row, file, arrived)
    }

    /// Starts a settle.
    pub fn settle_start(&mut self, alloc: Global, at: At) -> Result<Turn<SettleTask>, NoMemory>
        requires running { self.old.ended ≡ false }
        requires fresh { entries_of_line at (printed self.old.log) ≡ [] }
        ensures ok { IfOk result (SettleStarts at self.old self.new) }
        ensures rest { OnOk result (KeepsRest self.old self.new) }
        ensures err { OnErr result (IsEnded self.old self.new) }

        // what the line is owed
        ensures does { OnOk result (Does Settle at self.old self.new) }
        ensures replied { IfOk result (IsRepliedAtDone at self.new) }
        ensures begun { IfOk result (IsBegunAtWork at
            (λ task. Event.Settling (newest_of (printed self.old.log))) self.new) }
    {
        settle_start(&mut self.state, alloc, at)
    }

    /// Begins the job of the next replica that a settle waits for. Where none is left the line has its reply, and where its source has
    /// crashed it is refused as lost. Busy comes exactly where the settle waits for a replica and a job for the newest version runs there.
    /// Where the disk of the source fails, by a plan that the history shows, the line is refused.
    pub fn settle_next(
        &mut self,
        alloc: Global,
        at: At,
        task: &mut SettleTask,
    ) -> Result<Turn<CopyTask>, NoMemory>
        requires running { self.old.ended ≡ false }
        requires settling { IsSettling self.old.nodes (printed self.old.log) at task.old }
        ensures ok { IfOk result (SettleGoesOn at self.old self.new task.new) }
        ensures version { task.new.version ≡ task.old.version }
        ensures rest { IfOk result (KeepsButBegun self.old self.new) }
        ensures err { OnErr result (IsEnded self.old self.new) }

        // what the line is owed
        ensures does { OnOk result (Does Settle at self.old self.new) }
        ensures replied { IfOk result (IsRepliedAtDone at self.new) }
    {
        self.state.book().is_legal();
        settle_next(&mut self.state, alloc, at, task)
    }

    /// A line that copies by a job asked for a copy or for a settle. A law.
    pub fn asked_to_copy(&self, at: At, task: &CopyTask)
        requires copying { IsCopying at self.now.log task.now }
        ensures { (command : LineCommand) × CopiesFor command (start_entry at (printed self.now.log)) }
    {
        let Some(row) = self.state.book().job_of(at.lane) else {
            unreachable!()
        };
        self.state.book().job_shows(row);
    }

    /// Whether the line has started and has no reply.
    pub fn is_open(&self, at: At) -> bool
        ensures { IsTrue result ↔ (open_line at (printed self.now.log) ≢ None) }
    {
        self.state.book().line(at).is_some()
    }
}

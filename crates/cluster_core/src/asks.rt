//! The calls of lines that search, of those that open and close tickets, and of those that list files.

use crate::cluster::Cluster;
use cluster_documents::{
    answer_end, ask_start, documents_of, files, search_start, ticket_close, ticket_open,
};
use cluster_state::Turn;
use disk_model::FaultDir;
use documents::{Answer, Query};
use history_rules::Event;
use nrt_base::{At, Doc, NoMemory, NodeNo, TicketNo};
use searcher_switch::Lease;
use seg_reader::Segment;
use std::alloc::Global;

impl<D: FaultDir + Drop> Cluster<D> {
    ghost use Rattle.std.specs.Prelude.{◌≡◌, ◌≢◌, ◌∷◌, [], false, true, OnOk, OnErr, IfOk};
    ghost use Rattle.documents.specs.declared.query.Query.{Query};
    ghost use Rattle.history_rules.specs.Nodes.{IsNode, is_running, version_of};
    ghost use Rattle.history_rules.specs.Points.{documents_at};
    ghost use Rattle.history_rules.specs.Lines.{entries_of_line, last_of_line};
    ghost use Rattle.history_rules.specs.Tickets.{open_ticket};
    ghost use Rattle.history_book.specs.Log.{printed, shown};
    ghost use Rattle.script_serving.specs.declared.script.LineCommand.{LineCommand};
    ghost use Rattle.script_serving.specs.declared.script.LineCommand.TheVariants.{Open, Close, Search, Ask, Files};
    ghost use Rattle.cluster_state.specs.GivesUp.{met_log};
    ghost use Rattle.cluster_state.specs.Run.{IsNow, KeepsRest, IsEnded};
    ghost use Rattle.cluster_core.specs.Doing.{Does, IsReplied, IsRepliedAtDone, IsBegunAtWork, AsksFor};
    ghost use Rattle.cluster_state.specs.Calls.{open_event, ListsFiles, SearchStarts, AskStarts, asked_event, close_by, ScansAt, AnswerEnds};

    /// Opens a ticket of the lane.
    pub fn ticket_open(
        &mut self,
        alloc: Global,
        at: At,
        n: NodeNo,
        t: TicketNo,
    ) -> Result<(), NoMemory>
        requires running { self.old.ended ≡ false }
        requires fresh { entries_of_line at (printed self.old.log) ≡ [] }
        requires node { IsNode self.old.nodes n.0 }
        requires number { t.0 ≢ 0 }
        ensures ok { OnOk result (IsNow self.old self.new (shown at
            (open_event at.lane.0 n t (printed self.old.log)) ∷ self.old.log)) }
        ensures plans { OnOk result (self.new.rest.plans ≡ self.old.rest.plans) }
        ensures names { OnOk result (self.new.rest.names ≡ self.old.rest.names) }
        ensures rest { OnOk result (KeepsRest self.old self.new) }
        ensures err { OnErr result (IsEnded self.old self.new) }

        // what the line is owed
        ensures does { OnOk result (Does (Open n t) at self.old self.new) }
        ensures replied { OnOk result (IsReplied at self.new) }
    {
        ticket_open(&mut self.state, alloc, at, n, t)
    }

    /// Starts a search, and hands out the point that the node searches.
    pub fn search_start(
        &mut self,
        alloc: Global,
        at: At,
        n: NodeNo,
    ) -> Result<Turn<Lease<Segment>>, NoMemory>
        requires running { self.old.ended ≡ false }
        requires fresh { entries_of_line at (printed self.old.log) ≡ [] }
        requires node { IsNode self.old.nodes n.0 }
        ensures ok { IfOk result (SearchStarts at n self.old self.new) }
        ensures plans { OnOk result (self.new.rest.plans ≡ self.old.rest.plans) }
        ensures names { OnOk result (self.new.rest.names ≡ self.old.rest.names) }
        ensures rest { OnOk result (KeepsRest self.old self.new) }
        ensures err { OnErr result (IsEnded self.old self.new) }

        // what the line is owed, whatever it searches for
        ensures does { (query : Query) → OnOk result (Does (Search n query) at self.old self.new) }
        ensures replied { IfOk result (IsRepliedAtDone at self.new) }
        ensures begun { IfOk result (IsBegunAtWork at
            (λ lease. Event.Opened n (record { 0 = 0 }) lease.version) self.new) }
    {
        search_start(&mut self.state, alloc, at, n)
    }

    /// Starts a search at a ticket of the lane, and hands out the point on which it was opened.
    pub fn ask_start(
        &mut self,
        alloc: Global,
        at: At,
        t: TicketNo,
    ) -> Result<Turn<Lease<Segment>>, NoMemory>
        requires running { self.old.ended ≡ false }
        requires fresh { entries_of_line at (printed self.old.log) ≡ [] }
        ensures ok { IfOk result (AskStarts at t self.old self.new) }
        ensures plans { OnOk result (self.new.rest.plans ≡ self.old.rest.plans) }
        ensures names { OnOk result (self.new.rest.names ≡ self.old.rest.names) }
        ensures rest { OnOk result (KeepsRest self.old self.new) }
        ensures err { OnErr result (IsEnded self.old self.new) }

        // what the line is owed, whatever it searches for
        ensures does { (query : Query) → OnOk result (Does (Ask t query) at self.old self.new) }
        ensures replied { IfOk result (IsRepliedAtDone at self.new) }
        ensures begun { IfOk result (IsBegunAtWork at (λ lease.
            asked_event t (open_ticket at.lane.0 t.0 (printed self.old.log)) lease.version) self.new) }
    {
        ask_start(&mut self.state, alloc, at, t)
    }

    /// Ends a search with its answer, or refuses the line as lost exactly where its node has crashed since; behind the faults of disks that
    /// giving its files back met.
    pub fn answer_end(
        &mut self,
        alloc: Global,
        at: At,
        query: &Query,
        answer: Answer,
    ) -> Result<(), NoMemory>
        requires running { self.old.ended ≡ false }
        requires right { ScansAt (printed self.old.log)
            (last_of_line at (printed self.old.log)) query.now answer }
        ensures ok { OnOk result (AnswerEnds at (last_of_line at (printed self.old.log))
            query.now answer self.old self.new) }
        ensures rest { OnOk result (KeepsRest self.old self.new) }
        ensures err { OnErr result (IsEnded self.old self.new) }

        // what the line is owed
        ensures does { (command : LineCommand) → AsksFor command query.now
            (last_of_line at (printed self.old.log))
            → OnOk result (Does command at self.old self.new) }
        ensures replied { OnOk result (IsReplied at self.new) }
    {
        self.state.book().is_legal();
        answer_end(&mut self.state, alloc, at, query, answer)
    }

    /// Closes a ticket of the lane, behind the faults of disks that giving its files back met.
    pub fn ticket_close(&mut self, alloc: Global, at: At, t: TicketNo) -> Result<(), NoMemory>
        requires running { self.old.ended ≡ false }
        requires fresh { entries_of_line at (printed self.old.log) ≡ [] }
        ensures ok { OnOk result (IsNow self.old self.new (shown at
            (close_by t (open_ticket at.lane.0 t.0 (printed self.old.log)))
            ∷ met_log at self.old self.new)) }
        ensures rest { OnOk result (KeepsRest self.old self.new) }
        ensures err { OnErr result (IsEnded self.old self.new) }

        // what the line is owed
        ensures does { OnOk result (Does (Close t) at self.old self.new) }
        ensures replied { OnOk result (IsReplied at self.new) }
    {
        ticket_close(&mut self.state, alloc, at, t)
    }

    /// Lists the files of a node.
    pub fn files(&mut self, alloc: Global, at: At, n: NodeNo) -> Result<(), NoMemory>
        requires running { self.old.ended ≡ false }
        requires fresh { entries_of_line at (printed self.old.log) ≡ [] }
        requires node { IsNode self.old.nodes n.0 }
        ensures ok { OnOk result (ListsFiles at n self.old self.new) }
        ensures plans { OnOk result (self.new.rest.plans ≡ self.old.rest.plans) }
        ensures names { OnOk result (self.new.rest.names ≡ self.old.rest.names) }
        ensures rest { OnOk result (KeepsRest self.old self.new) }
        ensures err { OnErr result (IsEnded self.old self.new) }

        // what the line is owed
        ensures does { OnOk result (Does (Files n) at self.old self.new) }
        ensures replied { OnOk result (IsReplied at self.new) }
    {
        files(&mut self.state, alloc, at, n)
    }

    /// The documents that a running node shows to searches, in order of key: those of the version that the history shows of it. It changes
    /// nothing.
    pub fn documents_of(&self, alloc: Global, n: NodeNo) -> Result<Vec<Doc>, NoMemory>
        requires running { self.now.ended ≡ false }
        requires node { IsNode self.now.nodes n.0 }
        requires up { is_running n.0 (printed self.now.log) ≡ true }
        ensures { IfOk result (λ docs. docs.items ≡ documents_at (printed self.now.log)
            (version_of n.0 (printed self.now.log))) }
    {
        documents_of(&self.state, alloc, n)
    }
}

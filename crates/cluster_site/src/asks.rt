//! At a cluster that may have a log: the calls of lines that search, of those that open and close tickets, and of those that list files.

use crate::site::Site;
use cluster_state::Turn;
use disk_model::FaultDir;
use documents::{Answer, Query};
use history_rules::Event;
use nrt_base::{At, LaneNo, NoMemory, NodeNo, TicketNo};
use searcher_switch::Lease;
use seg_reader::Segment;
use std::alloc::Global;

impl<D: FaultDir + Drop> Site<D> {
    ghost use Rattle.std.specs.Prelude.{◌≡◌, ◌≢◌, ◌∷◌, [], false, OnOk, OnErr, IfOk};
    ghost use Rattle.documents.specs.declared.query.Query.{Query};
    ghost use Rattle.history_rules.specs.Nodes.{IsNode};
    ghost use Rattle.history_rules.specs.Lines.{entries_of_line, last_of_line};
    ghost use Rattle.history_rules.specs.Tickets.{open_ticket};
    ghost use Rattle.history_book.specs.Log.{printed, shown};
    ghost use Rattle.script_serving.specs.declared.script.LineCommand.{LineCommand};
    ghost use Rattle.script_serving.specs.declared.script.LineCommand.TheVariants.{Open, Close, Search, Ask, Files};
    ghost use Rattle.cluster_state.specs.GivesUp.{met_log};
    ghost use Rattle.cluster_state.specs.Run.{IsNow, KeepsRest, IsEnded};
    ghost use Rattle.cluster_core.specs.Doing.{IsReplied, IsRepliedAtDone, IsBegunAtWork, AsksFor};
    ghost use Rattle.cluster_site.specs.Sites.{DoesAtSite};
    ghost use Rattle.cluster_state.specs.Calls.{open_event, ListsFiles, SearchStarts, AskStarts, asked_event, close_by, ScansAt, AnswerEnds};
    ghost use Rattle.std.specs.Option.{option_map};

    /// Opens a ticket of the lane.
    pub fn ticket_open(
        &mut self,
        alloc: Global,
        at: At,
        n: NodeNo,
        t: TicketNo,
    ) -> Result<(), NoMemory>
        requires running { self.old.run.ended ≡ false }
        requires fresh { entries_of_line at (printed self.old.run.log) ≡ [] }
        requires node { IsNode self.old.run.nodes n.0 }
        requires number { t.0 ≢ 0 }
        ensures ok { OnOk result (IsNow self.old.run self.new.run (shown at
            (open_event at.lane.0 n t (printed self.old.run.log)) ∷ self.old.run.log)) }
        ensures plans { OnOk result (self.new.run.rest.plans ≡ self.old.run.rest.plans) }
        ensures names { OnOk result (self.new.run.rest.names ≡ self.old.run.rest.names) }
        ensures rest { OnOk result (KeepsRest self.old.run self.new.run) }
        ensures err { OnErr result (IsEnded self.old.run self.new.run) }

        // what the line is owed
        ensures does { OnOk result (DoesAtSite (Open n t) at self.old self.new) }
        ensures replied { OnOk result (IsReplied at self.new.run) }
    {
        self.cluster.ticket_open(alloc, at, n, t)
    }

    /// Starts a search, and hands out the point that the node searches.
    pub fn search_start(
        &mut self,
        alloc: Global,
        at: At,
        n: NodeNo,
    ) -> Result<Turn<Lease<Segment>>, NoMemory>
        requires running { self.old.run.ended ≡ false }
        requires fresh { entries_of_line at (printed self.old.run.log) ≡ [] }
        requires node { IsNode self.old.run.nodes n.0 }
        ensures ok { IfOk result (SearchStarts at n self.old.run self.new.run) }
        ensures plans { OnOk result (self.new.run.rest.plans ≡ self.old.run.rest.plans) }
        ensures names { OnOk result (self.new.run.rest.names ≡ self.old.run.rest.names) }
        ensures rest { OnOk result (KeepsRest self.old.run self.new.run) }
        ensures err { OnErr result (IsEnded self.old.run self.new.run) }

        // what the line is owed, whatever it searches for
        ensures does { (query : Query) → OnOk result (DoesAtSite (Search n query) at self.old self.new) }
        ensures replied { IfOk result (IsRepliedAtDone at self.new.run) }
        ensures begun { IfOk result (IsBegunAtWork at
            (λ lease. Event.Opened n (record { 0 = 0 }) lease.version) self.new.run) }
    {
        self.cluster.search_start(alloc, at, n)
    }

    /// Starts a search at a ticket of the lane, and hands out the point on which it was opened.
    pub fn ask_start(
        &mut self,
        alloc: Global,
        at: At,
        t: TicketNo,
    ) -> Result<Turn<Lease<Segment>>, NoMemory>
        requires running { self.old.run.ended ≡ false }
        requires fresh { entries_of_line at (printed self.old.run.log) ≡ [] }
        ensures ok { IfOk result (AskStarts at t self.old.run self.new.run) }
        ensures plans { OnOk result (self.new.run.rest.plans ≡ self.old.run.rest.plans) }
        ensures names { OnOk result (self.new.run.rest.names ≡ self.old.run.rest.names) }
        ensures rest { OnOk result (KeepsRest self.old.run self.new.run) }
        ensures err { OnErr result (IsEnded self.old.run self.new.run) }

        // what the line is owed, whatever it searches for
        ensures does { (query : Query) → OnOk result (DoesAtSite (Ask t query) at self.old self.new) }
        ensures replied { IfOk result (IsRepliedAtDone at self.new.run) }
        ensures begun { IfOk result (IsBegunAtWork at (λ lease.
            asked_event t (open_ticket at.lane.0 t.0 (printed self.old.run.log)) lease.version) self.new.run) }
    {
        self.cluster.ask_start(alloc, at, t)
    }

    /// Ends a search with its answer, or refuses the line as lost exactly where its node has crashed since; behind the faults of disks that
    /// giving its files back met.
    pub fn answer_end(
        &mut self,
        alloc: Global,
        at: At,
        query: &Query,
        answer: Answer,
    ) -> Result<(), NoMemory>
        requires running { self.old.run.ended ≡ false }
        requires right { ScansAt (printed self.old.run.log)
            (last_of_line at (printed self.old.run.log)) query.now answer }
        ensures ok { OnOk result (AnswerEnds at (last_of_line at (printed self.old.run.log))
            query.now answer self.old.run self.new.run) }
        ensures rest { OnOk result (KeepsRest self.old.run self.new.run) }
        ensures err { OnErr result (IsEnded self.old.run self.new.run) }

        // what the line is owed
        ensures does { (command : LineCommand) → AsksFor command query.now
            (last_of_line at (printed self.old.run.log))
            → OnOk result (DoesAtSite command at self.old self.new) }
        ensures replied { OnOk result (IsReplied at self.new.run) }
    {
        self.cluster.answer_end(alloc, at, query, answer)
    }

    /// Closes a ticket of the lane, behind the faults of disks that giving its files back met.
    pub fn ticket_close(&mut self, alloc: Global, at: At, t: TicketNo) -> Result<(), NoMemory>
        requires running { self.old.run.ended ≡ false }
        requires fresh { entries_of_line at (printed self.old.run.log) ≡ [] }
        ensures ok { OnOk result (IsNow self.old.run self.new.run (shown at
            (close_by t (open_ticket at.lane.0 t.0 (printed self.old.run.log)))
            ∷ met_log at self.old.run self.new.run)) }
        ensures rest { OnOk result (KeepsRest self.old.run self.new.run) }
        ensures err { OnErr result (IsEnded self.old.run self.new.run) }

        // what the line is owed
        ensures does { OnOk result (DoesAtSite (Close t) at self.old self.new) }
        ensures replied { OnOk result (IsReplied at self.new.run) }
    {
        self.cluster.ticket_close(alloc, at, t)
    }

    /// Lists the files of a node.
    pub fn files(&mut self, alloc: Global, at: At, n: NodeNo) -> Result<(), NoMemory>
        requires running { self.old.run.ended ≡ false }
        requires fresh { entries_of_line at (printed self.old.run.log) ≡ [] }
        requires node { IsNode self.old.run.nodes n.0 }
        ensures ok { OnOk result (ListsFiles at n self.old.run self.new.run) }
        ensures plans { OnOk result (self.new.run.rest.plans ≡ self.old.run.rest.plans) }
        ensures names { OnOk result (self.new.run.rest.names ≡ self.old.run.rest.names) }
        ensures rest { OnOk result (KeepsRest self.old.run self.new.run) }
        ensures err { OnErr result (IsEnded self.old.run self.new.run) }

        // what the line is owed
        ensures does { OnOk result (DoesAtSite (Files n) at self.old self.new) }
        ensures replied { OnOk result (IsReplied at self.new.run) }
    {
        self.cluster.files(alloc, at, n)
    }

    /// The node of a ticket of the lane.
    pub fn ticket_node(&self, lane: LaneNo, t: TicketNo) -> Option<NodeNo>
        ensures { result ≡ option_map (λ ticket. record { 0 = ticket.node })
            (open_ticket lane.0 t.0 (printed self.now.run.log)) }
    {
        self.cluster.ticket_node(lane, t)
    }
}

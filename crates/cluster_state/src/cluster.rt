//! The cluster.

use cluster_nodes::NodePlace;
use disk_model::FaultDir;
use history_book::Book;
use history_rules::Event;
use merge_tasks::{Ledger, Tasks};
use nrt_base::{At, NoMemory, NodeNo};
use std::marker::Model;

/// All nodes of a cluster and what happened in it. A call that finds no memory ends it: no other has a condition to rest on.
#[derive(Drop)]
pub struct ClusterState<D: FaultDir> {
    pub ledger: Ledger,
    pub tasks: Tasks,
    pub places: Vec<Option<NodePlace<D>>>,
    /// Whether the line whose commit is in flight at a node, from node 1 on, carries an older one to its end, and has its own still to begin.
    pub carries: [bool; 255],
    pub ended: bool,
}

impl<D: FaultDir> Model for ClusterState<D> {
    ghost use Rattle.std.specs.Prelude.{◌≡◌, false};
    ghost use Rattle.cluster_state.specs.Run.{Run};
    ghost use Rattle.documents.specs.contracts.query.Query as query;
    ghost use Rattle.std.specs.Coded.{codes};

    ghost Value = { Run };

    ghost coded = { Prim.hlevel (codes, query.the_row.coded) };

    ghost use Rattle.cluster_state.specs.State.{Shows};
    ghost use Rattle.cluster_state.specs.Files.{FilesShow};
    ghost use Rattle.cluster_state.specs.Merging.{MergesStand};
    ghost use Rattle.cluster_state.specs.CallsLeft.{calls_in};
    ghost use Rattle.cluster_state.specs.Sizes.{sizes_in};
    ghost use Rattle.cluster_state.specs.JobsIn.{jobs_in};
    ghost use Rattle.cluster_state.specs.MergedCopies.{copies_in};
    ghost use Rattle.cluster_state.specs.PlansIn.{plans_in};
    ghost use Rattle.cluster_state.specs.NamesIn.{names_in};

    ghost view = { λ c. record {
      ended = c.ended;
      nodes = c.ledger.nodes;
      log = c.ledger.log;
      rest = record {
        calls_left = calls_in c.carries c.places.items;
        cut = c.ledger.cut;
        sizes = sizes_in c.places.items;
        jobs = jobs_in c.places.items;
        copies = copies_in c.places.items;
        tasks = c.tasks;
        plans = plans_in D.planned c.places.items;
        names = names_in D.names c.places.items;
      };
    } };

    ghost invariant = { λ c. c.ended ≡ false → Shows D.cells c.ledger.log c.ledger.nodes c.places.items
        × FilesShow D.cells c.ledger.log c.ledger.nodes c.places.items
        × MergesStand c.ledger.log c.ledger.cut c.ledger.nodes c.tasks c.places.items };
}

impl<D: FaultDir + Drop> ClusterState<D> {
    ghost use Rattle.std.specs.Prelude.{ℕ, ◌≡◌, ◌≢◌, ◌∷◌, false, true, Some, Option, OnOk, OnErr, IfSome};
    ghost use Rattle.nrt_base.specs.declared.numbers.NodeNo.{NodeNo};
    ghost use Rattle.history_rules.specs.Nodes.{IsNode, primary_of};
    ghost use Rattle.history_rules.specs.Lines.{start_entry, publish_in_flight, commit_in_flight};
    ghost use Rattle.history_rules.specs.Legal.{KeepsRule};
    ghost use Rattle.history_tables.specs.Openings.{opens_ticket};
    ghost use Rattle.history_book.specs.Log.{printed, shown};
    ghost use Rattle.history_book.specs.Turns.{InTurn};
    ghost use Rattle.history_book.specs.Told.{IsSo, cut_since};
    ghost use Rattle.cluster_state.specs.Run.{IsNow, KeepsRest, IsEnded};
    ghost use Rattle.cluster_state.specs.Moves.{moves, moves_tickets};
    ghost use Rattle.cluster_state.specs.FileChanges.{keeps_jobs, is_commit_line, keeps_commits};
    ghost use Rattle.merge_tasks.specs.TaskLog.{is_drained};

    /// What happened, for readers.
    pub fn book(&self) -> &Book
        ensures log { result.now.log ≡ self.now.log }
        ensures nodes { result.now.nodes ≡ self.now.nodes }
    {
        self.ledger.book()
    }

    /// Whether it has ended: a call found no memory, and no other may be made.
    pub fn has_ended(&self) -> bool
        ensures { result ≡ self.now.ended }
    {
        self.ended
    }

    /// Whether a merge was cut over since the last point, as the history shows.
    pub fn has_cut_over(&self) -> bool
        ensures is { result ≡ self.now.rest.cut }
        ensures since { result ≡ cut_since self.now.log }
    {
        self.ledger.has_cut()
    }

    /// The running primary, which is a node.
    pub fn primary(&self) -> Option<NodeNo>
        requires running { self.now.ended ≡ false }
        ensures is { result ≡ primary_of (printed self.now.log) }
        ensures node { IfSome result (λ p. IsNode self.now.nodes p.0) }
    {
        let book = self.ledger.book();
        book.is_legal();
        book.primary()
    }

    /// Ends it, for a caller that found no memory.
    pub fn end(&mut self)
        ensures { IsEnded self.old self.new }
    {
        self.ended = true;
    }

    /// What happened, once no other call is to be made.
    pub fn into_book(self) -> Book
        ensures log { result.log ≡ self.log }
        ensures nodes { result.nodes ≡ self.nodes }
    {
        let ClusterState { ledger, .. } = self;
        ledger.into_book()
    }

    /// The publish in flight is not that of a line which did not start as one. A law.
    pub fn is_apart(&self, at: At)
        requires running { self.now.ended ≡ false }
        requires line { start_entry at (printed self.now.log) ≢ Some Event.Publishing }
        ensures { publish_in_flight (printed self.now.log) ≢ Some at }
    {
        let book = self.ledger.book();
        book.is_legal();
    }

    /// A line that did not start as a commit has none in flight. A law.
    pub fn has_no_commit(&self, at: At)
        requires line { is_commit_line (start_entry at (printed self.now.log)) ≡ false }
        ensures { (m : ℕ) → commit_in_flight m (printed self.now.log) ≢ Some at }
    {
        let book = self.ledger.book();
        book.is_legal();
    }

    /// Appends an entry that moves no node, starts no copy and no commit, opens no ticket and is no drain's reply, of a line whose publish
    /// or commit is not in flight. It fails when out of memory: the cluster has ended, and the history is as before.
    pub fn note(&mut self, at: At, event: Event) -> Result<(), NoMemory>
        requires running { self.old.ended ≡ false }
        requires rule { KeepsRule self.old.nodes (printed self.old.log) at event }
        requires turn { InTurn (printed self.old.log) at event }
        requires told { IsSo self.old.log at event }
        requires line { publish_in_flight (printed self.old.log) ≢ Some at }
        requires still { (p : Option NodeNo) (m : ℕ) → moves event p m ≡ false }
        requires apart { (m : ℕ) → moves_tickets event m ≡ false }
        requires jobs { (m : ℕ) → keeps_jobs event m ≡ true }
        requires commits { (m : ℕ) → keeps_commits event m ≡ true }
        requires flights { (m : ℕ) → commit_in_flight m (printed self.old.log) ≢ Some at }
        requires tickets { opens_ticket event ≡ false }
        requires drains { is_drained event ≡ false }
        ensures ok { OnOk result (IsNow self.old self.new (shown at event ∷ self.old.log)) }
        ensures tasks { OnOk result (self.new.rest.tasks ≡ self.old.rest.tasks) }
        ensures jobs { OnOk result (self.new.rest.jobs ≡ self.old.rest.jobs) }
        ensures plans { OnOk result (self.new.rest.plans ≡ self.old.rest.plans) }
        ensures names { OnOk result (self.new.rest.names ≡ self.old.rest.names) }
        ensures rest { OnOk result (KeepsRest self.old self.new) }
        ensures err { OnErr result (IsEnded self.old self.new) }
    {
        self.ended = true;
        self.ledger.reserve(1)?;
        self.ledger.show(at, event);
        self.ended = false;
        Ok(())
    }
}

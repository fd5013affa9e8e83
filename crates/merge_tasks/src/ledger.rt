//! A book with its merges and the faults planned for files, which stands in the place of the book for what is above.

use crate::fates::{FilePlans, first_plans, plans_of, step_inside, step_plans};
use crate::merges::Merges;
use history_book::{Book, Inner};
use history_rules::{Event, FaultKind, History};
use nrt_base::{At, Gen, NodeNo, SegNo, Version};
use std::alloc::{AllocError, Global};
use std::marker::Model;

/// A book, the merges in flight, and the faults that are planned for the files of each node.
#[derive(Debug, Drop)]
pub struct Ledger {
    book: Book,
    merges: Merges,
    plans: Vec<FilePlans>,
}

impl Model for Ledger {
    ghost use Rattle.merge_tasks.specs.Fates.{PlansShow};
    ghost use Rattle.merge_tasks.specs.Merging.{MergesShow, Sheet};
    ghost use Rattle.documents.specs.contracts.query.Query as query;
    ghost use Rattle.std.specs.Coded.{codes};

    ghost Value = { Sheet };

    ghost coded = { Prim.hlevel (codes, query.the_row.coded) };

    ghost view = { λ c. record {
      nodes = c.book.nodes;
      log = c.book.log;
      room = c.book.room;
      places = c.book.places;
      jobs = c.book.jobs;
      merges = c.merges.room;
      cut = c.merges.cut;
    } };

    ghost invariant = { λ c. MergesShow c.book.log c.merges
        × PlansShow c.book.nodes c.book.log c.plans.items };
}

impl Ledger {
    ghost use Rattle.std.specs.Prelude.{◌≡◌, ◌≢◌, ◌≤◌, ◌<◌, ◌+◌, ◌∷◌, ◌⊎◌, [], false, true, None, Some, IfOk, OnOk, length, reverse, if◌then◌else◌};
    ghost use Rattle.nrt_base.specs.declared.numbers.NodeNo.{NodeNo};
    ghost use Rattle.history_rules.specs.declared.cause.FaultKind.{FaultKind};
    ghost use Rattle.history_rules.specs.Nodes.{IsNode, is_at, is_running, primary_of, generation_of, newest_version};
    ghost use Rattle.history_rules.specs.Lines.{is_start, is_free_for, publish_in_flight};
    ghost use Rattle.history_rules.specs.Points.{cut_of, merges_started, idle_publishes};
    ghost use Rattle.history_rules.specs.Faults.{has_met_fault, is_planned};
    ghost use Rattle.history_rules.specs.Rules.{MayStartMerge, MayPromote};
    ghost use Rattle.history_rules.specs.Legal.{KeepsRule, IsLegalPast};
    ghost use Rattle.history_tables.specs.Openings.{opens_ticket};
    ghost use Rattle.history_tables.specs.JobRows.{is_begin};
    ghost use Rattle.history_book.specs.Turns.{IsUnbegun, InTurn, AreInTurn};
    ghost use Rattle.history_book.specs.Jobs.{job_step, IsInside};
    ghost use Rattle.history_book.specs.Log.{printed, shown, kept, mark_for, FollowsMerging};
    ghost use Rattle.history_book.specs.Told.{IsSo, cut_since};
    ghost use Rattle.merge_tasks.specs.Fates.{file_plans};
    ghost use Rattle.merge_tasks.specs.Merging.{merge_on, cut_after, is_apart, ends_reign, ends_no_merge};

    /// A ledger of so many nodes.
    pub fn new(alloc: Global, nodes: u8) -> Result<Self, AllocError>
        ensures log { IfOk result (λ l. l.log ≡ []) }
        ensures nodes { IfOk result (λ l. l.nodes ≡ nodes) }
        ensures cut { IfOk result (λ l. l.cut ≡ false) }
    {
        let book = Book::new(alloc, nodes)?;
        let plans = first_plans(alloc, nodes)?;
        Ok(Ledger {
            book,
            merges: Merges::new(alloc),
            plans,
        })
    }

    /// The book, for its readers and laws.
    pub fn book(&self) -> &Book
        ensures nodes { result.now.nodes ≡ self.now.nodes }
        ensures log { result.now.log ≡ self.now.log }
    {
        &self.book
    }

    /// Makes room for this many entries, and for one line, one ticket, one job and one merge more.
    pub fn reserve(&mut self, count: usize) -> Result<(), AllocError>
        ensures log { self.new.log ≡ self.old.log }
        ensures nodes { self.new.nodes ≡ self.old.nodes }
        ensures cut { self.new.cut ≡ self.old.cut }
        ensures room { OnOk result (count ≤ self.new.room) }
        ensures places { OnOk result (1 ≤ self.new.places) }
        ensures jobs { OnOk result (1 ≤ self.new.jobs) }
        ensures merges { OnOk result (1 ≤ self.new.merges) }
    {
        self.book.reserve(count)?;
        self.merges.reserve()
    }

    /// Appends an entry that neither starts nor ends a publish, starts no merge, begins no
    /// generation and ends no reign.
    pub fn show(&mut self, at: At, event: Event)
        requires room { 1 ≤ self.old.room }
        requires line { is_start event ≡ true → 1 ≤ self.old.places }
        requires ticket { opens_ticket event ≡ true → 1 ≤ self.old.places }
        requires rule { KeepsRule self.old.nodes (printed self.old.log) at event }
        requires turn { InTurn (printed self.old.log) at event }
        requires told { IsSo self.old.log at event }
        requires apart { is_apart event ≡ true }
        requires reigns { ends_reign event (primary_of (printed self.old.log)) ≡ false }
        ensures log { self.new.log ≡ shown at event ∷ self.old.log }
        ensures nodes { self.new.nodes ≡ self.old.nodes }
        ensures room { self.new.room + 1 ≡ self.old.room }
        ensures jobs { self.new.jobs ≡ self.old.jobs }
        ensures places { (n : NodeNo) (kind : FaultKind)
            → event ≡ Event.Fault n kind → self.new.places ≡ self.old.places }
        ensures cut { self.new.cut ≡ self.old.cut }
        // what stood there before
        ensures legal { IsLegalPast self.old.nodes (printed self.old.log) }
        ensures turns { AreInTurn (printed self.old.log) }
    {
        step_plans(&mut self.plans, &event);
        self.book.show(at, event);
    }

    /// Appends a printed fault, which a task of a merge of that line met.
    pub fn show_task_fault(&mut self, at: At, n: NodeNo, kind: FaultKind)
        requires room { 1 ≤ self.old.room }
        requires rule { KeepsRule self.old.nodes (printed self.old.log) at (Event.Fault n kind) }
        requires merge { FollowsMerging at (Event.Fault n kind) (printed self.old.log) }
        ensures log { self.new.log ≡ mark_for true (record { at = at; event = Event.Fault n kind })
            ∷ self.old.log }
        ensures nodes { self.new.nodes ≡ self.old.nodes }
        ensures room { self.new.room + 1 ≡ self.old.room }
        ensures cut { self.new.cut ≡ self.old.cut }
        ensures jobs { self.new.jobs ≡ self.old.jobs }
        ensures places { self.new.places ≡ self.old.places }
    {
        step_plans(&mut self.plans, &Event::Fault { n, kind });
        self.book.show_task_fault(at, n, kind);
    }

    /// Appends an entry of inner work that ends no merge.
    pub fn keep(&mut self, inner: Inner)
        requires room { 1 ≤ self.old.room }
        requires job { is_begin (job_step inner) ≡ true → 1 ≤ self.old.jobs }
        requires turn { IsInside self.old.nodes self.old.log inner }
        requires apart { ends_no_merge inner ≡ true }
        ensures log { self.new.log ≡ kept inner ∷ self.old.log }
        ensures nodes { self.new.nodes ≡ self.old.nodes }
        ensures room { self.old.room ≤ self.new.room + 1 }
        ensures cut { self.new.cut ≡ self.old.cut }
    {
        step_inside(&mut self.plans, &inner);
        self.book.keep(inner);
    }

    /// Appends the start of a merge into the next segment.
    pub fn show_merging(&mut self, at: At, seg: SegNo)
        requires room { 1 ≤ self.old.room }
        requires merge { 1 ≤ self.old.merges }
        requires rule { MayStartMerge (printed self.old.log) at seg }
        ensures log { self.new.log ≡ shown at (Event.Merging seg) ∷ self.old.log }
        ensures nodes { self.new.nodes ≡ self.old.nodes }
        ensures room { self.new.room + 1 ≡ self.old.room }
        ensures cut { self.new.cut ≡ self.old.cut }
    {
        self.merges.begin(seg, at);
        self.book.show(at, Event::Merging { seg });
    }

    /// Appends the end of a merge in flight, cut over or not.
    pub fn end_merge(&mut self, seg: SegNo, cut: bool)
        requires room { 1 ≤ self.old.room }
        requires on { merge_on seg.0 self.old.log ≢ None }
        requires calm { cut ≡ true → publish_in_flight (printed self.old.log) ≡ None }
        ensures log { self.new.log ≡ kept (Inner.MergeEnd seg cut) ∷ self.old.log }
        ensures nodes { self.new.nodes ≡ self.old.nodes }
        ensures room { self.old.room ≤ self.new.room + 1 }
        ensures cut { self.new.cut ≡ cut_after cut self.old.cut }
    {
        self.merges.end(seg, cut);
        self.book.keep(Inner::MergeEnd { seg, cut });
    }

    /// Appends the start of a publish, which has an operation to publish or a cut-over.
    pub fn show_publishing(&mut self, at: At)
        requires room { 1 ≤ self.old.room }
        requires line { 1 ≤ self.old.places }
        requires fresh { IsUnbegun at (printed self.old.log) }
        requires primary { primary_of (printed self.old.log) ≢ None }
        requires alone { is_free_for at (publish_in_flight (printed self.old.log)) ≡ true }
        requires spared { has_met_fault at (printed self.old.log) ≡ false }
        requires some { (0 < length (cut_of (printed self.old.log))) ⊎ (self.old.cut ≡ true) }
        ensures log { self.new.log ≡ shown at Event.Publishing ∷ self.old.log }
        ensures nodes { self.new.nodes ≡ self.old.nodes }
        ensures room { self.new.room + 1 ≡ self.old.room }
        ensures cut { self.new.cut ≡ self.old.cut }
        // what stood there before
        ensures legal { IsLegalPast self.old.nodes (printed self.old.log) }
        ensures turns { AreInTurn (printed self.old.log) }
    {
        self.book.show(at, Event::Publishing);
    }

    /// Appends the end of the publish in flight, which takes the cut-overs.
    pub fn show_published(&mut self, at: At, generation: Gen, v: Version)
        requires room { 1 ≤ self.old.room }
        requires flight { publish_in_flight (printed self.old.log) ≡ Some at }
        requires present { generation.0 ≡ generation_of (printed self.old.log) }
        requires next { v.0 ≡ newest_version (printed self.old.log) + 1 }
        ensures log { self.new.log ≡ shown at (Event.Published generation v) ∷ self.old.log }
        ensures nodes { self.new.nodes ≡ self.old.nodes }
        ensures room { self.new.room + 1 ≡ self.old.room }
        ensures cut { self.new.cut ≡ false }
        // what stood there before
        ensures legal { IsLegalPast self.old.nodes (printed self.old.log) }
        ensures turns { AreInTurn (printed self.old.log) }
        ensures rule { KeepsRule self.old.nodes (printed self.old.log) at (Event.Published generation v) }
    {
        self.book.flies(at);
        self.merges.publish();
        self.book.show(at, Event::Published { generation, v });
    }

    /// Appends the crash of the primary, which ends its merges.
    pub fn show_fall(&mut self, at: At, n: NodeNo)
        requires room { 1 ≤ self.old.room }
        requires node { IsNode self.old.nodes n.0 }
        requires primary { primary_of (printed self.old.log) ≡ Some n }
        requires runs { is_running n.0 (printed self.old.log) ≡ true }
        ensures log { self.new.log ≡ shown at (Event.Crashed n) ∷ self.old.log }
        ensures nodes { self.new.nodes ≡ self.old.nodes }
        ensures room { self.new.room + 1 ≡ self.old.room }
        ensures cut { self.new.cut ≡ false }
        // what stood there before
        ensures legal { IsLegalPast self.old.nodes (printed self.old.log) }
        ensures turns { AreInTurn (printed self.old.log) }
    {
        self.merges.clear();
        step_plans(&mut self.plans, &Event::Crashed { n });
        self.book.show(at, Event::Crashed { n });
    }

    /// Appends the crash of a node. That of the primary ends its merges.
    pub fn show_crashed(&mut self, at: At, n: NodeNo)
        requires room { 1 ≤ self.old.room }
        requires node { IsNode self.old.nodes n.0 }
        requires runs { is_running n.0 (printed self.old.log) ≡ true }
        ensures log { self.new.log ≡ shown at (Event.Crashed n) ∷ self.old.log }
        ensures nodes { self.new.nodes ≡ self.old.nodes }
        ensures cut { self.new.cut ≡ (if is_at (primary_of (printed self.old.log)) n.0 then false
            else self.old.cut) }
        // what stood there before
        ensures legal { IsLegalPast self.old.nodes (printed self.old.log) }
        ensures turns { AreInTurn (printed self.old.log) }
    {
        match self.book.primary() {
            Some(p) if p.0 == n.0 => self.show_fall(at, n),
            _ => self.show(at, Event::Crashed { n }),
        }
    }

    /// Appends a promotion.
    pub fn show_promoted(&mut self, at: At, n: NodeNo, generation: Gen, forced: Version, v: Version)
        requires room { 1 ≤ self.old.room }
        requires rule { MayPromote self.old.nodes (printed self.old.log) n generation forced v }
        ensures log { self.new.log
            ≡ shown at (Event.Promoted n generation forced v) ∷ self.old.log }
        ensures nodes { self.new.nodes ≡ self.old.nodes }
        ensures room { self.new.room + 1 ≡ self.old.room }
        ensures cut { self.new.cut ≡ self.old.cut }
        // what stood there before
        ensures legal { IsLegalPast self.old.nodes (printed self.old.log) }
        ensures turns { AreInTurn (printed self.old.log) }
    {
        self.book.show(
            at,
            Event::Promoted {
                n,
                generation,
                forced,
                v,
            },
        );
    }

    /// The line of the merge in flight into a segment.
    pub fn merge_on(&self, seg: SegNo) -> Option<At>
        ensures { result ≡ merge_on seg.0 self.now.log }
    {
        self.merges.get(seg)
    }

    /// Whether a merge was cut over since the last point: then fewer publishes than merges added nothing.
    pub fn has_cut(&self) -> bool
        ensures is { result ≡ self.now.cut }
        ensures since { result ≡ cut_since self.now.log }
        ensures owed { result ≡ true
            → idle_publishes (printed self.now.log) < merges_started (printed self.now.log) }
    {
        self.merges.has_cut()
    }

    /// The faults that are planned for the files of a node, each of which the history shows.
    pub fn file_plans(&self, n: NodeNo) -> FilePlans
        requires { IsNode self.now.nodes n.0 }
        ensures plans { result ≡ file_plans n.0 self.now.log }
        ensures link { result.link ≢ 0
            → is_planned n.0 FaultKind.Link (printed self.now.log) ≡ true }
        ensures damage { result.damage ≢ 0
            → is_planned n.0 FaultKind.Damage (printed self.now.log) ≡ true }
    {
        plans_of(&self.plans, n)
    }

    /// The book, once no other entry is to come.
    pub fn into_book(self) -> Book
        ensures log { result.log ≡ self.log }
        ensures nodes { result.nodes ≡ self.nodes }
    {
        let Ledger { book, .. } = self;
        book
    }

    /// The printed entries alone.
    pub fn into_history(self) -> History
        ensures entries { reverse result.entries ≡ printed self.log }
        ensures nodes { result.nodes ≡ self.nodes }
    {
        self.book.into_history()
    }
}

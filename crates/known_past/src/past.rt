//! What is known of the entries before a place, in tables that one more entry steps.

ghost use Rattle.std.specs.Prelude.{ℕ, ◌≡◌, ◌==◌, ◌≤◌, ◌<◌, ◌^◌, ◌+◌, ◌*◌, ◌∷◌, [], ◌↔◌, reverse, length, OnOk, IfOk, IsTrue, IsSomeAnd, MatchOption, None, Some};
ghost use Rattle.std.specs.List.{slice_get, list_any};
ghost use Rattle.std.specs.Option.{option_copied};
ghost use Rattle.history_rules.specs.declared.entry.Entry.{Entry};
ghost use Rattle.history_rules.specs.Nodes.{Past, IsReplica, is_at, primary_of, newest_version, is_running, version_of, is_made_in_generation, is_point, accepted_count};
ghost use Rattle.history_rules.specs.Lines.{is_answered, start_entry, before_start, last_of_line, publish_in_flight, commit_in_flight, copy_in_flight, highest_switched, NodeSurvives, SourceSurvives};
ghost use Rattle.history_rules.specs.Commits.{starts_commit, has_committed, is_stuck, reopenable_versions, is_passed};
ghost use Rattle.history_rules.specs.Points.{accepted_at_start};
ghost use Rattle.history_rules.specs.Faults.{has_met_fault, has_file_fault, is_planned};
ghost use Rattle.history_rules.specs.Tasks.{merge_count, drained_count};
ghost use Rattle.history_rules.specs.Tickets.{last_opened, open_ticket, has_ticket, IsTicketOf};
ghost use Rattle.history_facts.specs.Generations.{ShowsGeneration, ShowsDrawn};
ghost use Rattle.history_tables.specs.Numbering.{NumbersTell, IsFound};
ghost use Rattle.history_tables.specs.WorkRows.{IsCommitter};
ghost use Rattle.history_tables.specs.Openings.{IsLife, ticket_of};
ghost use Rattle.known_past.specs.Lines.{reply_place, LineIsKnown};
ghost use Rattle.known_past.specs.Nodes.{highest_copied, NodeIsKnown};
ghost use Rattle.known_past.specs.Known.{TicketsAreKnown, IsKnown};

use crate::lines::{KnownLine, KnownLines, line_in, set_line};
use crate::nodes::{KnownNode, KnownNodes, node_in, note_node};
use crate::versions::KnownVersions;
use history_facts::{
    Drawn, Generation, copy_in_flight, has_file_fault, is_at, is_passed, is_reopenable, is_replica,
    note_drawn,
};
use history_rules::{Entry, Event, FaultKind};
use history_tables::{Numbers, Opening, Tickets};
use nrt_base::{At, LaneNo, NoMemory, NodeNo, TicketNo, Version};
use std::alloc::Global;

/// What is known of the entries before a place.
#[derive(Drop)]
pub struct KnownPast {
    pub numbers: Numbers,
    pub lines: KnownLines,
    pub nodes: KnownNodes,
    pub tickets: Tickets,
    pub versions: KnownVersions,
    /// How many segment names each generation has drawn.
    pub drawn: Drawn,
}

/// What the numbers say of the present generation.
fn generation_of(numbers: &Numbers) -> Generation
    ensures { (past : Past) → NumbersTell past numbers.now → ShowsGeneration past result }
{
    Generation {
        number: numbers.generation,
        accepted: numbers.accepted,
        published: numbers.published,
        last_put: numbers.last_put,
        names: numbers.names,
        merges: numbers.merges,
        idle: numbers.idle,
    }
}

/// The entry at a place.
fn entry_at<'a>(entries: &'a [Entry], place: usize) -> Option<&'a Entry>
    ensures { option_copied result ≡ slice_get entries.now place }
{
    entries.get(place)
}

/// The event of the entry at a place.
#[tactic(auto, using(crate::proofs::PlaceLaws::event_of, crate::proofs::PlaceLaws::no_event))]
fn event_at<'a>(entries: &'a [Entry], place: usize) -> Option<&'a Event>
    ensures { (e : Entry) → slice_get entries.now place ≡ Some e
        → option_copied result ≡ Some e.event }
{
    match entry_at(entries, place) {
        Some(entry) => Some(&entry.event),
        None => None,
    }
}

/// The node whose commit a line started as.
fn commit_node(start: Option<&Event>) -> Option<NodeNo>
    ensures { (k : ℕ) → starts_commit k (option_copied start.entry) ≡ is_at result k }
{
    match start {
        Some(Event::Committing { n, .. }) => Some(*n),
        _ => None,
    }
}

/// The numbers after one more entry than these. Where it ends a publish, this found so many operations accepted.
#[tactic(auto, using(crate::proofs::KnownLaws::numbers_low))]
fn numbers_after(numbers: Numbers, started: usize, before: &[Entry], entry: &Entry) -> Numbers
    requires numbers { NumbersTell (reverse before.now) numbers }
    requires started { IsFound entry.now.at (reverse before.now) entry.now.event started }
    requires few { length before.now + 1 < 2 ^ 64 }
    ensures { NumbersTell (entry.now ∷ reverse before.now) result }
{
    numbers.after(entry.at, &entry.event, before.len(), started)
}

/// Takes one more entry in, behind these. Where it opens a ticket, the node has crashed so often.
fn note_ticket(
    tickets: &mut Tickets,
    life: usize,
    before: &[Entry],
    entry: &Entry,
) -> Result<(), NoMemory>
    requires tickets { TicketsAreKnown (reverse before.now) tickets.old }
    requires life { IsLife entry.now.event (reverse before.now) life }
    ensures { OnOk result (TicketsAreKnown (entry.now ∷ reverse before.now) tickets.new) }
{
    tickets.reserve()?;
    tickets.step(entry.at, &entry.event, life);
    Ok(())
}

/// Takes one more entry in, behind which the numbers are these.
fn note_names(
    drawn: &mut Drawn,
    numbers: &Numbers,
    before: &[Entry],
    entry: &Entry,
) -> Result<(), NoMemory>
    requires numbers { NumbersTell (entry.now ∷ reverse before.now) numbers.now }
    requires drawn { ShowsDrawn (reverse before.now) drawn.old }
    ensures { OnOk result (ShowsDrawn (entry.now ∷ reverse before.now) drawn.new) }
{
    let generation = generation_of(numbers);
    note_drawn(drawn, &generation)
}

impl KnownPast {
    /// Before any entry.
    #[tactic(auto, using(crate::proofs::NodeLaws::first_is_known))]
    pub fn new(alloc: Global) -> Self
        ensures { IsKnown [] result }
    {
        KnownPast {
            numbers: Numbers::first(),
            lines: KnownLines::new(alloc),
            nodes: KnownNodes::new(alloc),
            tickets: Tickets::new(alloc),
            versions: KnownVersions::new(alloc),
            drawn: Drawn::new(alloc),
        }
    }

    /// How many operations the generation had accepted at the start of a publish that ends.
    fn found(&self, before: &[Entry], entry: &Entry) -> usize
        requires { IsKnown (reverse before.now) self.now }
        ensures { IsFound entry.now.at (reverse before.now) entry.now.event result }
    {
        match &entry.event {
            Event::Published { .. } => self.accepted_at_start(entry.at, before),
            _ => 0,
        }
    }

    /// The node of a commit that is refused.
    fn committer(&self, before: &[Entry], entry: &Entry) -> Option<NodeNo>
        requires { IsKnown (reverse before.now) self.now }
        ensures { IsCommitter entry.now.at (reverse before.now) entry.now.event result }
    {
        match &entry.event {
            Event::Refused { .. } => commit_node(self.start_entry(entry.at, before)),
            _ => None,
        }
    }

    /// How often the node of a ticket that is opened has crashed.
    fn life(&self, before: &[Entry], entry: &Entry) -> usize
        requires { IsKnown (reverse before.now) self.now }
        ensures { IsLife entry.now.event (reverse before.now) result }
    {
        match &entry.event {
            Event::Opened { n, .. } => self.node(*n, before).life.crashes,
            _ => 0,
        }
    }

    /// After one more entry than these.
    #[tactic(auto, using(crate::proofs::KnownLaws::known_next))]
    pub fn after(self, before: &[Entry], entry: &Entry) -> Result<Self, NoMemory>
        requires known { IsKnown (reverse before.now) self }
        requires few { length before.now + 1 < 2 ^ 64 }
        ensures { IfOk result (IsKnown (entry.now ∷ reverse before.now)) }
    {
        let found = self.found(before, entry);
        let committer = self.committer(before, entry);
        let life = self.life(before, entry);
        let KnownPast {
            numbers,
            mut lines,
            mut nodes,
            mut tickets,
            mut versions,
            mut drawn,
        } = self;
        let line = line_in(&lines, entry.at).after(&entry.event, before.len(), numbers.accepted);
        set_line(&mut lines, entry.at, line)?;
        note_node(&mut nodes, numbers.primary, committer, before, entry)?;
        note_ticket(&mut tickets, life, before, entry)?;
        versions.take(before, entry)?;
        let numbers = numbers_after(numbers, found, before, entry);
        note_names(&mut drawn, &numbers, before, entry)?;
        Ok(KnownPast {
            numbers,
            lines,
            nodes,
            tickets,
            versions,
            drawn,
        })
    }

    /// The running primary.
    pub fn primary(&self, entries: &[Entry]) -> Option<NodeNo>
        requires { IsKnown (reverse entries.now) self.now }
        ensures { result ≡ primary_of (reverse entries.now) }
    {
        self.numbers.primary
    }

    /// The greatest version that was published or promoted, or 1.
    pub fn newest(&self, entries: &[Entry]) -> u64
        requires { IsKnown (reverse entries.now) self.now }
        ensures { result ≡ newest_version (reverse entries.now) }
    {
        self.numbers.newest
    }

    /// How many operations were accepted.
    pub fn accepted(&self, entries: &[Entry]) -> usize
        requires { IsKnown (reverse entries.now) self.now }
        ensures { result ≡ accepted_count (reverse entries.now) }
    {
        self.numbers.count
    }

    /// The line whose publish is in flight.
    pub fn publishing(&self, entries: &[Entry]) -> Option<At>
        requires { IsKnown (reverse entries.now) self.now }
        ensures { result ≡ publish_in_flight (reverse entries.now) }
    {
        self.numbers.publishing
    }

    /// How many merges were started.
    pub fn merge_count(&self, entries: &[Entry]) -> usize
        requires { IsKnown (reverse entries.now) self.now }
        ensures count { result ≡ merge_count (reverse entries.now) }
        ensures few { result ≤ length entries.now }
    {
        self.numbers.all_merges
    }

    /// How many tasks all drains together did.
    pub fn drained_count(&self, entries: &[Entry]) -> u128
        requires { IsKnown (reverse entries.now) self.now }
        ensures count { result ≡ drained_count (reverse entries.now) }
        ensures few { result ≤ length entries.now * 2 ^ 32 }
    {
        self.numbers.drained
    }

    /// What is known of the present generation.
    pub fn generation(&self, entries: &[Entry]) -> Generation
        requires { IsKnown (reverse entries.now) self.now }
        ensures { ShowsGeneration (reverse entries.now) result }
    {
        generation_of(&self.numbers)
    }

    /// What is known of a line.
    fn line(&self, at: At, entries: &[Entry]) -> KnownLine
        requires { IsKnown (reverse entries.now) self.now }
        ensures { LineIsKnown (reverse entries.now) at result }
    {
        line_in(&self.lines, at)
    }

    /// Whether a line has its reply, in whatever entries this is known of.
    #[tactic(auto, using(crate::proofs::LineLaws::answered_by))]
    pub fn has_answer(&self, at: At) -> bool
        ensures { (past : Past) → IsKnown past self.now → result ≡ is_answered at past }
    {
        0 < line_in(&self.lines, at).replied
    }

    /// Whether a line has its reply.
    #[tactic(auto, using(crate::proofs::LineLaws::answered_by))]
    pub fn is_answered(&self, at: At, entries: &[Entry]) -> bool
        requires { IsKnown (reverse entries.now) self.now }
        ensures { result ≡ is_answered at (reverse entries.now) }
    {
        0 < self.line(at, entries).replied
    }

    /// Whether a line has met a fault.
    pub fn has_met_fault(&self, at: At, entries: &[Entry]) -> bool
        requires { IsKnown (reverse entries.now) self.now }
        ensures { result ≡ has_met_fault at (reverse entries.now) }
    {
        self.line(at, entries).failed
    }

    /// Whether a line has met a fault of the link, or a damage, in a file for a node.
    #[tactic(auto, using(crate::proofs::LineLaws::spared_file))]
    pub fn has_file_fault(&self, n: NodeNo, at: At, entries: &[Entry]) -> bool
        requires { IsKnown (reverse entries.now) self.now }
        ensures { result ≡ has_file_fault n.0 at (reverse entries.now) }
    {
        if self.has_met_fault(at, entries) {
            has_file_fault(n, at, entries)
        } else {
            false
        }
    }

    /// How many operations the generation had accepted at the start of a line.
    pub fn accepted_at_start(&self, at: At, entries: &[Entry]) -> usize
        requires { IsKnown (reverse entries.now) self.now }
        ensures { result ≡ accepted_at_start at (reverse entries.now) }
    {
        self.line(at, entries).accepted
    }

    /// The greatest node that a line has switched since its start entry, or 0.
    pub fn highest_switched(&self, at: At, entries: &[Entry]) -> u8
        requires { IsKnown (reverse entries.now) self.now }
        ensures { result ≡ highest_switched at (reverse entries.now) }
    {
        self.line(at, entries).highest
    }

    /// The newest entry of a line that is no fault.
    #[tactic(auto, using(crate::proofs::PlaceLaws::newest_none))]
    pub fn last_of_line<'a>(&self, at: At, entries: &'a [Entry]) -> Option<&'a Event>
        requires { IsKnown (reverse entries.now) self.now }
        ensures { option_copied result ≡ last_of_line at (reverse entries.now) }
    {
        match self.line(at, entries).newest {
            Some(place) => event_at(entries, place),
            None => None,
        }
    }

    /// The start entry of a line, the last where there are several.
    #[tactic(auto, using(crate::proofs::PlaceLaws::start_none))]
    pub fn start_entry<'a>(&self, at: At, entries: &'a [Entry]) -> Option<&'a Event>
        requires { IsKnown (reverse entries.now) self.now }
        ensures { option_copied result ≡ start_entry at (reverse entries.now) }
    {
        match self.line(at, entries).start {
            Some(place) => event_at(entries, place),
            None => None,
        }
    }

    /// The entries before the start entry of a line.
    #[tactic(auto, using(crate::proofs::PlaceLaws::before_there, crate::proofs::PlaceLaws::before_none))]
    pub fn before_start<'a>(&self, at: At, entries: &'a [Entry]) -> &'a [Entry]
        requires { IsKnown (reverse entries.now) self.now }
        ensures before { reverse result.now ≡ before_start at (reverse entries.now) }
        ensures within { length result.now ≤ length entries.now }
    {
        match self.line(at, entries).start {
            Some(place) => &entries[..place],
            None => &entries[..0],
        }
    }

    /// How many entries stand before the start entry of a line.
    #[tactic(auto, using(crate::proofs::PlaceLaws::count_there, crate::proofs::PlaceLaws::count_none))]
    pub fn start_count(&self, at: At, entries: &[Entry]) -> usize
        requires { IsKnown (reverse entries.now) self.now }
        ensures { result ≡ length (before_start at (reverse entries.now)) }
    {
        match self.line(at, entries).start {
            Some(place) => place,
            None => 0,
        }
    }

    /// What is known of a node.
    fn node(&self, n: NodeNo, entries: &[Entry]) -> KnownNode
        requires { IsKnown (reverse entries.now) self.now }
        ensures { NodeIsKnown (reverse entries.now) n.0 result }
    {
        node_in(&self.nodes, n)
    }

    /// Whether a node runs.
    pub fn is_running(&self, n: NodeNo, entries: &[Entry]) -> bool
        requires { IsKnown (reverse entries.now) self.now }
        ensures { result ≡ is_running n.0 (reverse entries.now) }
    {
        self.node(n, entries).life.running
    }

    /// The version that a node searches.
    pub fn version_of(&self, n: NodeNo, entries: &[Entry]) -> u64
        requires { IsKnown (reverse entries.now) self.now }
        ensures { result ≡ version_of n.0 (reverse entries.now) }
    {
        self.node(n, entries).life.version
    }

    /// Whether a node runs and is not the primary.
    pub fn is_replica(&self, n: NodeNo, entries: &[Entry]) -> bool
        requires { IsKnown (reverse entries.now) self.now }
        ensures { IsTrue result ↔ IsReplica (reverse entries.now) n.0 }
    {
        self.is_running(n, entries) && !is_at(self.primary(entries), n)
    }

    /// Whether a commit of the node was acknowledged, or found by a reopening.
    pub fn has_committed(&self, n: NodeNo, entries: &[Entry]) -> bool
        requires { IsKnown (reverse entries.now) self.now }
        ensures { result ≡ has_committed n.0 (reverse entries.now) }
    {
        self.node(n, entries).commits.committed
    }

    /// Whether a disk fault refused a commit of the node, and neither was one acknowledged since nor did it reopen.
    pub fn is_stuck(&self, n: NodeNo, entries: &[Entry]) -> bool
        requires { IsKnown (reverse entries.now) self.now }
        ensures { result ≡ is_stuck n.0 (reverse entries.now) }
    {
        self.node(n, entries).commits.stuck
    }

    /// How many entries there were after the newest reply of a line, 0 where it has none.
    fn replied(&self, at: At, entries: &[Entry]) -> usize
        requires { IsKnown (reverse entries.now) self.now }
        ensures { result ≡ reply_place at (reverse entries.now) }
    {
        self.line(at, entries).replied
    }

    /// The line whose commit at a node is between its start and its reply, the node not crashed since.
    #[tactic(auto, using(crate::proofs::FlightLaws::commit_flies, crate::proofs::FlightLaws::commit_ended, crate::proofs::FlightLaws::no_commit))]
    pub fn commit_in_flight(&self, n: NodeNo, entries: &[Entry]) -> Option<At>
        requires { IsKnown (reverse entries.now) self.now }
        ensures { result ≡ commit_in_flight n.0 (reverse entries.now) }
    {
        let Some(flight) = self.node(n, entries).commits.begun else {
            return None;
        };
        if self.replied(flight.at, entries) <= flight.place {
            Some(flight.at)
        } else {
            None
        }
    }

    /// Whether a fault of this kind is planned at a node.
    pub fn is_planned(&self, n: NodeNo, kind: FaultKind, entries: &[Entry]) -> bool
        requires { IsKnown (reverse entries.now) self.now }
        ensures { result ≡ is_planned n.0 kind (reverse entries.now) }
    {
        let plans = self.node(n, entries).plans;
        match kind {
            FaultKind::Link => plans.link,
            FaultKind::Damage => plans.damage,
            FaultKind::Disk => plans.disk,
            FaultKind::Stop => plans.stop,
        }
    }

    /// Whether the version was published or promoted in the present generation.
    pub fn is_made_in_generation(&self, v: Version, entries: &[Entry]) -> bool
        requires { IsKnown (reverse entries.now) self.now }
        ensures { result ≡ is_made_in_generation v.0 (reverse entries.now) }
    {
        self.versions.is_made(v)
    }

    /// Whether there is a point of this version.
    pub fn is_point(&self, v: Version, entries: &[Entry]) -> bool
        requires { IsKnown (reverse entries.now) self.now }
        ensures { result ≡ is_point v.0 (reverse entries.now) }
    {
        self.versions.is_point(v)
    }

    /// Whether a copy to a node above this version was started that no fault of a disk refused. Where none above it was, none is looked for.
    #[tactic(auto, using(crate::proofs::NodeLaws::not_passed))]
    pub fn is_passed(&self, n: NodeNo, v: Version, entries: &[Entry]) -> bool
        requires { IsKnown (reverse entries.now) self.now }
        ensures { result ≡ is_passed n.0 v.0 (reverse entries.now) }
    {
        if self.node(n, entries).life.copied <= v.0 {
            false
        } else {
            is_passed(n, v, entries)
        }
    }

    /// The line whose copy of the greatest version that was copied to a node is in flight.
    fn last_copy(&self, n: NodeNo, entries: &[Entry]) -> Option<At>
        requires { IsKnown (reverse entries.now) self.now }
        ensures { (v : ℕ) → highest_copied n.0 (reverse entries.now) ≡ v
            → result ≡ copy_in_flight n.0 v (reverse entries.now) }
    {
        let life = self.node(n, entries).life;
        match life.copying {
            Some(copy) => {
                let replied = self.replied(copy.at, entries);
                copy.unless_since(replied, life.crashed, self.numbers.primary_crashed)
            }
            None => None,
        }
    }

    /// The line whose copy of a version to a node is in flight. Where a greater one was copied there, it is looked for.
    #[tactic(auto, using(crate::proofs::NodeLaws::not_copied))]
    pub fn copy_in_flight(&self, n: NodeNo, v: Version, entries: &[Entry]) -> Option<At>
        requires { IsKnown (reverse entries.now) self.now }
        ensures { result ≡ copy_in_flight n.0 v.0 (reverse entries.now) }
    {
        let copied = self.node(n, entries).life.copied;
        if copied < v.0 {
            return None;
        }
        if copied == v.0 {
            return self.last_copy(n, entries);
        }
        copy_in_flight(n, v, entries)
    }

    /// Whether a node may reopen at a version. At its base version it always may.
    pub fn is_reopenable(&self, n: NodeNo, v: Version, entries: &[Entry]) -> bool
        requires { IsKnown (reverse entries.now) self.now }
        ensures { result ≡ list_any (λ w. w == v.0)
            (reopenable_versions n.0 (reverse entries.now)) }
    {
        if self.node(n, entries).commits.base == v.0 {
            return true;
        }
        is_reopenable(n, v, entries)
    }

    /// Whether neither a node nor the primary changed since the start entry of a line.
    fn is_as_then(&self, n: NodeNo, at: At, entries: &[Entry]) -> bool
        requires { IsKnown (reverse entries.now) self.now }
        ensures { IsTrue result → (IsReplica (reverse entries.now) n.0
            ↔ IsReplica (before_start at (reverse entries.now)) n.0) }
    {
        let start = self.start_count(at, entries);
        let changed = self.node(n, entries).life.changed;
        if start < changed {
            return false;
        }
        if start < self.numbers.primary_crashed {
            return false;
        }
        self.versions.promoted <= start
    }

    /// Whether a node was a replica at the start entry of a line.
    pub fn was_replica(&self, n: NodeNo, at: At, entries: &[Entry]) -> bool
        requires { IsKnown (reverse entries.now) self.now }
        ensures { IsTrue result ↔ IsReplica (before_start at (reverse entries.now)) n.0 }
    {
        if self.is_as_then(n, at, entries) {
            self.is_replica(n, entries)
        } else {
            is_replica(n, self.before_start(at, entries))
        }
    }

    /// Whether a node has not crashed since the start entry of a line.
    pub fn node_survives(&self, n: NodeNo, at: At, entries: &[Entry]) -> bool
        requires { IsKnown (reverse entries.now) self.now }
        ensures { IsTrue result ↔ NodeSurvives (reverse entries.now) at n.0 }
    {
        let before = self.start_count(at, entries);
        let node = self.node(n, entries);
        node.life.crashed <= before
    }

    /// Whether the primary at the start entry of a line has not crashed since.
    pub fn source_survives(&self, at: At, entries: &[Entry]) -> bool
        requires { IsKnown (reverse entries.now) self.now }
        ensures { IsTrue result ↔ SourceSurvives (reverse entries.now) at }
    {
        let before = self.start_count(at, entries);
        self.numbers.primary_crashed <= before
    }

    /// The last opening of a ticket of a lane, unless it was closed since.
    fn opening(&self, lane: LaneNo, t: TicketNo, entries: &[Entry]) -> Option<Opening>
        requires { IsKnown (reverse entries.now) self.now }
        ensures { MatchOption result (last_opened lane.0 t.0 (reverse entries.now) ≡ None)
            (λ o. last_opened lane.0 t.0 (reverse entries.now) ≡ Some (ticket_of o)) }
    {
        self.tickets.get(lane, t)
    }

    /// An open ticket of a lane: neither was it closed nor has its node crashed since it was opened.
    pub fn ticket(&self, lane: LaneNo, t: TicketNo, entries: &[Entry]) -> Option<Opening>
        requires { IsKnown (reverse entries.now) self.now }
        ensures { MatchOption result (open_ticket lane.0 t.0 (reverse entries.now) ≡ None)
            (λ o. open_ticket lane.0 t.0 (reverse entries.now) ≡ Some (ticket_of o)) }
    {
        if t.0 == 0 {
            return None;
        }
        match self.opening(lane, t, entries) {
            Some(opening) => {
                if self.node(opening.node, entries).life.crashes == opening.life {
                    Some(opening)
                } else {
                    None
                }
            }
            None => None,
        }
    }

    /// Whether the lane has this ticket.
    pub fn has_ticket(&self, lane: LaneNo, t: TicketNo, entries: &[Entry]) -> bool
        requires { IsKnown (reverse entries.now) self.now }
        ensures { result ≡ has_ticket lane.0 t.0 (reverse entries.now) }
    {
        match self.ticket(lane, t, entries) {
            Some(_) => true,
            None => false,
        }
    }

    /// Whether the lane has this ticket, and it is at this node.
    pub fn is_ticket_at(&self, n: NodeNo, lane: LaneNo, t: TicketNo, entries: &[Entry]) -> bool
        requires { IsKnown (reverse entries.now) self.now }
        ensures { IsTrue result ↔ IsSomeAnd (open_ticket lane.0 t.0 (reverse entries.now))
            (λ ticket. ticket.node ≡ n.0) }
    {
        match self.ticket(lane, t, entries) {
            Some(opening) => opening.node.0 == n.0,
            None => false,
        }
    }

    /// Whether the lane has this ticket, and it is at this node and this version.
    pub fn is_ticket_of(
        &self,
        n: NodeNo,
        v: Version,
        lane: LaneNo,
        t: TicketNo,
        entries: &[Entry],
    ) -> bool
        requires { IsKnown (reverse entries.now) self.now }
        ensures { IsTrue result ↔
            IsTicketOf n.0 v.0 (open_ticket lane.0 t.0 (reverse entries.now)) }
    {
        match self.ticket(lane, t, entries) {
            Some(opening) => opening.node.0 == n.0 && opening.version.0 == v.0,
            None => false,
        }
    }
}

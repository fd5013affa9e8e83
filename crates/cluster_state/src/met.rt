//! Which faults of disks were met, and their entries.

ghost use Rattle.std.specs.Prelude.{◌≡◌, ◌≤◌, ◌<◌, ◌+◌, ◌*◌, ◌^◌, ◌==◌, ◌∷◌, false, true, map, length, IfOk, OnOk, OnErr};
ghost use Rattle.history_rules.specs.Nodes.{IsNode, primary_of};
ghost use Rattle.history_rules.specs.Lines.{is_answered, is_start, start_entry};
ghost use Rattle.history_rules.specs.Faults.{is_of_disk};
ghost use Rattle.history_rules.specs.FaultLaws.{stands_over};
ghost use Rattle.history_rules.specs.Legal.{KeepsRule, IsLegalPast};
ghost use Rattle.history_tables.specs.Openings.{opens_ticket};
ghost use Rattle.history_book.specs.Log.{Log, printed, shown, FollowsMerging};
ghost use Rattle.history_book.specs.Told.{IsSo};
ghost use Rattle.history_book.specs.Turns.{InTurn, AreInTurn};
ghost use Rattle.merge_tasks.specs.Merging.{is_apart, ends_reign};
ghost use Rattle.cluster_nodes.specs.Places.{place_of, IsSlot};
ghost use Rattle.cluster_state.specs.Met.{met_in, with_met, fault_if, IsPlannedIf, ArePlanned, has_risen as has_risen_at, ClusterStands, fault_by, MayMeet, has_any_risen as any_risen};

use crate::lately::is_merge_line;
use cluster_nodes::{Node, NodePlace};
use disk_model::FaultDir;
use history_book::Book;
use history_rules::{Event, FaultKind};
use merge_tasks::{Ledger, Tasks};
use nrt_base::{At, NoMemory, NodeNo};
use std::alloc::{AllocError, Global};

// How often the disk of the node in a place has failed by a plan of one call, and how often by a stop.
fn kinds_at<D: FaultDir + Drop>(place: &Option<NodePlace<D>>) -> (u64, u64)
    ensures { result ≡ met_in D.planned place.now }
{
    match place {
        None => (0, 0),
        Some(place) => {
            match &place.node {
                Node::Primary(primary) => primary.kinds(),
                Node::Replica(replica) => replica.kinds(),
                Node::Down(dir) => dir.kinds(),
            }
        }
    }
}

/// How often the disk of each node has failed so, in order.
pub fn kinds_in<D: FaultDir + Drop>(
    alloc: Global,
    places: &[Option<NodePlace<D>>],
) -> Result<Vec<(u64, u64)>, NoMemory>
    ensures { IfOk result (λ kinds. kinds.items ≡ map (met_in D.planned) places.now) }
{
    let mut kinds = Vec::new(alloc);
    for place in places {
        kinds.push(kinds_at(place))?;
    }
    Ok(kinds)
}

/// What each disk has met by its plans, with room for what a call meets more, and for so many entries behind that.
pub fn met_before<D: FaultDir + Drop>(
    alloc: Global,
    ledger: &mut Ledger,
    places: &Vec<Option<NodePlace<D>>>,
    more: usize,
) -> Result<Vec<(u64, u64)>, NoMemory>
    requires { more ≤ 2 ^ 63 + 2 }
    ensures met { IfOk result (λ met. met.items ≡ map (met_in D.planned) places.now.items) }
    ensures few { IfOk result (λ met. length met.items ≤ 255) }
    ensures room { IfOk result (λ met. 2 * length met.items + more ≤ ledger.new.room) }
    ensures line { OnOk result (1 ≤ ledger.new.places) }
    ensures jobs { OnOk result (1 ≤ ledger.new.jobs) }
    ensures log { ledger.new.log ≡ ledger.old.log }
    ensures nodes { ledger.new.nodes ≡ ledger.old.nodes }
    ensures cut { ledger.new.cut ≡ ledger.old.cut }
{
    let met = kinds_in(alloc, places.as_slice())?;
    if met.len() > u8::MAX as usize {
        return Err(AllocError);
    }
    ledger.reserve(2 * met.len() + more)?;
    Ok(met)
}

// Appends a fault, of a line or of a task of its merge.
pub(crate) fn show_fault(ledger: &mut Ledger, task: bool, at: At, n: NodeNo, kind: FaultKind)
    requires room { 1 ≤ ledger.old.room }
    requires rule { KeepsRule ledger.old.nodes (printed ledger.old.log) at (Event.Fault n kind) }
    requires merge { task ≡ true → FollowsMerging at (Event.Fault n kind) (printed ledger.old.log) }
    ensures log { ledger.new.log ≡ fault_by task at n.0 kind ∷ ledger.old.log }
    ensures nodes { ledger.new.nodes ≡ ledger.old.nodes }
    ensures cut { ledger.new.cut ≡ ledger.old.cut }
    ensures room { ledger.old.room ≤ ledger.new.room + 1 }
    ensures jobs { ledger.new.jobs ≡ ledger.old.jobs }
    ensures places { ledger.new.places ≡ ledger.old.places }
{
    if task {
        ledger.show_task_fault(at, n, kind);
    } else {
        ledger.show(at, Event::Fault { n, kind });
    }
}

// Appends a fault of a disk that is planned, where the number rose.
#[tactic(auto, using(crate::proofs::AtWork::works_over))]
fn show_if(
    ledger: &mut Ledger,
    task: bool,
    at: At,
    n: NodeNo,
    kind: FaultKind,
    before: u64,
    now: u64,
)
    requires room { 1 ≤ ledger.old.room }
    requires node { IsNode ledger.old.nodes n.0 }
    requires disk { is_of_disk kind ≡ true }
    requires planned { IsPlannedIf n.0 kind before now (printed ledger.old.log) }
    requires works { MayMeet task at (printed ledger.old.log) }
    ensures log { ledger.new.log ≡ fault_if task at n.0 kind before now ledger.old.log }
    ensures works { MayMeet task at (printed ledger.new.log) }
    ensures nodes { ledger.new.nodes ≡ ledger.old.nodes }
    ensures cut { ledger.new.cut ≡ ledger.old.cut }
    ensures room { ledger.old.room ≤ ledger.new.room + 1 }
    ensures jobs { ledger.new.jobs ≡ ledger.old.jobs }
    ensures places { ledger.new.places ≡ ledger.old.places }
{
    if before < now {
        show_fault(ledger, task, at, n, kind);
    }
}

// Appends those of one node.
#[tactic(auto, using(crate::proofs::Planned::stop_over))]
fn show_node(
    ledger: &mut Ledger,
    task: bool,
    at: At,
    n: NodeNo,
    before: (u64, u64),
    now: (u64, u64),
)
    requires room { 2 ≤ ledger.old.room }
    requires node { IsNode ledger.old.nodes n.0 }
    requires disk { IsPlannedIf n.0 FaultKind.Disk before.0 now.0 (printed ledger.old.log) }
    requires stop { IsPlannedIf n.0 FaultKind.Stop before.1 now.1 (printed ledger.old.log) }
    requires works { MayMeet task at (printed ledger.old.log) }
    ensures log { ledger.new.log ≡ fault_if task at n.0 FaultKind.Stop before.1 now.1
        (fault_if task at n.0 FaultKind.Disk before.0 now.0 ledger.old.log) }
    ensures works { MayMeet task at (printed ledger.new.log) }
    ensures nodes { ledger.new.nodes ≡ ledger.old.nodes }
    ensures cut { ledger.new.cut ≡ ledger.old.cut }
    ensures room { ledger.old.room ≤ ledger.new.room + 2 }
    ensures jobs { ledger.new.jobs ≡ ledger.old.jobs }
    ensures places { ledger.new.places ≡ ledger.old.places }
{
    show_if(ledger, task, at, n, FaultKind::Disk, before.0, now.0);
    show_if(ledger, task, at, n, FaultKind::Stop, before.1, now.1);
}

/// Whether each fault of a disk that rose is planned, at a node that runs: what each disk had met before, and what it has met now. They are, where
/// disks fail by their plans alone, those are what the history shows, and no call is of a disk whose node is down.
pub fn are_planned<D: FaultDir + Drop>(
    book: &Book,
    before: &[(u64, u64)],
    places: &Vec<Option<NodePlace<D>>>,
) -> bool
    requires count { length before.now ≡ book.now.nodes }
    requires places { length places.now.items ≡ book.now.nodes }
    ensures planned { result ≡ true
        → ArePlanned 1 before.now (map (met_in D.planned) places.now.items) (printed book.now.log) }
    ensures few { result ≡ true → length before.now ≤ 255 }
{
    if before.len() > u8::MAX as usize {
        return false;
    }
    for i in 0..before.len() {
        let n = NodeNo(i as u8 + 1);
        let plans = book.plans(n);
        let old = before[i];
        let now = kinds_at(&places[i]);
        if old.0 < now.0 && !plans.disk || old.1 < now.1 && !plans.stop {
            return false;
        }
        if (old.0 < now.0 || old.1 < now.1) && !book.runs(n) {
            return false;
        }
    }
    true
}

/// Whether one rose at a node.
pub fn has_risen<D: FaultDir + Drop>(
    p: NodeNo,
    before: &[(u64, u64)],
    places: &Vec<Option<NodePlace<D>>>,
) -> bool
    requires count { length places.now.items ≡ length before.now }
    ensures { result ≡ has_risen_at p.0 1 before.now (map (met_in D.planned) places.now.items) }
{
    let mut met = false;
    for i in 0..before.len() {
        let old = before[i];
        let now = kinds_at(&places[i]);
        met = met || p.0 as usize == i + 1 && (old.0 < now.0 || old.1 < now.1);
    }
    met
}

// Whether one rose at any node.
fn has_any_risen<D: FaultDir + Drop>(
    before: &[(u64, u64)],
    places: &Vec<Option<NodePlace<D>>>,
) -> bool
    requires count { length places.now.items ≡ length before.now }
    ensures { result ≡ any_risen before.now (map (met_in D.planned) places.now.items) }
{
    let mut met = false;
    for i in 0..before.len() {
        let old = before[i];
        let now = kinds_at(&places[i]);
        met = met || (old.0 < now.0 || old.1 < now.1);
    }
    met
}

// Appends the faults of disks that rose, which are planned, nodes in ascending order.
#[tactic(auto, using(crate::proofs::Planned::rest_over))]
fn show_all<D: FaultDir + Drop>(
    ledger: &mut Ledger,
    task: bool,
    at: At,
    before: &[(u64, u64)],
    places: &Vec<Option<NodePlace<D>>>,
)
    requires room { 2 * length before.now ≤ ledger.old.room }
    requires count { length before.now ≡ ledger.old.nodes }
    requires places { length places.now.items ≡ ledger.old.nodes }
    requires few { length before.now ≤ 255 }
    requires planned { ArePlanned 1 before.now (map (met_in D.planned) places.now.items)
        (printed ledger.old.log) }
    requires works { MayMeet task at (printed ledger.old.log) }
    ensures log { ledger.new.log
        ≡ with_met task at 1 before.now (map (met_in D.planned) places.now.items) ledger.old.log }
    ensures nodes { ledger.new.nodes ≡ ledger.old.nodes }
    ensures cut { ledger.new.cut ≡ ledger.old.cut }
    ensures room { ledger.old.room ≤ ledger.new.room + 2 * length before.now }
    ensures jobs { ledger.new.jobs ≡ ledger.old.jobs }
    ensures places { ledger.new.places ≡ ledger.old.places }
{
    for i in 0..before.len() {
        show_node(
            ledger,
            task,
            at,
            NodeNo(i as u8 + 1),
            before[i],
            kinds_at(&places[i]),
        );
    }
}

/// Appends the faults of disks that rose, which are planned, nodes in ascending order.
pub fn show_met<D: FaultDir + Drop>(
    ledger: &mut Ledger,
    at: At,
    before: &[(u64, u64)],
    places: &Vec<Option<NodePlace<D>>>,
)
    requires room { 2 * length before.now ≤ ledger.old.room }
    requires count { length before.now ≡ ledger.old.nodes }
    requires places { length places.now.items ≡ ledger.old.nodes }
    requires few { length before.now ≤ 255 }
    requires planned { ArePlanned 1 before.now (map (met_in D.planned) places.now.items)
        (printed ledger.old.log) }
    requires unanswered { is_answered at (printed ledger.old.log) ≡ false }
    ensures log { ledger.new.log
        ≡ with_met false at 1 before.now (map (met_in D.planned) places.now.items) ledger.old.log }
    ensures nodes { ledger.new.nodes ≡ ledger.old.nodes }
    ensures cut { ledger.new.cut ≡ ledger.old.cut }
    ensures room { ledger.old.room ≤ ledger.new.room + 2 * length before.now }
    ensures jobs { ledger.new.jobs ≡ ledger.old.jobs }
    ensures places { ledger.new.places ≡ ledger.old.places }
{
    show_all(ledger, false, at, before, places);
}

/// Appends those that a task of the merge met which a line started, where they are planned, at nodes that run. Where they are not it fails, as out of
/// memory, and the ledger is as before.
#[tactic(auto, using(crate::proofs::AtWork::none_met))]
pub fn show_task_met<D: FaultDir + Drop>(
    ledger: &mut Ledger,
    at: At,
    before: &[(u64, u64)],
    places: &Vec<Option<NodePlace<D>>>,
) -> Result<(), NoMemory>
    requires room { 2 * length before.now ≤ ledger.old.room }
    requires count { length before.now ≡ ledger.old.nodes }
    requires places { length places.now.items ≡ ledger.old.nodes }
    ensures log { OnOk result (ledger.new.log
        ≡ with_met true at 1 before.now (map (met_in D.planned) places.now.items) ledger.old.log) }
    ensures nodes { ledger.new.nodes ≡ ledger.old.nodes }
    ensures cut { ledger.new.cut ≡ ledger.old.cut }
    ensures room { ledger.old.room ≤ ledger.new.room + 2 * length before.now }
    ensures err { OnErr result (ledger.new ≡ ledger.old) }
{
    if !has_any_risen(before, places) {
        return Ok(());
    }
    if !are_planned(ledger.book(), before, places) {
        return Err(AllocError);
    }
    if !is_merge_line(ledger.book(), at) {
        return Err(AllocError);
    }
    show_all(ledger, true, at, before, places);
    Ok(())
}

/// Appends the faults of disks that rose, and then an entry of the line whose rule stands over them.
pub fn note_met<D: FaultDir + Drop>(
    ledger: &mut Ledger,
    at: At,
    before: &[(u64, u64)],
    places: &Vec<Option<NodePlace<D>>>,
    event: Event,
)
    requires room { 2 * length before.now + 1 ≤ ledger.old.room }
    requires count { length before.now ≡ ledger.old.nodes }
    requires places { length places.now.items ≡ ledger.old.nodes }
    requires few { length before.now ≤ 255 }
    requires planned { ArePlanned 1 before.now (map (met_in D.planned) places.now.items)
        (printed ledger.old.log) }
    requires unanswered { is_answered at (printed ledger.old.log) ≡ false }

    // of the entry
    requires rule { KeepsRule ledger.old.nodes (printed ledger.old.log) at event }
    requires over { stands_over (start_entry at (printed ledger.old.log)) event ≡ true }
    requires turn { InTurn (printed ledger.old.log) at event }
    requires told { IsSo ledger.old.log at event }
    requires later { is_start event ≡ false }
    requires tickets { opens_ticket event ≡ false }
    requires apart { is_apart event ≡ true }
    requires reigns { ends_reign event (primary_of (printed ledger.old.log)) ≡ false }

    ensures log { ledger.new.log ≡ shown at event
        ∷ with_met false at 1 before.now (map (met_in D.planned) places.now.items) ledger.old.log }
    ensures nodes { ledger.new.nodes ≡ ledger.old.nodes }
    ensures cut { ledger.new.cut ≡ ledger.old.cut }

    // what stood there before the entry
    ensures legal { IsLegalPast ledger.old.nodes (printed (with_met false at 1 before.now
        (map (met_in D.planned) places.now.items) ledger.old.log)) }
    ensures turns { AreInTurn (printed (with_met false at 1 before.now
        (map (met_in D.planned) places.now.items) ledger.old.log)) }
    ensures rule { KeepsRule ledger.old.nodes (printed (with_met false at 1 before.now
        (map (met_in D.planned) places.now.items) ledger.old.log)) at event }
    ensures turn { InTurn (printed (with_met false at 1 before.now
        (map (met_in D.planned) places.now.items) ledger.old.log)) at event }
{
    show_met(ledger, at, before, places);
    ledger.show(at, event);
}

/// What is true of the nodes of a cluster stays true behind faults of disks. A law.
pub fn stands_behind<D: FaultDir + Drop>(
    ledger: &Ledger,
    tasks: &Tasks,
    places: &Vec<Option<NodePlace<D>>>,
    at: At,
    before: &[(u64, u64)],
)
    ensures { (log : Log)
        → ClusterStands D.cells ledger.now.nodes places.now.items ledger.now.cut tasks.now log
        → ClusterStands D.cells ledger.now.nodes places.now.items ledger.now.cut tasks.now
        (with_met false at 1 before.now (map (met_in D.planned) places.now.items) log) }
{}

/// How often the disk of one node has failed so.
pub fn node_kinds<D: FaultDir + Drop>(places: &Vec<Option<NodePlace<D>>>, n: NodeNo) -> (u64, u64)
    requires { IsSlot places.now.items n.0 }
    ensures { result ≡ met_in D.planned (place_of places.now.items n.0) }
{
    kinds_at(&places[n.0 as usize - 1])
}

//! What the primary accepts, and publishes.

ghost use Rattle.std.specs.Prelude.{◌≡◌, ◌≢◌, ◌≤◌, ◌+◌, ◌*◌, ◌<◌, ◌^◌, ◌∷◌, ◌⊎◌, [], false, true, None, Some, IfSome, OnOk, OnErr, IfOk, length, map};
ghost use Rattle.nrt_base.specs.SegNumbers.{segments_of_generation};
ghost use Rattle.history_rules.specs.Nodes.{IsNode, primary_of, newest_version, generation_of, accepted_count};
ghost use Rattle.history_rules.specs.Lines.{entries_of_line, start_entry, publish_in_flight, is_answered};
ghost use Rattle.history_rules.specs.Faults.{has_met_fault};
ghost use Rattle.history_rules.specs.Points.{cut_of, cut_has_put, names_drawn};
ghost use Rattle.history_rules.specs.Legal.{KeepsRule, IsLegalPast};
ghost use Rattle.history_book.specs.Laws.{Flying};
ghost use Rattle.history_book.specs.Log.{printed, shown};
ghost use Rattle.history_book.specs.Turns.{AreInTurn};
ghost use Rattle.cluster_state.specs.Met.{ArePlanned, met_in, with_met, has_risen as has_risen_at};
ghost use Rattle.cluster_state.specs.Run.{IsNow, KeepsRest, IsEnded};
ghost use Rattle.cluster_state.specs.Writes.{StartsPublish, IsFlushed};
ghost use Rattle.cluster_state.specs.GivesUp.{PublishEnds};
ghost use Rattle.cluster_state.specs.Keeping.{KeepsButPoint};

use cluster_nodes::{
    FlushTask, FlushWork, Node, NodePlace, PublishFault, files_last, primary_in, put, take,
};
use cluster_state::{ClusterState, are_planned, has_risen, met_before, show_met};
use disk_model::FaultDir;
use documents::Op;
use history_book::Inner;
use history_rules::{Cause, Event};
use index_primary::PrimaryFault;
use merge_tasks::Ledger;
use nrt_base::{At, Gen, NoMemory, NodeNo, Share, Version};
use std::alloc::{AllocError, Global};

// The number of the next operation, where there is one.
fn next_number(count: usize) -> Option<u32>
    ensures { IfSome result (λ next. (next ≡ count + 1) × (next < 2 ^ 32)) }
{
    if count < u32::MAX as usize {
        Some(count as u32 + 1)
    } else {
        None
    }
}

// There are as many segments as there may be, or no memory was found.
fn is_for_segments(fault: PublishFault) -> Result<(), NoMemory>
    requires { fault ≢ PublishFault.NamesSpent }
    ensures { OnOk result (fault ≡ PublishFault.TooManySegments) }
{
    match fault {
        PublishFault::TooManySegments => Ok(()),
        PublishFault::Memory => Err(AllocError),
        PublishFault::NamesSpent => unreachable!(),
    }
}

/// The primary accepts an operation, whose number is one above that of the last that was accepted. It fails when out of memory,
/// or out of numbers below 2^32: the cluster has ended, and the history is as before. The line has not started, and has met no fault or
/// has its reply.
pub fn accept_at<D: FaultDir + Drop>(
    alloc: Global,
    cluster: &mut ClusterState<D>,
    at: At,
    p: NodeNo,
    op: Op,
) -> Result<(), NoMemory>
    requires running { cluster.old.ended ≡ false }
    requires begun { start_entry at (printed cluster.old.log) ≡ None }
    requires spared { (has_met_fault at (printed cluster.old.log) ≡ false)
        ⊎ (is_answered at (printed cluster.old.log) ≡ true) }
    requires node { IsNode cluster.old.nodes p.0 }
    requires primary { primary_of (printed cluster.old.log) ≡ Some p }
    ensures ok { OnOk result (IsNow cluster.old cluster.new (shown at
        (Event.Accepted (accepted_count (printed cluster.old.log) + 1) op) ∷ cluster.old.log)) }
    ensures plans { OnOk result (cluster.new.rest.plans ≡ cluster.old.rest.plans) }
    ensures names { OnOk result (cluster.new.rest.names ≡ cluster.old.rest.names) }
    ensures rest { OnOk result (KeepsRest cluster.old cluster.new) }
    ensures err { OnErr result (IsEnded cluster.old cluster.new) }
{
    let book = cluster.ledger.book();
    book.is_counted();
    let next = next_number(book.accepted());
    cluster.ended = true;
    let Some(seq) = next else {
        return Err(AllocError);
    };
    let copy = op.share(alloc)?;
    cluster.ledger.reserve(1)?;
    let (mut primary, held) = primary_in(take(&mut cluster.places, p));
    let place = primary.accept(copy);
    let node = Node::Primary(primary);
    put(&mut cluster.places, p, NodePlace { node, held });
    place?;
    cluster.ledger.show(at, Event::Accepted { seq, op });
    cluster.ended = false;
    Ok(())
}

/// Starts a publish, which has an operation or a cut-over to publish, and hands it out: `flush` makes the work, and `end_publish` takes it back.
/// None is answered where there is a put and there are as many segments as there may be, and then all is as before. It
/// fails when out of memory: the cluster has ended, and the history is as before.
pub fn start_publish<D: FaultDir + Drop>(
    alloc: Global,
    cluster: &mut ClusterState<D>,
    at: At,
    p: NodeNo,
) -> Result<Option<FlushTask>, NoMemory>
    requires running { cluster.old.ended ≡ false }
    requires fresh { entries_of_line at (printed cluster.old.log) ≡ [] }
    requires node { IsNode cluster.old.nodes p.0 }
    requires primary { primary_of (printed cluster.old.log) ≡ Some p }
    requires free { publish_in_flight (printed cluster.old.log) ≡ None }
    requires some { (0 < length (cut_of (printed cluster.old.log))) ⊎ (cluster.old.rest.cut ≡ true) }
    requires names { cut_has_put (printed cluster.old.log) ≡ true
        → names_drawn (printed cluster.old.log) ≢ segments_of_generation }
    ensures ok { IfOk result (StartsPublish at cluster.old cluster.new) }
    ensures rest { OnOk result (KeepsRest cluster.old cluster.new) }
    ensures err { OnErr result (IsEnded cluster.old cluster.new) }
{
    let book = cluster.ledger.book();
    book.is_fresh(at);
    cluster.ledger.has_cut();
    cluster.ended = true;
    cluster.ledger.reserve(2)?;
    let (mut primary, held) = primary_in(take(&mut cluster.places, p));
    let started = primary.publish_start(alloc);
    let node = Node::Primary(primary);
    put(&mut cluster.places, p, NodePlace { node, held });
    let task = match started {
        Ok(Some(task)) => task,
        Ok(None) => unreachable!(),
        Err(fault) => {
            is_for_segments(fault)?;
            cluster.ended = false;
            return Ok(None);
        }
    };
    let Ok(segs) = task.segs.share(alloc) else {
        drop(task);
        return Err(AllocError);
    };
    cluster.ledger.show_publishing(at);
    cluster.ledger.keep(Inner::FlushOut {
        at,
        seg: task.seg,
        segs,
    });
    cluster.ended = false;
    Ok(Some(task))
}

// The disk failed, or no memory was found.
fn is_failed(fault: PrimaryFault) -> Result<(), NoMemory>
    ensures { OnOk result (fault ≡ PrimaryFault.Failed) }
{
    match fault {
        PrimaryFault::Failed => Ok(()),
        PrimaryFault::Memory => Err(AllocError),
    }
}

// Appends the faults that were met, and the end of the publish in flight.
#[tactic(auto, using(crate::proofs::MetWords::met_flight, crate::proofs::MetWords::met_generation, crate::proofs::MetWords::met_newest))]
fn note_published<D: FaultDir + Drop>(
    ledger: &mut Ledger,
    at: At,
    generation: Gen,
    v: Version,
    before: &[(u64, u64)],
    places: &Vec<Option<NodePlace<D>>>,
)
    requires room { 2 * length before.now + 1 ≤ ledger.old.room }
    requires count { length before.now ≡ ledger.old.nodes }
    requires places { length places.now.items ≡ ledger.old.nodes }
    requires few { length before.now ≤ 255 }
    requires planned { ArePlanned 1 before.now (map (met_in D.planned) places.now.items)
        (printed ledger.old.log) }
    requires unanswered { is_answered at (printed ledger.old.log) ≡ false }
    requires flight { publish_in_flight (printed ledger.old.log) ≡ Some at }
    requires present { generation.0 ≡ generation_of (printed ledger.old.log) }
    requires next { v.0 ≡ newest_version (printed ledger.old.log) + 1 }
    ensures log { ledger.new.log ≡ shown at (Event.Published generation v)
        ∷ with_met false at 1 before.now (map (met_in D.planned) places.now.items) ledger.old.log }
    ensures nodes { ledger.new.nodes ≡ ledger.old.nodes }
    ensures cut { ledger.new.cut ≡ false }
    ensures legal { IsLegalPast ledger.old.nodes (printed (with_met false at 1 before.now
        (map (met_in D.planned) places.now.items) ledger.old.log)) }
    ensures turns { AreInTurn (printed (with_met false at 1 before.now
        (map (met_in D.planned) places.now.items) ledger.old.log)) }
    ensures rule { KeepsRule ledger.old.nodes (printed (with_met false at 1 before.now
        (map (met_in D.planned) places.now.items) ledger.old.log)) at (Event.Published generation v) }
{
    show_met(ledger, at, before, places);
    ledger.show_published(at, generation, v);
}

// Appends the faults that were met, one of them by the primary's disk, and that the publish in flight is refused for it.
fn note_given_up<D: FaultDir + Drop>(
    ledger: &mut Ledger,
    at: At,
    p: NodeNo,
    before: &[(u64, u64)],
    places: &Vec<Option<NodePlace<D>>>,
)
    requires room { 2 * length before.now + 1 ≤ ledger.old.room }
    requires count { length before.now ≡ ledger.old.nodes }
    requires places { length places.now.items ≡ ledger.old.nodes }
    requires few { length before.now ≤ 255 }
    requires planned { ArePlanned 1 before.now (map (met_in D.planned) places.now.items)
        (printed ledger.old.log) }
    requires risen { has_risen_at p.0 1 before.now (map (met_in D.planned) places.now.items) ≡ true }
    requires unanswered { is_answered at (printed ledger.old.log) ≡ false }
    requires flight { publish_in_flight (printed ledger.old.log) ≡ Some at }
    requires primary { primary_of (printed ledger.old.log) ≡ Some p }
    ensures log { ledger.new.log ≡ shown at (Event.Refused Cause.DiskFault)
        ∷ with_met false at 1 before.now (map (met_in D.planned) places.now.items) ledger.old.log }
    ensures nodes { ledger.new.nodes ≡ ledger.old.nodes }
    ensures cut { ledger.new.cut ≡ ledger.old.cut }
    ensures legal { IsLegalPast ledger.old.nodes (printed (with_met false at 1 before.now
        (map (met_in D.planned) places.now.items) ledger.old.log)) }
    ensures turns { AreInTurn (printed (with_met false at 1 before.now
        (map (met_in D.planned) places.now.items) ledger.old.log)) }
    ensures flying { Flying (printed (with_met false at 1 before.now
        (map (met_in D.planned) places.now.items) ledger.old.log)) at }
    ensures rule { KeepsRule ledger.old.nodes (printed (with_met false at 1 before.now
        (map (met_in D.planned) places.now.items) ledger.old.log)) at (Event.Refused Cause.DiskFault) }
{
    show_met(ledger, at, before, places);
    let book = ledger.book();
    book.flies(at);
    book.is_legal();
    let cause = Cause::DiskFault;
    ledger.show(at, Event::Refused { cause });
}

/// Ends the publish in flight with the work that was made for it: the primary writes its files, and searches the next
/// version, which is answered by true. Where its disk failed, by a plan that the history shows, the publish is given up, and
/// false is answered. It fails when out of memory, or out of versions below 2^63: the cluster has ended, and the history is as before.
pub fn end_publish<D: FaultDir + Drop>(
    alloc: Global,
    cluster: &mut ClusterState<D>,
    at: At,
    p: NodeNo,
    work: FlushWork,
) -> Result<bool, NoMemory>
    requires running { cluster.old.ended ≡ false }
    requires node { IsNode cluster.old.nodes p.0 }
    requires primary { primary_of (printed cluster.old.log) ≡ Some p }
    requires flight { publish_in_flight (printed cluster.old.log) ≡ Some at }
    requires work { IsFlushed at cluster.old.log work }
    ensures ok { IfOk result (PublishEnds at cluster.old cluster.new) }
    ensures rest { OnOk result (KeepsButPoint cluster.old cluster.new) }
    ensures err { OnErr result (IsEnded cluster.old cluster.new) }
{
    let book = cluster.ledger.book();
    book.is_flushed(at);
    book.flies(at);
    book.is_unanswered(at);
    book.is_legal();
    files_last();
    let newest = book.newest();
    let generation = Gen(book.generation());
    cluster.ended = true;
    if newest >= (1 << 63) - 1 {
        return Err(AllocError);
    }
    let before = met_before(alloc, &mut cluster.ledger, &cluster.places, 1)?;
    let (mut primary, held) = primary_in(take(&mut cluster.places, p));
    let ended = primary.publish_end(alloc, work);
    let node = Node::Primary(primary);
    put(&mut cluster.places, p, NodePlace { node, held });
    if !are_planned(cluster.ledger.book(), before.as_slice(), &cluster.places) {
        return Err(AllocError);
    }
    match ended {
        Ok(v) => {
            note_published(
                &mut cluster.ledger,
                at,
                generation,
                v,
                before.as_slice(),
                &cluster.places,
            );
            cluster.ended = false;
            Ok(true)
        }
        Err(fault) => {
            is_failed(fault)?;
            if !has_risen(p, before.as_slice(), &cluster.places) {
                return Err(AllocError);
            }
            note_given_up(
                &mut cluster.ledger,
                at,
                p,
                before.as_slice(),
                &cluster.places,
            );
            cluster.ended = false;
            Ok(false)
        }
    }
}

//! A replica that becomes the primary of the next generation.

ghost use Rattle.std.specs.Prelude.{◌≡◌, ◌≤◌, ◌<◌, ◌+◌, ◌*◌, ◌^◌, ◌∷◌, [], None, false, true, map, length, OnOk, OnErr};
ghost use Rattle.history_rules.specs.declared.entry.Event.{Event};
ghost use Rattle.history_rules.specs.Nodes.{IsNode, is_running, primary_of, generation_of, newest_version};
ghost use Rattle.history_rules.specs.Lines.{entries_of_line, is_answered};
ghost use Rattle.history_rules.specs.Rules.{MayPromote};
ghost use Rattle.history_rules.specs.Legal.{IsLegalPast};
ghost use Rattle.history_book.specs.Log.{printed, shown};
ghost use Rattle.history_book.specs.Turns.{AreInTurn};
ghost use Rattle.cluster_state.specs.Met.{ArePlanned, met_in, with_met};
ghost use Rattle.cluster_state.specs.GivesUp.{met_log};
ghost use Rattle.cluster_state.specs.Run.{IsNow, IsEnded};
ghost use Rattle.cluster_recovery.specs.Promotions.{PromotesRest};

use cluster_nodes::{NodePlace, promote_in};
use cluster_state::{ClusterState, are_planned, files_last, met_before, show_met};
use disk_model::FaultDir;
use history_rules::Event;
use merge_tasks::Ledger;
use nrt_base::{At, Gen, NoMemory, NodeNo, Version};
use std::alloc::{AllocError, Global};

/// The generations are below this one.
const GENERATIONS: u64 = 1 << 31;

// Appends the faults that were met, and a promotion.
fn note_promoted<D: FaultDir + Drop>(
    ledger: &mut Ledger,
    at: At,
    n: NodeNo,
    generation: Gen,
    forced: Version,
    v: Version,
    before: &[(u64, u64)],
    places: &Vec<Option<NodePlace<D>>>,
)
    requires room { 2 * length before.now + 1 ≤ ledger.old.room }
    requires count { length before.now ≡ ledger.old.nodes }
    requires places { length places.now.items ≡ ledger.old.nodes }
    requires few { length before.now ≤ 255 }
    requires planned { ArePlanned 1 before.now (map (met_in D.planned) places.now.items)
        (printed ledger.old.log) }
    requires unanswered { is_answered at (printed ledger.old.log) ≡ false }
    requires rule { MayPromote ledger.old.nodes (printed ledger.old.log) n generation forced v }
    ensures log { ledger.new.log ≡ shown at (Event.Promoted n generation forced v)
        ∷ with_met false at 1 before.now (map (met_in D.planned) places.now.items) ledger.old.log }
    ensures nodes { ledger.new.nodes ≡ ledger.old.nodes }
    ensures cut { ledger.new.cut ≡ ledger.old.cut }
    ensures legal { IsLegalPast ledger.old.nodes (printed (with_met false at 1 before.now
        (map (met_in D.planned) places.now.items) ledger.old.log)) }
    ensures turns { AreInTurn (printed (with_met false at 1 before.now
        (map (met_in D.planned) places.now.items) ledger.old.log)) }
{
    show_met(ledger, at, before, places);
    ledger.show_promoted(at, n, generation, forced, v);
}

/// Promotes a replica where no primary runs: it is the primary of the next generation, and its first point has one version above the
/// forced one. No version that was published or promoted is above that. Where its disk failed as files were removed, by a plan that the
/// history shows, that stands before it. It fails when out of memory, or out of generations below 2^31: the cluster has ended, and the
/// history is as before.
pub fn promote_node<D: FaultDir + Drop>(
    alloc: Global,
    cluster: &mut ClusterState<D>,
    at: At,
    n: NodeNo,
    forced: Version,
) -> Result<(), NoMemory>
    requires running { cluster.old.ended ≡ false }
    requires fresh { entries_of_line at (printed cluster.old.log) ≡ [] }
    requires node { IsNode cluster.old.nodes n.0 }
    requires up { is_running n.0 (printed cluster.old.log) ≡ true }
    requires vacant { primary_of (printed cluster.old.log) ≡ None }
    requires low { forced.0 < 2 ^ 62 }
    requires high { newest_version (printed cluster.old.log) ≤ forced.0 }
    ensures ok { OnOk result (IsNow cluster.old cluster.new
        (shown at (Event.Promoted n (record { 0 = generation_of (printed cluster.old.log) + 1 }) forced
        (record { 0 = forced.0 + 1 })) ∷ met_log at cluster.old cluster.new)) }
    ensures rest { OnOk result (PromotesRest D.cells n.0 cluster.old cluster.new) }
    ensures tasks { OnOk result (cluster.new.rest.tasks ≡ cluster.old.rest.tasks) }
    ensures err { OnErr result (IsEnded cluster.old cluster.new) }
{
    let book = cluster.ledger.book();
    book.is_fresh(at);
    book.is_legal();
    book.is_idle();
    files_last();
    let last = book.generation();
    cluster.ended = true;
    if last >= GENERATIONS - 1 {
        return Err(AllocError);
    }
    let generation = Gen(last + 1);
    let v = Version(forced.0 + 1);
    let before = met_before(alloc, &mut cluster.ledger, &cluster.places, 1)?;
    promote_in(alloc, &mut cluster.places, n, generation, forced)?;
    if !are_planned(cluster.ledger.book(), before.as_slice(), &cluster.places) {
        return Err(AllocError);
    }
    note_promoted(
        &mut cluster.ledger,
        at,
        n,
        generation,
        forced,
        v,
        before.as_slice(),
        &cluster.places,
    );
    cluster.ended = false;
    Ok(())
}

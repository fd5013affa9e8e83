//! What the primary accepts, and publishes.

ghost use Rattle.std.specs.Prelude.{◌≡◌, ◌≢◌, ◌+◌, ◌∷◌, [], false, true, ◌==◌, None, Some, OnOk, OnErr, IfOk, IfSome};
ghost use Rattle.history_rules.specs.Nodes.{IsNode, primary_crashes, primary_of, accepted_count};
ghost use Rattle.history_rules.specs.Lines.{entries_of_line, is_answered, last_of_line, start_entry, before_start, publish_in_flight};
ghost use Rattle.history_rules.specs.Commits.{is_disk_fault};
ghost use Rattle.history_tables.specs.Begins.{open_line};
ghost use Rattle.history_book.specs.Log.{printed, shown};
ghost use Rattle.script_serving.specs.Refusals.{without_primary};
ghost use Rattle.cluster_state.specs.Run.{IsNow, KeepsRest, IsEnded};
ghost use Rattle.cluster_state.specs.Writes.{IsFlushed};
ghost use Rattle.cluster_state.specs.Calls.{by_refusal, cut_refusal as cut_refusal_lem, LineRefused, PublishStarts};
ghost use Rattle.cluster_state.specs.GivesUp.{EndsPublish};
ghost use Rattle.cluster_state.specs.Keeping.{KeepsButPoint};

use crate::writes::{accept_at, end_publish, start_publish};
use cluster_state::{ClusterState, Turn, refuse, refuse_turn};
use disk_model::FaultDir;
use documents::Op;
use history_book::Book;
use history_rules::{Cause, Event};
use nrt_base::{At, NoMemory, NodeNo, SegNo};
use segment_steps::{FlushTask, FlushWork};
use std::alloc::Global;

/// Accepts an operation.
pub fn accept<D: FaultDir + Drop>(
    state: &mut ClusterState<D>,
    alloc: Global,
    at: At,
    op: Op,
) -> Result<(), NoMemory>
    requires running { state.old.ended ≡ false }
    requires fresh { entries_of_line at (printed state.old.log) ≡ [] }
    ensures ok { OnOk result (IsNow state.old state.new (shown at
        (by_refusal (without_primary (printed state.old.log))
        (Event.Accepted (accepted_count (printed state.old.log) + 1) op)) ∷ state.old.log)) }
    ensures plans { OnOk result (state.new.rest.plans ≡ state.old.rest.plans) }
    ensures names { OnOk result (state.new.rest.names ≡ state.old.rest.names) }
    ensures rest { OnOk result (KeepsRest state.old state.new) }
    ensures err { OnErr result (IsEnded state.old state.new) }
{
    match state.primary() {
        None => refuse(state, at, Cause::NoPrimary),
        Some(p) => accept_at(alloc, state, at, p, op),
    }
}

/// Accepts an operation again, for a line that has its reply, while a primary runs.
pub fn accept_again<D: FaultDir + Drop>(
    state: &mut ClusterState<D>,
    alloc: Global,
    at: At,
    op: Op,
) -> Result<(), NoMemory>
    requires running { state.old.ended ≡ false }
    requires begun { start_entry at (printed state.old.log) ≡ None }
    requires replied { is_answered at (printed state.old.log) ≡ true }
    requires primary { primary_of (printed state.old.log) ≢ None }
    ensures ok { OnOk result (IsNow state.old state.new (shown at
        (Event.Accepted (accepted_count (printed state.old.log) + 1) op) ∷ state.old.log)) }
    ensures plans { OnOk result (state.new.rest.plans ≡ state.old.rest.plans) }
    ensures names { OnOk result (state.new.rest.names ≡ state.old.rest.names) }
    ensures rest { OnOk result (KeepsRest state.old state.new) }
    ensures err { OnErr result (IsEnded state.old state.new) }
{
    match state.primary() {
        None => unreachable!(),
        Some(p) => accept_at(alloc, state, at, p, op),
    }
}

// Why a publish is refused for its cut, where a merge was cut over since the last point or not.
fn cut_refusal(book: &Book, cut: bool) -> Option<Cause>
    ensures is { result ≡ cut_refusal_lem cut (printed book.now.log) }
    ensures cause { IfSome result (λ cause. is_disk_fault cause ≡ false) }
{
    if book.cut_length() == 0 && !cut {
        Some(Cause::Nothing)
    } else if book.cut_has_put() && book.names() as u64 == SegNo::OF_GENERATION {
        Some(Cause::NamesSpent)
    } else {
        None
    }
}

/// Starts a publish.
#[tactic(auto, using(crate::proofs::CutRows::cut_some, crate::proofs::CutRows::cut_names))]
pub fn publish_start<D: FaultDir + Drop>(
    state: &mut ClusterState<D>,
    alloc: Global,
    at: At,
) -> Result<Turn<FlushTask>, NoMemory>
    requires running { state.old.ended ≡ false }
    requires fresh { entries_of_line at (printed state.old.log) ≡ [] }
    ensures ok { IfOk result (PublishStarts at state.old state.new) }
    ensures rest { OnOk result (KeepsRest state.old state.new) }
    ensures err { OnErr result (IsEnded state.old state.new) }
{
    let Some(p) = state.primary() else {
        return refuse_turn(state, at, Cause::NoPrimary);
    };
    if state.book().publishing().is_some() {
        return Ok(Turn::Busy);
    }
    let cut = state.has_cut_over();
    if let Some(cause) = cut_refusal(state.book(), cut) {
        return refuse_turn(state, at, cause);
    }
    match start_publish(alloc, state, at, p)? {
        Some(task) => Ok(Turn::Work(task)),
        None => refuse_turn(state, at, Cause::TooManySegments),
    }
}

/// Ends a publish with the work that was made for it: its point is there, or it is given up where a disk failed by a plan that the history
/// shows. Where the primary has crashed since, the line is refused as lost.
pub fn publish_end<D: FaultDir + Drop>(
    state: &mut ClusterState<D>,
    alloc: Global,
    at: At,
    work: FlushWork,
) -> Result<(), NoMemory>
    requires running { state.old.ended ≡ false }
    requires started { last_of_line at (printed state.old.log) ≡ Some Event.Publishing }
    requires work { IsFlushed at state.old.log work }
    ensures ok { OnOk result (EndsPublish at state.old state.new) }
    ensures rest { OnOk result (KeepsButPoint state.old state.new) }
    ensures err { OnErr result (IsEnded state.old state.new) }
{
    state.book().is_started(at, &Event::Publishing);
    if !state.book().source_survives(at) {
        return lose_publish(state, at);
    }
    state.book().publish_flies(at);
    match state.primary() {
        None => unreachable!(),
        Some(p) => finish_publish(state, alloc, at, p, work),
    }
}

// Ends the publish in flight, whose primary runs on.
fn finish_publish<D: FaultDir + Drop>(
    state: &mut ClusterState<D>,
    alloc: Global,
    at: At,
    p: NodeNo,
    work: FlushWork,
) -> Result<(), NoMemory>
    requires running { state.old.ended ≡ false }
    requires node { IsNode state.old.nodes p.0 }
    requires primary { primary_of (printed state.old.log) ≡ Some p }
    requires flight { publish_in_flight (printed state.old.log) ≡ Some at }
    requires lives { (primary_crashes (printed state.old.log)
        == primary_crashes (before_start at (printed state.old.log))) ≡ true }
    requires work { IsFlushed at state.old.log work }
    ensures ok { OnOk result (EndsPublish at state.old state.new) }
    ensures rest { OnOk result (KeepsButPoint state.old state.new) }
    ensures err { OnErr result (IsEnded state.old state.new) }
{
    end_publish(alloc, state, at, p, work)?;
    Ok(())
}

// Refuses a publish whose primary has crashed since.
fn lose_publish<D: FaultDir + Drop>(state: &mut ClusterState<D>, at: At) -> Result<(), NoMemory>
    requires running { state.old.ended ≡ false }
    requires started { start_entry at (printed state.old.log) ≡ Some Event.Publishing }
    requires line { open_line at (printed state.old.log) ≢ None }
    requires lost { (primary_crashes (printed state.old.log)
        == primary_crashes (before_start at (printed state.old.log))) ≡ false }
    ensures ok { OnOk result (LineRefused at Cause.Lost state.old state.new) }
    ensures rest { OnOk result (KeepsRest state.old state.new) }
    ensures err { OnErr result (IsEnded state.old state.new) }
{
    state.book().is_legal();
    state.has_no_commit(at);
    let cause = Cause::Lost;
    state.note(at, Event::Refused { cause })
}

//! Promotions of nodes.

ghost use Rattle.std.specs.Prelude.{◌≡◌, ◌∷◌, [], false, OnOk, OnErr};
ghost use Rattle.history_rules.specs.Nodes.{IsNode};
ghost use Rattle.history_rules.specs.Lines.{entries_of_line};
ghost use Rattle.history_book.specs.Log.{printed, shown};
ghost use Rattle.script_serving.specs.declared.script.LineCommand.TheVariants.{Promote};
ghost use Rattle.script_serving.specs.Refusals.{forced_version as forced_version_lem, refusal};
ghost use Rattle.cluster_state.specs.Run.{IsNow, IsEnded};
ghost use Rattle.cluster_state.specs.GivesUp.{met_log};
ghost use Rattle.cluster_recovery.specs.PromoteCalls.{promote_event, ForcesAbove};
ghost use Rattle.cluster_recovery.specs.Promotions.{PromoteTells};

use crate::promoting::promote_node;
use cluster_state::{ClusterState, refuse};
use disk_model::FaultDir;
use history_book::Book;
use history_rules::Cause;
use nrt_base::{At, NoMemory, NodeNo, Version};
use script_serving::Force;
use std::alloc::Global;

// The forced version of a promotion.
fn forced_version(book: &Book, force: Force) -> Version
    ensures { result.0 ≡ forced_version_lem force (printed book.now.log) }
{
    match force {
        Force::Auto => Version(book.newest()),
        Force::Exactly(version) => Version(version),
    }
}

// The forced version of a promotion, or why it is refused: the first cause of its row that holds.
fn forced_above(book: &Book, n: NodeNo, force: Force) -> Result<Version, Cause>
    requires { IsNode book.now.nodes n.0 }
    ensures { ForcesAbove n force (printed book.now.log) result }
{
    let forced = forced_version(book, force);
    if !book.runs(n) {
        Err(Cause::Down)
    } else if book.primary().is_some() {
        Err(Cause::PrimaryUp)
    } else if forced.0 >= 1 << 62 {
        Err(Cause::ForceHigh)
    } else if forced.0 < book.newest() {
        Err(Cause::ForceLow(Version(book.newest())))
    } else {
        Ok(forced)
    }
}

/// Promotes a node, or refuses the line, which then leaves all as it was.
pub fn promote<D: FaultDir + Drop>(
    state: &mut ClusterState<D>,
    alloc: Global,
    at: At,
    n: NodeNo,
    force: Force,
) -> Result<(), NoMemory>
    requires running { state.old.ended ≡ false }
    requires fresh { entries_of_line at (printed state.old.log) ≡ [] }
    requires node { IsNode state.old.nodes n.0 }
    ensures ok { OnOk result (IsNow state.old state.new
        (shown at (promote_event at.lane.0 n force (printed state.old.log))
        ∷ met_log at state.old state.new)) }
    ensures rest { OnOk result (PromoteTells D.cells
        (refusal (Promote n force) at.lane.0 (printed state.old.log)) n.0 state.old state.new) }
    ensures tasks { OnOk result (state.new.rest.tasks ≡ state.old.rest.tasks) }
    ensures err { OnErr result (IsEnded state.old state.new) }
{
    match forced_above(state.book(), n, force) {
        Err(cause) => refuse(state, at, cause),
        Ok(forced) => promote_node(alloc, state, at, n, forced),
    }
}

//! How a line is refused.

ghost use Rattle.std.specs.Prelude.{◌≡◌, ◌∷◌, [], false, OnOk, OnErr, IfOk};
ghost use Rattle.history_rules.specs.Lines.{entries_of_line};
ghost use Rattle.history_rules.specs.Commits.{is_disk_fault};
ghost use Rattle.history_book.specs.Log.{printed};
ghost use Rattle.cluster_state.specs.Run.{KeepsRest, IsEnded};
ghost use Rattle.cluster_state.specs.Calls.{LineRefused, IsRefusedTurn};

use crate::cluster::ClusterState;
use crate::turn::Turn;
use disk_model::FaultDir;
use history_rules::{Cause, Event};
use nrt_base::{At, NoMemory};

/// Refuses a line of which no entry stands there.
pub fn refuse<D: FaultDir + Drop>(
    state: &mut ClusterState<D>,
    at: At,
    cause: Cause,
) -> Result<(), NoMemory>
    requires running { state.old.ended ≡ false }
    requires fresh { entries_of_line at (printed state.old.log) ≡ [] }
    requires cause { is_disk_fault cause ≡ false }
    ensures ok { OnOk result (LineRefused at cause state.old state.new) }
    ensures tasks { OnOk result (state.new.rest.tasks ≡ state.old.rest.tasks) }
    ensures jobs { OnOk result (state.new.rest.jobs ≡ state.old.rest.jobs) }
    ensures plans { OnOk result (state.new.rest.plans ≡ state.old.rest.plans) }
    ensures names { OnOk result (state.new.rest.names ≡ state.old.rest.names) }
    ensures rest { OnOk result (KeepsRest state.old state.new) }
    ensures err { OnErr result (IsEnded state.old state.new) }
{
    state.is_apart(at);
    state.has_no_commit(at);
    state.note(at, Event::Refused { cause })
}

/// Refuses a line of which no entry stands there, where it would have handed out work.
pub fn refuse_turn<D: FaultDir + Drop, W>(
    state: &mut ClusterState<D>,
    at: At,
    cause: Cause,
) -> Result<Turn<W>, NoMemory>
    requires running { state.old.ended ≡ false }
    requires fresh { entries_of_line at (printed state.old.log) ≡ [] }
    requires cause { is_disk_fault cause ≡ false }
    ensures ok { IfOk result (IsRefusedTurn at cause state.old state.new) }
    ensures plans { OnOk result (state.new.rest.plans ≡ state.old.rest.plans) }
    ensures names { OnOk result (state.new.rest.names ≡ state.old.rest.names) }
    ensures rest { OnOk result (KeepsRest state.old state.new) }
    ensures err { OnErr result (IsEnded state.old state.new) }
{
    refuse(state, at, cause)?;
    Ok(Turn::Done)
}

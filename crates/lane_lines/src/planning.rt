//! Faults that are planned.

ghost use Rattle.std.specs.Prelude.{◌≡◌, [], true, OnOk};
ghost use Rattle.history_rules.specs.Nodes.{IsNode};
ghost use Rattle.history_rules.specs.Lines.{entries_of_line};
ghost use Rattle.history_book.specs.Log.{printed};
ghost use Rattle.script_serving.specs.Form.{is_plan};
ghost use Rattle.script_serving.specs.declared.script.LineCommand.TheVariants.{Fault};
ghost use Rattle.lane_threads.specs.Seats.{log_seen, IsLaneSeat, EndsItsLine};

use cluster_site::{Gate, Lanes, Site, enter_site};
use disk_model::FaultDir;
use hist_lock::LaneSeat;
use history_rules::FaultPlan;
use lane_threads::leave;
use nrt_base::{At, NoMemory, NodeNo};
use std::sync::Wait;

/// Plans a fault at a node.
pub fn fault<R: Wait, D: FaultDir + Drop, G: Gate>(
    lanes: &Lanes<'_, R, D, G>,
    seat: &mut LaneSeat<Site<D>>,
    at: At,
    n: NodeNo,
    plan: FaultPlan,
) -> Result<(), NoMemory>
    requires seat { IsLaneSeat lanes.now.setup.log lanes.now.lock.now at.lane.0 seat.old }
    requires fresh { entries_of_line at (printed (log_seen seat.old)) ≡ [] }
    requires node { IsNode lanes.now.setup.nodes n.0 }
    requires plan { is_plan plan ≡ true }
    ensures { OnOk result (EndsItsLine lanes.now.setup.log lanes.now.lock.now (Fault n plan) at
        seat.old seat.new) }
{
    let mut held = enter_site(lanes, seat, at)?;
    let answer = held.value().fault(at, n, plan);
    leave(lanes.lock, at.lane, seat, held);
    answer
}

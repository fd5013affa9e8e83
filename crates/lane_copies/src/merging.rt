//! Merges that start.

ghost use Rattle.std.specs.Prelude.{◌≡◌, ◌≤◌, [], OnOk};
ghost use Rattle.history_rules.specs.Lines.{entries_of_line};
ghost use Rattle.history_book.specs.Log.{printed};
ghost use Rattle.script_serving.specs.declared.script.LineCommand.TheVariants.{Merge};
ghost use Rattle.lane_threads.specs.Seats.{log_seen, IsLaneSeat, EndsItsLine};

use cluster_site::{Gate, Lanes, Site, enter_site};
use disk_model::FaultDir;
use hist_lock::LaneSeat;
use lane_threads::leave;
use nrt_base::{At, NoMemory};
use std::sync::Wait;

/// Starts a merge, and wakes the workers for its first task.
pub fn merge<R: Wait, D: FaultDir + Drop, G: Gate>(
    lanes: &Lanes<'_, R, D, G>,
    seat: &mut LaneSeat<Site<D>>,
    at: At,
    factor: u32,
) -> Result<(), NoMemory>
    requires seat { IsLaneSeat lanes.now.setup.log lanes.now.lock.now at.lane.0 seat.old }
    requires fresh { entries_of_line at (printed (log_seen seat.old)) ≡ [] }
    requires factor { 2 ≤ factor }
    ensures { OnOk result (EndsItsLine lanes.now.setup.log lanes.now.lock.now (Merge factor) at
        seat.old seat.new) }
{
    let mut held = enter_site(lanes, seat, at)?;
    let answer = held.value().merge_start(lanes.alloc, at, factor);
    leave(lanes.lock, at.lane, seat, held);
    lanes.halt.stir();
    answer
}

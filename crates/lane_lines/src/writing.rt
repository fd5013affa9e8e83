//! Operations that are accepted.

ghost use Rattle.std.specs.Prelude.{◌≡◌, [], OnOk};
ghost use Rattle.history_rules.specs.Lines.{entries_of_line};
ghost use Rattle.history_book.specs.Log.{printed};
ghost use Rattle.cluster_site.specs.Given.{writing_command};
ghost use Rattle.lane_threads.specs.Seats.{log_seen, IsLaneSeat, EndsItsLine};

use cluster_site::{Gate, Lanes, Site, enter_site};
use disk_model::FaultDir;
use documents::Op;
use hist_lock::LaneSeat;
use lane_threads::leave;
use nrt_base::{At, NoMemory};
use std::sync::Wait;

/// Accepts an operation: a put, a delete or a drop.
pub fn write<R: Wait, D: FaultDir + Drop, G: Gate>(
    lanes: &Lanes<'_, R, D, G>,
    seat: &mut LaneSeat<Site<D>>,
    at: At,
    op: Op,
) -> Result<(), NoMemory>
    requires seat { IsLaneSeat lanes.now.setup.log lanes.now.lock.now at.lane.0 seat.old }
    requires fresh { entries_of_line at (printed (log_seen seat.old)) ≡ [] }
    ensures { OnOk result (EndsItsLine lanes.now.setup.log
        lanes.now.lock.now (writing_command op) at seat.old seat.new) }
{
    let mut held = enter_site(lanes, seat, at)?;
    let answer = held.value().accept(lanes.alloc, at, op);
    leave(lanes.lock, at.lane, seat, held);
    answer
}

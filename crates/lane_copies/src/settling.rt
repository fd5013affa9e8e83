//! Settles: copies to every replica that runs, one after another.

ghost use Rattle.std.specs.Prelude.{◌≡◌, [], OnOk, IfOk};
ghost use Rattle.history_rules.specs.Lines.{entries_of_line};
ghost use Rattle.history_book.specs.Log.{printed};
ghost use Rattle.script_serving.specs.declared.script.LineCommand.TheVariants.{Settle};
ghost use Rattle.lane_threads.specs.Seats.{log_seen, IsLaneSeat, EndsItsLine};
ghost use Rattle.cluster_site.specs.Flights.{WaitsWhere};
ghost use Rattle.cluster_site.specs.Turns.{NeverWaits, TurnsLine};
ghost use Rattle.lane_copies.specs.Jobs.{HasBegunToSettle, IsStillSettling, IsCopiedSomewhere, BeginsNextJob, IsSettlingOn};

use crate::calls::next_job;
use crate::jobs::bring_over;
use cluster_nodes::{CopyTask, SettleTask};
use cluster_site::{Gate, Lanes, Site, Turn, enter_site, give_way};
use disk_model::FaultDir;
use hist_lock::LaneSeat;
use lane_threads::leave;
use nrt_base::{At, NoMemory};
use std::sync::Wait;

// Starts a settle.
fn start<R: Wait, D: FaultDir + Drop, G: Gate>(
    lanes: &Lanes<'_, R, D, G>,
    seat: &mut LaneSeat<Site<D>>,
    at: At,
) -> Result<Turn<SettleTask>, NoMemory>
    requires seat { IsLaneSeat lanes.now.setup.log lanes.now.lock.now at.lane.0 seat.old }
    requires fresh { entries_of_line at (printed (log_seen seat.old)) ≡ [] }
    ensures { IfOk result (TurnsLine lanes.now.setup.log (IsSettlingOn lanes.now.setup.nodes at)
        NeverWaits lanes.now.lock.now Settle at seat.old seat.new) }
{
    let mut held = enter_site(lanes, seat, at)?;
    let answer = held.value().settle_start(lanes.alloc, at);
    leave(lanes.lock, at.lane, seat, held);
    answer
}

// Begins the job of the next replica that is left.
fn begin<R: Wait, D: FaultDir + Drop, G: Gate>(
    lanes: &Lanes<'_, R, D, G>,
    seat: &mut LaneSeat<Site<D>>,
    at: At,
    left: &mut SettleTask,
) -> Result<Turn<CopyTask>, NoMemory>
    requires seat { IsLaneSeat lanes.now.setup.log lanes.now.lock.now at.lane.0 seat.old }
    requires started { HasBegunToSettle at left.old (log_seen seat.old) }
    requires settling { IsStillSettling lanes.now.setup.nodes at left.old (log_seen seat.old) }
    ensures turns { IfOk result (TurnsLine lanes.now.setup.log
        (BeginsNextJob lanes.now.setup.nodes at left.new)
        (IsSettlingOn lanes.now.setup.nodes at left.new) lanes.now.lock.now Settle at
        seat.old seat.new) }
    ensures waits { IfOk result (WaitsWhere IsCopiedSomewhere (log_seen seat.new)) }
{
    let mut held = enter_site(lanes, seat, at)?;
    let answer = next_job(held.value(), lanes.alloc, at, left);
    leave(lanes.lock, at.lane, seat, held);
    answer
}

// Settles on with what is left, until the line has its reply.
fn settle_on<R: Wait, D: FaultDir + Drop, G: Gate>(
    lanes: &Lanes<'_, R, D, G>,
    seat: &mut LaneSeat<Site<D>>,
    at: At,
    mut left: SettleTask,
) -> Result<(), NoMemory>
    requires seat { IsLaneSeat lanes.now.setup.log lanes.now.lock.now at.lane.0 seat.old }
    requires settling { IsSettlingOn lanes.now.setup.nodes at left (log_seen seat.old) }
    ensures { OnOk result (EndsItsLine lanes.now.setup.log lanes.now.lock.now Settle at seat.old
        seat.new) }
{
    for _ in lanes.rt.forever() {
        match begin(lanes, seat, at, &mut left)? {
            Turn::Busy => give_way(lanes.halt, seat)?,
            Turn::Done => return Ok(()),
            Turn::Work(task) => bring_over(lanes, seat, at, &task)?,
        }
    }
    unreachable!()
}

/// Copies the newest point to every running replica. While a job for it runs at the next one the line waits.
pub fn settle<R: Wait, D: FaultDir + Drop, G: Gate>(
    lanes: &Lanes<'_, R, D, G>,
    seat: &mut LaneSeat<Site<D>>,
    at: At,
) -> Result<(), NoMemory>
    requires seat { IsLaneSeat lanes.now.setup.log lanes.now.lock.now at.lane.0 seat.old }
    requires fresh { entries_of_line at (printed (log_seen seat.old)) ≡ [] }
    ensures { OnOk result (EndsItsLine lanes.now.setup.log lanes.now.lock.now Settle at seat.old
        seat.new) }
{
    match start(lanes, seat, at)? {
        Turn::Busy => unreachable!(),
        Turn::Done => Ok(()),
        Turn::Work(left) => settle_on(lanes, seat, at, left),
    }
}

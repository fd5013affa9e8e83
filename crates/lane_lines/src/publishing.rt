//! Publishes. Segments are built outside the lock.

ghost use Rattle.std.specs.Prelude.{◌≡◌, [], Some, OnOk, IfOk};
ghost use Rattle.history_rules.specs.declared.entry.Event.{Event};
ghost use Rattle.history_rules.specs.Lines.{entries_of_line, last_of_line};
ghost use Rattle.history_book.specs.Log.{printed};
ghost use Rattle.script_serving.specs.declared.script.LineCommand.TheVariants.{Publish};
ghost use Rattle.cluster_state.specs.Writes.{IsFlushed};
ghost use Rattle.lane_threads.specs.Seats.{log_seen, IsLaneSeat, EndsItsLine};
ghost use Rattle.cluster_site.specs.Flights.{HasPublish, WaitsWhere};
ghost use Rattle.cluster_site.specs.Turns.{IsUnbegunIn, TurnsLine};
ghost use Rattle.lane_lines.specs.Flushes.{IsFlushing};

use cluster_site::{Gate, Lanes, Place, Site, Turn, enter_site, give_way};
use disk_model::FaultDir;
use hist_lock::LaneSeat;
use lane_threads::leave;
use nrt_base::{At, NoMemory};
use segment_steps::{FlushTask, FlushWork, flush};
use std::sync::Wait;

// Starts a publish, where no other line's is in flight.
fn start<R: Wait, D: FaultDir + Drop, G: Gate>(
    lanes: &Lanes<'_, R, D, G>,
    seat: &mut LaneSeat<Site<D>>,
    at: At,
) -> Result<Turn<FlushTask>, NoMemory>
    requires seat { IsLaneSeat lanes.now.setup.log lanes.now.lock.now at.lane.0 seat.old }
    requires fresh { entries_of_line at (printed (log_seen seat.old)) ≡ [] }
    ensures turns { IfOk result (TurnsLine lanes.now.setup.log (IsFlushing at) (IsUnbegunIn at)
        lanes.now.lock.now Publish at seat.old seat.new) }
    ensures waits { IfOk result (WaitsWhere HasPublish (log_seen seat.new)) }
{
    let mut held = enter_site(lanes, seat, at)?;
    let answer = held.value().publish_start(lanes.alloc, at);
    leave(lanes.lock, at.lane, seat, held);
    answer
}

// Ends a publish with the work that was made for it.
fn end<R: Wait, D: FaultDir + Drop, G: Gate>(
    lanes: &Lanes<'_, R, D, G>,
    seat: &mut LaneSeat<Site<D>>,
    at: At,
    work: FlushWork,
) -> Result<(), NoMemory>
    requires seat { IsLaneSeat lanes.now.setup.log lanes.now.lock.now at.lane.0 seat.old }
    requires started { last_of_line at (printed (log_seen seat.old)) ≡ Some Event.Publishing }
    requires work { IsFlushed at (log_seen seat.old) work }
    ensures { OnOk result (EndsItsLine lanes.now.setup.log lanes.now.lock.now Publish at seat.old
        seat.new) }
{
    let mut held = enter_site(lanes, seat, at)?;
    let answer = held.value().publish_end(lanes.alloc, at, work);
    leave(lanes.lock, at.lane, seat, held);
    answer
}

// Builds the segment of a publish that was handed out, and ends the publish with it.
fn build<R: Wait, D: FaultDir + Drop, G: Gate>(
    lanes: &Lanes<'_, R, D, G>,
    seat: &mut LaneSeat<Site<D>>,
    at: At,
    task: &FlushTask,
) -> Result<(), NoMemory>
    requires seat { IsLaneSeat lanes.now.setup.log lanes.now.lock.now at.lane.0 seat.old }
    requires flushing { IsFlushing at task.now (log_seen seat.old) }
    ensures { OnOk result (EndsItsLine lanes.now.setup.log lanes.now.lock.now Publish at seat.old
        seat.new) }
{
    lanes.gate.pass(Place::Build(at.line));
    let work = flush(lanes.alloc, task)?;
    end(lanes, seat, at, work)
}

/// Publishes. While another line's publish is in flight the line waits.
pub fn publish<R: Wait, D: FaultDir + Drop, G: Gate>(
    lanes: &Lanes<'_, R, D, G>,
    seat: &mut LaneSeat<Site<D>>,
    at: At,
) -> Result<(), NoMemory>
    requires seat { IsLaneSeat lanes.now.setup.log lanes.now.lock.now at.lane.0 seat.old }
    requires fresh { entries_of_line at (printed (log_seen seat.old)) ≡ [] }
    ensures { OnOk result (EndsItsLine lanes.now.setup.log lanes.now.lock.now Publish at seat.old
        seat.new) }
{
    for _ in lanes.rt.forever() {
        match start(lanes, seat, at)? {
            Turn::Busy => give_way(lanes.halt, seat)?,
            Turn::Done => return Ok(()),
            Turn::Work(task) => return build(lanes, seat, at, &task),
        }
    }
    unreachable!()
}

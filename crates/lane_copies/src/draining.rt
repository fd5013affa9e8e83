//! Drains: a lane does tasks until as many count as its line asks for, or none is posted.

ghost use Rattle.std.specs.Prelude.{◌≡◌, [], false, Some, IfOk, OnOk, OnErr};
ghost use Rattle.history_rules.specs.Lines.{entries_of_line};
ghost use Rattle.history_book.specs.Log.{printed};
ghost use Rattle.script_serving.specs.declared.script.LineCommand.TheVariants.{Drain};
ghost use Rattle.cluster_site.specs.Sites.{DoesAtSite};
ghost use Rattle.cluster_site.specs.Turns.{IsUnbegunIn, NeverWaits, TurnShows, TurnsLine};
ghost use Rattle.lane_threads.specs.Seats.{log_seen, IsLaneSeat, EndsItsLine};
ghost use Rattle.lane_copies.specs.Taken.{WorksOn};

use crate::tasks::do_first;
use cluster_site::{Gate, Lanes, Site, Turn, enter_site};
use disk_model::FaultDir;
use hist_lock::LaneSeat;
use lane_threads::leave;
use nrt_base::{At, NoMemory};
use std::alloc::AllocError;
use std::sync::Wait;

/// Ends a drain, where enough tasks count for it or none is posted. That no more count than it asks for is known of each cluster, but not
/// of a value behind a lock.
pub fn end_drain<D: FaultDir + Drop>(
    site: &mut Site<D>,
    at: At,
    most: u32,
) -> Result<Turn<()>, NoMemory>
    requires running { site.old.run.ended ≡ false }
    requires fresh { entries_of_line at (printed site.old.run.log) ≡ [] }
    ensures ok { IfOk result (TurnShows (λ w. NeverWaits) (IsUnbegunIn at) at site.new.run) }
    ensures err { OnErr result (site.new.run.log ≡ site.old.run.log) }
    ensures does { OnOk result (DoesAtSite (Drain most) at site.old site.new) }
{
    let done = site.counted(at);
    if done > most {
        return Err(AllocError);
    }
    site.drained(at, most)
}

// Ends a drain, or waits.
fn end<R: Wait, D: FaultDir + Drop, G: Gate>(
    lanes: &Lanes<'_, R, D, G>,
    seat: &mut LaneSeat<Site<D>>,
    at: At,
    most: u32,
) -> Result<Turn<()>, NoMemory>
    requires seat { IsLaneSeat lanes.now.setup.log lanes.now.lock.now at.lane.0 seat.old }
    requires fresh { entries_of_line at (printed (log_seen seat.old)) ≡ [] }
    ensures { IfOk result (TurnsLine lanes.now.setup.log (λ w. NeverWaits) (IsUnbegunIn at)
        lanes.now.lock.now (Drain most) at seat.old seat.new) }
{
    let mut held = enter_site(lanes, seat, at)?;
    let answer = end_drain(held.value(), at, most);
    leave(lanes.lock, at.lane, seat, held);
    answer
}

// Does the task that was posted first, for a drain line. Where another has taken the last one there is none, and the line does not wait.
fn help<R: Wait, D: FaultDir + Drop, G: Gate>(
    lanes: &Lanes<'_, R, D, G>,
    seat: &mut LaneSeat<Site<D>>,
    at: At,
) -> Result<(), NoMemory>
    requires { IsLaneSeat lanes.now.setup.log lanes.now.lock.now at.lane.0 seat.old }
    ensures { OnOk result (WorksOn lanes.now.setup.log lanes.now.lock.now at.lane.0 (Some at)
        seat.old seat.new) }
{
    do_first(lanes, seat, at, Some(at))?;
    Ok(())
}

/// Does tasks of merges, until as many count for the line as it asks for, or none is posted.
pub fn drain<R: Wait, D: FaultDir + Drop, G: Gate>(
    lanes: &Lanes<'_, R, D, G>,
    seat: &mut LaneSeat<Site<D>>,
    at: At,
    most: u32,
) -> Result<(), NoMemory>
    requires seat { IsLaneSeat lanes.now.setup.log lanes.now.lock.now at.lane.0 seat.old }
    requires fresh { entries_of_line at (printed (log_seen seat.old)) ≡ [] }
    ensures { OnOk result (EndsItsLine lanes.now.setup.log lanes.now.lock.now (Drain most) at
        seat.old seat.new) }
{
    for _ in lanes.rt.forever() {
        match end(lanes, seat, at, most)? {
            Turn::Work(()) => unreachable!(),
            Turn::Done => return Ok(()),
            Turn::Busy => help(lanes, seat, at)?,
        }
    }
    unreachable!()
}

//! One section of a line: the lock is taken, calls are made, and the lock is given back.

ghost use Rattle.std.specs.Prelude.{◌≡◌, Bool, true, false, reverse, IfOk};
ghost use Rattle.hist_lock.specs.History.{Extends};
ghost use Rattle.hist_lock.specs.Seats.{history_seen};
ghost use Rattle.history_book.specs.Log.{name_of};
ghost use Rattle.lane_threads.specs.Owes.{FaultsFit, IsSettledLog};
ghost use Rattle.lane_threads.specs.Seats.{log_seen, IsLaneSeat, IsLaneInside, HasEntered};

use crate::run::{LaneRun, Setup};
use hist_lock::{Held, HistLock, LaneSeat};
use nrt_base::{At, LaneNo, NoMemory};
use std::alloc::AllocError;
use std::sync::Wait;

/// Whether lines may go on with a run: it has not ended, and was set up so.
pub fn is_running<T: LaneRun>(run: &T, setup: Setup) -> bool
    ensures running { result ≡ true → T.ended run.now ≡ false }
    ensures setup { result ≡ true → T.set_up run.now ≡ setup }
    ensures settled { result ≡ true → IsSettledLog setup.log (T.log run.now) }
{
    !run.has_ended() && run.setup() == setup
}

// Whether lines may go on with the run that a seat holds.
fn holds_running<T: LaneRun>(held: &mut Held<T>, setup: Setup) -> bool
    ensures running { result ≡ true → T.ended held.old ≡ false }
    ensures setup { result ≡ true → T.set_up held.old ≡ setup }
    ensures settled { result ≡ true → IsSettledLog setup.log (T.log held.old) }
    ensures same { held.new ≡ held.old }
{
    is_running(held.value(), setup)
}

/// Takes the lock for a line, where the value has not ended and was set up so.
///
/// Else the lock is given back at once.
pub fn enter<R: Wait, T: LaneRun>(
    rt: &R,
    lock: &HistLock<T>,
    setup: Setup,
    at: At,
    seat: &mut LaneSeat<T>,
) -> Result<Held<T>, NoMemory>
    requires { IsLaneSeat setup.log lock.now at.lane.0 seat.old }
    ensures running { IfOk result (λ run. T.ended run ≡ false) }
    ensures setup { IfOk result (λ run. T.set_up run ≡ setup) }
    ensures entered { IfOk result (λ run.
        HasEntered setup.log lock.now at seat.old seat.new (T.log run)) }
{
    let mut held = lock.lock(rt, seat);
    if !holds_running(&mut held, setup) {
        lock.unlock(seat, held);
        return Err(AllocError);
    }
    Ok(held)
}

/// Gives the lock back. What was appended must be the lane's, or nobody's.
pub fn leave<T: LaneRun>(lock: &HistLock<T>, lane: LaneNo, seat: &mut LaneSeat<T>, held: Held<T>)
    requires inside { IsLaneInside lock.now lane.0 seat.old }
    requires extends { Extends name_of lane.0 (history_seen seat.old) (reverse (T.log held)) }
    ensures seen { log_seen seat.new ≡ T.log held }
    ensures seat { (logged : Bool) → FaultsFit logged (T.log held)
        → IsLaneSeat logged lock.now lane.0 seat.new }
{
    lock.unlock(seat, held);
}

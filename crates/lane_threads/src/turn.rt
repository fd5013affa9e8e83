//! The turn of a lane or of a worker in a phase.

ghost use Rattle.std.specs.Prelude.{◌≡◌, ◌<◌, ◌≤◌, true, false, IsTrue, OnOk};
ghost use Rattle.script_serving.specs.Form.{is_phase};
ghost use Rattle.lane_threads.specs.Parts.{HasHeard, IsIdleLane, MayRunPart, TakesTurn};

use crate::halt::Halt;
use crate::lane::{Lane, RunsLines};
use crate::part::run_part;
use crate::run::LaneRun;
use hist_lock::HistLock;
use nrt_base::{LaneNo, NoMemory};
use script_serving::Phase;
use std::alloc::AllocError;
use std::sync::Wait;

/// How many lanes there are. Who has a greater number is a worker.
const LANES: u8 = 8;

// Whether this number is a worker's.
fn is_worker(number: LaneNo) -> bool
    ensures beyond { result ≡ true → 8 < number.0 }
    ensures within { result ≡ false → number.0 ≤ 8 }
{
    number.0 > LANES
}

/// Does tasks that are posted, until the lanes of the phase have ended and none is left. Where a lane or a worker has failed, it
/// fails too.
pub fn do_tasks<R: Wait, T: LaneRun, Q: RunsLines<T>>(
    rt: &R,
    lock: &HistLock<T>,
    halt: &Halt,
    runner: &Q,
    lane: &mut Lane<T>,
) -> Result<(), NoMemory>
    requires { IsIdleLane (Q.set_up runner.now).log lock.now lane.old }
    ensures number { lane.new.number ≡ lane.old.number }
    ensures heard { OnOk result (HasHeard (Q.set_up runner.now).log lock.now lane.old lane.new) }
{
    for _ in rt.forever() {
        // A lane that ends behind this glance may have posted a task before.
        let glance = halt.glance();
        if glance.has_failed() {
            return Err(AllocError);
        }
        if runner.do_task(rt, lock, halt, lane)? {
            continue;
        }
        if glance.is_over() {
            return Ok(());
        }
        halt.sleep_after(rt, glance);
    }
    unreachable!()
}

// A worker's part of a phase: tasks. It is noted whether it failed.
fn run_worker<R: Wait, T: LaneRun, Q: RunsLines<T>>(
    rt: &R,
    lock: &HistLock<T>,
    halt: &Halt,
    runner: &Q,
    lane: &mut Lane<T>,
)
    requires { IsIdleLane (Q.set_up runner.now).log lock.now lane.old }
    ensures number { lane.new.number ≡ lane.old.number }
    ensures heard { lane.new.failed ≡ false
        → HasHeard (Q.set_up runner.now).log lock.now lane.old lane.new }
{
    let done = do_tasks(rt, lock, halt, runner, lane);
    if done.is_err() {
        halt.set();
    }
    lane.failed = done.is_err();
}

/// A lane runs its part of a phase and says that it has ended. A worker does tasks beside the lanes.
pub fn take_turn<R: Wait, T: LaneRun, Q: RunsLines<T>>(
    rt: &R,
    lock: &HistLock<T>,
    halt: &Halt,
    runner: &Q,
    lane: &mut Lane<T>,
    phase: &Phase,
)
    requires phase { IsTrue (is_phase phase.now) }
    requires may { MayRunPart (Q.set_up runner.now).log lock.now (Q.runs runner.now)
        phase.now lane.old }
    ensures { TakesTurn (Q.set_up runner.now).log lock.now phase.now lane.old lane.new }
{
    if is_worker(lane.number) {
        run_worker(rt, lock, halt, runner, lane);
        return;
    }
    run_part(rt, lock, halt, runner, lane, phase);
    halt.end_lane();
}

//! A lane's part of a phase: its lines, one after another.

ghost use Rattle.std.specs.Prelude.{◌≡◌, true, IsTrue, OnOk};
ghost use Rattle.script_serving.specs.Form.{is_phase};
ghost use Rattle.script_serving.specs.Lines.{lines_under};
ghost use Rattle.history_book.specs.Log.{printed};
ghost use Rattle.lane_threads.specs.Walks.{AreUnbegun, ArePart};
ghost use Rattle.lane_threads.specs.Seats.{log_seen, IsLaneSeat};
ghost use Rattle.lane_threads.specs.Parts.{all_run, EndsItsPart, MayRunPart, RunsPart};

use crate::halt::Halt;
use crate::lane::{Lane, RunsLines};
use crate::run::LaneRun;
use hist_lock::{HistLock, LaneSeat};
use nrt_base::{LaneNo, NoMemory};
use script_serving::{Line, Phase};
use std::alloc::AllocError;
use std::sync::Wait;

// Runs lines of one lane of which no entry stands there, until one fails in this lane or in another.
fn run_lines<R: Wait, T: LaneRun, Q: RunsLines<T>>(
    rt: &R,
    lock: &HistLock<T>,
    halt: &Halt,
    runner: &Q,
    seat: &mut LaneSeat<T>,
    lane: LaneNo,
    lines: &[Line],
) -> Result<(), NoMemory>
    requires seat { IsLaneSeat (Q.set_up runner.now).log lock.now lane.0 seat.old }
    requires part { ArePart lane.0 lines.now }
    requires runs { IsTrue (all_run (Q.runs runner.now) lines.now) }
    requires fresh { AreUnbegun lines.now (printed (log_seen seat.old)) }
    ensures { OnOk result (EndsItsPart (Q.set_up runner.now).log lock.now lane.0 lines.now
        seat.old seat.new) }
{
    for line in lines {
        if halt.is_set() {
            return Err(AllocError);
        }
        runner.run_line(rt, lock, halt, seat, line)?;
    }
    Ok(())
}

// The lines of a lane in a phase.
fn lines_for(phase: &Phase, lane: LaneNo) -> &[Line]
    requires { IsTrue (is_phase phase.now) }
    ensures { result.now ≡ lines_under lane.0 phase.now.lanes }
{
    for (number, lines) in phase.lanes.as_slice() {
        if number.0 == lane.0 {
            return lines.as_slice();
        }
    }
    &[]
}

/// Runs a lane's part of a phase, and notes whether it failed.
pub fn run_part<R: Wait, T: LaneRun, Q: RunsLines<T>>(
    rt: &R,
    lock: &HistLock<T>,
    halt: &Halt,
    runner: &Q,
    lane: &mut Lane<T>,
    phase: &Phase,
)
    requires phase { IsTrue (is_phase phase.now) }
    requires may { MayRunPart (Q.set_up runner.now).log lock.now (Q.runs runner.now)
        phase.now lane.old }
    ensures { RunsPart (Q.set_up runner.now).log lock.now phase.now lane.old lane.new }
{
    let number = lane.number;
    let lines = lines_for(phase, number);
    let done = run_lines(rt, lock, halt, runner, &mut lane.seat, number, lines);
    if done.is_err() {
        halt.set();
    }
    lane.failed = done.is_err();
}

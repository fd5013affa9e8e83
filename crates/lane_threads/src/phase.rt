//! A phase: all lanes run their parts at once, with the workers beside them, and then each hears of what all did.

ghost use Rattle.std.specs.Prelude.{◌≡◌, ◌<◌, false, IsTrue, OnOk, length};
ghost use Rattle.std.specs.Fork.{AcceptsEach};
ghost use denote.Param.Send.{IsSync};
ghost use Rattle.nrt_base.specs.contracts.list.List as list;
ghost use Rattle.script_serving.specs.contracts.script.Phase as script_phase;
ghost use Rattle.script_serving.specs.declared.script.Phase.{Phase};
ghost use Rattle.script_serving.specs.Form.{is_phase};
ghost use Rattle.lane_threads.specs.Parts.{HasHeard, IsIdleLane, MayRunPart, TakesTurn};
ghost use Rattle.lane_threads.specs.Calls.{AreChanged};
ghost use Rattle.lane_threads.specs.Lanes.{AreCrew, IsHubSeat, EachLane, EachChange, CrewDoesPhase};

use crate::halt::Halt;
use crate::hearing::tell_all;
use crate::lane::{Lane, RunsLines};
use crate::run::LaneRun;
use crate::turn::{do_tasks, take_turn};
use hist_lock::{HistLock, LaneSeat};
use nrt_base::{LaneNo, List, NoMemory};
use script_serving::{Line, Phase};
use std::alloc::AllocError;
use std::sync::Wait;
use std::thread::{Threads, for_each_mut, join_mut};

/// How many seats a crew has without workers. As many workers it has at most.
const LANES: usize = 8;

// What stands for a phase. Where a type is a parameter, that threads may share it is a bound.
trait AsPhase {
    ghost phase: { Self → Phase };

    fn as_phase(&self) -> &Phase
        ensures { result.now ≡ phase self.now };
}

impl AsPhase for Phase {
    ghost phase = { λ p. p };

    fn as_phase(&self) -> &Phase {
        self
    }
}

// Lists that the check finds to be shared by threads.
fn list_shared<T: Sync>()
    ensures { IsSync (list.the_row T.row) }
{
    shared::<List<T>>();
}

fn shared<T: Sync>()
    ensures { IsSync T.row }
{}

/// Threads may share a phase. A law.
pub fn phase_is_shared()
    ensures { IsSync script_phase.the_row }
{
    list_shared::<(LaneNo, List<Line>)>();
}

// Whether some lane has failed.
fn any_failed<T: LaneRun>(lanes: &[Lane<T>]) -> bool
    ensures { result ≡ false → EachLane (λ lane. lane.failed ≡ false) lanes.now }
{
    for lane in lanes {
        if lane.failed {
            return true;
        }
    }
    false
}

// How many threads the lanes of a phase are worth: one where at most one has lines, else one for each.
fn threads_for(phase: &Phase) -> usize
    ensures { 0 < result }
{
    if phase.lanes.as_slice().len() <= 1 {
        1
    } else {
        LANES
    }
}

// Calls f at each place, in so many threads at most.
fn at_each<R: Threads + Sync, T: Send, F: Fn(usize, &mut T) + Sync>(
    rt: &R,
    f: &F,
    threads: usize,
    items: &mut [T],
)
    requires threads { 0 < threads }
    requires accepts { AcceptsEach F.Fn f.now items.old }
    ensures { AreChanged F.Fn f.now items.old items.new }
{
    for_each_mut(rt, items, threads, f)
}

// Calls f at each place of both slices at once. The second has a thread that is made for it, or comes last where none can be made.
fn beside<R: Threads + Sync, T: Send, F: Fn(usize, &mut T) + Sync>(
    rt: &R,
    f: &F,
    threads: usize,
    first: &mut [T],
    last: &mut [T],
)
    requires threads { 0 < threads }
    requires first { AcceptsEach F.Fn f.now first.old }
    requires last { AcceptsEach F.Fn f.now last.old }
    ensures first { AreChanged F.Fn f.now first.old first.new }
    ensures last { AreChanged F.Fn f.now last.old last.new }
{
    let mut front = ||
        requires { AcceptsEach F.Fn f.now last.now }
        ensures { AreChanged F.Fn f.entry.now last.entry.now last.exit.now }
    { at_each(rt, f, LANES, last) };
    let mut back = ||
        requires { (0 < threads) × AcceptsEach F.Fn f.now first.now }
        ensures { AreChanged F.Fn f.entry.now first.entry.now first.exit.now }
    { at_each(rt, f, threads, first) };
    join_mut(rt, &mut front, &mut back);
}

// Lanes and workers take their turns in a phase at once. No lane stands behind a worker in a thread, since a worker ends when all lanes have
// ended. Where there are no workers and at most one lane has lines, no thread is made.
fn take_turns<
    R: Threads + Wait + Sync,
    T: LaneRun + Send,
    Q: RunsLines<T> + Sync,
    P: AsPhase + Sync,
>(
    rt: &R,
    lock: &HistLock<T>,
    halt: &Halt,
    runner: &Q,
    lanes: &mut [Lane<T>],
    workers: &mut [Lane<T>],
    phase: &P,
)
    requires phase { IsTrue (is_phase (P.phase phase.now)) }
    requires lanes { EachLane (MayRunPart (Q.set_up runner.now).log lock.now (Q.runs runner.now)
        (P.phase phase.now)) lanes.old }
    requires workers { EachLane (MayRunPart (Q.set_up runner.now).log lock.now
        (Q.runs runner.now) (P.phase phase.now)) workers.old }
    ensures lanes { EachChange (TakesTurn (Q.set_up runner.now).log lock.now (P.phase phase.now))
        lanes.old lanes.new }
    ensures workers { EachChange (TakesTurn (Q.set_up runner.now).log lock.now
        (P.phase phase.now)) workers.old workers.new }
    ensures length { length lanes.new ≡ length lanes.old }
    ensures rest { length workers.new ≡ length workers.old }
{
    let turn = |_: usize, lane: &mut Lane<T>|
        requires { IsTrue (is_phase (P.phase phase.now))
            × MayRunPart (Q.set_up runner.now).log lock.now (Q.runs runner.now)
            (P.phase phase.now) lane.old }
        ensures { TakesTurn (Q.set_up runner.entry.now).log lock.entry.now
            (P.phase phase.entry.now) lane.old lane.new }
    { take_turn(rt, lock, halt, runner, lane, phase.as_phase()) };
    let threads = threads_for(phase.as_phase());
    if workers.is_empty() {
        for_each_mut(rt, lanes, threads, &turn);
        return;
    }
    beside(rt, &turn, threads, lanes, workers);
}

// The first lane does the tasks that are left behind a phase.
fn do_left<R: Wait, T: LaneRun, Q: RunsLines<T>>(
    rt: &R,
    lock: &HistLock<T>,
    halt: &Halt,
    runner: &Q,
    lanes: &mut [Lane<T>],
) -> Result<(), NoMemory>
    requires some { 0 < length lanes.old }
    requires idle { EachLane (IsIdleLane (Q.set_up runner.now).log lock.now) lanes.old }
    ensures heard { OnOk result (EachChange (HasHeard (Q.set_up runner.now).log lock.now)
        lanes.old lanes.new) }
    ensures length { OnOk result (length lanes.new ≡ length lanes.old) }
{
    do_tasks(rt, lock, halt, runner, &mut lanes[0])
}

/// Runs a phase: the lanes and workers at once, and then the tasks that are left.
pub fn run_phase<R: Threads + Wait + Sync, T: LaneRun + Send, Q: RunsLines<T> + Sync>(
    rt: &R,
    lock: &HistLock<T>,
    runner: &Q,
    logged: bool,
    hub: &mut LaneSeat<T>,
    lanes: &mut [Lane<T>],
    phase: &Phase,
) -> Result<(), NoMemory>
    requires phase { IsTrue (is_phase phase.now) }
    requires logged { (Q.set_up runner.now).log ≡ logged }
    requires crew { AreCrew lanes.old }
    requires hub { IsHubSeat logged lock.now hub.old }
    requires may { EachLane (MayRunPart logged lock.now (Q.runs runner.now) phase.now) lanes.old }
    ensures { OnOk result (CrewDoesPhase logged lock.now phase.now hub.old hub.new
        lanes.old lanes.new) }
{
    phase_is_shared();
    let halt = Halt::new();
    let (first, workers) = lanes.split_at_mut(LANES);
    take_turns(rt, lock, &halt, runner, first, workers, phase);
    if any_failed(lanes) {
        return Err(AllocError);
    }
    do_left(rt, lock, &halt, runner, lanes)?;
    tell_all(lock, logged, hub, lanes);
    Ok(())
}

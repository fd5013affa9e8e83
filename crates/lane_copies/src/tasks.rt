//! Tasks of merges, done by a lane or by a worker. Segments are merged outside the lock.

ghost use Rattle.std.specs.Prelude.{◌≡◌, false, IfOk, OnOk};
ghost use Rattle.cluster_merges.specs.MergePaths.{IsMergedOut};
ghost use Rattle.lane_threads.specs.Seats.{log_seen, IsLaneSeat};
ghost use Rattle.lane_threads.specs.Parts.{IsIdleLane, HasHeard};
ghost use Rattle.cluster_site.specs.Flights.{HasPublish, WaitsWhere};
ghost use Rattle.lane_copies.specs.Taken.{IsTakerAt, IsTaskIn, IsMergeIn, WorksOn, TakesOn};

use crate::precopying::copy_over;
use cluster_site::{Gate, Lanes, Place, Site, Turn, enter_site, give_way};
use disk_model::FaultDir;
use hist_lock::LaneSeat;
use history_facts::is_node;
use lane_threads::{Lane, leave};
use merge_tasks::{Sent, Task, TaskKind};
use nrt_base::{At, LineNo, NoMemory};
use seg_merge::{MergeTask, Merged, merge};
use std::alloc::AllocError;
use std::sync::Wait;

// Takes the task that was posted first, for a drain line or for none.
fn take<R: Wait, D: FaultDir + Drop, G: Gate>(
    lanes: &Lanes<'_, R, D, G>,
    seat: &mut LaneSeat<Site<D>>,
    at: At,
    by: Option<At>,
) -> Result<Option<Task>, NoMemory>
    requires seat { IsLaneSeat lanes.now.setup.log lanes.now.lock.now at.lane.0 seat.old }
    requires by { IsTakerAt at by }
    ensures { IfOk result (TakesOn lanes.now.setup.log lanes.now.lock.now at.lane.0 by seat.old
        seat.new) }
{
    let mut held = enter_site(lanes, seat, at)?;
    let answer = held.value().task_take(by);
    leave(lanes.lock, at.lane, seat, held);
    answer
}

// Brings the merged segment of a task.
fn bring_merged<R: Wait, D: FaultDir + Drop, G: Gate>(
    lanes: &Lanes<'_, R, D, G>,
    seat: &mut LaneSeat<Site<D>>,
    at: At,
    task: &Task,
    merged: Merged,
) -> Result<(), NoMemory>
    requires seat { IsLaneSeat lanes.now.setup.log lanes.now.lock.now at.lane.0 seat.old }
    requires by { IsTakerAt at task.now.by }
    requires merged { IsMergedOut (log_seen seat.old) task.now.seg merged }
    ensures { OnOk result (WorksOn lanes.now.setup.log lanes.now.lock.now at.lane.0 task.now.by
        seat.old seat.new) }
{
    let mut held = enter_site(lanes, seat, at)?;
    let answer = held.value().merge_ready(lanes.alloc, task, merged);
    leave(lanes.lock, at.lane, seat, held);
    answer
}

// Builds the merged segment of a task and brings it, which posts the tasks that copy it.
fn build<R: Wait, D: FaultDir + Drop, G: Gate>(
    lanes: &Lanes<'_, R, D, G>,
    seat: &mut LaneSeat<Site<D>>,
    at: At,
    task: &Task,
    work: &MergeTask,
) -> Result<(), NoMemory>
    requires seat { IsLaneSeat lanes.now.setup.log lanes.now.lock.now at.lane.0 seat.old }
    requires by { IsTakerAt at task.now.by }
    requires work { IsMergeIn work.now task.now.seg (log_seen seat.old) }
    ensures { OnOk result (WorksOn lanes.now.setup.log lanes.now.lock.now at.lane.0 task.now.by
        seat.old seat.new) }
{
    lanes.gate.pass(Place::Merge(task.line));
    let merged = merge(lanes.alloc, work)?;
    let answer = bring_merged(lanes, seat, at, task, merged);
    lanes.halt.stir();
    answer
}

// Cuts the merge of a task over, where no publish is in flight.
fn cut<R: Wait, D: FaultDir + Drop, G: Gate>(
    lanes: &Lanes<'_, R, D, G>,
    seat: &mut LaneSeat<Site<D>>,
    at: At,
    task: &Task,
) -> Result<Turn<()>, NoMemory>
    requires seat { IsLaneSeat lanes.now.setup.log lanes.now.lock.now at.lane.0 seat.old }
    requires by { IsTakerAt at task.now.by }
    ensures works { OnOk result (WorksOn lanes.now.setup.log lanes.now.lock.now at.lane.0
        task.now.by seat.old seat.new) }
    ensures waits { IfOk result (WaitsWhere HasPublish (log_seen seat.new)) }
{
    let mut held = enter_site(lanes, seat, at)?;
    let answer = held.value().merge_cut(lanes.alloc, task);
    leave(lanes.lock, at.lane, seat, held);
    answer
}

// Cuts the merge of a task over. While a publish is in flight it waits.
fn cut_over<R: Wait, D: FaultDir + Drop, G: Gate>(
    lanes: &Lanes<'_, R, D, G>,
    seat: &mut LaneSeat<Site<D>>,
    at: At,
    task: &Task,
) -> Result<(), NoMemory>
    requires seat { IsLaneSeat lanes.now.setup.log lanes.now.lock.now at.lane.0 seat.old }
    requires by { IsTakerAt at task.now.by }
    ensures { OnOk result (WorksOn lanes.now.setup.log lanes.now.lock.now at.lane.0 task.now.by
        seat.old seat.new) }
{
    for _ in lanes.rt.forever() {
        match cut(lanes, seat, at, task)? {
            Turn::Busy => give_way(lanes.halt, seat)?,
            Turn::Done => return Ok(()),
            Turn::Work(()) => return Ok(()),
        }
    }
    unreachable!()
}

// Does a task that was taken, to its end. That its node is one is known of each cluster, but not of a value behind a lock.
fn do_task<R: Wait, D: FaultDir + Drop, G: Gate>(
    lanes: &Lanes<'_, R, D, G>,
    seat: &mut LaneSeat<Site<D>>,
    at: At,
    task: &Task,
) -> Result<(), NoMemory>
    requires seat { IsLaneSeat lanes.now.setup.log lanes.now.lock.now at.lane.0 seat.old }
    requires by { IsTakerAt at task.now.by }
    requires task { IsTaskIn task.now (log_seen seat.old) }
    ensures { OnOk result (WorksOn lanes.now.setup.log lanes.now.lock.now at.lane.0 task.now.by
        seat.old seat.new) }
{
    match &task.kind {
        TaskKind::Merge(work) => { build(lanes, seat, at, task, work) }
        TaskKind::PreCopy(n, job) => {
            if !is_node(lanes.setup.nodes, *n) {
                return Err(AllocError);
            }
            let copy = Sent {
                node: *n,
                job: *job,
            };
            copy_over(lanes, seat, at, task, copy)
        }
        TaskKind::Cut => cut_over(lanes, seat, at, task),
    }
}

/// Does the task that was posted first, to its end, for a drain line or for none, and answers whether there was one. `at` is the drain
/// line, or any line of a worker's number.
pub fn do_first<R: Wait, D: FaultDir + Drop, G: Gate>(
    lanes: &Lanes<'_, R, D, G>,
    seat: &mut LaneSeat<Site<D>>,
    at: At,
    by: Option<At>,
) -> Result<bool, NoMemory>
    requires seat { IsLaneSeat lanes.now.setup.log lanes.now.lock.now at.lane.0 seat.old }
    requires by { IsTakerAt at by }
    ensures { OnOk result (WorksOn lanes.now.setup.log lanes.now.lock.now at.lane.0 by seat.old
        seat.new) }
{
    match take(lanes, seat, at, by)? {
        None => Ok(false),
        Some(task) => {
            do_task(lanes, seat, at, &task)?;
            Ok(true)
        }
    }
}

/// Does the task that was posted first, to its end, for no line, and answers whether there was one.
pub fn do_posted<R: Wait, D: FaultDir + Drop, G: Gate>(
    lanes: &Lanes<'_, R, D, G>,
    lane: &mut Lane<Site<D>>,
) -> Result<bool, NoMemory>
    requires { IsIdleLane lanes.now.setup.log lanes.now.lock.now lane.old }
    ensures number { lane.new.number ≡ lane.old.number }
    ensures heard { OnOk result (HasHeard lanes.now.setup.log lanes.now.lock.now lane.old lane.new) }
{
    let at = At {
        lane: lane.number,
        line: LineNo(0),
    };
    do_first(lanes, &mut lane.seat, at, None)
}

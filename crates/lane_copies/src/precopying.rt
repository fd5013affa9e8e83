//! Copies of merged segments, file after file. Each call is a section, and between them files are carried.

ghost use Rattle.std.specs.Prelude.{IfOk, OnOk};
ghost use Rattle.history_rules.specs.Nodes.{IsNode};
ghost use Rattle.cluster_state.specs.DueFaults.{ArrivesBy};
ghost use Rattle.lane_threads.specs.Seats.{log_seen, IsLaneSeat};
ghost use Rattle.cluster_site.specs.Flights.{HasJobAt, WaitsWhere};
ghost use Rattle.lane_copies.specs.Taken.{IsTakerAt, IsCarriedIn, WorksOn, HandsOn};

use crate::carrying::carry;
use cluster_nodes::FileTask;
use cluster_site::{Gate, Lanes, Site, Turn, enter_site, give_way};
use copy_job::{JobFault, Part};
use disk_model::FaultDir;
use hist_lock::LaneSeat;
use lane_threads::leave;
use merge_tasks::{Sent, Task};
use nrt_base::{At, NoMemory};
use std::sync::Wait;

// Hands out the next file of the copy of a task.
fn hand_out<R: Wait, D: FaultDir + Drop, G: Gate>(
    lanes: &Lanes<'_, R, D, G>,
    seat: &mut LaneSeat<Site<D>>,
    at: At,
    task: &Task,
    copy: Sent,
) -> Result<Turn<FileTask>, NoMemory>
    requires seat { IsLaneSeat lanes.now.setup.log lanes.now.lock.now at.lane.0 seat.old }
    requires by { IsTakerAt at task.now.by }
    requires node { IsNode lanes.now.setup.nodes copy.node.0 }
    ensures hands { IfOk result (HandsOn lanes.now.setup.log lanes.now.lock.now at.lane.0
        task.now.by seat.old seat.new) }
    ensures waits { IfOk result (WaitsWhere (HasJobAt copy.node.0) (log_seen seat.new)) }
{
    let mut held = enter_site(lanes, seat, at)?;
    let answer = held.value().precopy_next(lanes.alloc, task, copy);
    leave(lanes.lock, at.lane, seat, held);
    answer
}

// Brings back to the copy of a task what arrived of a file.
fn bring_back<R: Wait, D: FaultDir + Drop, G: Gate>(
    lanes: &Lanes<'_, R, D, G>,
    seat: &mut LaneSeat<Site<D>>,
    at: At,
    task: &Task,
    copy: Sent,
    file: &FileTask,
    arrived: Result<Part, JobFault>,
) -> Result<Turn<()>, NoMemory>
    requires seat { IsLaneSeat lanes.now.setup.log lanes.now.lock.now at.lane.0 seat.old }
    requires by { IsTakerAt at task.now.by }
    requires node { IsNode lanes.now.setup.nodes copy.node.0 }
    requires out { IsCarriedIn file.now (log_seen seat.old) }
    requires arrives { ArrivesBy file.now arrived }
    ensures { OnOk result (WorksOn lanes.now.setup.log lanes.now.lock.now at.lane.0 task.now.by
        seat.old seat.new) }
{
    let mut held = enter_site(lanes, seat, at)?;
    let answer = held
        .value()
        .precopy_arrived(lanes.alloc, task, copy, file, arrived);
    leave(lanes.lock, at.lane, seat, held);
    answer
}

// Carries a file that was handed out, and brings it back.
fn bring_file<R: Wait, D: FaultDir + Drop, G: Gate>(
    lanes: &Lanes<'_, R, D, G>,
    seat: &mut LaneSeat<Site<D>>,
    at: At,
    task: &Task,
    copy: Sent,
    file: &FileTask,
) -> Result<Turn<()>, NoMemory>
    requires seat { IsLaneSeat lanes.now.setup.log lanes.now.lock.now at.lane.0 seat.old }
    requires by { IsTakerAt at task.now.by }
    requires node { IsNode lanes.now.setup.nodes copy.node.0 }
    requires out { IsCarriedIn file.now (log_seen seat.old) }
    ensures { OnOk result (WorksOn lanes.now.setup.log lanes.now.lock.now at.lane.0 task.now.by
        seat.old seat.new) }
{
    let line = At {
        lane: at.lane,
        line: task.line,
    };
    let arrived = carry(lanes.alloc, lanes.gate, line, copy.node, file)?;
    bring_back(lanes, seat, at, task, copy, file, arrived)
}

/// Copies the files of a merged segment to a node, until the task has ended. Its end may post the task to cut over.
pub fn copy_over<R: Wait, D: FaultDir + Drop, G: Gate>(
    lanes: &Lanes<'_, R, D, G>,
    seat: &mut LaneSeat<Site<D>>,
    at: At,
    task: &Task,
    copy: Sent,
) -> Result<(), NoMemory>
    requires seat { IsLaneSeat lanes.now.setup.log lanes.now.lock.now at.lane.0 seat.old }
    requires by { IsTakerAt at task.now.by }
    requires node { IsNode lanes.now.setup.nodes copy.node.0 }
    ensures { OnOk result (WorksOn lanes.now.setup.log lanes.now.lock.now at.lane.0 task.now.by
        seat.old seat.new) }
{
    for _ in lanes.rt.forever() {
        match hand_out(lanes, seat, at, task, copy)? {
            Turn::Busy => give_way(lanes.halt, seat)?,
            Turn::Done => {
                lanes.halt.stir();
                return Ok(());
            }
            Turn::Work(file) => {
                bring_file(lanes, seat, at, task, copy, &file)?;
            }
        }
    }
    unreachable!()
}

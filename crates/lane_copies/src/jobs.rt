//! A job, file after file. Each call is a section, and between them files are carried.

ghost use Rattle.std.specs.Prelude.{OnOk, IfOk};
ghost use Rattle.cluster_state.specs.DueFaults.{ArrivesBy};
ghost use Rattle.lane_threads.specs.Seats.{log_seen, IsLaneSeat};
ghost use Rattle.lane_copies.specs.Jobs.{IsCopyingBy, HasFileOut, IsCopyReplied, StepsJob, TurnsJob};

use crate::calls::next_file;
use crate::carrying::carry;
use cluster_nodes::{CopyTask, FileTask};
use cluster_site::{Gate, Lanes, Site, Turn, enter_site};
use copy_job::{JobFault, Part};
use disk_model::FaultDir;
use hist_lock::LaneSeat;
use lane_threads::leave;
use nrt_base::{At, NoMemory};
use std::alloc::AllocError;
use std::sync::Wait;

// Hands out the next file of a job.
fn hand_out<R: Wait, D: FaultDir + Drop, G: Gate>(
    lanes: &Lanes<'_, R, D, G>,
    seat: &mut LaneSeat<Site<D>>,
    at: At,
    task: &CopyTask,
) -> Result<Turn<FileTask>, NoMemory>
    requires seat { IsLaneSeat lanes.now.setup.log lanes.now.lock.now at.lane.0 seat.old }
    requires copying { IsCopyingBy at task.now (log_seen seat.old) }
    ensures { IfOk result (TurnsJob lanes.now.setup.log (HasFileOut at task.now)
        lanes.now.setup.nodes lanes.now.lock.now at task.now seat.old seat.new) }
{
    let mut held = enter_site(lanes, seat, at)?;
    let answer = next_file(held.value(), lanes.alloc, at, task);
    leave(lanes.lock, at.lane, seat, held);
    answer
}

// Brings back to its job what arrived of a file. That the job has no end is known of each cluster, but not of a value behind a lock.
fn bring_back<R: Wait, D: FaultDir + Drop, G: Gate>(
    lanes: &Lanes<'_, R, D, G>,
    seat: &mut LaneSeat<Site<D>>,
    at: At,
    task: &CopyTask,
    file: &FileTask,
    arrived: Result<Part, JobFault>,
) -> Result<Turn<()>, NoMemory>
    requires seat { IsLaneSeat lanes.now.setup.log lanes.now.lock.now at.lane.0 seat.old }
    requires out { HasFileOut at task.now file.now (log_seen seat.old) }
    requires arrives { ArrivesBy file.now arrived }
    ensures { IfOk result (TurnsJob lanes.now.setup.log (λ taken. IsCopyingBy at task.now)
        lanes.now.setup.nodes lanes.now.lock.now at task.now seat.old seat.new) }
{
    let mut held = enter_site(lanes, seat, at)?;
    let site = held.value();
    if !site.has_job(at.lane) {
        leave(lanes.lock, at.lane, seat, held);
        return Err(AllocError);
    }
    let answer = site.copy_arrived(lanes.alloc, at, task, file, arrived);
    leave(lanes.lock, at.lane, seat, held);
    answer
}

// Carries a file that was handed out, and brings it back.
fn bring_file<R: Wait, D: FaultDir + Drop, G: Gate>(
    lanes: &Lanes<'_, R, D, G>,
    seat: &mut LaneSeat<Site<D>>,
    at: At,
    task: &CopyTask,
    file: &FileTask,
) -> Result<Turn<()>, NoMemory>
    requires seat { IsLaneSeat lanes.now.setup.log lanes.now.lock.now at.lane.0 seat.old }
    requires out { HasFileOut at task.now file.now (log_seen seat.old) }
    ensures { IfOk result (TurnsJob lanes.now.setup.log (λ taken. IsCopyingBy at task.now)
        lanes.now.setup.nodes lanes.now.lock.now at task.now seat.old seat.new) }
{
    let arrived = carry(lanes.alloc, lanes.gate, at, task.node, file)?;
    bring_back(lanes, seat, at, task, file, arrived)
}

/// Brings over what a job lacks, file after file, until it has ended.
pub fn bring_over<R: Wait, D: FaultDir + Drop, G: Gate>(
    lanes: &Lanes<'_, R, D, G>,
    seat: &mut LaneSeat<Site<D>>,
    at: At,
    task: &CopyTask,
) -> Result<(), NoMemory>
    requires seat { IsLaneSeat lanes.now.setup.log lanes.now.lock.now at.lane.0 seat.old }
    requires copying { IsCopyingBy at task.now (log_seen seat.old) }
    ensures { OnOk result (StepsJob lanes.now.setup.log lanes.now.setup.nodes lanes.now.lock.now at
        task.now (IsCopyReplied at) seat.old seat.new) }
{
    for _ in lanes.rt.forever() {
        match hand_out(lanes, seat, at, task)? {
            Turn::Busy => unreachable!(),
            Turn::Done => return Ok(()),
            Turn::Work(file) => {
                match bring_file(lanes, seat, at, task, &file)? {
                    Turn::Busy => unreachable!(),
                    Turn::Done => return Ok(()),
                    Turn::Work(()) => {}
                }
            }
        }
    }
    unreachable!()
}

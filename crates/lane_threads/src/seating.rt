//! The seats of a crew: split off the first seat at the beginning, and joined to it at the end.

ghost use Rattle.std.specs.Prelude.{◌≡◌, ◌+◌, ◌≤◌, [], IfOk, length};
ghost use Rattle.lane_threads.specs.Lanes.{IsCrewMade, AreJoined};

use crate::lane::Lane;
use crate::run::LaneRun;
use hist_lock::{HistLock, LaneSeat};
use nrt_base::{LaneNo, NoMemory};
use std::alloc::Global;

/// The eight lanes and then the workers, of which none has seen anything.
pub fn make_crew<T: LaneRun>(
    alloc: Global,
    lock: &HistLock<T>,
    hub: &mut LaneSeat<T>,
    workers: u8,
) -> Result<Vec<Lane<T>>, NoMemory>
    requires made { IsCrewMade lock.now 0 hub.old [] }
    requires workers { workers ≤ 8 }
    ensures { IfOk result (λ lanes. IsCrewMade lock.now (8 + workers) hub.new lanes.items) }
{
    let seats = 8 + workers;
    let mut lanes = Vec::with_capacity(alloc, usize::from(seats))?;
    for k in 0..seats {
        let seat = lock.split(hub);
        lanes.push(Lane {
            seat,
            number: LaneNo(k + 1),
            failed: false,
        })?;
    }
    Ok(lanes)
}

/// Joins the seat of every lane and of every worker to the first one.
pub fn disband<T: LaneRun>(mut lanes: Vec<Lane<T>>, lock: &HistLock<T>, hub: &mut LaneSeat<T>)
    requires { AreJoined lock.now (length lanes.items) hub.old lanes.items lanes.items }
    ensures { AreJoined lock.now 0 hub.new lanes.items [] }
{
    for _ in 0..lanes.len() {
        let Some(lane) = lanes.pop() else {
            unreachable!()
        };
        let Lane { seat, .. } = lane;
        lock.join(hub, seat);
    }
}

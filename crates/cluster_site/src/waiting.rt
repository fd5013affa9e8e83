//! How a line or a task waits for what another line has in flight.

ghost use Rattle.lane_threads.specs.Seats.{log_seen};
ghost use Rattle.cluster_site.specs.Flights.{HasFlight};

use crate::site::Site;
use disk_model::FaultDir;
use hist_lock::LaneSeat;
use lane_threads::Halt;
use nrt_base::NoMemory;
use std::alloc::AllocError;
use std::thread::yield_now;

/// Lets other threads go on, where a line has something in flight as the seat has seen. Workers have no lines, so nothing waits for a
/// worker. Where a lane has failed, what is waited for may never come, and the caller ends too.
pub fn give_way<D: FaultDir + Drop>(halt: &Halt, seat: &LaneSeat<Site<D>>) -> Result<(), NoMemory>
    requires { HasFlight (log_seen seat.now) }
{
    if halt.is_set() {
        return Err(AllocError);
    }
    yield_now();
    Ok(())
}

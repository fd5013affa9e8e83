//! What lanes hear of each other: the first seat hears of what each lane has seen, and then tells it to all.

ghost use Rattle.std.specs.Prelude.{◌≡◌, ℕ, ◌<◌, length, false, slice_index_or};
ghost use Rattle.hist_lock.specs.Seats.{split_count};
ghost use Rattle.lane_threads.specs.Walks.{Includes};
ghost use Rattle.lane_threads.specs.Seats.{log_seen};
ghost use Rattle.lane_threads.specs.Parts.{IsIdleLane, HasHeard};
ghost use Rattle.lane_threads.specs.Lanes.{IsHubSeat, EachLane, EachChange, AllIncluded, EachIncluded, EachIncludes, HubHears, HubTells};

use crate::lane::Lane;
use crate::run::LaneRun;
use hist_lock::{HistLock, LaneSeat};

// The first seat hears of what a lane has seen.
fn hear_lane<T: LaneRun>(
    lock: &HistLock<T>,
    logged: bool,
    hub: &mut LaneSeat<T>,
    lane: &mut Lane<T>,
)
    requires hub { IsHubSeat logged lock.now hub.old }
    requires lane { IsIdleLane logged lock.now lane.old }
    ensures hub { HubHears logged lock.now (log_seen lane.old.seat) hub.old hub.new }
    ensures lane { HasHeard logged lock.now lane.old lane.new }
    ensures same { log_seen lane.new.seat ≡ log_seen lane.old.seat }
{
    lock.tell(&mut lane.seat, hub);
}

// A lane hears of what the first seat has seen.
fn tell_lane<T: LaneRun>(
    lock: &HistLock<T>,
    logged: bool,
    hub: &mut LaneSeat<T>,
    lane: &mut Lane<T>,
)
    requires hub { IsHubSeat logged lock.now hub.old }
    requires lane { IsIdleLane logged lock.now lane.old }
    ensures hub { HubTells logged lock.now hub.old hub.new }
    ensures lane { HasHeard logged lock.now lane.old lane.new }
    ensures includes { Includes (log_seen hub.old) (log_seen lane.new.seat) }
{
    lock.tell(hub, &mut lane.seat);
}

// The first seat hears of what every lane has seen.
fn gather<T: LaneRun>(
    lock: &HistLock<T>,
    logged: bool,
    hub: &mut LaneSeat<T>,
    lanes: &mut [Lane<T>],
)
    requires hub { IsHubSeat logged lock.now hub.old }
    requires idle { EachLane (IsIdleLane logged lock.now) lanes.old }
    ensures hub { IsHubSeat logged lock.now hub.new }
    ensures included { EachIncluded lanes.old (log_seen hub.new) }
    ensures heard { EachChange (HasHeard logged lock.now) lanes.old lanes.new }
    ensures length { length lanes.new ≡ length lanes.old }
    ensures splits { split_count hub.new ≡ split_count hub.old }
{
    for k in 0..lanes.len() {
        hear_lane(lock, logged, hub, &mut lanes[k]);
    }
}

// Every lane hears of what the first seat has seen.
fn spread<T: LaneRun>(
    lock: &HistLock<T>,
    logged: bool,
    hub: &mut LaneSeat<T>,
    lanes: &mut [Lane<T>],
)
    requires hub { IsHubSeat logged lock.now hub.old }
    requires idle { EachLane (IsIdleLane logged lock.now) lanes.old }
    ensures hub { IsHubSeat logged lock.now hub.new }
    ensures includes { EachIncludes (log_seen hub.old) lanes.new }
    ensures heard { EachChange (HasHeard logged lock.now) lanes.old lanes.new }
    ensures length { length lanes.new ≡ length lanes.old }
    ensures splits { split_count hub.new ≡ split_count hub.old }
{
    for k in 0..lanes.len() {
        tell_lane(lock, logged, hub, &mut lanes[k]);
    }
}

/// Every lane hears of what all lanes have seen.
pub fn tell_all<T: LaneRun>(
    lock: &HistLock<T>,
    logged: bool,
    hub: &mut LaneSeat<T>,
    lanes: &mut [Lane<T>],
)
    requires hub { IsHubSeat logged lock.now hub.old }
    requires idle { EachLane (IsIdleLane logged lock.now) lanes.old }
    ensures hub { IsHubSeat logged lock.now hub.new }
    ensures all { AllIncluded lanes.old lanes.new }
    ensures heard { EachChange (HasHeard logged lock.now) lanes.old lanes.new }
    ensures length { length lanes.new ≡ length lanes.old }
    ensures splits { split_count hub.new ≡ split_count hub.old }
{
    gather(lock, logged, hub, lanes);
    spread(lock, logged, hub, lanes);
}

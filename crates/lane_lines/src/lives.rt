//! Crashes, reopenings and promotions.

ghost use Rattle.std.specs.Prelude.{◌≡◌, [], OnOk};
ghost use Rattle.history_rules.specs.Nodes.{IsNode};
ghost use Rattle.history_rules.specs.Lines.{entries_of_line};
ghost use Rattle.history_book.specs.Log.{printed};
ghost use Rattle.script_serving.specs.declared.script.LineCommand.TheVariants.{Crash, Promote, Reopen};
ghost use Rattle.lane_threads.specs.Seats.{log_seen, IsLaneSeat, EndsItsLine};

use cluster_site::{Gate, Lanes, Site, enter_site};
use disk_model::FaultDir;
use hist_lock::LaneSeat;
use lane_threads::leave;
use nrt_base::{At, NoMemory, NodeNo};
use script_serving::Force;
use std::sync::Wait;

/// Crashes a node. The number picks what its disk keeps.
pub fn crash<R: Wait, D: FaultDir + Drop, G: Gate>(
    lanes: &Lanes<'_, R, D, G>,
    seat: &mut LaneSeat<Site<D>>,
    at: At,
    n: NodeNo,
    pick: u64,
) -> Result<(), NoMemory>
    requires seat { IsLaneSeat lanes.now.setup.log lanes.now.lock.now at.lane.0 seat.old }
    requires fresh { entries_of_line at (printed (log_seen seat.old)) ≡ [] }
    requires node { IsNode lanes.now.setup.nodes n.0 }
    ensures { OnOk result (EndsItsLine lanes.now.setup.log lanes.now.lock.now (Crash n pick) at
        seat.old seat.new) }
{
    let mut held = enter_site(lanes, seat, at)?;
    let answer = held.value().crash(lanes.alloc, at, n, pick);
    leave(lanes.lock, at.lane, seat, held);
    answer
}

/// Reopens a node.
pub fn reopen<R: Wait, D: FaultDir + Drop, G: Gate>(
    lanes: &Lanes<'_, R, D, G>,
    seat: &mut LaneSeat<Site<D>>,
    at: At,
    n: NodeNo,
) -> Result<(), NoMemory>
    requires seat { IsLaneSeat lanes.now.setup.log lanes.now.lock.now at.lane.0 seat.old }
    requires fresh { entries_of_line at (printed (log_seen seat.old)) ≡ [] }
    requires node { IsNode lanes.now.setup.nodes n.0 }
    ensures { OnOk result (EndsItsLine lanes.now.setup.log lanes.now.lock.now (Reopen n) at seat.old
        seat.new) }
{
    let mut held = enter_site(lanes, seat, at)?;
    let answer = held.value().reopen(lanes.alloc, at, n);
    leave(lanes.lock, at.lane, seat, held);
    answer
}

/// Promotes a node: it begins the next generation. The version that its point is to be above is forced, or the newest.
pub fn promote<R: Wait, D: FaultDir + Drop, G: Gate>(
    lanes: &Lanes<'_, R, D, G>,
    seat: &mut LaneSeat<Site<D>>,
    at: At,
    n: NodeNo,
    force: Force,
) -> Result<(), NoMemory>
    requires seat { IsLaneSeat lanes.now.setup.log lanes.now.lock.now at.lane.0 seat.old }
    requires fresh { entries_of_line at (printed (log_seen seat.old)) ≡ [] }
    requires node { IsNode lanes.now.setup.nodes n.0 }
    ensures { OnOk result (EndsItsLine lanes.now.setup.log lanes.now.lock.now (Promote n force) at
        seat.old seat.new) }
{
    let mut held = enter_site(lanes, seat, at)?;
    let answer = held.value().promote(lanes.alloc, at, n, force);
    leave(lanes.lock, at.lane, seat, held);
    answer
}

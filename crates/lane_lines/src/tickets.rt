//! Tickets, and lists of files.

ghost use Rattle.std.specs.Prelude.{◌≡◌, ◌≢◌, [], OnOk};
ghost use Rattle.history_rules.specs.Nodes.{IsNode};
ghost use Rattle.history_rules.specs.Lines.{entries_of_line};
ghost use Rattle.history_book.specs.Log.{printed};
ghost use Rattle.script_serving.specs.declared.script.LineCommand.TheVariants.{Open, Close, Files};
ghost use Rattle.lane_threads.specs.Seats.{log_seen, IsLaneSeat, EndsItsLine};

use cluster_site::{Gate, Lanes, Site, enter_site};
use disk_model::FaultDir;
use hist_lock::LaneSeat;
use lane_threads::leave;
use nrt_base::{At, NoMemory, NodeNo, TicketNo};
use std::sync::Wait;

/// Opens a ticket.
pub fn open<R: Wait, D: FaultDir + Drop, G: Gate>(
    lanes: &Lanes<'_, R, D, G>,
    seat: &mut LaneSeat<Site<D>>,
    at: At,
    n: NodeNo,
    t: TicketNo,
) -> Result<(), NoMemory>
    requires seat { IsLaneSeat lanes.now.setup.log lanes.now.lock.now at.lane.0 seat.old }
    requires fresh { entries_of_line at (printed (log_seen seat.old)) ≡ [] }
    requires node { IsNode lanes.now.setup.nodes n.0 }
    requires number { t.0 ≢ 0 }
    ensures { OnOk result (EndsItsLine lanes.now.setup.log lanes.now.lock.now (Open n t) at seat.old
        seat.new) }
{
    let mut held = enter_site(lanes, seat, at)?;
    let answer = held.value().ticket_open(lanes.alloc, at, n, t);
    leave(lanes.lock, at.lane, seat, held);
    answer
}

/// Closes a ticket.
pub fn close<R: Wait, D: FaultDir + Drop, G: Gate>(
    lanes: &Lanes<'_, R, D, G>,
    seat: &mut LaneSeat<Site<D>>,
    at: At,
    t: TicketNo,
) -> Result<(), NoMemory>
    requires seat { IsLaneSeat lanes.now.setup.log lanes.now.lock.now at.lane.0 seat.old }
    requires fresh { entries_of_line at (printed (log_seen seat.old)) ≡ [] }
    ensures { OnOk result (EndsItsLine lanes.now.setup.log lanes.now.lock.now (Close t) at seat.old
        seat.new) }
{
    let mut held = enter_site(lanes, seat, at)?;
    let answer = held.value().ticket_close(lanes.alloc, at, t);
    leave(lanes.lock, at.lane, seat, held);
    answer
}

/// Lists the files of a node.
pub fn list_files<R: Wait, D: FaultDir + Drop, G: Gate>(
    lanes: &Lanes<'_, R, D, G>,
    seat: &mut LaneSeat<Site<D>>,
    at: At,
    n: NodeNo,
) -> Result<(), NoMemory>
    requires seat { IsLaneSeat lanes.now.setup.log lanes.now.lock.now at.lane.0 seat.old }
    requires fresh { entries_of_line at (printed (log_seen seat.old)) ≡ [] }
    requires node { IsNode lanes.now.setup.nodes n.0 }
    ensures { OnOk result (EndsItsLine lanes.now.setup.log lanes.now.lock.now (Files n) at seat.old
        seat.new) }
{
    let mut held = enter_site(lanes, seat, at)?;
    let answer = held.value().files(lanes.alloc, at, n);
    leave(lanes.lock, at.lane, seat, held);
    answer
}

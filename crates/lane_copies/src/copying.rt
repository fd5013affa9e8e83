//! Copies.

ghost use Rattle.std.specs.Prelude.{◌≡◌, [], OnOk, IfOk};
ghost use Rattle.history_rules.specs.Nodes.{IsNode};
ghost use Rattle.history_rules.specs.Lines.{entries_of_line};
ghost use Rattle.history_book.specs.Log.{printed};
ghost use Rattle.script_serving.specs.declared.script.LineCommand.TheVariants.{Copy};
ghost use Rattle.lane_threads.specs.Seats.{log_seen, IsLaneSeat, EndsItsLine};
ghost use Rattle.cluster_state.specs.CopyCalls.{IsBeingCopied};
ghost use Rattle.cluster_site.specs.Flights.{WaitsWhere};
ghost use Rattle.cluster_site.specs.Turns.{IsUnbegunIn, TurnsLine};
ghost use Rattle.lane_copies.specs.Jobs.{BeginsCopy};

use crate::jobs::bring_over;
use cluster_nodes::CopyTask;
use cluster_site::{Gate, Lanes, Site, Turn, enter_site, give_way};
use disk_model::FaultDir;
use hist_lock::LaneSeat;
use lane_threads::leave;
use nrt_base::{At, NoMemory, NodeNo};
use std::sync::Wait;

// Starts a copy, where no job for the newest version runs at the node.
fn start<R: Wait, D: FaultDir + Drop, G: Gate>(
    lanes: &Lanes<'_, R, D, G>,
    seat: &mut LaneSeat<Site<D>>,
    at: At,
    n: NodeNo,
) -> Result<Turn<CopyTask>, NoMemory>
    requires seat { IsLaneSeat lanes.now.setup.log lanes.now.lock.now at.lane.0 seat.old }
    requires fresh { entries_of_line at (printed (log_seen seat.old)) ≡ [] }
    requires node { IsNode lanes.now.setup.nodes n.0 }
    ensures turns { IfOk result (TurnsLine lanes.now.setup.log (BeginsCopy at n) (IsUnbegunIn at)
        lanes.now.lock.now (Copy n) at seat.old seat.new) }
    ensures waits { IfOk result (WaitsWhere (λ log. IsBeingCopied log n.0) (log_seen seat.new)) }
{
    let mut held = enter_site(lanes, seat, at)?;
    let answer = held.value().copy_start(lanes.alloc, at, n);
    leave(lanes.lock, at.lane, seat, held);
    answer
}

/// Copies the newest point to a node. While a job for it runs there the line waits.
pub fn copy<R: Wait, D: FaultDir + Drop, G: Gate>(
    lanes: &Lanes<'_, R, D, G>,
    seat: &mut LaneSeat<Site<D>>,
    at: At,
    n: NodeNo,
) -> Result<(), NoMemory>
    requires seat { IsLaneSeat lanes.now.setup.log lanes.now.lock.now at.lane.0 seat.old }
    requires fresh { entries_of_line at (printed (log_seen seat.old)) ≡ [] }
    requires node { IsNode lanes.now.setup.nodes n.0 }
    ensures { OnOk result (EndsItsLine lanes.now.setup.log lanes.now.lock.now (Copy n) at seat.old
        seat.new) }
{
    for _ in lanes.rt.forever() {
        match start(lanes, seat, at, n)? {
            Turn::Busy => give_way(lanes.halt, seat)?,
            Turn::Done => return Ok(()),
            Turn::Work(task) => return bring_over(lanes, seat, at, &task),
        }
    }
    unreachable!()
}

//! The lock of a site, taken for a line.

ghost use Rattle.std.specs.Prelude.{◌≡◌, false, IfOk};
ghost use Rattle.history_rules.specs.Legal.{IsLegalPast};
ghost use Rattle.history_book.specs.Log.{printed};
ghost use Rattle.history_book.specs.Turns.{AreInTurn};
ghost use Rattle.lane_threads.specs.Seats.{IsLaneSeat, HasEntered};
ghost use Rattle.cluster_site.specs.Sites.{is_logged};

use crate::gate::Gate;
use crate::lanes::Lanes;
use crate::site::Site;
use disk_model::FaultDir;
use hist_lock::{Held, LaneSeat};
use lane_threads::enter;
use nrt_base::{At, NoMemory};
use std::sync::Wait;

// What the history of a site that a seat holds is.
fn holds_legal<D: FaultDir + Drop>(held: &mut Held<Site<D>>)
    ensures legal { IsLegalPast held.old.run.nodes (printed held.old.run.log) }
    ensures turns { AreInTurn (printed held.old.run.log) }
    ensures same { held.new ≡ held.old }
{
    held.value().ended();
}

/// Takes the lock for a line, where the site has not ended and was set up so.
pub fn enter_site<R: Wait, D: FaultDir + Drop, G: Gate>(
    lanes: &Lanes<'_, R, D, G>,
    seat: &mut LaneSeat<Site<D>>,
    at: At,
) -> Result<Held<Site<D>>, NoMemory>
    requires { IsLaneSeat lanes.now.setup.log lanes.now.lock.now at.lane.0 seat.old }
    ensures running { IfOk result (λ s. s.run.ended ≡ false) }
    ensures nodes { IfOk result (λ s. s.run.nodes ≡ lanes.now.setup.nodes) }
    ensures logged { IfOk result (λ s. is_logged s ≡ lanes.now.setup.log) }
    ensures legal { IfOk result (λ s. IsLegalPast s.run.nodes (printed s.run.log)) }
    ensures turns { IfOk result (λ s. AreInTurn (printed s.run.log)) }
    ensures entered { IfOk result (λ s.
        HasEntered lanes.now.setup.log lanes.now.lock.now at seat.old seat.new s.run.log) }
{
    let mut held = enter(lanes.rt, lanes.lock, lanes.setup, at, seat)?;
    holds_legal(&mut held);
    Ok(held)
}

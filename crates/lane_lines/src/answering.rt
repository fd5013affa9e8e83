//! The end of a search.

ghost use Rattle.std.specs.Prelude.{◌≡◌, OnOk};
ghost use Rattle.history_rules.specs.Lines.{last_of_line};
ghost use Rattle.history_book.specs.Log.{printed};
ghost use Rattle.script_serving.specs.declared.script.LineCommand.{LineCommand};
ghost use Rattle.cluster_site.specs.Given.{AsksFor};
ghost use Rattle.lane_threads.specs.Seats.{log_seen, IsLaneSeat, EndsItsLine};
ghost use Rattle.lane_lines.specs.Reads.{IsEvaluated};

use cluster_site::{Gate, Lanes, Site, enter_site};
use disk_model::FaultDir;
use documents::{Answer, Query};
use hist_lock::LaneSeat;
use lane_threads::leave;
use nrt_base::{At, NoMemory};
use std::sync::Wait;

/// Ends a search with its answer.
pub fn answer_line<R: Wait, D: FaultDir + Drop, G: Gate>(
    lanes: &Lanes<'_, R, D, G>,
    seat: &mut LaneSeat<Site<D>>,
    at: At,
    query: &Query,
    answer: Answer,
) -> Result<(), NoMemory>
    requires seat { IsLaneSeat lanes.now.setup.log lanes.now.lock.now at.lane.0 seat.old }
    requires evaluated { IsEvaluated at query.now answer (log_seen seat.old) }
    ensures { (command : LineCommand)
        → AsksFor command query.now (last_of_line at (printed (log_seen seat.old)))
        → OnOk result (EndsItsLine lanes.now.setup.log lanes.now.lock.now command at seat.old
        seat.new) }
{
    let mut held = enter_site(lanes, seat, at)?;
    let ended = held.value().answer_end(lanes.alloc, at, query, answer);
    leave(lanes.lock, at.lane, seat, held);
    ended
}

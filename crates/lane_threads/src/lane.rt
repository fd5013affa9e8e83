//! Lanes and workers, and what runs the lines of a lane and does tasks.

ghost use Rattle.std.specs.Prelude.{◌≡◌, Bool, [], IsTrue, OnOk};
ghost use Rattle.history_rules.specs.Lines.{entries_of_line};
ghost use Rattle.script_serving.specs.declared.script.LineCommand.{LineCommand};
ghost use Rattle.history_book.specs.Log.{printed};
ghost use Rattle.lane_threads.specs.declared.run.Setup.{Setup};
ghost use Rattle.lane_threads.specs.Seats.{log_seen, IsLaneSeat, EndsItsLine};
ghost use Rattle.lane_threads.specs.Parts.{IsIdleLane, HasHeard};

use crate::halt::Halt;
use crate::run::{LaneRun, Setup};
use hist_lock::{Grows, HistLock, LaneSeat};
use nrt_base::{LaneNo, NoMemory};
use script_serving::{Line, LineCommand};
use std::sync::Wait;

/// One of those that run beside each other over one lock: a lane, which runs its lines, or a worker, whose number is above those of the
/// eight lanes.
#[derive(Drop)]
pub struct Lane<T: Grows> {
    pub seat: LaneSeat<T>,
    pub number: LaneNo,
    /// Whether it was out of memory in the last phase.
    pub failed: bool,
}

/// What runs a line, or does a task that a line has posted: it takes the lock as often as there are steps, and works between them.
///
/// It is shared by all lanes and workers.
pub trait RunsLines<T: LaneRun> {
    /// How the runs were set up whose lines it runs.
    ghost set_up: { Self → Setup };

    /// Whether it runs lines of this command.
    ghost runs: { Self → LineCommand → Bool };

    /// Runs a line of which no entry stands there, from its start to its reply. It fails only when out of memory.
    ///
    /// A line that waits for another lane's ends too once a lane has failed.
    fn run_line<R: Wait>(
        &self,
        rt: &R,
        lock: &HistLock<T>,
        halt: &Halt,
        seat: &mut LaneSeat<T>,
        line: &Line,
    ) -> Result<(), NoMemory>
        requires seat { IsLaneSeat (set_up self.now).log lock.now line.now.at.lane.0 seat.old }
        requires runs { IsTrue (runs self.now line.now.command) }
        requires fresh { entries_of_line line.now.at (printed (log_seen seat.old)) ≡ [] }
        ensures { OnOk result (EndsItsLine (set_up self.now).log lock.now
            line.now.command line.now.at seat.old seat.new) };

    /// Does a task that is posted, and answers whether there was one. It fails only when out of memory.
    ///
    /// What is appended is nobody's: for the lane or worker it is as if others had gone on.
    fn do_task<R: Wait>(
        &self,
        rt: &R,
        lock: &HistLock<T>,
        halt: &Halt,
        lane: &mut Lane<T>,
    ) -> Result<bool, NoMemory>
        requires { IsIdleLane (set_up self.now).log lock.now lane.old }
        ensures number { lane.new.number ≡ lane.old.number }
        ensures heard { OnOk result (HasHeard (set_up self.now).log lock.now lane.old lane.new) };
}
